// Decimals to bytes.
ghost use Rattle.std.specs.Prelude.{◌≡◌, ◌≤◌, ◌+◌, ◌-◌, length};
ghost use Rattle.std.proofs.lemmas.List.Edits.{sets};
ghost use Rattle.decimals.specs.Decimals.{digits, last_digit};

// How many digits the decimal form has. A `while`, as the next: what falls is the number, a tenth at a time.
pub fn digit_count(number: usize) -> usize
    ensures { result ≡ length (digits number) }
{
    let mut rest = number;
    let mut count = 1;
    while 10 <= rest {
        rest /= 10;
        count += 1;
    }
    count
}

// The byte of the last digit.
pub fn last_digit(number: usize) -> u8
    ensures { result ≡ last_digit number }
{
    (number % 10) as u8 + 48
}

// Writes the decimal form so that it ends right before a place, from its last digit on.
fn write_before(out: &mut [u8], end: usize, number: usize)
    requires { (length (digits number) ≤ end) × (end ≤ length out.old) }
    ensures { out.new ≡ sets out.old (end - length (digits number)) (digits number) }
{
    let mut rest = number;
    let mut place = end - 1;
    while 10 <= rest {
        out[place] = last_digit(rest);
        place -= 1;
        rest /= 10;
    }
    out[place] = last_digit(rest);
}

// Writes the decimal form at a place, and answers the place behind it.
pub fn write_decimal(out: &mut [u8], at: usize, number: usize) -> usize
    requires { at + length (digits number) ≤ length out.old }
    ensures { (result ≡ at + length (digits number)) × (out.new ≡ sets out.old at (digits number)) }
{
    let end = at + digit_count(number);
    write_before(out, end, number);
    end
}
