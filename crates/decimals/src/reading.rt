// Decimals from bytes.
ghost use Rattle.std.specs.Prelude.{◌≡◌, ◌≤◌, ◌+◌, length, drop};
ghost use Rattle.std.specs.List.{position};
ghost use Rattle.decimals.specs.Decimals.{Reads};
ghost use Rattle.decimals.specs.Reading.{digit, read_on};
ghost use Rattle.decimals.specs.Fields.{ends, front};

// A digit behind a number: ten times the number, and the digit; none where the byte is no digit or the sum has no 64 bits.
fn next_digit(number: usize, byte: u8) -> Option<usize>
    ensures { result ≡ digit number byte }
{
    if byte < 48 {
        return None;
    }
    if 57 < byte {
        return None;
    }
    let unit = (byte - 48) as usize;
    if (18446744073709551615 - unit) / 10 < number {
        return None;
    }
    Some(number * 10 + unit)
}

// The bytes digit by digit, whether or not the first is 0.
pub fn read_digits(field: &[u8]) -> Option<usize>
    ensures { result ≡ read_on 0 field.now }
{
    let mut number = 0;
    for byte in field {
        number = next_digit(number, *byte)?;
    }
    Some(number)
}

// The number below 2^64 whose decimal form the bytes are.
pub fn read_decimal(field: &[u8]) -> Option<usize>
    ensures { Reads field.now result }
{
    if field.len() == 0 {
        return None;
    }
    if field[0] != 48 {
        return read_digits(field);
    }
    if field.len() == 1 {
        return Some(0);
    }
    None
}

// A comma or a carriage return: a field ends before it.
fn ends_field(byte: u8) -> bool
    ensures { result ≡ ends byte }
{
    (byte == 44) | (byte == 13)
}

// The first byte of a field that ends it.
fn first_end(field: &[u8]) -> Option<usize>
    ensures { result ≡ position ends field.now }
{
    field.iter().position(|byte| ends_field(*byte))
}

// Where the field that begins at a place ends: at the next comma or carriage return, or with the bytes.
pub fn field_end(bytes: &[u8], from: usize) -> usize
    requires { from ≤ length bytes.now }
    ensures { result ≡ from + length (front (drop from bytes.now)) }
{
    let rest = &bytes[from..];
    from + first_end(rest).unwrap_or(rest.len())
}
