// Numbers with what closes them.
ghost use Rattle.std.specs.Prelude.{[], ◌∷◌, ◌++◌, ◌≤◌, ◌+◌, length};
ghost use Rattle.decimals.specs.Decimals.{digits};
ghost use Rattle.written_text.specs.Wrote.{Wrote};

use decimals::writing::write_decimal;
use written_text::write_bytes;

// A number and a comma.
pub fn write_field(out: &mut [u8], at: usize, number: usize) -> usize
    requires { at + (length (digits number) + 1) ≤ length out.old }
    ensures { Wrote out.old at (digits number ++ (44 ∷ [])) out.new result }
{
    let next = write_decimal(out, at, number);
    write_bytes(out, next, b",")
}

// A number and a line's end.
pub fn write_last(out: &mut [u8], at: usize, number: usize) -> usize
    requires { at + (length (digits number) + 2) ≤ length out.old }
    ensures { Wrote out.old at (digits number ++ (13 ∷ 10 ∷ [])) out.new result }
{
    let next = write_decimal(out, at, number);
    write_bytes(out, next, b"\r\n")
}
