// Bytes written at a place of a lent slice. docs/RULES.md, 12.4 and 13.

#![tactic(auto)]

ghost use Rattle.std.specs.Prelude.{◌≤◌, ◌+◌, length};
ghost use Rattle.written_text.specs.Wrote.{Wrote};

// Writes bytes at a place, and answers the place behind them. A loop, and no `copy_from_slice`: that calls `memmove`, and of the
// engine's archive callers are told that it calls `memcpy` and `memset` alone.
pub fn write_bytes(out: &mut [u8], at: usize, text: &[u8]) -> usize
    requires { at + length text.now ≤ length out.old }
    ensures { Wrote out.old at text.now out.new result }
{
    for i in 0..text.len() {
        out[at + i] = text[i];
    }
    at + text.len()
}
