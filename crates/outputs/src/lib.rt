// Lists that are given back in the front of a lent slice, and room to make them in. docs/RULES.md, 11.13.

#![tactic(auto)]

ghost use Rattle.std.specs.Prelude.{◌≡◌, ◌≤◌, length};
ghost use Rattle.outputs.specs.Outputs.{fronted, cells};

// Copies the list to the front, and leaves what stands behind.
pub fn copy_front(list: &[usize], out: &mut [usize])
    requires { length list.now ≤ length out.old }
    ensures { out.new ≡ fronted list.now out.old }
{
    out[..list.len()].copy_from_slice(list);
}

// Cells to work in, each with the number.
pub fn scratch(number: usize) -> [usize; 128]
    ensures { result ≡ cells number }
{
    [number; 128]
}
