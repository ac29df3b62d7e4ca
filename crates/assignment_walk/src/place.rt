// A list written at a place.
ghost use Rattle.std.specs.Prelude.{◌≡◌, ◌≤◌, ◌+◌, length};
ghost use Rattle.std.proofs.lemmas.List.Edits.{sets};

pub fn copy_at(list: &[usize], out: &mut [usize], at: usize)
    requires { at + length list.now ≤ length out.old }
    ensures { out.new ≡ sets out.old at list.now }
{
    let mut i = 0;
    while i < list.len() {
        out[at + i] = list[i];
        i += 1;
    }
}
