// Going round: a list from a place on to its end, and then from its front. docs/RULES.md, 8.1, 9.1 and 9.2.

#![tactic(auto)]

ghost use Rattle.std.specs.Prelude.{◌≡◌, ◌≤◌, ◌<◌, length};
ghost use Rattle.outputs.specs.Outputs.{fronted};
ghost use Rattle.rotation.specs.Rotation.{rotated, place_round};

// The i-th of n places, going round from the place `from`, which is counted modulo n.
pub fn place_round(from: usize, i: usize, n: usize) -> usize
    requires { (i < n) × (n ≤ 128) }
    ensures { (result ≡ place_round from i n) × (result < n) }
{
    (from % n + i) % n
}

// Copies the list, rotated to the left, to the front, and leaves what stands behind.
pub fn copy_rotated(list: &[usize], offset: usize, out: &mut [usize])
    requires { (length list.now ≤ 128) × (length list.now ≤ length out.old) }
    ensures { out.new ≡ fronted (rotated offset list.now) out.old }
{
    let n = list.len();
    if n == 0 {
        return;
    }
    let from = offset % n;
    out[..n - from].copy_from_slice(&list[from..]);
    out[n - from..n].copy_from_slice(&list[..from]);
}
