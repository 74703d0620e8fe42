// Octets put over others, and one item of a slice put in its place.
#![tactic(auto)]

ghost use Rattle.std.specs.Prelude.{◌≡◌, ◌+◌, ◌≤◌, length, set};
ghost use Rattle.std.proofs.Math.Seq.{paste};

// Puts some octets over those of `out` from `at` on.
pub fn put_over(out: &mut [u8], at: usize, part: &[u8])
    requires { at + length part.now ≤ length out.old }
    ensures { out.new ≡ paste out.old at part.now (length part.now) }
{
    out[at..at + part.len()].copy_from_slice(part);
}

// Puts one item in its place in a slice. Past the end nothing changes. A test, since `get_mut` says nothing of what the slice becomes.
pub fn put<T: Copy>(items: &mut [T], i: usize, item: T)
    ensures { items.new ≡ set items.old i item }
{
    if i < items.len() {
        items[i] = item;
    }
}
