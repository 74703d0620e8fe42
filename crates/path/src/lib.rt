// The address before ours in a vector.
#![tactic(auto)]

ghost use Rattle.std.specs.Prelude.{◌≡◌, ◌≤◌, length};
ghost use Rattle.std.specs.List.{position_or_len};
ghost use Rattle.plain.specs.Lists.{same};
ghost use Rattle.plain.specs.Reply.{before};

// Where `a` stands in a vector first, or the vector's length, and no None: before an address that is not there stands the last one. A place, since
// an address would be copied.
fn place_of(a: [u8; 16], vector: &[[u8; 16]]) -> usize
    ensures { (result ≤ length vector.now) × (result ≡ position_or_len (same a) vector.now) }
{
    vector
        .iter()
        .position(|next| address::is_same(a, *next))
        .unwrap_or(vector.len())
}

// The address before `a` in a vector: `first` where nothing stands before it.
#[tactic(auto, using(crate::proofs::Place::before_place, lemmas::proofs::Cases::cases))]
pub fn address_before(first: [u8; 16], a: [u8; 16], vector: &[[u8; 16]]) -> [u8; 16]
    ensures { result ≡ before first a vector.now }
{
    let place = place_of(a, vector);
    vector[..place].last().copied().unwrap_or(first)
}
