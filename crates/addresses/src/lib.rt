// Sixteen addresses in an array: that each is whole. And a vector turned round.
#![tactic(auto)]

ghost use Rattle.std.specs.Prelude.{◌≡◌, reverse, ◌≤◌, length, take};
ghost use Rattle.lemmas.specs.Each.{WholeVector};

// Sixteen addresses by value have sixteen octets each: nothing is done with them but to say so.
#[tactic(auto, using(lemmas::proofs::Cases::cases, crate::proofs::Long::arrays_long))]
fn known(vector: [[u8; 16]; 16])
    ensures { (length vector ≡ 16) × WholeVector vector }
{}

// The same of addresses behind a reference, which by itself tells only how many they are. It does nothing else.
pub fn whole(vector: &[[u8; 16]; 16])
    ensures { (length vector.now ≡ 16) × WholeVector vector.now }
{
    known(*vector);
}

// A vector turned round, at the front of an array of fixed room, as there is no heap.
pub fn reversed(vector: &[[u8; 16]]) -> [[u8; 16]; 16]
    requires { length vector.now ≤ 16 }
    ensures { take (length vector.now) result ≡ reverse vector.now }
{
    let n = vector.len();
    let mut r = [[0u8; 16]; 16];
    r[..n].copy_from_slice(vector);
    r[..n].reverse();
    r
}
