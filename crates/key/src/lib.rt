// Two instance rows, by value: whether they have one key (01, answer 2). Routes have another key, and so functions of their own
// (crates/route_key): what both tables share is the trait Keyed (crates/filter).
#![tactic(auto)]

ghost use Rattle.std.specs.Prelude.{◌≡◌};
ghost use Rattle.key.specs.Pair.{same_key, ending_of};

use row::InstanceRow;

// The addresses are compared first: few are the same, while kinds and numbers often are.
#[tactic(auto, using(lemmas::proofs::Cases::cases), unfolding(crate::specs::Pair::same_key))]
pub fn is_same_key(a: InstanceRow, b: InstanceRow) -> bool
    ensures { result ≡ same_key a b }
{
    // the kind is a number, as the record of the C interface has it
    address::is_same(a.dodagid, b.dodagid) && a.kind == b.kind && a.instance == b.instance
}

// The last octet of the key's address. One line, and public: its clause stays.
pub fn ending(r: InstanceRow) -> u8
    ensures { result ≡ ending_of r.dodagid }
{
    r.dodagid[15]
}
