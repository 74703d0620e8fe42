// Two routes, by value: whether they have one key (01, answer 2). Instance rows have another key, and so functions of their own
// (crates/key): what both tables share is the trait Keyed (crates/filter).
#![tactic(auto)]

ghost use Rattle.std.specs.Prelude.{◌≡◌};
ghost use Rattle.key.specs.Pair.{ending_of};
ghost use Rattle.route_key.specs.Pair.{same_three};

use row::RouteRow;

// The destination is compared first: half of the routes have our address as source.
#[tactic(auto, using(lemmas::proofs::Cases::cases), unfolding(crate::specs::Pair::same_three))]
pub fn is_same_three(a: RouteRow, b: RouteRow) -> bool
    ensures { result ≡ same_three a b }
{
    address::is_same(a.destination, b.destination)
        && address::is_same(a.source, b.source)
        && a.instance == b.instance
}

// The last octet of the key's second address. One line, and public: its clause stays.
pub fn route_ending(r: RouteRow) -> u8
    ensures { result ≡ ending_of r.destination }
{
    r.destination[15]
}
