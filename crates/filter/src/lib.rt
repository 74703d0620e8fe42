// What the search for twins asks of a row of either table, and the filter: the words in which the hash of a key has its bits.
#![tactic(auto)]

ghost use Rattle.std.specs.Prelude.{◌≡◌, ◌<◌, ℕ, Bool, true};
ghost use Rattle.std.proofs.Common.{ap};
ghost use Rattle.plain.specs.Table.{live, instance_deadline, route_deadline};
ghost use Rattle.row.specs.Meaning.{instance_of, route_of};
ghost use Rattle.key.specs.Pair.{same_key, ending_of, twins_by};
ghost use Rattle.key.proofs.Plain.{key_parts};
ghost use Rattle.route_key.specs.Pair.{same_three};
ghost use Rattle.route_key.proofs.Plain.{three_parts};
ghost use Rattle.hash.specs.Hash.{hash_row, hash_route};
ghost use Rattle.hash.proofs.Keyed.{row_hashed, route_hashed};
ghost use Rattle.filter.specs.Filter.{bits_of, maybe_of, marked_of};

use row::{InstanceRow, RouteRow};

// A row of a table: it has a key, and is live or not. Rows of one key have one hash and one ending, and the search rests on no more.
pub trait Keyed: Copy {
    ghost key: { Self → Self → Bool };

    ghost live: { ℕ → Self → Bool };

    ghost hash: { Self → ℕ };

    // the last octet of an address of the key
    ghost ending: { Self → ℕ };

    ghost hashed: { (a b : Self) → key a b ≡ true → hash a ≡ hash b };

    ghost ended: { (a b : Self) → key a b ≡ true → ending a ≡ ending b };

    fn has_key_of(self, b: Self) -> bool
        ensures { result ≡ key self b };

    fn is_live(self, t: u64) -> bool
        ensures { result ≡ live t self };

    fn hash(self) -> u64
        ensures { result ≡ hash self };

    fn ending(self) -> u8
        ensures { result ≡ ending self };
}

impl Keyed for InstanceRow {
    ghost key = { same_key };

    ghost live = { λ t r. live instance_deadline t (instance_of r) };

    ghost hash = { hash_row };

    ghost ending = { λ r. ending_of r.dodagid };

    ghost hashed = { row_hashed };

    ghost ended = { λ a b e. ap ending_of (key_parts a b e).2 };

    fn has_key_of(self, b: InstanceRow) -> bool {
        key::is_same_key(self, b)
    }

    fn is_live(self, t: u64) -> bool {
        live::is_live(self, t)
    }

    fn hash(self) -> u64 {
        hash::hash_row(self)
    }

    fn ending(self) -> u8 {
        key::ending(self)
    }
}

impl Keyed for RouteRow {
    ghost key = { same_three };

    ghost live = { λ t r. live route_deadline t (route_of r) };

    ghost hash = { hash_route };

    ghost ending = { λ r. ending_of r.destination };

    ghost hashed = { route_hashed };

    ghost ended = { λ a b e. ap ending_of (three_parts a b e).1 };

    fn has_key_of(self, b: RouteRow) -> bool {
        route_key::is_same_three(self, b)
    }

    fn is_live(self, t: u64) -> bool {
        live::is_live_route(self, t)
    }

    fn hash(self) -> u64 {
        hash::hash_route(self)
    }

    fn ending(self) -> u8 {
        route_key::route_ending(self)
    }
}

// Two rows of one key, both live at time t. The key is compared first: few rows have the same.
#[tactic(auto, using(lemmas::proofs::Cases::cases), unfolding(key::specs::Pair::twins_by))]
pub fn are_twins<R: Keyed>(a: R, b: R, t: u64) -> bool
    ensures { result ≡ twins_by R.key (R.live t) a b }
{
    a.has_key_of(b) && a.is_live(t) && b.is_live(t)
}

// ---- the words

// The five bits are told by other parts of the hash than the word is (crates/slot). Written out: a loop would need the divisors in an array,
// and is no plainer.
#[tactic(auto, using(lemmas::proofs::Cases::cases), unfolding(crate::specs::Filter::bits_of))]
fn bits_of(h: u64) -> u64
    ensures { result ≡ bits_of h }
{
    1 << (h / 4294967296 % 64)
        | 1 << (h / 274877906944 % 64)
        | 1 << (h / 17592186044416 % 64)
        | 1 << (h / 1125899906842624 % 64)
        | 1 << (h / 16384 % 64)
}

// Whether an earlier row may have the key: all five bits are set. `on`, a row of the pass, stands beside the word as in the clause.
#[tactic(auto, using(lemmas::proofs::Cases::cases), unfolding(crate::specs::Filter::maybe_of, crate::specs::Filter::has_bits))]
pub fn maybe(on: bool, w: u64, h: u64) -> bool
    ensures { result ≡ maybe_of on w h }
{
    on && w | bits_of(h) == w
}

// The word after a row: with the bits of its hash, where the row is of the pass.
#[tactic(auto, using(lemmas::proofs::Cases::cases), unfolding(crate::specs::Filter::marked_of))]
pub fn marked(on: bool, w: u64, h: u64) -> u64
    ensures { result ≡ marked_of on w h }
{
    if on { w | bits_of(h) } else { w }
}

// One class for each 4,096 rows, up to 64. Any mask gives the same answer, so no clause says which.
pub fn mask_for(n: usize) -> u64
    ensures { result < 65536 }
{
    // by `as`: there is no From from usize to u64
    n.div_ceil(4096).clamp(1, 64).next_power_of_two() as u64 - 1
}
