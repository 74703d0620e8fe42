// A vector with our two addresses added.
#![tactic(auto)]

ghost use Rattle.std.specs.Prelude.{◌≡◌, ◌≤◌, take};
ghost use Rattle.plain.specs.Request.{grown};
ghost use Rattle.own.specs.Settings.{settings_of};
ghost use Rattle.grown.specs.Grown.{grown_count};

use own::Own;

// A vector, the first n addresses of an array, with ours added: the receiving address, then the sending one if different, which `count` tells:
// addresses that are looked at octet by octet are kept and copied octet by octet.
#[tactic(auto, using(lemmas::proofs::Cases::cases, crate::proofs::Laws::same_told, crate::proofs::Laws::different_told, crate::proofs::Laws::grow_one, crate::proofs::Laws::grow_two, crate::proofs::Laws::room_one, crate::proofs::Laws::room_two), unfolding(grown::specs::Grown::grown_count))]
pub fn grown_vector(
    o: Own,
    h: bool,
    n: usize,
    count: usize,
    vector: &[[u8; 16]; 16],
) -> [[u8; 16]; 16]
    requires { (count ≡ grown_count (settings_of o) h n) × (count ≤ 16) }
    ensures { take count result ≡ grown (settings_of o) h (take n vector.now) }
{
    if h {
        return *vector;
    }
    // copies: the borrow checker has an array stored only from a variable
    let receiving = o.receiving;
    let sending = o.sending;
    // the whole array is copied, and no slice of it to the front of another: in plain Rust that took 20 ns against 9, of a call's 250
    let mut grown = *vector;
    grown[n] = receiving;
    let next = n + 1;
    if count == next {
        return grown;
    }
    grown[next] = sending;
    grown
}
