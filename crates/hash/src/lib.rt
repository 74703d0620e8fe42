// The hash of a key, for the filter that the search for twins goes by.
#![tactic(auto)]

ghost use Rattle.std.specs.Prelude.{◌≡◌};
ghost use Rattle.hash.specs.Hash.{mix_of, spread_of, finish_of, hash_address, hash_row, hash_route};

use row::{InstanceRow, RouteRow};

// Products of 32 bits by 32 bits fit: none wraps.
#[tactic(auto, using(lemmas::proofs::Cases::cases), unfolding(crate::specs::Hash::spread_of))]
fn spread(a: u32, b: u32) -> u64
    ensures { result ≡ spread_of a b }
{
    u64::from(a) * 2654435769 ^ u64::from(b) * 2246822519
}

// The words are first put together in pairs, since products cost most. In most addresses one word of a pair is part of a prefix that all
// share.
#[tactic(auto, using(lemmas::proofs::Cases::cases), unfolding(crate::specs::Hash::mix_of))]
fn mix(k: u16, a: u32, b: u32, c: u32, d: u32) -> u64
    ensures { result ≡ mix_of k a b c d }
{
    spread(a ^ d ^ u32::from(k), b ^ c)
}

// The middle bits of the products, spread once more.
#[tactic(auto, using(lemmas::proofs::Cases::cases), unfolding(crate::specs::Hash::finish_of))]
fn finish(x: u64) -> u64
    ensures { result ≡ finish_of x }
{
    x / 65536 % 4294967296 * 2654435769
}

#[tactic(auto, using(lemmas::proofs::Cases::cases), unfolding(crate::specs::Hash::hash_address, crate::specs::Hash::quad_of))]
fn hash_address(k: u16, d: [u8; 16]) -> u64
    ensures { result ≡ hash_address k d }
{
    let (words, _) = d.as_chunks::<4>();
    let a = u32::from_le_bytes(words[0]);
    let b = u32::from_le_bytes(words[1]);
    let c = u32::from_le_bytes(words[2]);
    let e = u32::from_le_bytes(words[3]);
    mix(k, a, b, c, e)
}

#[tactic(auto, using(lemmas::proofs::Cases::cases))]
pub fn hash_row(r: InstanceRow) -> u64
    ensures { result ≡ hash_row r }
{
    let k = u16::from_le_bytes([r.kind, r.instance]);
    finish(hash_address(k, r.dodagid))
}

// The second address is shifted, so that a route and its way back have two hashes.
#[tactic(auto, using(lemmas::proofs::Cases::cases))]
pub fn hash_route(r: RouteRow) -> u64
    ensures { result ≡ hash_route r }
{
    let x = hash_address(u16::from(r.instance), r.source);
    let y = hash_address(0, r.destination);
    finish(x ^ y / 2048)
}
