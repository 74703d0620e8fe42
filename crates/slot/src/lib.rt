// The word of the filter in which the hash of a key has its bits, and the pass that looks at the row.
#![tactic(auto)]

ghost use Rattle.std.specs.Prelude.{◌≡◌, ◌<◌};
ghost use Rattle.slot.specs.Slot.{slot_of, class_of, chosen_of};

// The low half of the hash, scaled from 2^32 to the filter's words: cheaper than a remainder. On 128 bits no number of words is too many. By `as`:
// there is no From between usize and u128, and TryFrom would bring a Result that cannot be Err.
#[tactic(auto, using(lemmas::proofs::Cases::cases), unfolding(crate::specs::Slot::slot_of))]
pub fn slot_of<const N: usize>(h: u64) -> usize
    ensures value { result ≡ slot_of N h }
    ensures upper_bound { 0 < N → result < N }
{
    (u128::from(h % 4294967296) * N as u128 / 4294967296) as usize
}

#[tactic(auto, using(lemmas::proofs::Cases::cases), unfolding(crate::specs::Slot::class_of))]
fn class_of(mask: u64, h: u64) -> u64
    ensures { result ≡ class_of mask h }
{
    h % 65536 & mask
}

// A live row of the pass's class.
#[tactic(auto, using(lemmas::proofs::Cases::cases), unfolding(crate::specs::Slot::chosen_of))]
pub fn is_chosen(mask: u64, p: u64, live: bool, h: u64) -> bool
    ensures { result ≡ chosen_of mask p live h }
{
    live && class_of(mask, h) == p
}
