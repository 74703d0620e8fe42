// The tally: how many calls had each answer. The host lends it; it is no part of the node's state.
#![tactic(auto)]

ghost use Rattle.std.specs.Prelude.{◌≡◌};
ghost use Rattle.plain.specs.Tally.{raised};
ghost use Rattle.answer.specs.Answer.{answer_number};

use answer::Answer;

// 01, "eighteen 32-bit counts, one for each answer".
#[repr(C)]
#[derive(Clone, Copy)]
pub struct Tally {
    pub counts: [u32; 18],
}

// The place of an answer's count. A step by itself, so that the number is known as an index.
#[tactic(auto, using(lemmas::proofs::Cases::cases, std::proofs::Common::rules))]
fn place_of(a: Answer) -> usize
    ensures { result ≡ answer_number a }
{
    usize::from(answer::number(a))
}

// An answer's number is below 18, so that its count is always there. "the tally counts wrap too"
#[tactic(auto, using(lemmas::proofs::Cases::cases, std::proofs::Common::arith, std::proofs::Common::rules, crate::proofs::Number::number_below), unfolding(plain::specs::Tally::raised))]
fn raise_at(c: &mut [u32; 18], a: Answer)
    ensures { c.new ≡ raised (answer_number a) c.old }
{
    let k = place_of(a);
    c[k] = c[k].wrapping_add(1);
}

// "one record, lent by the host and changed in place": the counts are lent out of the record, so that no other count is copied.
pub fn raise(t: &mut Tally, a: Answer)
    ensures { t.new.counts ≡ raised (answer_number a) t.old.counts }
{
    raise_at(&mut t.counts, a);
}
