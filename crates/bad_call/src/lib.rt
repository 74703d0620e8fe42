// The part of answer 1 that is asked at every call.
#![tactic(auto)]

ghost use Rattle.std.specs.Prelude.{◌≡◌};
ghost use Rattle.plain.specs.Answers.{bad_lent};
ghost use Rattle.own.specs.Settings.{settings_of};
ghost use Rattle.bad_call.specs.Lent.{lent_by};

use own::Own;

// 1, asked of every call: the time, both buffers, both own addresses.
#[tactic(auto, using(crate::proofs::Laws::bad_receiving, crate::proofs::Laws::bad_sending, lemmas::proofs::Cases::cases), unfolding(plain::specs::Answers::bad_lent))]
pub fn is_bad(o: Own, clock: u64, t: u64, forward: usize, reply: usize) -> bool
    ensures { result ≡ bad_lent (settings_of o) clock (lent_by t forward reply) }
{
    t < clock
        || 1099511627776 < t
        || forward < 1236
        || reply < 1236
        || unusable::is_unusable(o.receiving)
        || unusable::is_unusable(o.sending)
}
