// The start of our own discovery by value (01, "A request"): what it brings, and its answer.
#![tactic(auto)]

ghost use Rattle.std.specs.Prelude.{◌≤◌, ◌≡◌};
ghost use Rattle.answer.specs.Answer.{answer_number};
ghost use Rattle.own.specs.Settings.{settings_of};
ghost use Rattle.start.specs.Start.{start_answer};

use answer::Answer;
use own::Own;

// What a start brings, but for its targets.
#[derive(Clone, Copy)]
pub struct Asking {
    pub instance: u8,
    pub h: bool,
    pub compr: u8,
    pub l: u8,
    pub limit: u8,
}

// The answer of a start. `taken`: a row of its key is live.
#[tactic(auto, using(lemmas::proofs::Cases::cases), unfolding(crate::specs::Start::start_answer))]
pub fn judge(o: Own, s: Asking, taken: bool) -> Answer
    requires { s.compr ≤ 15 }
    ensures { answer_number result ≡ start_answer (settings_of o) s taken }
{
    // Answer::Done, and no Result: the clause gives 01's number of it, 0 (start_answer)
    if own::cannot_elide(o, s.h, s.compr, o.receiving) {
        Answer::CannotElide
    } else if taken {
        Answer::NothingNew
    } else {
        Answer::Done
    }
}
