// Answer 2, asked of every call: of the own number, and of both lent tables.
#![tactic(auto)]

ghost use Rattle.std.specs.Prelude.{◌≡◌};
ghost use Rattle.plain.specs.Answers.{wrong_state, good_state, view_of};
ghost use Rattle.answer.specs.declared.Answer.TheVariants.{WrongState};
ghost use Rattle.finish.specs.Gives.{state_of};

use answer::Answer;
use row::{InstanceRow, RouteRow};

// Answer 2. One line, and public: its clause stays.
pub fn wrong_state() -> Answer
    ensures { result ≡ WrongState }
{
    Answer::WrongState
}

// 2, asked of every call: own number 0, a row in use that is wrong, two live rows of one key.
#[tactic(auto, using(lemmas::proofs::Cases::cases), unfolding(plain::specs::Answers::wrong_state))]
pub fn is_wrong(instances: &[InstanceRow], routes: &[RouteRow], clock: u64, seq: u8) -> bool
    ensures { result ≡ wrong_state (good_state (state_of clock seq instances.now routes.now)) (view_of (state_of clock seq instances.now routes.now)) }
{
    seq == 0
        || !table::all_good(instances)
        || !table::all_good_routes(routes)
        || twins::has_twins(instances, clock)
        || route_twins::has_twins_route(routes, clock)
}
