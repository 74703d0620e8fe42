// What a start of our own discovery comes to, over the lent tables.
#![tactic(auto)]

ghost use Rattle.std.specs.Prelude.{◌≡◌, List, replicate, None};
ghost use Rattle.plain.specs.Address.{zero_address};
ghost use Rattle.plain.specs.Plain.{enact};
ghost use Rattle.plain.specs.declared.Target as plain;
ghost use Rattle.own.specs.Settings.{settings_of};
ghost use Rattle.kept.specs.Kept.{list_of};
ghost use Rattle.start.specs.Start.{start_of};
ghost use Rattle.finish.specs.Gives.{state_of, Gives};
ghost use Rattle.start_taken.specs.Taken.{TakenStart, start_decision};

use answer::Answer;
use decision::Post;
use finish::Call;
use message::Live;
use outcome::Outcome;
use row::{InstanceRow, RouteRow};
use start::Asking;
use targets::Targets;

// A start is about no live row. A function of one line here and below: take_start's proof takes what it says by its clause.
fn none_live() -> Live
    ensures { result ≡ record { row = None; route = None } }
{
    Live {
        row: None,
        route: None,
    }
}

// A start has no received addresses.
fn no_vector() -> [[u8; 16]; 16]
    ensures { result ≡ replicate 16 zero_address }
{
    [[0; 16]; 16]
}

// What a start of our own discovery comes to, from 10 on. It is stored in a new row, or refused: no row of its key is written over.
#[tactic(auto, using(lemmas::proofs::Cases::cases, rule::proofs::Laws::posts_nothing, finish::proofs::Laws::refused_gives, crate::proofs::Laws::start_answer_lem, crate::proofs::Laws::new_settled, crate::proofs::Laws::new_ready), unfolding(crate::specs::Taken::start_decision, plain::specs::Request::accept_start))]
pub fn take_start(
    instances: &mut [InstanceRow],
    routes: &mut [RouteRow],
    forward: &mut [u8],
    reply: &mut [u8],
    call: Call,
    s: Asking,
    ts: Targets,
) -> Outcome
    requires { TakenStart call.clock call.time forward.old reply.old s ts }
    ensures { (targets : List plain.Target) → Gives (enact call.time (state_of call.clock call.seq instances.old routes.old) (start_decision (settings_of call.own) (state_of call.clock call.seq instances.old routes.old) call.time (start_of s targets) (list_of ts))) instances.old instances.new routes.old routes.new forward.old forward.new reply.old reply.new result }
{
    let taken = search::has_request(instances, call.time, s.instance, call.own.receiving);
    let answer = start::judge(call.own, s, taken);
    if answer != Answer::Done {
        return outcome::refused(answer, call.clock, call.seq);
    }
    let d = start_stored::accepted(call.own, call.seq, call.time, s, ts);
    let there = start_sent::start_post(call.own, call.seq, s, ts);
    let back = Post::Nothing;
    let vector = no_vector();
    finish::finish(
        instances,
        routes,
        forward,
        reply,
        call,
        &vector,
        &d,
        &there,
        &back,
        none_live(),
    )
}
