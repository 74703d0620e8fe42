// The node's public calls: one for a received message, one for the start of our own discovery. Each takes any arguments whatever and ends
// with one outcome.
#![tactic(auto)]

ghost use Rattle.std.specs.Prelude.{◌≡◌};
ghost use Rattle.answer.specs.declared.Answer.TheVariants.{BadCall};
ghost use Rattle.outcome.specs.Nothing.{nothing_sent};
ghost use Rattle.called.specs.Calls.{Asked, Promised};

use answer::Answer;
use finish::Call;
use message::Link;
use outcome::Outcome;
use own::Own;
use plain::Target;
use row::{InstanceRow, RouteRow};
use start::Asking;

// Answer 1.
fn bad_call(clock: u64, seq: u8) -> Outcome
    ensures { result ≡ record { answer = BadCall; forward = nothing_sent; reply = nothing_sent; clock = clock; seq = seq } }
{
    outcome::refused(Answer::BadCall, clock, seq)
}

// A received message. The parameters stay one by one: the public calls are promised so (Calls.Promised).
#[tactic(auto, using(lemmas::proofs::Cases::cases, called::proofs::Laws::is_bad, called::proofs::Laws::is_bad_event, called::proofs::Laws::short, called::proofs::Laws::long, called::proofs::Laws::octets_refused, called::proofs::Laws::octets_read, called::proofs::Laws::own_refused, called::proofs::Laws::taken, called::proofs::Laws::reply_step, called::proofs::Laws::request_step))]
pub fn message(
    instances: &mut [InstanceRow],
    routes: &mut [RouteRow],
    forward: &mut [u8],
    reply: &mut [u8],
    octets: &[u8],
    o: Own,
    clock: u64,
    seq: u8,
    t: u64,
    k: Link,
) -> Outcome
    ensures { Promised o (record {
      time = t;
      asked = Asked.message k octets.now;
      before = record { clock = clock; seq = seq; instances = instances.old; routes = routes.old };
      instances_after = instances.new;
      routes_after = routes.new;
      forward_before = forward.old;
      forward_after = forward.new;
      reply_before = reply.old;
      reply_after = reply.new;
      outcome = result;
    }) }
{
    if bad_call::is_bad(o, clock, t, forward.len(), reply.len()) || 1236 < octets.len() {
        return bad_call(clock, seq);
    }
    // by `return` and not by `?`: a refusal is an Outcome too, and a Result would be turned back into one here
    if wrong_state::is_wrong(instances, routes, clock, seq) {
        return outcome::refused(wrong_state::wrong_state(), clock, seq);
    }
    let r = match reader::read(octets) {
        Ok(r) => r,
        Err(refusal) => return outcome::refused(heard::octets_answer(Some(refusal)), clock, seq),
    };
    if own::is_ours(o, r.base.dodagid) {
        return outcome::refused(Answer::OwnDodagid, clock, seq);
    }
    let call = Call {
        own: o,
        clock,
        time: t,
        seq,
    };
    let p = heard::parsed(r);
    let v = heard::vector_of(octets, r);
    if heard::is_reply(r) {
        return reply_taken::take_reply(instances, routes, forward, reply, call, k, &p, &v);
    }
    request_taken::take_request(instances, routes, forward, reply, call, k, &p, &v)
}

// The start of our own discovery, with any number of targets. Its parameters stay one by one too.
#[tactic(auto, using(lemmas::proofs::Cases::cases, called::proofs::Laws::is_bad, called::proofs::Laws::is_bad_event, called::proofs::Laws::taken_start, called::proofs::Laws::start_step))]
pub fn start(
    instances: &mut [InstanceRow],
    routes: &mut [RouteRow],
    forward: &mut [u8],
    reply: &mut [u8],
    targets: &[Target],
    o: Own,
    clock: u64,
    seq: u8,
    t: u64,
    s: Asking,
) -> Outcome
    ensures { Promised o (record {
      time = t;
      asked = Asked.start s targets.now;
      before = record { clock = clock; seq = seq; instances = instances.old; routes = routes.old };
      instances_after = instances.new;
      routes_after = routes.new;
      forward_before = forward.old;
      forward_after = forward.new;
      reply_before = reply.old;
      reply_after = reply.new;
      outcome = result;
    }) }
{
    if bad_call::is_bad(o, clock, t, forward.len(), reply.len()) {
        return bad_call(clock, seq);
    }
    let g = gather::gather(targets);
    if bad_start::is_bad_start(g, s) {
        return bad_call(clock, seq);
    }
    if wrong_state::is_wrong(instances, routes, clock, seq) {
        return outcome::refused(wrong_state::wrong_state(), clock, seq);
    }
    let call = Call {
        own: o,
        clock,
        time: t,
        seq,
    };
    start_taken::take_start(instances, routes, forward, reply, call, s, g.targets)
}
