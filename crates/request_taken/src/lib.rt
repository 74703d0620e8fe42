// What a heard request comes to, over the lent tables.
#![tactic(auto)]

ghost use Rattle.std.specs.Prelude.{[]};
ghost use Rattle.plain.specs.Plain.{enact};
ghost use Rattle.own.specs.Settings.{settings_of};
ghost use Rattle.message.specs.Message.{message_in, received_by};
ghost use Rattle.rule.specs.Taken.{Taken};
ghost use Rattle.finish.specs.Gives.{state_of, Gives};
ghost use Rattle.request_taken.specs.Decision.{request_decision};

use answer::Answer;
use finish::Call;
use message::{Link, Parsed};
use outcome::Outcome;
use row::{InstanceRow, RouteRow};

// What a request that was heard comes to, from 9 on. Tables and buffers stay apart: finish::Call says why.
// Not inlined: else what it holds would stand in the frame of every call, under the filter of the search for twins.
#[inline(never)]
#[tactic(auto, using(lemmas::proofs::Cases::cases, rule::proofs::Types::own_sixteen, finish::proofs::Settles::ready, finish::proofs::Decides::refused, finish::proofs::Decides::taken, crate::proofs::Laws::row_few, crate::proofs::Laws::asked_is, crate::proofs::Requested::asking, crate::proofs::Requested::lines, crate::proofs::Requested::accept, crate::proofs::Requested::request_decided, crate::proofs::Requested::request_settled))]
pub fn take_request(
    instances: &mut [InstanceRow],
    routes: &mut [RouteRow],
    forward: &mut [u8],
    reply: &mut [u8],
    call: Call,
    k: Link,
    p: &Parsed,
    vector: &[[u8; 16]; 16],
) -> Outcome
    requires { Taken call.clock call.time instances.old forward.old reply.old p.now }
    ensures { Gives (enact call.time (state_of call.clock call.seq instances.old routes.old) (request_decision (settings_of call.own) (state_of call.clock call.seq instances.old routes.old) call.time (received_by k []) (message_in p.now vector.now))) instances.old instances.new routes.old routes.new forward.old forward.new reply.old reply.new result }
{
    // for what it promises alone: sixteen addresses, each of sixteen octets
    addresses::whole(vector);
    // by name: each is read at more than one place below
    let instance = p.base.instance;
    let dodagid = p.base.dodagid;
    let receiving = call.own.receiving;
    let f = search::search_request(instances, call.time, instance, dodagid);
    let g = search_route::search_route(routes, call.time, receiving, dodagid, instance);
    let targ = targ_node::is_targ_node(call.own, *p);
    let free = delta::free_delta_if(targ, instances, call.time, instance, receiving);
    let a = request::gather(call.own, k, *p, targ, f, g, free);
    let answer = request_answer::judge(call.own, k, *p, vector, a);
    if answer != Answer::Done {
        return outcome::refused(answer, call.clock, call.seq);
    }
    let d = request_stored::accepted(call.own, call.seq, call.time, k, *p, a);
    let there = request_forwarded::forward_post(k, *p, a);
    let back = request_replied::reply_post(call.own, k, *p, a, call.seq);
    let l = message::live_of(f, g);
    finish::finish(
        instances, routes, forward, reply, call, vector, &d, &there, &back, l,
    )
}
