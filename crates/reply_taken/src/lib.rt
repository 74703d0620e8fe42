// What a heard reply comes to, over the lent tables.
#![tactic(auto)]

ghost use Rattle.std.specs.Prelude.{[]};
ghost use Rattle.plain.specs.Plain.{enact};
ghost use Rattle.own.specs.Settings.{settings_of};
ghost use Rattle.message.specs.Message.{message_in, received_by};
ghost use Rattle.rule.specs.Taken.{Taken};
ghost use Rattle.finish.specs.Gives.{state_of, Gives};
ghost use Rattle.reply_taken.specs.Decision.{reply_decision};

use answer::Answer;
use decision::Post;
use finish::Call;
use message::{Link, Parsed};
use outcome::Outcome;
use row::{InstanceRow, RouteRow};

// What a reply that was heard comes to, from 8 on. Tables and buffers stay apart: finish::Call says why.
// Not inlined: else what it holds would stand in the frame of every call, under the filter of the search for twins.
#[inline(never)]
#[tactic(auto, using(lemmas::proofs::Cases::cases, rule::proofs::Laws::posts_nothing, finish::proofs::Laws::refused_gives, finish::proofs::Settles::ready, finish::proofs::Decides::refused, finish::proofs::Decides::taken, crate::proofs::Laws::no_partner_is, crate::proofs::Laws::reply_is, crate::proofs::Answered::asking, crate::proofs::Answered::lines, crate::proofs::Answered::accept, crate::proofs::Answered::reply_decided, crate::proofs::Answered::reply_settled))]
pub fn take_reply(
    instances: &mut [InstanceRow],
    routes: &mut [RouteRow],
    forward: &mut [u8],
    reply: &mut [u8],
    call: Call,
    k: Link,
    p: &Parsed,
    vector: &[[u8; 16]; 16],
) -> Outcome
    requires { Taken call.clock call.time instances.old forward.old reply.old p.now }
    ensures { Gives (enact call.time (state_of call.clock call.seq instances.old routes.old) (reply_decision (settings_of call.own) (state_of call.clock call.seq instances.old routes.old) call.time (received_by k []) (message_in p.now vector.now))) instances.old instances.new routes.old routes.new forward.old forward.new reply.old reply.new result }
{
    // for what it promises alone: sixteen addresses, each of sixteen octets
    addresses::whole(vector);
    let number = pairing::partner_number(*p);
    let orig = pairing::orig_node(*p);
    let Some(partner) = search::search_partner(instances, call.time, number, orig, p.discovery.h)
    else {
        return outcome::refused(Answer::NoPartner, call.clock, call.seq);
    };
    let f = search::search_reply(instances, call.time, p.base.instance, p.base.dodagid);
    let g = search_route::search_route(routes, call.time, orig, p.base.dodagid, number);
    let a = reply::gather(call.own, k, *p, partner.row, f, g);
    let answer = reply_answer::judge(call.own, k, *p, vector, a);
    if answer != Answer::Done {
        return outcome::refused(answer, call.clock, call.seq);
    }
    let d = reply_stored::accepted(call.seq, call.time, k, *p, a);
    let there = reply_sent::forward_post(call.own, *p, vector, a);
    let back = Post::Nothing;
    let l = message::live_of(f, g);
    finish::finish(
        instances, routes, forward, reply, call, vector, &d, &there, &back, l,
    )
}
