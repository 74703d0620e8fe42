// A call that the rules answer 0, taken to its outcome: 17, or rows stored and octets written.
#![tactic(auto)]

ghost use Rattle.std.specs.Prelude.{◌≡◌, set, option_map};
ghost use Rattle.plain.specs.Request.{Accepted};
ghost use Rattle.place.specs.Places.{set_at};
ghost use Rattle.own.specs.Settings.{settings_of};
ghost use Rattle.finish.specs.Gives.{second_record, state_of, Ready, Settled, Gives};
ghost use Rattle.plain.specs.Plain.{enact};
ghost use Rattle.plain.specs.Plain.Decision.{take};

use decision::{Decided, Post};
use message::Live;
use outcome::{Outcome, Sent};
use own::Own;
use place::{Places, RoutePlace};
use row::{InstanceRow, RouteRow};

// What a call is handed by value, whatever it is about: our settings, the clock, our number and the call's time. The tables and buffers that it
// is lent stay apart: in a struct of references they prove here, but not in request_taken, where a field is searched before the struct goes on
// ("a bug in rattle and not in your code"), and a clause would name what they end as by place (`lent.exit.1.1.0.now`).
#[derive(Clone, Copy)]
pub struct Call {
    pub own: Own,
    pub clock: u64,
    pub time: u64,
    pub seq: u8,
}

// The records at their places. Most calls store no reply row, and the record of one is made here.
fn store(
    instances: &mut [InstanceRow],
    routes: &mut [RouteRow],
    p: Places,
    q: RoutePlace,
    d: &Decided,
)
    ensures instances { instances.new ≡ set_at (set instances.old p.first d.now.row) p.second (option_map second_record d.now.second) }
    ensures routes { routes.new ≡ set_at routes.old q.hop d.now.route }
{
    octets::put(instances, p.first, d.row);
    if let (Some(at), Some(f)) = (p.second, d.second) {
        octets::put(instances, at, row::reply_row(f));
    }
    if let (Some(at), Some(route)) = (q.hop, d.route) {
        octets::put(routes, at, route);
    }
}

// What a call that is answered 0, or 17 for want of a row, comes to. `there` is what goes on, `back` our reply.
pub fn finish(
    instances: &mut [InstanceRow],
    routes: &mut [RouteRow],
    forward: &mut [u8],
    reply: &mut [u8],
    call: Call,
    vector: &[[u8; 16]; 16],
    d: &Decided,
    there: &Post,
    back: &Post,
    l: Live,
) -> Outcome
    requires { Ready (settings_of call.own) call.time instances.old routes.old forward.old reply.old vector.now there.now back.now l }
    ensures { (acc : Accepted) → Settled (settings_of call.own) vector.now acc l d.now there.now back.now → Gives (enact call.time (state_of call.clock call.seq instances.old routes.old) (take acc)) instances.old instances.new routes.old routes.new forward.old forward.new reply.old reply.new result }
{
    let places = (
        place::place_rows(instances, call.time, l.row, d.second.is_some()),
        place::place_route(routes, call.time, d.route.is_some(), l.route),
    );
    let (Some(p), Some(q)) = places else {
        return outcome::without_room(call.clock, call.seq);
    };
    let n = post::put_post(forward, &call.own, there, vector);
    let m = post::put_post(reply, &call.own, back, vector);
    store(instances, routes, p, q, d);
    // each by a name, which the proof takes
    let forward_to = decision::destination(there);
    let reply_to = decision::destination(back);
    let forward_sent = Sent {
        to: forward_to,
        size: n,
    };
    let reply_sent = Sent {
        to: reply_to,
        size: m,
    };
    outcome::accepted(d.seq, forward_sent, reply_sent, call.time)
}
