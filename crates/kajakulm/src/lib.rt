// The calls that a host makes, over records in C's form. Each takes any arguments whatever, ends with one outcome and raises the tally by its
// answer. crates/kajakulm_c exports them to C.
#![tactic(auto)]

ghost use Rattle.std.specs.Prelude.{length};
ghost use Rattle.plain.specs.Plain.{step};
ghost use Rattle.own.specs.Settings.{settings_of};
ghost use Rattle.finish.specs.Gives.{state_of};
ghost use Rattle.called.specs.Calls.{message_call, start_call};
ghost use Rattle.handed.specs.Handed.{link_of, asking_of};
ghost use Rattle.host.specs.Host.{HostGives};

use handed::{HostLink, HostStart};
use host::HostOutcome;
use own::Own;
use plain::Target;
use row::{InstanceRow, RouteRow};
use tally::Tally;

// A received message. The parameters are those of include/kajakulm.h, one by one.
#[tactic(auto, using(lemmas::proofs::Cases::cases, crate::proofs::Laws::tallied))]
pub fn kajakulm_message(
    instances: &mut [InstanceRow],
    routes: &mut [RouteRow],
    forward: &mut [u8],
    reply: &mut [u8],
    octets: &[u8],
    own: Own,
    clock: u64,
    seq: u8,
    time: u64,
    link: HostLink,
    tally: &mut Tally,
) -> HostOutcome
    ensures { HostGives (step (settings_of own) (state_of clock seq instances.old routes.old) (message_call time (length forward.old) (length reply.old) (link_of link) octets.now)) instances.old instances.new routes.old routes.new forward.old forward.new reply.old reply.new tally.old.counts tally.new.counts result }
{
    let r = calls::message(
        instances,
        routes,
        forward,
        reply,
        octets,
        own,
        clock,
        seq,
        time,
        handed::link_of(link),
    );
    tally::raise(tally, outcome::answer_of(r));
    host::host_outcome(r)
}

// The start of our own discovery. The parameters are those of include/kajakulm.h, one by one.
#[tactic(auto, using(lemmas::proofs::Cases::cases, crate::proofs::Laws::tallied))]
pub fn kajakulm_start(
    instances: &mut [InstanceRow],
    routes: &mut [RouteRow],
    forward: &mut [u8],
    reply: &mut [u8],
    targets: &[Target],
    own: Own,
    clock: u64,
    seq: u8,
    time: u64,
    start: HostStart,
    tally: &mut Tally,
) -> HostOutcome
    ensures { HostGives (step (settings_of own) (state_of clock seq instances.old routes.old) (start_call time (length forward.old) (length reply.old) (asking_of start) targets.now)) instances.old instances.new routes.old routes.new forward.old forward.new reply.old reply.new tally.old.counts tally.new.counts result }
{
    let r = calls::start(
        instances,
        routes,
        forward,
        reply,
        targets,
        own,
        clock,
        seq,
        time,
        handed::asking_of(start),
    );
    tally::raise(tally, outcome::answer_of(r));
    host::host_outcome(r)
}
