// A message read from its octets, or refused by them (01, "Octets on the air").
#![tactic(auto)]

ghost use Rattle.std.specs.Prelude.{◌≡◌, false, List, ℕ, length, IfOk};
ghost use Rattle.lemmas.specs.Optional.{of_option};
ghost use Rattle.plain.specs.Octets.{unfit, hear, options_of, of_type, configuration_type, configuration_of};
ghost use Rattle.scan.specs.Seen.{Told};
ghost use Rattle.scan.specs.Scanned.{Outlined};
ghost use Rattle.reader.specs.Reading.{heard_from, Bounded};
ghost use Rattle.reader.specs.Parts.{RouteAt, Filled};

use plain::{Base, Discovery, Target};
use scan::{Found, Scan};
use targets::Targets;

// Why octets are refused.
#[derive(Clone, Copy, PartialEq, Eq)]
pub enum Refusal {
    Malformed,
    Unfit,
    Unusable,
    TooMany,
}

// A message in its octets. The vector's octets are the `size` octets of the message from `at` on, and the targets the first `count` of
// `targets`, which is an array, as there is no heap.
#[derive(Clone, Copy)]
pub struct Reading {
    pub base: Base,
    pub configuration: Option<[u8; 14]>,
    pub discovery: Discovery,
    // Numbers, and no slice: heard::vector_of's clause speaks of them, and a Reading is handed on by value.
    pub at: usize,
    pub size: usize,
    // fields, and no Parsed inside: that is of a crate above
    pub count: usize,
    pub targets: [Target; 8],
}

// The 14 octets of a Configuration, where there is one.
#[tactic(auto, using(lemmas::proofs::Cases::cases, option::proofs::Part::length_part, crate::proofs::Routes::configuration_size, crate::proofs::Routes::configuration_none, crate::proofs::Routes::configuration_some))]
fn read_configuration(msg: &[u8], f: Found) -> Option<[u8; 14]>
    requires { Told 4 msg.now f }
    ensures { of_option result ≡ configuration_of (of_type configuration_type (options_of msg.now)) }
{
    if f.count == 0 {
        return None;
    }
    // copied, and no try_from: that brings a Result that cannot be Err
    let mut octets = [0; 14];
    octets.copy_from_slice(&msg[f.start..f.end]);
    Some(octets)
}

// The RREQ or RREP of a message.
#[tactic(auto, using(lemmas::proofs::Cases::cases, crate::proofs::Routes::route_reply, crate::proofs::Routes::route_request))]
fn route(s: Scan) -> Found
    ensures { (msg : List ℕ) → Outlined msg s → unfit msg ≡ false → RouteAt msg result }
{
    if fault::is_reply(s) { s.rrep } else { s.rreq }
}

// A message that is not refused.
#[tactic(auto, using(lemmas::proofs::Cases::cases, crate::proofs::Routes::h_is, crate::proofs::Routes::part_after))]
fn fill(msg: &[u8], s: Scan, base: Base, ts: Targets) -> Reading
    requires { Outlined msg.now s × (unfit msg.now ≡ false) }
    ensures { Filled msg.now ts base result }
{
    let configuration = read_configuration(msg, s.configuration);
    let body = route(s);
    let discovery = discovery::discovery(fault::is_reply(s), &msg[body.start..body.end]);
    // a field that is an array goes into a struct's literal by a variable: the borrow checker covers no other form
    let targets = ts.list;
    Reading {
        base,
        configuration,
        discovery,
        at: body.start + 3,
        size: body.end - body.start - 3,
        count: ts.count,
        targets,
    }
}

// A message, or the first refusal of its octets that holds.
#[tactic(auto, using(lemmas::proofs::Cases::cases, crate::proofs::Message::compr_most, crate::proofs::Message::bounded, crate::proofs::Message::hear_malformed, crate::proofs::Message::hear_unfit, crate::proofs::Message::hear_unusable, fault::proofs::Counts::malformed_bad, fault::proofs::Counts::formed_long), unfolding(crate::specs::Reading::heard_from))]
pub fn read(msg: &[u8]) -> Result<Reading, Refusal>
    ensures heard { heard_from msg.now result ≡ hear msg.now }
    ensures bounded { IfOk result (Bounded (length msg.now)) }
{
    let s = scan::read_options(msg).ok_or(Refusal::Malformed)?;
    // Some: is_malformed says of a pass that found nothing too, and that clause stays
    if fault::is_malformed(msg, Some(s)) {
        return Err(Refusal::Malformed);
    }
    if fault::is_unfit(msg, s) {
        return Err(Refusal::Unfit);
    }
    if base::has_unusable_dodagid(msg) {
        return Err(Refusal::Unusable);
    }
    let base = base::read_base(msg);
    let ts = arts::read_targets(msg);
    let r = fill(msg, s, base, ts);
    if fault::is_too_many(r.size, r.discovery.compr, ts.over) {
        return Err(Refusal::TooMany);
    }
    Ok(r)
}
