// What a call is about, by value: the message as it was read, the link that it came by, and the rows that the tables hold for it. What
// each means is in specs/. And what several rules ask of it.
#![tactic(auto)]

ghost use Rattle.std.specs.Prelude.{◌≡◌, [], option_map};
ghost use Rattle.plain.specs.Request.{s_out, delta_or0};
ghost use Rattle.lemmas.specs.Optional.{of_option};
ghost use Rattle.message.specs.Message.{message_in, received_by, number_of};

use plain::{Base, Discovery, Target};
use row::{InstanceRow, RouteRow};

// A message but for its vector, which stands beside it as an array of addresses: the first `n` of these and the first `count` of the
// targets are the message's. There is no heap, so a list that is kept has fixed room and a count. That n is at most 16 and count at most 8
// is asked by clauses (rule's Heard), and no invariant: heard::parsed makes one of any Reading.
#[derive(Clone, Copy)]
pub struct Parsed {
    pub base: Base,
    pub configuration: Option<[u8; 14]>,
    pub discovery: Discovery,
    pub n: usize,
    pub count: usize,
    pub targets: [Target; 8],
}

// The link facts of a received message.
#[derive(Clone, Copy)]
pub struct Link {
    pub neighbour: [u8; 16],
    pub upward: bool,
    pub downward: bool,
    pub increase: u16,
    pub group: bool,
}

// A live row of one of the tables, and its number.
#[derive(Clone, Copy)]
pub struct Found<R> {
    pub at: usize,
    pub row: R,
}

// The numbers of the live row of a call's key and of the live route, where there are any.
#[derive(Clone, Copy)]
pub struct Live {
    pub row: Option<usize>,
    pub route: Option<usize>,
}

// S out: S in and downward good.
#[tactic(auto, using(lemmas::proofs::Cases::cases), unfolding(crate::specs::Message::message_in))]
pub fn s_out(k: Link, p: Parsed) -> bool
    ensures { result ≡ s_out (received_by k []) (message_in p []) }
{
    p.discovery.flag && k.downward
}

// Delta, where one is free.
#[tactic(auto, using(lemmas::proofs::Cases::cases))]
pub fn delta_or_0(d: Option<u8>) -> u8
    ensures { result ≡ delta_or0 (of_option d) }
{
    d.unwrap_or(0)
}

// What a call is about in the tables, from what was found. Two parameters here and in the rules, and no struct: each rule asks one of them alone.
#[tactic(auto, using(lemmas::proofs::Cases::cases))]
pub fn live_of(f: Option<Found<InstanceRow>>, g: Option<Found<RouteRow>>) -> Live
    ensures { result ≡ record { row = option_map number_of f; route = option_map number_of g } }
{
    Live {
        row: f.map(|x| x.at),
        route: g.map(|x| x.at),
    }
}
