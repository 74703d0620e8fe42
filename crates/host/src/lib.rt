// What a host is told, as a record in C's form: an answer and a way are numbers.
#![tactic(auto)]

ghost use Rattle.std.specs.Prelude.{◌≡◌};
ghost use Rattle.answer.specs.Answer.{destination_of};
ghost use Rattle.host.specs.Host.{way_number, neighbour_in, host_of};

use answer::Destination;
use outcome::Outcome;

// What a call comes to, beside the rows and octets that it writes. A neighbour's address is all zero unless the way is 2.
#[repr(C)]
#[derive(Clone, Copy)]
pub struct HostOutcome {
    pub answer: u8,
    pub seq: u8,
    pub forward_way: u8,
    pub reply_way: u8,
    pub forward_length: u64,
    pub reply_length: u64,
    pub clock: u64,
    pub forward_neighbour: [u8; 16],
    pub reply_neighbour: [u8; 16],
}

#[tactic(auto, using(lemmas::proofs::Cases::cases))]
fn way_number(d: Destination) -> u8
    ensures { result ≡ way_number (destination_of d) }
{
    match d {
        Destination::Nowhere => 0,
        Destination::Group => 1,
        Destination::Neighbour(_) => 2,
        Destination::Caller => 3,
    }
}

#[tactic(auto, using(lemmas::proofs::Cases::cases))]
fn neighbour_in(d: Destination) -> [u8; 16]
    ensures { result ≡ neighbour_in (destination_of d) }
{
    match d {
        Destination::Neighbour(a) => a,
        Destination::Nowhere | Destination::Group | Destination::Caller => [0; 16],
    }
}

// What a call comes to, in C's form.
pub fn host_outcome(r: Outcome) -> HostOutcome
    ensures { result ≡ host_of r }
{
    // no From: this function is public and its clause stays, and a From beside it would say the same twice
    HostOutcome {
        answer: answer::number(r.answer),
        seq: r.seq,
        forward_way: way_number(r.forward.to),
        reply_way: way_number(r.reply.to),
        // by `as`: there is no From from usize to u64
        forward_length: r.forward.size as u64,
        reply_length: r.reply.size as u64,
        clock: r.clock,
        forward_neighbour: neighbour_in(r.forward.to),
        reply_neighbour: neighbour_in(r.reply.to),
    }
}
