// What a host hands in, as records in C's form: a flag is an octet, on when it is not 0.
#![tactic(auto)]

ghost use Rattle.std.specs.Prelude.{◌≡◌};
ghost use Rattle.handed.specs.Handed.{link_of, asking_of};

use message::Link;
use start::Asking;

// The link facts of a received message.
#[repr(C)]
#[derive(Clone, Copy)]
pub struct HostLink {
    pub neighbour: [u8; 16],
    pub upward: u8,
    pub downward: u8,
    pub increase: u16,
    pub group: u8,
}

// What a start brings, but for its targets.
#[repr(C)]
#[derive(Clone, Copy)]
pub struct HostStart {
    pub instance: u8,
    pub h: u8,
    pub compr: u8,
    pub l: u8,
    pub limit: u8,
}

// The link facts, as the rules take them.
pub fn link_of(k: HostLink) -> Link
    ensures { result ≡ link_of k }
{
    // no From: this function is public and its clause stays, and a From beside it would say the same twice
    // a field that is an array goes into a struct's literal by a variable: the borrow checker covers no other form
    let neighbour = k.neighbour;
    Link {
        neighbour,
        upward: k.upward != 0,
        downward: k.downward != 0,
        increase: k.increase,
        group: k.group != 0,
    }
}

// What a start brings, as the rules take it.
pub fn asking_of(s: HostStart) -> Asking
    ensures { result ≡ asking_of s }
{
    // no From: this function is public and its clause stays, and a From beside it would say the same twice
    Asking {
        instance: s.instance,
        h: s.h != 0,
        compr: s.compr,
        l: s.l,
        limit: s.limit,
    }
}
