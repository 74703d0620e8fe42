// The types that the definitions of the rules and the code share, and the types of options, for readers and writers. There is no code here: the
// rules are in specs/.
#![tactic(auto)]

// The types of the options that mean something here (01, "Octets on the air"). Numbers, and no enum: see option::Next.
pub const CONFIGURATION: u8 = 0x04;

pub const RREQ: u8 = 0x0B;

pub const RREP: u8 = 0x0C;

pub const ART: u8 = 0x0D;

// How one sequence number stands to another (01, "Rank and freshness"): 01's four words, and no Option<Ordering>, since the rules' definitions
// take this type (freshness, same_side, standing, outdated).
#[derive(Clone, Copy, PartialEq, Eq)]
pub enum Freshness {
    Newer,
    Older,
    Equal,
    NotComparable,
}

// A target with its Dest SeqNo (01, "ART"): Prefix Length 0 is a whole address.
#[repr(C)]
#[derive(Clone, Copy, PartialEq, Eq, Default)]
pub struct Target {
    pub seq: u8,
    pub plen: u8,
    pub addr: [u8; 16],
}

// The base object (01, "RFC 6550, 6.3.1"). DTSN, Flags and Reserved are sent 0 and MOP is 4: they are no fields of it.
#[derive(Clone, Copy, PartialEq, Eq, Default)]
pub struct Base {
    pub instance: u8,
    pub version: u8,
    pub rank: u16,
    pub g: bool,
    pub prf: u8,
    pub dodagid: [u8; 16],
}

// An RREQ or, where `reply` is true, an RREP, without its vector. `flag` is S in an RREQ and G in an RREP; `number` is Orig SeqNo in
// an RREQ and Delta in an RREP. With H 1 Compr is 0. One record for both, and no enum, and h beside Compr: the rules' definitions take these
// fields (discovery_of, route_octets, number_bits).
#[derive(Clone, Copy, PartialEq, Eq, Default)]
pub struct Discovery {
    pub reply: bool,
    pub flag: bool,
    pub h: bool,
    pub compr: u8,
    pub l: u8,
    pub limit: u8,
    pub number: u8,
}

// How a message's number and rank stand to the live row of its key, if there is one (01, "A request"; a reply row "is updated or
// refused (13, 14) as a request row").
#[derive(Clone, Copy, PartialEq, Eq)]
pub enum Standing {
    // There is no live row.
    IsNew,
    // "Newer starts afresh in the same row."
    Afresh,
    // "equal and lower rank updates the row"
    Update,
    // "older or not comparable Orig SeqNo is 13"
    Stale,
    // "equal and (we replied, or own rank not lower) is 14"
    NothingNew,
}
