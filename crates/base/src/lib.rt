// The base object of a message (01, "RFC 6550, 6.3.1"), and 5: a DODAGID that is link-local, multicast or all zero.
// Fields of bits are taken by / and %, as in crates/option_body.
#![tactic(auto)]

ghost use Rattle.std.specs.Prelude.{◌≡◌, ◌≤◌, length};
ghost use Rattle.plain.specs.Address.{unusable};
ghost use Rattle.plain.specs.Octets.{base_of};

use plain::Base;

#[tactic(auto, using(lemmas::proofs::Cases::cases, option::proofs::Part::length_part), unfolding(plain::specs::Octets::base_of))]
pub fn read_dodagid(msg: &[u8]) -> [u8; 16]
    requires { 24 ≤ length msg.now }
    ensures { result ≡ (base_of msg.now).dodagid }
{
    let mut dodagid = [0u8; 16];
    dodagid.copy_from_slice(&msg[8..24]);
    dodagid
}

// 5: the DODAGID is read for this by itself. One that is looked at octet by octet is kept octet by octet, and each copy of it takes
// longer: a request at 4 rows took 5 ns of 390 more.
pub fn has_unusable_dodagid(msg: &[u8]) -> bool
    requires { 24 ≤ length msg.now }
    ensures { result ≡ unusable (base_of msg.now).dodagid }
{
    unusable::is_unusable(read_dodagid(msg))
}

// The base object.
#[tactic(auto, using(lemmas::proofs::Cases::cases, crate::proofs::Laws::base_is), unfolding(plain::specs::Octets::base_of))]
pub fn read_base(msg: &[u8]) -> Base
    requires { 24 ≤ length msg.now }
    ensures { result ≡ base_of msg.now }
{
    let flags = art::octet_at(msg, 4);
    Base {
        instance: art::octet_at(msg, 0),
        version: art::octet_at(msg, 1),
        rank: option_body::word_at(msg, 2),
        g: flags / 128 == 1,
        prf: flags % 8,
        dodagid: read_dodagid(msg),
    }
}
