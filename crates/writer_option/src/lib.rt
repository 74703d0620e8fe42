// The writer of the RREQ or RREP: it writes at the front of the part of the buffer that it is lent, and answers how many octets it wrote.
#![tactic(auto)]

ghost use Rattle.std.specs.Prelude.{◌≡◌, cond, [], ◌∷◌, ◌≤◌, length};
ghost use Rattle.lemmas.specs.Written.{Written};
ghost use Rattle.plain.specs.Octets.{word, number_bits, rreq_type, rrep_type, route_octets};
ghost use Rattle.writer_option.specs.Heads.{route_word, route_head};
ghost use Rattle.writer_option.specs.Sendable.{Sendable};

use flag::bit;
use plain::{Discovery, RREP, RREQ};
use writer_octets::{put_octets, put_vector};

// Compr as it is sent: 0 with H 1.
pub fn compr_sent(h: bool, compr: u8) -> u8
    ensures { result ≡ cond h 0 compr }
{
    if h { 0 } else { compr }
}

// The first two octets of an RREQ or RREP: S or G, H, X, Compr, L, RankLimit.
#[tactic(auto, using(lemmas::proofs::Cases::cases), unfolding(crate::specs::Heads::route_word, plain::specs::Octets::word, plain::specs::Octets::sum))]
fn route_word(d: Discovery) -> u16
    ensures { result ≡ route_word d }
{
    let flag = u16::from(bit(d.flag));
    let h = u16::from(bit(d.h));
    let compr = u16::from(compr_sent(d.h, d.compr) % 16);
    let l = u16::from(d.l % 4);
    let limit = u16::from(d.limit % 128);
    // by factors, as the rules' `word` tells the fields
    flag * 32768 + h * 16384 + compr * 512 + l * 128 + limit
}

// The third octet: Orig SeqNo, or Delta and two bits 0.
#[tactic(auto, using(lemmas::proofs::Cases::cases), unfolding(plain::specs::Octets::word, plain::specs::Octets::sum))]
fn number_octet(d: Discovery) -> u8
    ensures { result ≡ word (number_bits d.reply) (d.number ∷ 0 ∷ []) }
{
    if d.reply { d.number % 64 * 4 } else { d.number }
}

// The option's type.
fn route_type(d: Discovery) -> u8
    ensures { result ≡ cond d.reply rrep_type rreq_type }
{
    if d.reply { RREP } else { RREQ }
}

// Type, length and the three octets before a vector of so many octets.
#[tactic(auto, using(lemmas::proofs::Cases::cases))]
fn put_route_head(out: &mut [u8], d: Discovery, size: usize) -> usize
    requires { (size ≤ 252) × (5 ≤ length out.old) }
    ensures { Written (route_head d size) out.old out.new result }
{
    let [high, low] = route_word(d).to_be_bytes();
    // narrowed by `as`: no `From` narrows, and a Result of `try_from` could not be an Err here
    let length = (size + 3) as u8;
    put_octets(out, &[route_type(d), length, high, low, number_octet(d)])
}

// The RREQ or RREP with its vector, which is none with H 1.
#[tactic(auto, using(lemmas::proofs::Cases::cases, lemmas::proofs::Buffer::written_then, writer_octets::proofs::Addresses::told_length, crate::proofs::Lengths::route_parts, crate::proofs::Lengths::route_bare))]
pub fn put_discovery(out: &mut [u8], d: Discovery, vector: &[[u8; 16]]) -> usize
    requires { Sendable d (length vector.now) × (length (route_octets d vector.now) ≤ length out.old) }
    ensures { Written (route_octets d vector.now) out.old out.new result }
{
    if d.h {
        return put_route_head(out, d, 0);
    }
    let compr = usize::from(d.compr);
    let at = put_route_head(out, d, vector.len() * (16 - compr));
    let m = put_vector(&mut out[at..], compr, vector);
    at + m
}
