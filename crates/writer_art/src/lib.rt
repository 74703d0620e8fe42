// The writer of the ARTs: it writes at the front of the part of the buffer that it is lent, and answers how many octets it wrote.
#![tactic(auto)]

ghost use Rattle.std.specs.Prelude.{◌≡◌, true, ◌≤◌, length};
ghost use mathlib.Core.List.{map, flatten};
ghost use Rattle.lemmas.specs.Written.{Written};
ghost use Rattle.plain.specs.Octets.{art_octets};
ghost use Rattle.writer_option.specs.Sendable.{short_prefixes};
ghost use Rattle.writer_art.specs.Heads.{art_head};

use plain::{ART, Target};
use writer_octets::put_octets;

// Type, length, Dest SeqNo and Prefix Length of an ART with so many octets of a target.
#[tactic(auto, using(lemmas::proofs::Cases::cases, crate::proofs::Words::art_word))]
fn put_art_head(out: &mut [u8], t: Target, size: usize) -> usize
    requires { (size ≤ 16) × (4 ≤ length out.old) }
    ensures { Written (art_head t size) out.old out.new result }
{
    // narrowed by `as`: no `From` narrows, and a Result of `try_from` could not be an Err here
    put_octets(out, &[ART, (size + 2) as u8, t.seq, t.plen % 128])
}

// An ART, with as many octets of its target as Prefix Length says.
#[tactic(auto, using(lemmas::proofs::Cases::cases, lemmas::proofs::Buffer::written_then, lemmas::proofs::Rules::most_octets_lem, crate::proofs::Lengths::art_parts))]
pub fn put_art(out: &mut [u8], t: Target) -> usize
    requires { (t.plen ≤ 127) × (length (art_octets t) ≤ length out.old) }
    ensures { Written (art_octets t) out.old out.new result }
{
    let size = art::prefix_octets(t.plen);
    let n = put_art_head(out, t, size);
    let m = put_octets(&mut out[n..], &t.addr[..size]);
    n + m
}

// An ART for each target.
#[tactic(auto, using(lemmas::proofs::Cases::cases, lemmas::proofs::Buffer::written_then, lemmas::proofs::Buffer::written_none, lemmas::proofs::Targets::target_past, crate::proofs::Lengths::short_at, writer_octets::proofs::Parts::parts_none, writer_octets::proofs::Parts::parts_more, writer_octets::proofs::Parts::parts_room))]
pub fn put_arts(out: &mut [u8], targets: &[Target]) -> usize
    requires { (short_prefixes targets.now ≡ true) × (length (flatten (map art_octets targets.now)) ≤ length out.old) }
    ensures { Written (flatten (map art_octets targets.now)) out.old out.new result }
{
    let mut at = 0;
    for t in targets {
        at += put_art(&mut out[at..], *t);
    }
    at
}
