// Writers of the base and of the DODAG Configuration: each writes at the front of the part of the buffer that it is lent, and answers how many
// octets it wrote.
#![tactic(auto)]

ghost use Rattle.std.specs.Prelude.{◌≤◌, length};
ghost use Rattle.lemmas.specs.Optional.{of_option};
ghost use Rattle.lemmas.specs.Written.{Written};
ghost use Rattle.plain.specs.Octets.{base_octets, configuration_octets};
ghost use Rattle.writer_base.specs.Heads.{base_head};

use plain::{Base, CONFIGURATION};
use writer_octets::put_octets;

// The base up to the DODAGID. MOP is 4.
#[tactic(auto, using(lemmas::proofs::Cases::cases, crate::proofs::Words::base_word))]
fn put_base_head(out: &mut [u8], b: Base) -> usize
    requires { 8 ≤ length out.old }
    ensures { Written (base_head b) out.old out.new result }
{
    let [high, low] = b.rank.to_be_bytes();
    // by factors, as the rules' `word` tells the fields: shifts would need laws of their own
    let fields = flag::bit(b.g) * 128 + 4 * 8 + b.prf % 8;
    put_octets(out, &[b.instance, b.version, high, low, fields, 0, 0, 0])
}

// The base.
#[tactic(auto, using(lemmas::proofs::Cases::cases, lemmas::proofs::Buffer::written_then), unfolding(plain::specs::Octets::base_octets))]
pub fn put_base(out: &mut [u8], b: Base) -> usize
    requires { 24 ≤ length out.old }
    ensures { Written (base_octets b) out.old out.new result }
{
    let n = put_base_head(out, b);
    let m = put_octets(&mut out[n..], &b.dodagid);
    n + m
}

// The DODAG Configuration, if it is present.
#[tactic(auto, using(lemmas::proofs::Cases::cases, lemmas::proofs::Buffer::length_written, lemmas::proofs::Buffer::written_then, lemmas::proofs::Buffer::written_none, crate::proofs::Lengths::configuration_some, crate::proofs::Lengths::configuration_none))]
pub fn put_configuration(out: &mut [u8], configuration: Option<[u8; 14]>) -> usize
    requires { length (configuration_octets (of_option configuration)) ≤ length out.old }
    ensures { Written (configuration_octets (of_option configuration)) out.old out.new result }
{
    let Some(octets) = configuration else {
        return 0;
    };
    let n = put_octets(out, &[CONFIGURATION, 14]);
    let m = put_octets(&mut out[n..], &octets);
    n + m
}
