// Writers of octets and addresses: each writes at the front of the part of the buffer that it is lent, and answers how many octets it wrote.
#![tactic(auto)]

ghost use Rattle.std.specs.Prelude.{◌≤◌, length};
ghost use Rattle.lemmas.specs.Written.{Written};
ghost use Rattle.plain.specs.Address.{elide};
ghost use Rattle.plain.specs.Octets.{elided};

// Octets as they are.
pub fn put_octets(out: &mut [u8], octets: &[u8]) -> usize
    requires { length octets.now ≤ length out.old }
    ensures { Written octets.now out.old out.new result }
{
    out[..octets.len()].copy_from_slice(octets);
    octets.len()
}

// An address without its first Compr octets.
#[tactic(auto, using(lemmas::proofs::Cases::cases, crate::proofs::Addresses::elide_part))]
fn put_address(out: &mut [u8], compr: usize, a: [u8; 16]) -> usize
    requires { (compr ≤ 16) × (length (elide compr a) ≤ length out.old) }
    ensures { Written (elide compr a) out.old out.new result }
{
    put_octets(out, &a[compr..])
}

// The addresses of a vector, each without its first Compr octets.
#[tactic(auto, using(lemmas::proofs::Cases::cases, lemmas::proofs::Buffer::written_then, lemmas::proofs::Buffer::written_none, crate::proofs::Parts::parts_none, crate::proofs::Parts::parts_more, crate::proofs::Parts::parts_room))]
pub fn put_vector(out: &mut [u8], compr: usize, vector: &[[u8; 16]]) -> usize
    requires { (compr ≤ 16) × (length (elided compr vector.now) ≤ length out.old) }
    ensures { Written (elided compr vector.now) out.old out.new result }
{
    let mut at = 0;
    for a in vector {
        at += put_address(&mut out[at..], compr, *a);
    }
    at
}

// The whole addresses, one after the other.
#[tactic(auto, using(lemmas::proofs::Cases::cases, crate::proofs::Addresses::told_length))]
pub fn put_path(out: &mut [u8], vector: &[[u8; 16]]) -> usize
    requires { (length vector.now ≤ 16) × (256 ≤ length out.old) }
    ensures { Written (elided 0 vector.now) out.old out.new result }
{
    put_vector(out, 0, vector)
}
