// What an RREQ or RREP says, but for its vector (01, "Octets on the air").
// Fields of bits are taken by / and %, as in crates/option_body.
#![tactic(auto)]

ghost use Rattle.std.specs.Prelude.{◌≡◌};
ghost use Rattle.plain.specs.Octets.{number_of, discovery_of};

use plain::Discovery;

// An RREQ or, where `reply` is true, an RREP, without its vector.
#[tactic(auto, using(lemmas::proofs::Cases::cases), unfolding(plain::specs::Octets::discovery_of, plain::specs::Octets::fields, plain::specs::Octets::sum))]
pub fn discovery(reply: bool, body: &[u8]) -> Discovery
    ensures { result ≡ discovery_of reply body.now }
{
    let word = option_body::word_at(body, 0);
    Discovery {
        reply,
        flag: word / 32768 % 2 == 1,
        h: option_body::has_h(body),
        compr: option_body::compr_of(body),
        // two bits and seven: `try_from` would bring a Result that cannot be Err
        l: (word / 128 % 4) as u8,
        limit: (word % 128) as u8,
        number: number_of(reply, body),
    }
}

// Orig SeqNo of an RREQ, Delta of an RREP.
#[tactic(auto, using(lemmas::proofs::Cases::cases), unfolding(plain::specs::Octets::fields, plain::specs::Octets::sum))]
fn number_of(reply: bool, body: &[u8]) -> u8
    ensures { result ≡ number_of reply body.now }
{
    let octet = art::octet_at(body, 2);
    if reply { octet / 4 } else { octet }
}
