// A message as it was read, in the form that the rules take: its fields, its vector's addresses, and the answer that its octets give.
#![tactic(auto)]

ghost use Rattle.std.specs.Prelude.{◌≡◌, ◌-◌, ◌/◌, ◌≤◌, length, take, drop};
ghost use Rattle.plain.specs.Octets.{restored};
ghost use Rattle.reader.specs.Reading.{Bounded};
ghost use Rattle.answer.specs.Answer.{answer_number};
ghost use Rattle.heard.specs.Parsed.{parsed_of, octets_number};

use answer::Answer;
use message::Parsed;
use reader::{Reading, Refusal};

// The fields of a message, and how many addresses its vector has.
#[tactic(auto, using(lemmas::proofs::Cases::cases), unfolding(crate::specs::Parsed::parsed_of))]
pub fn parsed(r: Reading) -> Parsed
    requires { r.discovery.compr ≤ 15 }
    ensures { result ≡ parsed_of r }
{
    // a field that is an array goes into a struct's literal by a variable: the borrow checker covers no other form
    let targets = r.targets;
    let width = 16 - usize::from(r.discovery.compr);
    Parsed {
        base: r.base,
        configuration: r.configuration,
        discovery: r.discovery,
        n: r.size / width,
        count: r.count,
        targets,
    }
}

// The addresses of a message's vector, with the octets that Compr left out.
#[tactic(auto, using(lemmas::proofs::Cases::cases, reader::proofs::Part::addresses_fit, crate::proofs::Laws::vector_is))]
pub fn vector_of(octets: &[u8], r: Reading) -> [[u8; 16]; 16]
    requires { Bounded (length octets.now) r }
    ensures { take (r.size / (16 - r.discovery.compr)) result
        ≡ restored r.discovery.compr r.base.dodagid (take r.size (drop r.at octets.now)) }
{
    let part = &octets[r.at..r.at + r.size];
    vector::addresses(part, r.discovery.compr, r.base.dodagid)
}

// The answer that the octets alone give, 0 where there is no refusal. Both types are of crates below, so that this is no `From`.
pub fn octets_answer(refusal: Option<Refusal>) -> Answer
    ensures { answer_number result ≡ octets_number refusal }
{
    match refusal {
        None => Answer::Done,
        Some(Refusal::Malformed) => Answer::Malformed,
        Some(Refusal::Unfit) => Answer::Unfit,
        Some(Refusal::Unusable) => Answer::BadDodagid,
        Some(Refusal::TooMany) => Answer::TooMany,
    }
}

// A reply, and not a request. One line, and public: its clause stays.
pub fn is_reply(r: Reading) -> bool
    ensures { result ≡ r.discovery.reply }
{
    r.discovery.reply
}
