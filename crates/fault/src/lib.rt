// What the octets of a message are refused for, each asked by itself (01, "Octets on the air"): 3, 4 and 6.
#![tactic(auto)]

ghost use Rattle.std.specs.Prelude.{◌≡◌, ◌||◌, List, ℕ, ◌-◌, ◌/◌, ◌≤◌, ltb};
ghost use Rattle.plain.specs.Octets.{options_of, request_counts, reply_counts, malformed, unfit};
ghost use Rattle.scan.specs.Scanned.{Outlined, Scanned};

use scan::Scan;

// Whether the options are a request's: one RREQ, no RREP, one ART or more.
#[tactic(auto, using(lemmas::proofs::Cases::cases, crate::proofs::Counts::request_is))]
fn is_request(s: Scan) -> bool
    ensures { (msg : List ℕ) → Outlined msg s → result ≡ request_counts (options_of msg) }
{
    s.rreq.count == 1 && s.rrep.count == 0 && 0 < s.art.count
}

// Whether the options are a reply's: one RREP, no RREQ, one ART.
#[tactic(auto, using(lemmas::proofs::Cases::cases, crate::proofs::Counts::reply_is))]
pub fn is_reply(s: Scan) -> bool
    ensures { (msg : List ℕ) → Outlined msg s → result ≡ reply_counts (options_of msg) }
{
    s.rrep.count == 1 && s.rreq.count == 0 && s.art.count == 1
}

// Whether a message is cut or malformed. With no Scan one of its options is bad, and so the message is malformed.
#[tactic(auto, using(lemmas::proofs::Cases::cases, crate::proofs::Counts::malformed_short, crate::proofs::Counts::malformed_many, crate::proofs::Counts::malformed_reply, crate::proofs::Counts::malformed_other, crate::proofs::Counts::art_order, crate::proofs::Counts::art_within))]
pub fn is_malformed(msg: &[u8], scan: Option<Scan>) -> bool
    requires { Scanned msg.now scan }
    ensures { result ≡ malformed msg.now }
{
    // no is_none_or: a test of four lines in a closure is no plainer
    let Some(s) = scan else {
        return true;
    };
    msg.len() < 24
        || 1 < s.configuration.count
        || is_reply(s) && art::prefix_length(&msg[s.art.start..s.art.end]) != 0
}

// Whether MOP is not 4, or the counts of options are wrong.
#[tactic(auto, using(lemmas::proofs::Cases::cases, crate::proofs::Counts::mop_is, crate::proofs::Counts::unfit_mop, crate::proofs::Counts::unfit_is))]
pub fn is_unfit(msg: &[u8], s: Scan) -> bool
    requires { Outlined msg.now s }
    ensures { result ≡ unfit msg.now }
{
    art::octet_at(msg, 4) / 8 % 8 != 4 || !(is_request(s) || is_reply(s))
}

// Whether there are over 16 vector addresses or over 8 targets.
#[tactic(auto, using(lemmas::proofs::Cases::cases))]
pub fn is_too_many(size: usize, compr: u8, over: bool) -> bool
    requires { compr ≤ 15 }
    ensures { result ≡ (ltb 16 (size / (16 - compr)) || over) }
{
    let width = 16 - usize::from(compr);
    16 < size / width || over
}
