// What the table of instance rows holds for a call: the live rows of its keys, and a partner. Three searches, each with its own `Found`: a helper for
// that one line would need a clause that the place is in the table and one that tells what it makes, and save none.
// The parts of a key stay parameters: the rules' definitions take them one by one (request_seen, reply_seen, partner_seen), as the clauses do.
#![tactic(auto)]

ghost use Rattle.std.specs.Prelude.{◌≡◌, ℕ, ◌≤◌, IfSome};
ghost use Rattle.plain.specs.Lists.{given};
ghost use Rattle.search.specs.Seen.{request_seen, reply_seen, partner_seen, LiveRow};
ghost use Rattle.message.specs.Message.{request_found, reply_found};

use message::Found;
use row::InstanceRow;

// The live request row of a key.
pub fn search_request(
    rows: &[InstanceRow],
    t: u64,
    instance: u8,
    dodagid: [u8; 16],
) -> Option<Found<InstanceRow>>
    ensures found { ((clock : ℕ) → clock ≤ t → request_found result ≡ request_seen clock rows.now t instance dodagid) × IfSome result (λ f. f.row.kind ≡ 1) }
    ensures here { LiveRow rows.now t result }
{
    let at = find::find_request(rows, t, instance, dodagid)?;
    Some(Found { at, row: rows[at] })
}

// Whether a request row of a key is live: a start needs to know no more of it.
pub fn has_request(rows: &[InstanceRow], t: u64, instance: u8, dodagid: [u8; 16]) -> bool
    ensures { (clock : ℕ) → clock ≤ t → result ≡ given (request_seen clock rows.now t instance dodagid) }
{
    find::find_request(rows, t, instance, dodagid).is_some()
}

// The live reply row of a key.
pub fn search_reply(
    rows: &[InstanceRow],
    t: u64,
    instance: u8,
    dodagid: [u8; 16],
) -> Option<Found<InstanceRow>>
    ensures found { (clock : ℕ) → clock ≤ t → reply_found result ≡ reply_seen clock rows.now t instance dodagid }
    ensures here { LiveRow rows.now t result }
{
    let at = find::find_reply(rows, t, instance, dodagid)?;
    Some(Found { at, row: rows[at] })
}

// "a live partner request row of the same H"
pub fn search_partner(
    rows: &[InstanceRow],
    t: u64,
    instance: u8,
    dodagid: [u8; 16],
    h: bool,
) -> Option<Found<InstanceRow>>
    ensures { (clock : ℕ) → clock ≤ t → request_found result ≡ partner_seen clock rows.now t instance dodagid h }
{
    let at = partner::find_partner(rows, t, instance, dodagid, h)?;
    Some(Found { at, row: rows[at] })
}
