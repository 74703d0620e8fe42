// What a start of our own discovery that is answered 0 stores, by value (01, "A request"): its row, and our number after it.
#![tactic(auto)]

ghost use Rattle.std.specs.Prelude.{◌≤◌, ◌^◌, ◌≡◌, List, []};
ghost use Rattle.std.proofs.Math.Option.{none};
ghost use Rattle.plain.specs.Blank.{Padded};
ghost use Rattle.plain.specs.Given as rules;
ghost use Rattle.plain.specs.Request.{start_row, accept_start};
ghost use Rattle.plain.specs.declared.Target as plain;
ghost use Rattle.row.specs.Record.{request_record};
ghost use Rattle.kept.specs.Kept.{list_of};
ghost use Rattle.own.specs.Settings.{settings_of};
ghost use Rattle.decision.specs.Decision.{Stores};
ghost use Rattle.start.specs.Start.{start_of};

use decision::Decided;
use own::Own;
use row::{InstanceRow, RequestFields};
use start::Asking;
use targets::Targets;

// Its row, with our stepped number: all its targets stay, those that are ours too.
#[tactic(auto, using(lemmas::proofs::Cases::cases, crate::proofs::Stored::row_is))]
fn start_row(o: Own, seq: u8, t: u64, s: Asking, ts: Targets) -> InstanceRow
    requires { (t ≤ 2 ^ 40) × (ts.count ≤ 8) × Padded ts.count ts.list }
    ensures { result ≡ request_record (start_row (settings_of o) t seq (start_of s []) (list_of ts)) }
{
    // a field that is an array goes into a struct's literal by a variable: the borrow checker covers no other form
    let dodagid = o.receiving;
    let targets = ts.list;
    row::padded_request_row(RequestFields {
        deadline: deadline::of_l(t, s.l),
        targets,
        dodagid,
        neighbour: [0; 16],
        rank: 256,
        // it is at most 8 by what is required: `try_from` would bring a refusal that cannot happen
        count: ts.count as u8,
        instance: s.instance,
        seq,
        s: true,
        h: s.h,
        replied: false,
    })
}

// What a start that is answered 0 stores. It stores no route, and no reply row.
#[tactic(auto, using(lemmas::proofs::Cases::cases, crate::proofs::Stored::stored_is))]
pub fn accepted(o: Own, seq: u8, t: u64, s: Asking, ts: Targets) -> Decided
    requires { (t ≤ 2 ^ 40) × (ts.count ≤ 8) × Padded ts.count ts.list }
    ensures { (targets : List plain.Target) → Stores {B = rules.RequestRow} (accept_start (settings_of o) seq t (start_of s targets) (list_of ts)) none none result }
{
    let next = rolling::step(seq);
    Decided {
        row: start_row(o, next, t, s, ts),
        second: None,
        route: None,
        seq: next,
    }
}
