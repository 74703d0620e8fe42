// The partner of a reply: a live request row of its key and its H.
// The parts of a key stay parameters: the rules' definitions take them one by one (partner_here), as the clauses do.
#![tactic(auto)]

ghost use Rattle.std.specs.Prelude.{◌≡◌, map};
ghost use Rattle.row.specs.Meaning.{instance_of};
ghost use Rattle.first.specs.First.{found_at};
ghost use Rattle.partner.specs.Partner.{partner_here};

use row::InstanceRow;

// A request row of that key and that H, live at t.
#[tactic(auto, using(lemmas::proofs::Cases::cases, crate::proofs::Laws::partner_not, crate::proofs::Laws::partner_is))]
pub fn is_partner(r: InstanceRow, t: u64, instance: u8, dodagid: [u8; 16], h: bool) -> bool
    ensures { result ≡ partner_here t instance dodagid h (instance_of r) }
{
    // the row's H is a number, as the record of the C interface has it
    keyed::is_request(r, t, instance, dodagid) && (r.h != 0) == h
}

// The first request row of that key and that H that is live at t.
pub fn find_partner(
    rows: &[InstanceRow],
    t: u64,
    instance: u8,
    dodagid: [u8; 16],
    h: bool,
) -> Option<usize>
    ensures { result ≡ found_at (partner_here t instance dodagid h) (map instance_of rows.now) }
{
    rows.iter()
        .position(|r| is_partner(*r, t, instance, dodagid, h))
}
