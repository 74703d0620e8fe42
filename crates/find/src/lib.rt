// Searches over the lent table of instance rows.
// Each is a chain of its own: a search that takes the test would be `position` itself.
// The parts of a key stay parameters: the rules' definitions take them one by one (request_here, reply_here), as the clauses do.
#![tactic(auto)]

ghost use Rattle.std.specs.Prelude.{◌≡◌, map};
ghost use Rattle.plain.specs.Table.{instance_deadline};
ghost use Rattle.row.specs.Meaning.{instance_of};
ghost use Rattle.keyed.specs.Look.{request_here, reply_here};
ghost use Rattle.first.specs.First.{found_at, found_from};
ghost use Rattle.first.specs.Spare.{dead};

use row::InstanceRow;

// The first request row of that key that is live at t.
pub fn find_request(rows: &[InstanceRow], t: u64, instance: u8, dodagid: [u8; 16]) -> Option<usize>
    ensures { result ≡ found_at (request_here t instance dodagid) (map instance_of rows.now) }
{
    rows.iter()
        .position(|r| keyed::is_request(*r, t, instance, dodagid))
}

// The first reply row of that key that is live at t.
pub fn find_reply(rows: &[InstanceRow], t: u64, instance: u8, dodagid: [u8; 16]) -> Option<usize>
    ensures { result ≡ found_at (reply_here t instance dodagid) (map instance_of rows.now) }
{
    rows.iter()
        .position(|r| keyed::is_reply(*r, t, instance, dodagid))
}

// The first row from `from` on that is not live at t.
pub fn find_spare(rows: &[InstanceRow], t: u64, from: usize) -> Option<usize>
    ensures { result ≡ found_from (dead instance_deadline t) from (map instance_of rows.now) }
{
    let rest = rows.get(from..)?;
    let i = rest.iter().position(|r| !live::is_live(*r, t))?;
    Some(from + i)
}
