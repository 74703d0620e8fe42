// Whether two live rows of a table have one key (answer 2). Up to 16 rows every pair is compared, by the last octet of its addresses first.
// Above, a filter on the stack shows of most rows that no earlier row has their key; only where it does not are the earlier rows gone through.
// Up to 128 rows the filter has 512 octets, above 12 KiB, and one pass takes the rows of one class of hashes, so that the filter does not
// fill up in a long table.
#![tactic(auto)]

ghost use Rattle.std.specs.Prelude.{◌≡◌, ◌||◌, map, ◌<◌, ◌≤◌, eqb};
ghost use Rattle.plain.specs.Lists.{any, any_two};
ghost use Rattle.plain.specs.Table.{live_rows, instance_deadline};
ghost use Rattle.plain.specs.Answers.{requests, replies, request_twins, reply_twins};
ghost use Rattle.row.specs.Meaning.{instance_of};
ghost use Rattle.key.specs.Pair.{twins_by};
ghost use Rattle.filter.specs.Filter.{in_class};

use filter::Keyed;
use row::InstanceRow;

// Whether a row has a twin among those before it. Called only where a twin is possible.
#[inline(never)]
fn scan<R: Keyed>(before: &[R], row: &R, t: u64) -> bool
    ensures { result ≡ any (λ a. twins_by R.key (R.live t) a row.now) before.now }
{
    before.iter().any(|a| filter::are_twins(*a, *row, t))
}

// Whether one of the rows has this ending. Of a row it needs one octet: in a short table that costs less than comparing keys
// (a request at 4 rows took a twentieth more without it).
fn has_ending<R: Keyed>(rows: &[R], e: u8) -> bool
    ensures { result ≡ any (λ a. eqb (R.ending a) e) rows.now }
{
    rows.iter().any(|a| a.ending() == e)
}

fn every_pair<R: Keyed>(rows: &[R], t: u64) -> bool
    ensures { result ≡ any_two (twins_by R.key (R.live t)) rows.now }
{
    // a loop: as `any` it was tried, but its law asks the test of every number, and &rows[..j] is there only up to the table's end
    for (j, row) in rows.iter().enumerate() {
        if has_ending(&rows[..j], row.ending()) && scan(&rows[..j], row, t) {
            return true;
        }
    }
    false
}

// Twins of one class, by a filter of N words. Not inlined: else the filter would stand in every call's frame.
#[inline(never)]
fn pass<R: Keyed, const N: usize>(rows: &[R], t: u64, mask: u64, p: u64) -> bool
    requires some { 0 < N }
    requires most { N ≤ 4294967296 }
    ensures { result ≡ any_two (in_class R.hash mask p (twins_by R.key (R.live t))) rows.now }
{
    // a loop, and no `any`: each turn writes the word that later turns read, at a place that the hash tells
    let mut words = [0u64; N];
    for (j, row) in rows.iter().enumerate() {
        let h = row.hash();
        let on = slot::is_chosen(mask, p, row.is_live(t), h);
        let s = slot::slot_of::<N>(h);
        let w = words[s];
        if filter::maybe(on, w, h) && scan(&rows[..j], row, t) {
            return true;
        }
        words[s] = filter::marked(on, w, h);
    }
    false
}

// A pass for each class.
fn passes<R: Keyed>(rows: &[R], t: u64) -> bool
    ensures { result ≡ any_two (twins_by R.key (R.live t)) rows.now }
{
    let mask = filter::mask_for(rows.len());
    (0..mask + 1).any(|p| pass::<R, 1536>(rows, t, mask, p))
}

// Two rows of one key, both live at time t.
#[tactic(auto, using(filter::proofs::Filter::whole_class))]
pub fn has_pair<R: Keyed>(rows: &[R], t: u64) -> bool
    ensures { result ≡ any_two (twins_by R.key (R.live t)) rows.now }
{
    match rows.len() {
        0..=16 => every_pair(rows, t),
        17..=128 => pass::<R, 64>(rows, t, 0, 0),
        _ => passes(rows, t),
    }
}

// Two request rows or two reply rows of one key, both live at the clock.
pub fn has_twins(rows: &[InstanceRow], clock: u64) -> bool
    ensures { result ≡ any_two request_twins (requests (live_rows instance_deadline clock (map instance_of rows.now))) || any_two reply_twins (replies (live_rows instance_deadline clock (map instance_of rows.now))) }
{
    // public by itself, and so beside has_pair: its clause may not change
    has_pair(rows, clock)
}
