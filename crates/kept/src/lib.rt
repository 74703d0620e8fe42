// Which targets are kept of others, in their order (01, "A request").
#![tactic(auto)]

ghost use Rattle.std.specs.Prelude.{◌+◌, ◌≤◌, ◌<◌, cond, [], ◌∷◌, ◌++◌};
ghost use Rattle.plain.specs.Blank.{Padded};
ghost use Rattle.plain.specs.Request.{common};
ghost use Rattle.kept.specs.Kept.{list_of, Kept, Nothing};

use plain::Target;
use targets::Targets;

// No targets: what is kept begins with these.
pub fn nothing() -> Targets
    ensures { Nothing result }
{
    Targets {
        over: false,
        count: 0,
        list: targets::blank_list(),
    }
}

// The targets with one more, if it is to be kept.
#[tactic(auto, using(lemmas::proofs::Cases::cases, targets::proofs::Laws::padded_more))]
pub fn keep_if(kept: Targets, t: Target, keep: bool) -> Targets
    requires { (kept.count < 8) × Padded kept.count kept.list }
    ensures { Kept (cond keep (list_of kept ++ (t ∷ [])) (list_of kept)) result × (result.count ≤ kept.count + 1) }
{
    let mut next = Targets {
        over: false,
        ..kept
    };
    if keep {
        next.list[next.count] = t;
        next.count += 1;
    }
    next
}

// The targets of a message that are also in the row, in the message's order and with its Dest SeqNos. A loop, and no
// `filter`: there is no heap to collect in.
#[tactic(auto, using(lemmas::proofs::Cases::cases, crate::proofs::Sifted::sift_end), unfolding(plain::specs::Request::common))]
pub fn common(ts: Targets, row: Targets) -> Targets
    requires count_bound { ts.count ≤ 8 }
    requires count_bound_2 { row.count ≤ 8 }
    ensures { Kept (common (list_of ts) (list_of row)) result }
{
    let mut kept = nothing();
    for t in &ts.list[..ts.count] {
        kept = keep_if(kept, *t, collect::is_listed(*t, &row.list[..row.count]));
    }
    kept
}
