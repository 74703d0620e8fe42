// Targets that are collected, each once, in a list with room for eight: how many there are, and where the next one goes.
#![tactic(auto)]

ghost use Rattle.std.specs.Prelude.{◌≡◌, replicate};
ghost use Rattle.plain.specs.Blank.{no_target};
ghost use Rattle.targets.specs.Collected.{place_for, counted, none_yet, targets_in};

use plain::Target;

// Targets, each once: the first `count` of the list, which is an array, as there is no heap.
#[derive(Clone, Copy)]
pub struct Targets {
    // There were more than eight. It stands beside the list, since Gathered (arts::read_targets, gather::gather) tells few, room and padded
    // of the list also where there were more than eight, which may not change.
    pub over: bool,
    // At most 8. Clauses ask it, and no invariant: targ_node::named_in and targets_in make Targets of any Parsed and Count, and may not
    // ask more.
    pub count: usize,
    pub list: [Target; 8],
}

// How many targets are collected. `over`: there were more than eight, as in Targets. The list is apart, as it is lent to the loop that collects.
#[derive(Clone, Copy)]
pub struct Count {
    pub over: bool,
    pub n: usize,
}

// Where the next target goes, behind the n that are collected: to place 8 where there is no room, to 9 where it is listed already.
// Places, and no variants: neither is in the list, so that whoever stores there stores nothing.
pub fn place_for(listed: bool, n: usize) -> usize
    ensures { result ≡ place_for listed n }
{
    if listed { 9 } else { n }
}

// How many are collected, when the next one went to a place.
#[tactic(auto, using(lemmas::proofs::Cases::cases))]
pub fn counted(c: Count, at: usize) -> Count
    ensures { result ≡ counted c at }
{
    match at {
        0..=7 => Count { n: at + 1, ..c },
        8 => Count { over: true, ..c },
        _ => c,
    }
}

// A list with room for eight targets.
#[tactic(auto, using(lemmas::proofs::Cases::cases))]
pub fn blank_list() -> [Target; 8]
    ensures { result ≡ replicate 8 no_target }
{
    [Target::default(); 8]
}

// Nothing is collected yet.
pub fn none_yet() -> Count
    ensures { result ≡ none_yet }
{
    Count { over: false, n: 0 }
}

// The targets that are collected in a list.
pub fn targets_in(list: [Target; 8], c: Count) -> Targets
    ensures { result ≡ targets_in list c }
{
    Targets {
        over: c.over,
        count: c.n,
        list,
    }
}
