// What a call answers: one of 01's numbers, and where what was written is to go.
#![tactic(auto)]

ghost use Rattle.std.specs.Prelude.{◌≡◌};
ghost use Rattle.plain.specs.Given as given;
ghost use Rattle.answer.specs.Answer.{answer_number, destination_of};

// 01, "Answer numbers": the table's lines.
#[derive(Clone, Copy, PartialEq, Eq)]
pub enum Answer {
    Done,
    BadCall,
    WrongState,
    Malformed,
    Unfit,
    BadDodagid,
    TooMany,
    OwnDodagid,
    NoPartner,
    Loop,
    CannotElide,
    LinkNotGood,
    RankRefused,
    Stale,
    NothingNew,
    NoDelta,
    VectorFull,
    NoRow,
}

// 01's number of an answer.
#[tactic(auto, using(lemmas::proofs::Cases::cases))]
pub fn number(a: Answer) -> u8
    ensures { result ≡ answer_number a }
{
    // a function, and no From: its clause is the rules' word; written out, as the numbers stand in 01's table
    match a {
        Answer::Done => 0,
        Answer::BadCall => 1,
        Answer::WrongState => 2,
        Answer::Malformed => 3,
        Answer::Unfit => 4,
        Answer::BadDodagid => 5,
        Answer::TooMany => 6,
        Answer::OwnDodagid => 7,
        Answer::NoPartner => 8,
        Answer::Loop => 9,
        Answer::CannotElide => 10,
        Answer::LinkNotGood => 11,
        Answer::RankRefused => 12,
        Answer::Stale => 13,
        Answer::NothingNew => 14,
        Answer::NoDelta => 15,
        Answer::VectorFull => 16,
        Answer::NoRow => 17,
    }
}

// Where a buffer's octets are to go: "whether to the group, to which neighbour, to the caller (OrigNode's path) or, at length 0, nowhere".
#[derive(Clone, Copy)]
pub enum Destination {
    Nowhere,
    Group,
    Neighbour([u8; 16]),
    Caller,
}

pub fn to_group() -> Destination
    ensures { destination_of result ≡ given.Destination.group }
{
    Destination::Group
}
