// What the rules decide of a call that they answer 0, by value: the records to store, our number, and what is sent. Where the records go,
// and whether there is room for them, is decided by whoever holds the tables.
#![tactic(auto)]

ghost use Rattle.std.specs.Prelude.{◌≡◌};
ghost use Rattle.answer.specs.Answer.{destination_of};
ghost use Rattle.decision.specs.Decision.{post_to};

use answer::Destination;
use message::Parsed;
use row::{InstanceRow, ReplyFields, RouteRow};

// What goes into a buffer.
#[derive(Clone, Copy)]
pub enum Post {
    Nothing,
    // A message. Its vector is the first addresses of the received message's, with our own added where `grown`.
    Dio {
        message: Parsed,
        grown: bool,
        to: Destination,
    },
    // OrigNode's path, to the caller: the first n addresses of the received message's, turned round where `turned`.
    Path {
        n: usize,
        turned: bool,
    },
}

// What is stored: a row, a reply row behind it and a route, where there are any, and our number.
#[derive(Clone, Copy)]
pub struct Decided {
    pub row: InstanceRow,
    pub second: Option<ReplyFields>,
    pub route: Option<RouteRow>,
    pub seq: u8,
}

// Where a Post is to go.
pub fn destination(p: &Post) -> Destination
    ensures { destination_of result ≡ post_to p.now }
{
    match p {
        Post::Nothing => Destination::Nowhere,
        Post::Dio { to, .. } => *to,
        Post::Path { .. } => Destination::Caller,
    }
}
