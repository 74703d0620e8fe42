// What the table of routes holds for a call: the live route of its key.
// The parts of a key stay parameters: the rules' definitions take them one by one (route_seen), as the clauses do.
#![tactic(auto)]

ghost use Rattle.std.specs.Prelude.{◌≡◌, ℕ, ◌≤◌};
ghost use Rattle.search_route.specs.Seen.{route_seen, LiveRoute};
ghost use Rattle.message.specs.Message.{route_found};

use message::Found;
use row::RouteRow;

// The live route of a key.
pub fn search_route(
    routes: &[RouteRow],
    t: u64,
    source: [u8; 16],
    destination: [u8; 16],
    instance: u8,
) -> Option<Found<RouteRow>>
    ensures found { (clock : ℕ) → clock ≤ t → route_found result ≡ route_seen clock routes.now t source destination instance }
    ensures here { LiveRoute routes.now t result }
{
    // by itself, as the three of crates/search
    let at = find_route::find_route(routes, t, source, destination, instance)?;
    Some(Found {
        at,
        row: routes[at],
    })
}
