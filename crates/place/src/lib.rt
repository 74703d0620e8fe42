// Where an accepted call's rows go: 01, "A new row takes the lowest-numbered row that isn't live, a request row before its reply row", and
// whether there is room for them.
#![tactic(auto)]

ghost use Rattle.place.specs.Places.{HasRow, HasRoute, Placed, RoutePlaced};

use row::{InstanceRow, RouteRow};

// Where the row and, where there is one, the reply row behind it go. A struct here and below, and no tuple or Option of an Option: it says which
// number is which.
#[derive(Clone, Copy)]
pub struct Places {
    pub first: usize,
    pub second: Option<usize>,
}

// Where the route goes, where there is one.
#[derive(Clone, Copy)]
pub struct RoutePlace {
    pub hop: Option<usize>,
}

// In the place of the live row at `at`, else at the lowest row that is not live; the reply row at the lowest one left. None where there is no room.
pub fn place_rows(rows: &[InstanceRow], t: u64, at: Option<usize>, replies: bool) -> Option<Places>
    requires { HasRow rows.now t at }
    ensures { Placed rows.now t at replies result }
{
    let (first, rest) = match at {
        Some(live) => (live, 0),
        None => {
            let new = find::find_spare(rows, t, 0)?;
            (new, new + 1)
        }
    };
    let second = if replies {
        Some(find::find_spare(rows, t, rest)?)
    } else {
        None
    };
    Some(Places { first, second })
}

// In the place of the live route at `at`, else at the lowest row that is not live; nowhere where there is no route to store. None where there is no
// room. Whether a route is to be stored (`routed`) and whether one is live (`at`) are two things.
pub fn place_route(
    routes: &[RouteRow],
    t: u64,
    routed: bool,
    at: Option<usize>,
) -> Option<RoutePlace>
    requires { HasRoute routes.now t at }
    ensures { RoutePlaced routes.now t routed at result }
{
    if !routed {
        return Some(RoutePlace { hop: None });
    }
    let hop = match at {
        Some(live) => live,
        None => find_route::find_spare_route(routes, t)?,
    };
    Some(RoutePlace { hop: Some(hop) })
}
