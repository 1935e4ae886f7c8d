//! First causes, spread along the steps of a derivation.
#![tactic(auto)]

ghost use Rattle.std.specs.Prelude.{ℕ, ◌≡◌, ◌<◌, ◌≤◌, IfOk, length, MatchBool, sum_by};
ghost use Rattle.kind_solver.specs.Order.{late};
ghost use Rattle.kind_solver.specs.Chains.{Chain};
ghost use Rattle.kind_solver.specs.Tables.{EdgesWithin, OriginsWithin, OriginsFit, Offered, Spread, Comes, Falls, IsClosed, IsEarliest, HoldsOrigins, Shows, IsEmptyTable};

use crate::cause::{Cause, is_earlier};
use crate::gathering::{Edge, Origin};
use cc_base::NoMemory;
use std::alloc::Global;

/// For each of the first `count` nodes the first cause from which a chain leads to it.
pub fn first_causes(
    alloc: Global,
    count: u32,
    origins: &[Origin],
    edges: &[Edge],
) -> Result<Vec<Option<Cause>>, NoMemory>
    requires origins_within { OriginsWithin count origins.now }
    requires edges_within { EdgesWithin count edges.now }
    requires fit { OriginsFit origins.now }
    ensures { IfOk result (λ causes. Shows (Chain origins.now edges.now) count causes.items) }
{
    let mut causes = vec![in alloc; None; count as usize]?;
    settle(&mut causes, origins, edges);
    Ok(causes)
}

/// Puts the first causes into a table that has none.
fn settle(causes: &mut [Option<Cause>], origins: &[Origin], edges: &[Edge])
    requires empty { IsEmptyTable causes.old }
    requires origins_within { OriginsWithin (length causes.old) origins.now }
    requires edges_within { EdgesWithin (length causes.old) edges.now }
    requires fit { OriginsFit origins.now }
    ensures { Shows (Chain origins.now edges.now) (length causes.old) causes.new }
{
    offer_all(causes, origins);
    spread(causes, edges);
}

/// Gives each origin's node the earliest of its origins' causes.
fn offer_all(causes: &mut [Option<Cause>], origins: &[Origin])
    requires empty { IsEmptyTable causes.old }
    requires within { OriginsWithin (length causes.old) origins.now }
    ensures { HoldsOrigins origins.now (length causes.old) causes.new }
{
    for origin in origins {
        offer(causes, *origin);
    }
}

/// Gives the origin's node its cause, where that is earlier.
fn offer(causes: &mut [Option<Cause>], origin: Origin)
    requires { origin.node.0 < length causes.old }
    ensures { Offered origin causes.old causes.new }
{
    let node = origin.node.0 as usize;
    if is_earlier(Some(origin.cause), causes[node]) {
        causes[node] = Some(origin.cause);
    }
}

/// Spreads the causes along the edges, until each node has the earliest that leads to it.
fn spread(causes: &mut [Option<Cause>], edges: &[Edge])
    requires { EdgesWithin (length causes.old) edges.now }
    ensures comes { Comes edges.now causes.old causes.new }
    ensures earliest { IsEarliest edges.now causes.old causes.new }
{
    while spread_round(causes, edges) {}
}

/// Goes along each edge once, and says whether a cause changed.
fn spread_round(causes: &mut [Option<Cause>], edges: &[Edge]) -> bool
    requires { EdgesWithin (length causes.old) edges.now }
    ensures comes { Comes edges.now causes.old causes.new }
    ensures falls { Falls causes.old causes.new }
    ensures cases { MatchBool result (sum_by late causes.new < sum_by late causes.old)
        (IsClosed edges.now causes.new) }
{
    let mut changed = false;
    for edge in edges {
        changed |= spread_along(causes, *edge);
    }
    changed
}

/// Gives the node at the end of an edge the cause of the node at its beginning, where that is
/// earlier, and says whether it was.
fn spread_along(causes: &mut [Option<Cause>], edge: Edge) -> bool
    requires from { edge.from.0 < length causes.old }
    requires to { edge.to.0 < length causes.old }
    ensures { Spread edge causes.old causes.new result }
{
    let cause = causes[edge.from.0 as usize];
    let to = edge.to.0 as usize;
    let earlier = is_earlier(cause, causes[to]);
    if earlier {
        causes[to] = cause;
    }
    earlier
}
