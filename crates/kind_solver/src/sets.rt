//! The three sets that the kinds are read off, each with its first causes.
#![tactic(auto)]

ghost use Rattle.std.specs.Prelude.{◌≡◌, ◌++◌, ◌<◌, IfOk, OnOk, length, filter};
ghost use Rattle.std.specs.List.{flat_map};
ghost use Rattle.kind_solver.specs.Constraints.{AreWithin};
ghost use Rattle.kind_solver.specs.Chains.{edges, origins, Chain};
ghost use Rattle.kind_solver.specs.Sets.{FirstNeedFrom, WildFrom, RisesFrom, NeedFrom, TypeFrom};
ghost use Rattle.kind_solver.specs.Tables.{Shows, OriginsWithin, EdgesWithin, across, across_from, is_outside, free_origins};

use crate::cause::Cause;
use crate::constraint::Constraint;
use crate::gathering::{Edge, Origin, Pass, Start, gather_edges, gather_origins};
use crate::spreading::first_causes;
use cc_base::NoMemory;
use std::alloc::Global;

/// The first causes of the nodes that some steps reach from some beginnings.
pub fn chain_causes(
    alloc: Global,
    count: u32,
    list: &[Constraint],
    start: Start,
    pass: Pass,
) -> Result<Vec<Option<Cause>>, NoMemory>
    requires { AreWithin count list.now }
    ensures { IfOk result (λ causes. Shows (Chain (origins start list.now) (edges pass list.now))
        count causes.items) }
{
    let origins = gather_origins(alloc, start, list)?;
    let edges = gather_edges(alloc, pass, list)?;
    first_causes(alloc, count, &origins, &edges)
}

/// The first causes of the nodes that have to be WILD.
pub fn wild_causes(
    alloc: Global,
    count: u32,
    list: &[Constraint],
    first: &[Option<Cause>],
) -> Result<Vec<Option<Cause>>, NoMemory>
    requires within { AreWithin count list.now }
    requires first { Shows (FirstNeedFrom list.now) count first.now }
    ensures { IfOk result (λ causes. Shows (WildFrom list.now) count causes.items) }
{
    let mut origins = gather_origins(alloc, Start::Wild, list)?;
    let turns = gather_edges(alloc, Pass::Turn, list)?;
    push_across(&mut origins, &turns, first)?;
    let edges = gather_edges(alloc, Pass::Wild, list)?;
    first_causes(alloc, count, &origins, &edges)
}

/// The first causes of the nodes that need SEQ or WILD.
pub fn need_causes(
    alloc: Global,
    count: u32,
    list: &[Constraint],
    first: &[Option<Cause>],
    wild: &[Option<Cause>],
    rises: &[Option<Cause>],
) -> Result<Vec<Option<Cause>>, NoMemory>
    requires within { AreWithin count list.now }
    requires first { Shows (FirstNeedFrom list.now) count first.now }
    requires wild { Shows (WildFrom list.now) count wild.now }
    requires rises { Shows (RisesFrom list.now) count rises.now }
    ensures { IfOk result (λ causes. Shows (NeedFrom list.now) count causes.items) }
{
    let mut origins = gather_origins(alloc, Start::Sequence, list)?;
    let loose = gather_origins(alloc, Start::Loose, list)?;
    push_free(alloc, &mut origins, &loose, first, wild, rises)?;
    let edges = gather_edges(alloc, Pass::Sequence, list)?;
    first_causes(alloc, count, &origins, &edges)
}

/// The first causes of the nodes that carry a type where they are in neither of the other sets.
pub fn type_causes(
    alloc: Global,
    count: u32,
    list: &[Constraint],
    needs: &[Option<Cause>],
    wild: &[Option<Cause>],
) -> Result<Vec<Option<Cause>>, NoMemory>
    requires within { AreWithin count list.now }
    requires needs { Shows (NeedFrom list.now) count needs.now }
    requires wild { Shows (WildFrom list.now) count wild.now }
    ensures { IfOk result (λ causes. Shows (TypeFrom list.now) count causes.items) }
{
    let sources = gather_origins(alloc, Start::Type, list)?;
    let others = outside(alloc, &sources, needs)?;
    let origins = outside(alloc, &others, wild)?;
    let edges = gather_edges(alloc, Pass::Type, list)?;
    first_causes(alloc, count, &origins, &edges)
}

/// The origins that lead over the edges from the nodes that have a cause.
fn push_across(
    origins: &mut Vec<Origin>,
    edges: &[Edge],
    causes: &[Option<Cause>],
) -> Result<(), NoMemory>
    requires { EdgesWithin (length causes.now) edges.now }
    ensures { OnOk result (origins.new.items ≡ origins.old.items ++ flat_map
        (across causes.now) edges.now) }
{
    for edge in edges {
        push_at(origins, *edge, causes[edge.from.0 as usize])?;
    }
    Ok(())
}

/// The origin at the end of an edge, if the node at its beginning has a cause.
fn push_at(origins: &mut Vec<Origin>, edge: Edge, cause: Option<Cause>) -> Result<(), NoMemory>
    ensures { OnOk result (origins.new.items ≡ origins.old.items ++ across_from cause edge) }
{
    if let Some(cause) = cause {
        origins.push(Origin {
            node: edge.to,
            cause,
        })?;
    }
    Ok(())
}

/// The loose origins that none of the three tables has a cause for.
fn push_free(
    alloc: Global,
    origins: &mut Vec<Origin>,
    loose: &[Origin],
    first: &[Option<Cause>],
    wild: &[Option<Cause>],
    rises: &[Option<Cause>],
) -> Result<(), NoMemory>
    requires first { OriginsWithin (length first.now) loose.now }
    requires wild { OriginsWithin (length wild.now) loose.now }
    requires rises { OriginsWithin (length rises.now) loose.now }
    ensures { OnOk result (origins.new.items ≡ origins.old.items ++ free_origins first.now wild.now
        rises.now loose.now) }
{
    let without_needs = outside(alloc, loose, first)?;
    let without_wild = outside(alloc, &without_needs, wild)?;
    let free = outside(alloc, &without_wild, rises)?;
    origins.extend_from_slice(&free)?;
    Ok(())
}

/// The origins whose nodes have no cause in the table.
fn outside(
    alloc: Global,
    origins: &[Origin],
    causes: &[Option<Cause>],
) -> Result<Vec<Origin>, NoMemory>
    requires { OriginsWithin (length causes.now) origins.now }
    ensures { IfOk result (λ kept. kept.items ≡ filter (is_outside causes.now) origins.now) }
{
    let mut kept = Vec::new(alloc);
    for origin in origins {
        if causes[origin.node.0 as usize].is_none() {
            kept.push(*origin)?;
        }
    }
    Ok(kept)
}
