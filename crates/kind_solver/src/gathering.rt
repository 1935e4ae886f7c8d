//! The steps and the beginnings of derivations that a list of constraints gives.
#![tactic(auto)]

ghost use Rattle.std.specs.Prelude.{◌≡◌, ◌++◌, IfOk, OnOk, All};
ghost use Rattle.cc_base.specs.declared.kind.Kind.TheVariants.{Safe, Rtti};
ghost use Rattle.kind_solver.specs.Constraints.{allows};
ghost use Rattle.kind_solver.specs.Chains.{edges, origins, edges_of, origins_of, flow_origins, step, both_ways, turns, carries, site};
ghost use Rattle.kind_solver.specs.Order.{PlaceFits};
ghost use Rattle.kind_solver.specs.Tables.{HasFitPlace};

use crate::cause::Cause;
use crate::constraint::{Constraint, Why};
use c_types::FlowClass;
use cc_base::{NoMemory, NodeId, Place};
use std::alloc::Global;

/// A step of a derivation: if `from` is a member, so is `to`.
#[derive(Clone, Copy)]
pub struct Edge {
    pub from: NodeId,
    pub to: NodeId,
}

/// A beginning of a derivation: `node` is a member, and `cause` is why.
#[derive(Clone, Copy)]
pub struct Origin {
    pub node: NodeId,
    pub cause: Cause,
}

/// The kinds of steps.
#[derive(Clone, Copy)]
pub enum Pass {
    /// Among the nodes that need SEQ or WILD.
    Sequence,
    /// From these to the nodes that are then WILD.
    Turn,
    /// Among the nodes that are WILD.
    Wild,
    /// From a node to what it flows into.
    Rise,
    /// Among the nodes that carry a type.
    Type,
}

/// The kinds of beginnings.
#[derive(Clone, Copy)]
pub enum Start {
    /// The nodes that need SEQ or WILD by themselves.
    Sequence,
    /// The nodes that are WILD by themselves.
    Wild,
    /// The targets of Up flows and the sources of Down flows.
    Rise,
    /// The sources of DownTile flows.
    Loose,
    /// The sources of Down and DownTile flows.
    Type,
}

/// The steps that the constraints give, in their order.
pub fn gather_edges(alloc: Global, pass: Pass, list: &[Constraint]) -> Result<Vec<Edge>, NoMemory>
    ensures { IfOk result (λ found. found.items ≡ edges pass list.now) }
{
    let mut found = Vec::new(alloc);
    for constraint in list {
        push_edges(&mut found, pass, *constraint)?;
    }
    Ok(found)
}

/// The beginnings that the constraints give, in their order.
pub fn gather_origins(
    alloc: Global,
    start: Start,
    list: &[Constraint],
) -> Result<Vec<Origin>, NoMemory>
    ensures found { IfOk result (λ found. found.items ≡ origins start list.now) }
    ensures fit { OnOk result (All HasFitPlace list.now) }
{
    let mut found = Vec::new(alloc);
    for constraint in list {
        push_origins(&mut found, start, *constraint)?;
    }
    Ok(found)
}

fn push_step(edges: &mut Vec<Edge>, from: NodeId, to: NodeId) -> Result<(), NoMemory>
    ensures { OnOk result (edges.new.items ≡ edges.old.items ++ step from to) }
{
    edges.push(Edge { from, to })?;
    Ok(())
}

fn push_both_ways(edges: &mut Vec<Edge>, a: NodeId, b: NodeId) -> Result<(), NoMemory>
    ensures { OnOk result (edges.new.items ≡ edges.old.items ++ both_ways a b) }
{
    edges.push(Edge { from: a, to: b })?;
    edges.push(Edge { from: b, to: a })?;
    Ok(())
}

fn push_edges(edges: &mut Vec<Edge>, pass: Pass, constraint: Constraint) -> Result<(), NoMemory>
    ensures { OnOk result (edges.new.items ≡ edges.old.items ++ edges_of pass constraint) }
{
    match pass {
        Pass::Sequence => match constraint {
            Constraint::Flow { from, to, .. } => push_step(edges, to, from),
            Constraint::Equal { a, b } => push_both_ways(edges, a, b),
            _ => Ok(()),
        },
        Pass::Turn => match constraint {
            Constraint::Flow {
                from,
                to,
                class,
                ..
            } => push_turns(edges, from, to, class),
            Constraint::Plain { node } => push_step(edges, node, node),
            _ => Ok(()),
        },
        Pass::Wild => match constraint {
            Constraint::Flow { from, to, .. } => push_both_ways(edges, from, to),
            Constraint::Equal { a, b } => push_both_ways(edges, a, b),
            Constraint::Linked { a, b } => push_both_ways(edges, a, b),
            Constraint::Inside { outer, inner } => push_step(edges, outer, inner),
            _ => Ok(()),
        },
        Pass::Rise => match constraint {
            Constraint::Flow { from, to, .. } => push_step(edges, from, to),
            Constraint::Equal { a, b } => push_both_ways(edges, a, b),
            _ => Ok(()),
        },
        Pass::Type => match constraint {
            Constraint::Flow {
                from,
                to,
                class,
                below,
                ..
            } => push_back(edges, from, to, class, below),
            Constraint::Equal { a, b } => push_both_ways(edges, a, b),
            _ => Ok(()),
        },
    }
}

/// The steps over a flow at a node that needs SEQ, where a SEQ pointer may not take it.
fn push_turns(
    edges: &mut Vec<Edge>,
    from: NodeId,
    to: NodeId,
    class: FlowClass,
) -> Result<(), NoMemory>
    ensures { OnOk result (edges.new.items ≡ edges.old.items ++ turns from to class) }
{
    match class {
        FlowClass::Up => {
            push_step(edges, to, from)?;
            push_step(edges, to, to)
        }
        FlowClass::Down => {
            push_step(edges, to, from)?;
            push_step(edges, to, to)?;
            push_step(edges, from, from)?;
            push_step(edges, from, to)
        }
        _ => Ok(()),
    }
}

/// The step back over a flow into a node that carries a type, where no SAFE pointer may flow in.
fn push_back(
    edges: &mut Vec<Edge>,
    from: NodeId,
    to: NodeId,
    class: FlowClass,
    below: bool,
) -> Result<(), NoMemory>
    ensures { OnOk result (edges.new.items ≡ edges.old.items ++ carries from to class below) }
{
    if takes_safe(class, below) {
        Ok(())
    } else {
        push_step(edges, to, from)
    }
}

/// Whether a SAFE pointer may flow into one that carries a type.
fn takes_safe(class: FlowClass, below: bool) -> bool
    ensures { result ≡ allows Safe Rtti class below }
{
    match class {
        FlowClass::Equal => !below,
        FlowClass::UpTile => !below,
        FlowClass::Up => !below,
        _ => false,
    }
}

fn push_site(
    origins: &mut Vec<Origin>,
    node: NodeId,
    place: Place,
    why: Why,
) -> Result<(), NoMemory>
    ensures { OnOk result (origins.new.items ≡ origins.old.items ++ site node place why) }
{
    let cause = Cause { site: place, why };
    origins.push(Origin { node, cause })?;
    Ok(())
}

fn push_origins(
    origins: &mut Vec<Origin>,
    start: Start,
    constraint: Constraint,
) -> Result<(), NoMemory>
    ensures pushed { OnOk result (origins.new.items
        ≡ origins.old.items ++ origins_of start constraint) }
    ensures fit { HasFitPlace constraint }
{
    match constraint {
        Constraint::Flow {
            from,
            to,
            class,
            place,
            ..
        } => push_flow_origins(origins, start, from, to, class, place),
        Constraint::Needs { node, why, place } => match start {
            Start::Sequence => push_site(origins, node, place, why),
            _ => Ok(()),
        },
        Constraint::Force { node, why, place } => match start {
            Start::Wild => push_site(origins, node, place, why),
            _ => Ok(()),
        },
        _ => Ok(()),
    }
}

fn push_flow_origins(
    origins: &mut Vec<Origin>,
    start: Start,
    from: NodeId,
    to: NodeId,
    class: FlowClass,
    place: Place,
) -> Result<(), NoMemory>
    ensures pushed { OnOk result (origins.new.items ≡ origins.old.items ++ flow_origins start from
        to class place) }
    ensures fit { PlaceFits place }
{
    match (start, class) {
        (Start::Sequence, FlowClass::Tile) => push_site(origins, from, place, Why::Tile),
        (Start::Wild, FlowClass::Bad) => {
            push_site(origins, from, place, Why::Bad)?;
            push_site(origins, to, place, Why::Bad)
        }
        (Start::Rise, FlowClass::Up) => push_site(origins, to, place, Why::Down),
        (Start::Rise, FlowClass::Down) => push_site(origins, from, place, Why::Down),
        (Start::Loose, FlowClass::DownTile) => push_site(origins, from, place, Why::Tile),
        (Start::Type, FlowClass::Down) => push_site(origins, from, place, Why::Down),
        (Start::Type, FlowClass::DownTile) => push_site(origins, from, place, Why::Tile),
        _ => Ok(()),
    }
}
