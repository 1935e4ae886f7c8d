//! The constraints on what a WILD node holds, and on nodes that mixed unions make WILD.
#![tactic(auto)]

ghost use Rattle.std.specs.Prelude.{◌≡◌, OnOk};
ghost use Rattle.std.specs.List.{Contains};
ghost use Rattle.c_types.specs.Table.{IsType};
ghost use Rattle.kind_solver.specs.declared.constraint.Constraint.TheVariants.{Inside, Force};
ghost use Rattle.kind_solver.specs.declared.constraint.Why.TheVariants.{Union};
ghost use Rattle.kind_constraints.specs.Adding.{Adds, OfSome};
ghost use Rattle.kind_constraints.specs.Pieces.{IsOfContents};
ghost use Rattle.kind_constraints.specs.Asked.{IsReady};

use crate::asked::Asked;
use crate::held::held_nodes;
use cc_base::{NoMemory, NodeId, Place, TypeId};
use kind_solver::{Constraint, Why};

/// Adds that each of the nodes is WILD where `outer` is.
fn add_inner(
    list: &mut Vec<Constraint>,
    outer: NodeId,
    nodes: &[(NodeId, NodeId)],
) -> Result<(), NoMemory>
    ensures { OnOk result
        (Adds (OfSome nodes.now (λ pair c. c ≡ Inside outer pair.0))
        list.old.items list.new.items) }
{
    'nodes: for node in nodes {
        list.push(Constraint::Inside {
            outer,
            inner: node.0,
        })?;
    }
    Ok(())
}

/// Adds that the node is WILD because of a union, if that is among the mixed ones.
fn add_force(
    list: &mut Vec<Constraint>,
    node: NodeId,
    mixed: &[TypeId],
    union: (TypeId, Place),
) -> Result<(), NoMemory>
    ensures { OnOk result
        (Adds (λ c. Contains mixed.now union.0 × (c ≡ Force node Union union.1))
        list.old.items list.new.items) }
{
    if mixed.contains(&union.0) {
        list.push(Constraint::Force {
            node,
            why: Why::Union,
            place: union.1,
        })?;
    }
    Ok(())
}

/// Adds that the node is WILD because of each of the unions that is among the mixed ones.
fn add_forces(
    list: &mut Vec<Constraint>,
    node: NodeId,
    mixed: &[TypeId],
    unions: &[(TypeId, Place)],
) -> Result<(), NoMemory>
    ensures { OnOk result
        (Adds (OfSome unions.now (λ union c. Contains mixed.now union.0
        × (c ≡ Force node Union union.1)))
        list.old.items list.new.items) }
{
    if mixed.is_empty() {
        return Ok(());
    }
    'unions: for union in unions {
        add_force(list, node, mixed, *union)?;
    }
    Ok(())
}

/// Adds what a node gives that points to a type, or is the home of an object of the type.
pub(crate) fn add_contents(
    asked: &Asked,
    list: &mut Vec<Constraint>,
    node: NodeId,
    ty: TypeId,
) -> Result<(), NoMemory>
    requires asked { IsReady asked.now }
    requires typed { IsType asked.now.types.now ty }
    ensures { OnOk result
        (Adds (IsOfContents asked.now.types.now asked.now.sites.now node ty)
        list.old.items list.new.items) }
{
    let nodes = held_nodes(asked.alloc, &asked.known, asked.types, ty)?;
    add_inner(list, node, &nodes)?;
    let mixed = asked.known.mixed_unions(ty)?;
    add_forces(list, node, &mixed, &asked.unions)
}
