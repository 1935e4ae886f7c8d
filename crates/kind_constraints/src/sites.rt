//! The constraints of one site.
#![tactic(auto)]

ghost use Rattle.std.specs.Prelude.{◌≡◌, ◌⊎◌, ℕ, OnOk, IsTrue};
ghost use Rattle.c_types.specs.Table.{IsType, is_function};
ghost use Rattle.kind_solver.specs.declared.constraint.Constraint.TheVariants.{Plain};
ghost use Rattle.kind_constraints.specs.Adding.{Adds};
ghost use Rattle.kind_constraints.specs.Pieces.{IsOfContents, IsOfFlow, IsGivenBy};
ghost use Rattle.kind_constraints.specs.Asked.{IsReady, IsAnswered};
ghost use Rattle.cil_form.specs.Shape.{IsSiteInShape};

use crate::answered::{Answered, below_of, class_of};
use crate::asked::Asked;
use crate::contents::add_contents;
use c_types::{TypeShape, Types};
use cc_base::{NoMemory, NodeId, Place, TypeId};
use kind_sites::Site;
use kind_solver::{Constraint, Why};

fn push(list: &mut Vec<Constraint>, constraint: Constraint) -> Result<(), NoMemory>
    ensures { OnOk result (Adds (λ c. c ≡ constraint) list.old.items list.new.items) }
{
    list.push(constraint)?;
    Ok(())
}

/// Adds the condition on a flow between pointers of these nodes to these types.
fn add_flow(
    asked: &Asked,
    answered: &mut Answered,
    list: &mut Vec<Constraint>,
    source: (NodeId, TypeId),
    target: (NodeId, TypeId),
    place: Place,
) -> Result<(), NoMemory>
    requires asked { IsReady asked.now }
    requires from { IsType asked.now.types.now source.1 }
    requires to { IsType asked.now.types.now target.1 }
    requires answered { IsAnswered asked.now.types.now asked.now.sites.now answered.old }
    ensures added { OnOk result
        (Adds (IsOfFlow asked.now.types.now asked.now.sites.now source.0 source.1 target.0 target.1
        place)
        list.old.items list.new.items) }
    ensures answered { OnOk result
        (IsAnswered asked.now.types.now asked.now.sites.now answered.new) }
{
    let class = class_of(asked, answered, source.1, target.1)?;
    let below = below_of(asked, answered, source.1)?;
    push(
        list,
        Constraint::Flow {
            from: source.0,
            to: target.0,
            class,
            below,
            place,
        },
    )
}

/// Whether a type is a function type.
fn is_function(types: &Types, t: TypeId) -> bool
    requires { IsType types.now t }
    ensures { result ≡ is_function types.now t }
{
    matches!(types.shape(t), TypeShape::Function(_, _))
}

/// Adds what a pointer to a type gives; a function pointer is SAFE or WILD.
fn add_pointer(
    asked: &Asked,
    list: &mut Vec<Constraint>,
    node: NodeId,
    ty: TypeId,
) -> Result<(), NoMemory>
    requires asked { IsReady asked.now }
    requires typed { IsType asked.now.types.now ty }
    ensures { OnOk result
        (Adds (λ c. IsOfContents asked.now.types.now asked.now.sites.now node ty c
        ⊎ (IsTrue (is_function asked.now.types.now ty) × (c ≡ Plain node)))
        list.old.items list.new.items) }
{
    add_contents(asked, list, node, ty)?;
    if is_function(asked.types, ty) {
        push(list, Constraint::Plain { node })?;
    }
    Ok(())
}

/// Adds what the home of an object gives, which is SAFE or WILD.
fn add_home(
    asked: &Asked,
    list: &mut Vec<Constraint>,
    node: NodeId,
    ty: TypeId,
) -> Result<(), NoMemory>
    requires asked { IsReady asked.now }
    requires typed { IsType asked.now.types.now ty }
    ensures { OnOk result
        (Adds (λ c. IsOfContents asked.now.types.now asked.now.sites.now node ty c
        ⊎ (c ≡ Plain node))
        list.old.items list.new.items) }
{
    add_contents(asked, list, node, ty)?;
    push(list, Constraint::Plain { node })
}

/// Adds the constraints other than equalities that a site gives.
pub(crate) fn add_given(
    asked: &Asked,
    answered: &mut Answered,
    list: &mut Vec<Constraint>,
    site: Site,
) -> Result<(), NoMemory>
    requires asked { IsReady asked.now }
    requires shaped { (nodes : ℕ) × IsSiteInShape asked.now.types.now nodes site }
    requires answered { IsAnswered asked.now.types.now asked.now.sites.now answered.old }
    ensures added { OnOk result
        (Adds (IsGivenBy asked.now.types.now asked.now.sites.now site)
        list.old.items list.new.items) }
    ensures answered { OnOk result
        (IsAnswered asked.now.types.now asked.now.sites.now answered.new) }
{
    match site {
        Site::Flow {
            from,
            from_ty,
            to,
            to_ty,
            place,
        } => add_flow(asked, answered, list, (from, from_ty), (to, to_ty), place),
        Site::Arith { node, place } => push(
            list,
            Constraint::Needs {
                node,
                why: Why::Arith,
                place,
            },
        ),
        Site::Integer { node, place } => push(
            list,
            Constraint::Needs {
                node,
                why: Why::Integer,
                place,
            },
        ),
        Site::Linked { a, b } => push(list, Constraint::Linked { a, b }),
        Site::Pointee { node, ty } => add_pointer(asked, list, node, ty),
        Site::Home { node, ty } => add_home(asked, list, node, ty),
        _ => Ok(()),
    }
}
