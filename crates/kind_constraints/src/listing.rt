//! All constraints of a program, in their order.
#![tactic(auto)]

ghost use Rattle.std.specs.Prelude.{◌≡◌, ◌↔◌, [], IfOk, OnOk};
ghost use Rattle.cc_base.specs.declared.number.NodeId.{NodeId};
ghost use Rattle.cc_base.specs.declared.number.TypeId.{TypeId};
ghost use Rattle.cc_base.specs.declared.kind.Kind.{Kind};
ghost use Rattle.c_types.specs.Table.{IsType};
ghost use Rattle.kind_solver.specs.Constraints.{AreWithin, MeetsAll, PlainApart};
ghost use Rattle.cil_form.specs.Told.{IsToldOf, IsSolutionOf};
ghost use Rattle.constraint_laws.specs.Given.{AreGiven};
ghost use Rattle.kind_solver.specs.declared.constraint.Constraint.TheVariants.{Equal};
ghost use Rattle.kind_constraints.specs.Adding.{Adds, OfSome};
ghost use Rattle.kind_constraints.specs.Pieces.{IsPointee, IsGivenBy, IsUnlike};
ghost use Rattle.kind_constraints.specs.Asked.{IsAsked, IsReady, IsAnswered, AreShaped, AreTold};

use crate::answered::{Answered, nothing};
use crate::asked::Asked;
use crate::below::pointees_of;
use crate::sites::add_given;
use crate::tops::equal_nodes;
use crate::unions::union_places;
use c_types::Types;
use cc_base::{NoMemory, NodeId};
use cil_form::Cil;
use kind_sites::Site;
use kind_solver::Constraint;
use phys_types::Phys;
use std::alloc::Global;

/// Adds that two nodes are of one kind, unless they are one node.
fn add_equality(list: &mut Vec<Constraint>, pair: (NodeId, NodeId)) -> Result<(), NoMemory>
    ensures { OnOk result (Adds (IsUnlike pair) list.old.items list.new.items) }
{
    if pair.0.0 != pair.1.0 {
        list.push(Constraint::Equal {
            a: pair.0,
            b: pair.1,
        })?;
    }
    Ok(())
}

/// Adds that the nodes of each pair are of one kind.
fn add_equalities(list: &mut Vec<Constraint>, pairs: &[(NodeId, NodeId)]) -> Result<(), NoMemory>
    ensures { OnOk result (Adds (OfSome pairs.now IsUnlike) list.old.items list.new.items) }
{
    'pairs: for pair in pairs {
        add_equality(list, *pair)?;
    }
    Ok(())
}

/// The constraints other than equalities that the sites give, one after another.
fn given(asked: &Asked, answered: &mut Answered) -> Result<Vec<Constraint>, NoMemory>
    requires asked { IsReady asked.now }
    requires shaped { AreShaped asked.now }
    requires answered { IsAnswered asked.now.types.now asked.now.sites.now answered.old }
    ensures given { IfOk result
        (λ list. Adds (OfSome asked.now.sites.now
        (IsGivenBy asked.now.types.now asked.now.sites.now)) [] list.items) }
    ensures answered { OnOk result
        (IsAnswered asked.now.types.now asked.now.sites.now answered.new) }
{
    let mut list = Vec::new(asked.alloc);
    'sites: for site in asked.sites {
        add_given(asked, answered, &mut list, *site)?;
    }
    Ok(list)
}

/// All constraints of a program.
fn list_of(asked: &Asked) -> Result<Vec<Constraint>, NoMemory>
    requires asked { IsReady asked.now }
    requires told { AreTold asked.now }
    ensures { IfOk result (λ list. AreGiven asked.now.types.now asked.now.sites.now list.items) }
{
    let mut answered = nothing(asked.alloc);
    let mut list = given(asked, &mut answered)?;
    let pairs = equal_nodes(asked, &mut answered)?;
    add_equalities(&mut list, &pairs)?;
    Ok(list)
}

/// What is known of a program before its sites are gone through.
fn ask<'a>(
    alloc: Global,
    types: &'a Types,
    sites: &'a [Site],
    phys: &Phys,
) -> Result<Asked<'a>, NoMemory>
    requires { (t : TypeId) → IsPointee sites.now t → IsType types.now t }
    ensures asked { IfOk result
        (λ asked. IsAsked types.now sites.now asked.known asked.firsts.items asked.pointees.items
        asked.unions.items) }
    ensures same { IfOk result
        (λ asked. (asked.types.now ≡ types.now) × (asked.sites.now ≡ sites.now)) }
{
    let known = phys.over(types)?;
    let firsts = known.first_equals()?;
    let pointees = pointees_of(alloc, &firsts, sites)?;
    let unions = union_places(alloc, sites)?;
    Ok(Asked {
        alloc,
        types,
        sites,
        known,
        firsts,
        pointees,
        unions,
    })
}

/// The constraints on the kinds of a program's nodes (CCured, TOPLAS 2005), whose sites tell all of its types and objects: a map from
/// nodes to kinds meets them exactly where it is a solution of the program.
pub fn constraints(alloc: Global, code: &Cil, phys: &Phys) -> Result<Vec<Constraint>, NoMemory>
    requires { IsToldOf code.now }
    ensures within { IfOk result (λ list. AreWithin code.now.nodes list.items) }
    ensures members { IfOk result (λ list. AreGiven code.now.types code.now.sites list.items) }
    ensures solutions { (kind : NodeId → Kind) → IfOk result
        (λ list. MeetsAll kind list.items ↔ IsSolutionOf code.now kind) }
    ensures apart { IfOk result (λ list. PlainApart list.items) }
{
    let program = code.program();
    let asked = ask(alloc, &program.types, &program.sites.0, phys)?;
    list_of(&asked)
}
