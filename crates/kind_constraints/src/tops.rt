//! The pairs of nodes that have to be of one kind, found from the sites on.
#![tactic(auto)]

ghost use Rattle.std.specs.Prelude.{◌≡◌, ◌↔◌, ℕ, Some, IfOk, OnOk, IsTrue};
ghost use Rattle.std.specs.List.{Contains};
ghost use Rattle.cc_base.specs.declared.number.NodeId.{NodeId};
ghost use Rattle.cc_base.specs.declared.number.TypeId.{TypeId};
ghost use Rattle.kind_sites.specs.declared.site.Site.TheVariants.{Same};
ghost use Rattle.c_types.specs.Table.{IsType};
ghost use Rattle.c_types.specs.Equality.{physically_equal};
ghost use Rattle.phys_types.specs.Found.{Gains};
ghost use Rattle.cil_form.specs.Shape.{IsSiteInShape};
ghost use Rattle.constraint_laws.specs.Given.{AreOfOneCell};
ghost use Rattle.kind_constraints.specs.Adding.{Adds, RelatedBySome};
ghost use Rattle.kind_constraints.specs.Pieces.{ArePairs, flow_pair_of, IsFlowTop, IsOtherTop};
ghost use Rattle.kind_constraints.specs.Asked.{IsReady, AreTold, IsAnswered};

use crate::answered::{Answered, class_of};
use crate::asked::Asked;
use crate::unions::add_union;
use cc_base::{NoMemory, NodeId, TypeId};
use indexmap::IndexSet;
use kind_sites::Site;
use phys_types::Found;
use std::alloc::Global;

/// Adds the types that a flow goes between, if the site is a flow.
fn add_pair(pairs: &mut IndexSet<(TypeId, TypeId)>, site: Site) -> Result<(), NoMemory>
    ensures { OnOk result (Adds (λ x. flow_pair_of site ≡ Some x) pairs.old.keys pairs.new.keys) }
{
    if let Site::Flow { from_ty, to_ty, .. } = site {
        pairs.insert((from_ty, to_ty))?;
    }
    Ok(())
}

/// The pairs of types that flows go between, each once.
fn flow_pairs(alloc: Global, sites: &[Site]) -> Result<IndexSet<(TypeId, TypeId)>, NoMemory>
    ensures { IfOk result (λ pairs. ArePairs sites.now pairs.keys) }
{
    let mut pairs = IndexSet::new(alloc);
    'sites: for site in sites {
        add_pair(&mut pairs, *site)?;
    }
    Ok(pairs)
}

/// Adds the pointers that correspond in a flow between two types, but not those that they lead to.
fn add_flow_top(
    asked: &Asked,
    answered: &mut Answered,
    found: &mut Found,
    pair: (TypeId, TypeId),
) -> Result<(), NoMemory>
    requires asked { IsReady asked.now }
    requires from { IsType asked.now.types.now pair.0 }
    requires to { IsType asked.now.types.now pair.1 }
    requires answered { IsAnswered asked.now.types.now asked.now.sites.now answered.old }
    ensures added { OnOk result (Gains (IsFlowTop asked.now.types.now pair) found.old found.new) }
    ensures answered { OnOk result
        (IsAnswered asked.now.types.now asked.now.sites.now answered.new) }
{
    let class = class_of(asked, answered, pair.0, pair.1)?;
    asked.known.add_flow(found, class, pair.0, pair.1)
}

/// Adds the pointers that correspond in flows between these types, but not those that they lead to.
fn add_flow_tops(
    asked: &Asked,
    answered: &mut Answered,
    found: &mut Found,
    pairs: &[(TypeId, TypeId)],
) -> Result<(), NoMemory>
    requires asked { IsReady asked.now }
    requires from { (x : TypeId × TypeId) → Contains pairs.now x → IsType asked.now.types.now x.0 }
    requires to { (x : TypeId × TypeId) → Contains pairs.now x → IsType asked.now.types.now x.1 }
    requires answered { IsAnswered asked.now.types.now asked.now.sites.now answered.old }
    ensures { OnOk result
        (Gains (RelatedBySome pairs.now (IsFlowTop asked.now.types.now)) found.old found.new) }
{
    'pairs: for pair in pairs {
        add_flow_top(asked, answered, found, *pair)?;
    }
    Ok(())
}

/// Adds the pointers that a site other than a flow makes correspond, but not those that they lead to.
fn add_other_top(asked: &Asked, found: &mut Found, site: Site) -> Result<(), NoMemory>
    requires asked { IsReady asked.now }
    requires shaped { (nodes : ℕ) × IsSiteInShape asked.now.types.now nodes site }
    requires same { (t u : TypeId) → site ≡ Same t u
        → IsTrue (physically_equal asked.now.types.now t u) }
    ensures { OnOk result (Gains (IsOtherTop asked.now.types.now site) found.old found.new) }
{
    match site {
        Site::Same { a, b } => asked.known.add_places(found, a, b),
        Site::Union { ty, .. } => add_union(&asked.known, asked.types, found, ty),
        _ => Ok(()),
    }
}

/// Adds the pointers that the sites other than flows make correspond, but not those that they lead to.
fn add_other_tops(asked: &Asked, found: &mut Found) -> Result<(), NoMemory>
    requires asked { IsReady asked.now }
    requires told { AreTold asked.now }
    ensures { OnOk result
        (Gains (RelatedBySome asked.now.sites.now (IsOtherTop asked.now.types.now)) found.old
        found.new) }
{
    'sites: for site in asked.sites {
        add_other_top(asked, found, *site)?;
    }
    Ok(())
}

/// The nodes of the pointers that have to be of one kind.
pub(crate) fn equal_nodes(
    asked: &Asked,
    answered: &mut Answered,
) -> Result<Vec<(NodeId, NodeId)>, NoMemory>
    requires asked { IsReady asked.now }
    requires told { AreTold asked.now }
    requires answered { IsAnswered asked.now.types.now asked.now.sites.now answered.old }
    ensures { IfOk result
        (λ pairs. (a b : NodeId) → Contains pairs.items (a, b)
        ↔ AreOfOneCell asked.now.types.now asked.now.sites.now a b) }
{
    let pairs = flow_pairs(asked.alloc, asked.sites)?;
    let mut found = Found::new(asked.alloc);
    add_flow_tops(asked, answered, &mut found, pairs.as_slice())?;
    add_other_tops(asked, &mut found)?;
    asked.known.follow(&mut found)?;
    found.into_nodes(asked.alloc)
}
