//! Of which types some node's pointee is strictly below.
#![tactic(auto)]

ghost use Rattle.std.specs.Prelude.{◌≡◌, ◌↔◌, ◌<◌, Some, length, IfOk, OnOk, IsTrue, All};
ghost use Rattle.std.specs.List.{list_any};
ghost use Rattle.cc_base.specs.declared.number.TypeId.{TypeId};
ghost use Rattle.c_types.specs.Table.{IsType};
ghost use Rattle.c_types.specs.Equality.{strictly_below};
ghost use Rattle.kind_sites.specs.Solutions.{HasBelow};
ghost use Rattle.kind_constraints.specs.Adding.{Adds};
ghost use Rattle.kind_constraints.specs.Asked.{IsReady};
ghost use Rattle.kind_constraints.specs.Pieces.{IsPointee, ArePointees, AreBelows, IsFirstOf, pointee_of};

use crate::asked::{Asked, first_of};
use cc_base::{NoMemory, TypeId};
use indexmap::{IndexMap, IndexSet};
use kind_sites::Site;
use phys_types::Known;
use std::alloc::Global;

/// Adds the first type that is physically equal to what a site says that a pointer points to, if it says so.
fn add_pointee(
    firsts: &[TypeId],
    pointees: &mut IndexSet<TypeId>,
    site: Site,
) -> Result<(), NoMemory>
    requires { (t : TypeId) → pointee_of site ≡ Some t → t.0 < length firsts.now }
    ensures { OnOk result (Adds (IsFirstOf firsts.now site) pointees.old.keys pointees.new.keys) }
{
    if let Site::Pointee { ty, .. } = site {
        pointees.insert(firsts[ty.0 as usize])?;
    }
    Ok(())
}

/// The types that nodes point to, of physically equal ones the first, each once.
pub(crate) fn pointees_of(
    alloc: Global,
    firsts: &[TypeId],
    sites: &[Site],
) -> Result<Vec<TypeId>, NoMemory>
    requires { (t : TypeId) → IsPointee sites.now t → t.0 < length firsts.now }
    ensures { IfOk result (λ pointees. ArePointees firsts.now sites.now pointees.items) }
{
    let mut pointees = IndexSet::new(alloc);
    'sites: for site in sites {
        add_pointee(firsts, &mut pointees, *site)?;
    }
    Ok(Vec::from_slice(alloc, pointees.as_slice())?)
}

/// Whether one of the types lies strictly below t.
fn has_below(known: &Known, pointees: &[TypeId], t: TypeId) -> Result<bool, NoMemory>
    requires typed { IsType known.now t }
    requires pointees { All (IsType known.now) pointees.now }
    ensures { IfOk result (λ below. below
        ≡ list_any (λ q. strictly_below known.now q t) pointees.now) }
{
    'pointees: for pointee in pointees {
        if known.strictly_below(*pointee, t)? {
            return Ok(true);
        }
    }
    Ok(false)
}

/// Whether some node's pointee lies strictly below a type; it is kept for the type.
fn kept_below(
    asked: &Asked,
    belows: &mut IndexMap<TypeId, bool>,
    t: TypeId,
) -> Result<bool, NoMemory>
    requires asked { IsReady asked.now }
    requires typed { IsType asked.now.types.now t }
    requires kept { AreBelows asked.now.types.now asked.now.sites.now belows.old.entries }
    ensures below { IfOk result
        (λ below. IsTrue below ↔ HasBelow asked.now.types.now asked.now.sites.now t) }
    ensures kept { OnOk result
        (AreBelows asked.now.types.now asked.now.sites.now belows.new.entries) }
{
    if let Some(below) = belows.get(&t) {
        return Ok(*below);
    }
    let below = has_below(&asked.known, &asked.pointees, t)?;
    belows.insert(t, below)?;
    Ok(below)
}

/// Whether some node's pointee lies strictly below a type; it is asked of the first type that is physically equal.
pub(crate) fn is_below(
    asked: &Asked,
    belows: &mut IndexMap<TypeId, bool>,
    t: TypeId,
) -> Result<bool, NoMemory>
    requires asked { IsReady asked.now }
    requires typed { IsType asked.now.types.now t }
    requires kept { AreBelows asked.now.types.now asked.now.sites.now belows.old.entries }
    ensures below { IfOk result
        (λ below. IsTrue below ↔ HasBelow asked.now.types.now asked.now.sites.now t) }
    ensures kept { OnOk result
        (AreBelows asked.now.types.now asked.now.sites.now belows.new.entries) }
{
    let first = first_of(asked, t);
    kept_below(asked, belows, first)
}
