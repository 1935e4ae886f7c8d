//! What was found out of types so far, once for all types that are physically equal.
#![tactic(auto)]

ghost use Rattle.std.specs.Prelude.{◌≡◌, ◌↔◌, List, IfOk, OnOk, IsTrue};
ghost use Rattle.c_types.specs.Table.{IsType, Table};
ghost use Rattle.kind_sites.specs.declared.site.Site.{Site};
ghost use Rattle.c_types.specs.Flows.{flow_class};
ghost use Rattle.kind_sites.specs.Solutions.{HasBelow};
ghost use Rattle.kind_constraints.specs.Asked.{IsReady, IsAnswered};
ghost use Rattle.kind_constraints.specs.Pieces.{AreClasses};

use crate::asked::{Asked, first_of};
use crate::below::is_below;
use c_types::FlowClass;
use cc_base::{NoMemory, TypeId};
use indexmap::IndexMap;
use phys_types::Known;
use std::alloc::Global;

/// The classes of flows by the types of their ends, and of types whether some node's pointee lies strictly below them, as far as they
/// were asked for: of physically equal types the first is asked for.
#[derive(Drop)]
pub(crate) struct Answered {
    pub(crate) classes: IndexMap<(TypeId, TypeId), FlowClass>,
    pub(crate) belows: IndexMap<TypeId, bool>,
}

/// Nothing. Takes no memory.
pub(crate) fn nothing(alloc: Global) -> Answered
    ensures { (table : Table) (sites : List Site) → IsAnswered table sites result }
{
    Answered {
        classes: IndexMap::new(alloc),
        belows: IndexMap::new(alloc),
    }
}

/// The class of a flow between two types; it is kept for them.
fn class_between(
    known: &Known,
    classes: &mut IndexMap<(TypeId, TypeId), FlowClass>,
    from: TypeId,
    to: TypeId,
) -> Result<FlowClass, NoMemory>
    requires from { IsType known.now from }
    requires to { IsType known.now to }
    requires kept { AreClasses known.now classes.old.entries }
    ensures class { IfOk result (λ class. class ≡ flow_class known.now from to) }
    ensures kept { OnOk result (AreClasses known.now classes.new.entries) }
{
    if let Some(class) = classes.get(&(from, to)) {
        return Ok(*class);
    }
    let class = known.class(from, to)?;
    classes.insert((from, to), class)?;
    Ok(class)
}

/// The class of a flow from a pointer to `from` to a pointer to `to`.
pub(crate) fn class_of(
    asked: &Asked,
    answered: &mut Answered,
    from: TypeId,
    to: TypeId,
) -> Result<FlowClass, NoMemory>
    requires asked { IsReady asked.now }
    requires from { IsType asked.now.types.now from }
    requires to { IsType asked.now.types.now to }
    requires answered { IsAnswered asked.now.types.now asked.now.sites.now answered.old }
    ensures class { IfOk result (λ class. class ≡ flow_class asked.now.types.now from to) }
    ensures answered { OnOk result
        (IsAnswered asked.now.types.now asked.now.sites.now answered.new) }
{
    let first = first_of(asked, from);
    let second = first_of(asked, to);
    class_between(&asked.known, &mut answered.classes, first, second)
}

/// Whether some node's pointee lies strictly below a type.
pub(crate) fn below_of(asked: &Asked, answered: &mut Answered, t: TypeId) -> Result<bool, NoMemory>
    requires asked { IsReady asked.now }
    requires typed { IsType asked.now.types.now t }
    requires answered { IsAnswered asked.now.types.now asked.now.sites.now answered.old }
    ensures below { IfOk result
        (λ below. IsTrue below ↔ HasBelow asked.now.types.now asked.now.sites.now t) }
    ensures answered { OnOk result
        (IsAnswered asked.now.types.now asked.now.sites.now answered.new) }
{
    is_below(asked, &mut answered.belows, t)
}
