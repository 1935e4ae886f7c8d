//! Pairs of pointers, followed through what they point to.
#![tactic(auto)]

ghost use Rattle.std.specs.Prelude.{OnOk};
ghost use Rattle.std.specs.List.{Contains};
ghost use Rattle.cc_base.specs.declared.number.TypeId.{TypeId};
ghost use Rattle.c_types.specs.Flows.{StandAlike};
ghost use Rattle.c_types.specs.Sound.{IsWellFormed};
ghost use Rattle.phys_types.specs.Found.{Gains};
ghost use Rattle.phys_types.specs.Rounds.{AreAllKept};
ghost use Rattle.phys_types.specs.Standing.{AreEqualTypes, CorrespondInSome};

use crate::alike::add_alike;
use crate::building::kept;
use crate::found::Found;
use crate::keeping::Repeated;
use c_types::Types;
use cc_base::{NoMemory, TypeId};

/// Adds the pointers at the same places of two physically equal types.
fn add_equal(
    types: &Types,
    places: &[usize],
    layouts: &[Repeated],
    found: &mut Found,
    t: TypeId,
    u: TypeId,
) -> Result<(), NoMemory>
    requires formed { IsWellFormed types.now }
    requires kept { AreAllKept types.now places.now layouts.now }
    requires equal { AreEqualTypes types.now t u }
    ensures { OnOk result (Gains (StandAlike types.now t u) found.old found.new) }
{
    let x = kept(places, layouts, t);
    let y = kept(places, layouts, u);
    add_alike(types, found, t, x, u, y)
}

/// Adds the pointers that correspond by place, at every depth, in the pairs of types that are found.
///
/// The pairs of types are a queue: those that a pair leads to are added behind it, and none is there twice.
pub(crate) fn follow(
    types: &Types,
    places: &[usize],
    layouts: &[Repeated],
    found: &mut Found,
) -> Result<(), NoMemory>
    requires formed { IsWellFormed types.now }
    requires kept { AreAllKept types.now places.now layouts.now }
    requires equal { (t u : TypeId) → Contains found.old.pointees (t, u)
        → AreEqualTypes types.now t u }
    ensures { OnOk result (Gains (CorrespondInSome types.now found.old.pointees) found.old
        found.new) }
{
    let mut i = 0;
    'queue: while let Some((t, u)) = found.pointees(i) {
        add_equal(types, places, layouts, found, t, u)?;
        i += 1;
    }
    Ok(())
}
