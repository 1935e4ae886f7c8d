//! The pairs of pointers that one flow gives at once.
#![tactic(auto)]

ghost use Rattle.std.specs.Prelude.{◌≡◌, OnOk};
ghost use Rattle.c_types.specs.Table.{IsType};
ghost use Rattle.c_types.specs.Equality.{physically_equal};
ghost use Rattle.c_types.specs.Flows.{flow_class, CorrespondAtTop};
ghost use Rattle.c_types.specs.Sound.{IsWellFormed};
ghost use Rattle.phys_types.specs.Found.{Gains};
ghost use Rattle.phys_types.specs.Shown.{IsKeptOf};

use crate::alike::{add_alike, add_copies};
use crate::crossing::{add_columns, spots_in_unit};
use crate::found::Found;
use crate::keeping::Repeated;
use crate::lending::lend;
use c_types::{FlowClass, Types};
use cc_base::{NoMemory, TypeId};
use std::alloc::Global;

/// Adds the pointers of two types that correspond in a flow of this class between pointers to them, but not those that they lead to.
pub(crate) fn add_top(
    alloc: Global,
    types: &Types,
    found: &mut Found,
    class: FlowClass,
    from: TypeId,
    x: &Repeated,
    to: TypeId,
    y: &Repeated,
) -> Result<(), NoMemory>
    requires formed { IsWellFormed types.now }
    requires class { class ≡ flow_class types.now from to }
    requires from { IsType types.now from }
    requires to { IsType types.now to }
    requires from_kept { IsKeptOf types.now (physically_equal types.now) from x.now }
    requires to_kept { IsKeptOf types.now (physically_equal types.now) to y.now }
    ensures { OnOk result (Gains (CorrespondAtTop types.now (flow_class types.now from to) from to)
        found.old found.new) }
{
    match class {
        FlowClass::Equal => add_alike(types, found, from, x, to, y),
        FlowClass::Up => add_copies(found, x, y),
        FlowClass::Down => add_copies(found, x, y),
        FlowClass::UpTile => {
            let lent = lend(alloc, x)?;
            let other = lend(alloc, y)?;
            let long = lent.layout();
            let short = other.layout();
            let step = spots_in_unit(long, short);
            add_columns(alloc, found, &long.spots, &short.spots, step)
        }
        FlowClass::DownTile => {
            let lent = lend(alloc, x)?;
            let other = lend(alloc, y)?;
            let short = lent.layout();
            let long = other.layout();
            let step = spots_in_unit(long, short);
            add_columns(alloc, found, &short.spots, &long.spots, step)
        }
        FlowClass::Tile => Ok(()),
        FlowClass::Bad => Ok(()),
    }
}
