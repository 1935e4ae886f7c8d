//! The classes of types, one after another.
#![tactic(auto)]

ghost use Rattle.std.specs.Prelude.{ℕ, ◌≡◌, ◌<◌, ◌≤◌, suc, Some, length, slice_get, IfOk, OnOk, IsTrue};
ghost use Rattle.std.specs.List.{All};
ghost use Rattle.std.specs.List.Sorted.{IsNonDecreasingBy};
ghost use Rattle.cc_base.specs.declared.number.TypeId.{TypeId};
ghost use Rattle.cc_base.specs.Kinds.{kind_at};
ghost use Rattle.c_types.specs.Table.{IsType, AreNodesOf};
ghost use Rattle.c_types.specs.Equality.{physically_equal};
ghost use Rattle.c_types.specs.Sound.{IsWellFormed};
ghost use Rattle.rtti_nodes.specs.Classes.{IsAdded, IsLast, AreSorted, IsSizedType};
ghost use Rattle.rtti_nodes.specs.Numbering.{TellClasses};

use crate::covering::last_covered;
use crate::numbering::ClassNumbers;
use crate::ordering::Sized;
use cc_base::{Kinds, NoMemory, TypeId};
use phys_types::Known;
use std::alloc::Global;

/// The first type of each class, the parents of their nodes, and of each type the number of its class, from 1, or 0 where it isn't
/// among them.
#[derive(Drop)]
pub(crate) struct Classes {
    pub(crate) firsts: Vec<TypeId>,
    pub(crate) parents: Vec<u32>,
    pub(crate) numbers: Vec<u32>,
}

/// Whether a type is physically equal to the one with the number `last`, from 1.
fn is_of_last(known: &Known, firsts: &[TypeId], last: usize, t: TypeId) -> bool
    requires types { All (IsType known.now) firsts.now }
    requires typed { IsType known.now t }
    requires within { last ≤ length firsts.now }
    ensures { IsLast known.now firsts.now last t result }
{
    last > 0 && known.is_equal(t, firsts[last - 1])
}

/// Puts a type into its class.
fn add(
    known: &Known,
    kinds: &Kinds,
    told: &ClassNumbers,
    classes: &mut Classes,
    t: TypeId,
) -> Result<(), NoMemory>
    requires formed { IsWellFormed known.now }
    requires types { All (IsType known.now) classes.old.firsts.items }
    requires typed { IsType known.now t }
    requires nodes { All (λ e. AreNodesOf (length kinds.now) e.shape) known.now }
    requires few { length classes.old.firsts.items < 4294967295 }
    requires fits { t.0 < length classes.old.numbers.items }
    requires told { TellClasses known.now (kind_at kinds.now) told.now }
    ensures { OnOk result (IsAdded known.now (kind_at kinds.now) t classes.old classes.new) }
{
    let last = last_covered(known, kinds, told, &classes.firsts, t)?;
    if is_of_last(known, &classes.firsts, last, t) {
        classes.numbers[t.0 as usize] = last as u32;
        return Ok(());
    }
    classes.firsts.push(t)?;
    classes.parents.push(last as u32)?;
    classes.numbers[t.0 as usize] = classes.firsts.len() as u32;
    Ok(())
}

/// The classes of types that come in the order of their sizes.
pub(crate) fn classes_of(
    alloc: Global,
    known: &Known,
    kinds: &Kinds,
    told: &ClassNumbers,
    count: u32,
    ordered: &[Sized],
) -> Result<Classes, NoMemory>
    requires formed { IsWellFormed known.now }
    requires count { count ≡ length known.now }
    requires nodes { All (λ e. AreNodesOf (length kinds.now) e.shape) known.now }
    requires types { All (IsSizedType known.now) ordered.now }
    requires sorted { IsNonDecreasingBy (λ s. s.size) ordered.now }
    requires told { TellClasses known.now (kind_at kinds.now) told.now }
    ensures { IfOk result (λ c.
        AreSorted known.now (kind_at kinds.now) ordered.now
        (length ordered.now) c.firsts.items c.parents.items c.numbers.items) }
{
    let mut classes = Classes {
        firsts: Vec::new(alloc),
        parents: Vec::new(alloc),
        numbers: vec![in alloc; 0; count as usize]?,
    };
    'types: for one in ordered {
        add(known, kinds, told, &mut classes, one.ty)?;
    }
    Ok(classes)
}
