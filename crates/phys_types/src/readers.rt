//! Which types point to a type.
#![tactic(auto)]

ghost use Rattle.std.specs.Prelude.{ℕ, ◌≡◌, ◌⊎◌, ◌<◌, ◌^◌, length, IfOk, OnOk};
ghost use Rattle.std.specs.List.{Contains};
ghost use Rattle.cc_base.specs.declared.number.TypeId.{TypeId};
ghost use Rattle.phys_types.specs.Turning.{list_in, HaveAll, AreReaders};

use cc_base::{NoMemory, TypeId};
use std::alloc::Global;

/// The list of a type among lists, one for each type.
pub(crate) fn list_of(lists: &[Vec<TypeId>], t: TypeId) -> &[TypeId]
    ensures { result.now ≡ list_in lists.now t }
{
    match lists.get(t.0 as usize) {
        Some(list) => list.as_slice(),
        None => &[],
    }
}

/// As many empty lists.
fn empty_lists(alloc: Global, count: usize) -> Result<Vec<Vec<TypeId>>, NoMemory>
    ensures { IfOk result (λ lists. length lists.items ≡ count) }
{
    let mut lists = Vec::with_capacity(alloc, count)?;
    'types: for _type in 0..count {
        lists.push(Vec::new(alloc))?;
    }
    Ok(lists)
}

/// Adds a type to a list, but for the last one again.
fn push_other(list: &mut Vec<TypeId>, t: TypeId) -> Result<(), NoMemory>
    ensures { OnOk result ((x : TypeId) → (Contains list.old.items x ⊎ (x ≡ t))
        → Contains list.new.items x) }
{
    if let Some(last) = list.last().copied() {
        if last.0 == t.0 {
            return Ok(());
        }
    }
    list.push(t)?;
    Ok(())
}

/// Adds a reader of a type.
fn add_reader(readers: &mut [Vec<TypeId>], to: TypeId, t: TypeId) -> Result<(), NoMemory>
    ensures fits { OnOk result (length readers.new ≡ length readers.old) }
    ensures kept { OnOk result (HaveAll readers.old readers.new) }
    ensures added { OnOk result (to.0 < length readers.old → Contains (list_in readers.new to) t) }
{
    if (to.0 as usize) < readers.len() {
        push_other(&mut readers[to.0 as usize], t)?;
    }
    Ok(())
}

/// Adds a reader of each type that it points to.
fn add_readers(readers: &mut [Vec<TypeId>], t: TypeId, targets: &[TypeId]) -> Result<(), NoMemory>
    ensures fits { OnOk result (length readers.new ≡ length readers.old) }
    ensures kept { OnOk result (HaveAll readers.old readers.new) }
    ensures added { OnOk result ((to : TypeId) → Contains targets.now to → to.0 < length readers.old
        → Contains (list_in readers.new to) t) }
{
    'targets: for to in targets {
        add_reader(readers, *to, t)?;
    }
    Ok(())
}

/// Of each type those that point to it.
pub(crate) fn readers(
    alloc: Global,
    count: u32,
    targets: &[Vec<TypeId>],
) -> Result<Vec<Vec<TypeId>>, NoMemory>
    requires { length targets.now ≡ count }
    ensures { IfOk result (λ readers. AreReaders targets.now readers.items) }
{
    let mut readers = empty_lists(alloc, count as usize)?;
    'types: for t in 0..count {
        add_readers(&mut readers, TypeId(t), list_of(targets, TypeId(t)))?;
    }
    Ok(readers)
}
