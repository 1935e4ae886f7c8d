//! Of each type the first with its number.
#![tactic(auto)]

ghost use Rattle.std.specs.Prelude.{ℕ, ◌≡◌, ◌⊎◌, None, Some, nat_eq, IfOk, OnOk};
ghost use Rattle.indexmap.specs.IndexMap.{get};
ghost use Rattle.cc_base.specs.declared.number.TypeId.{TypeId};
ghost use Rattle.phys_types.specs.Numbers.{number_in};
ghost use Rattle.phys_types.specs.Firsts.{AreFirstsWith};

use crate::comparing::number_of;
use cc_base::{NoMemory, TypeId};
use indexmap::IndexMap;
use std::alloc::Global;

/// The type that is kept for a number; the first that comes is.
fn first_of(
    kept: &mut IndexMap<usize, TypeId>,
    number: usize,
    t: TypeId,
) -> Result<TypeId, NoMemory>
    ensures here { IfOk result (λ first. get nat_eq kept.new number ≡ Some first) }
    ensures still { OnOk result ((n : ℕ) (f : TypeId) →
        get nat_eq kept.old n ≡ Some f → get nat_eq kept.new n ≡ Some f) }
    ensures only { OnOk result ((n : ℕ) (f : TypeId) → get nat_eq kept.new n ≡ Some f
        → (get nat_eq kept.old n ≡ Some f)
        ⊎ ((n ≡ number) × (f ≡ t) × (get nat_eq kept.old number ≡ None))) }
{
    if let Some(first) = kept.get(&number) {
        return Ok(*first);
    }
    kept.insert(number, t)?;
    Ok(t)
}

/// Of each type the first with its number.
pub fn firsts_of(alloc: Global, count: u32, numbers: &[usize]) -> Result<Vec<TypeId>, NoMemory>
    ensures { IfOk result (λ firsts. AreFirstsWith (number_in numbers.now) count firsts.items) }
{
    let mut kept = IndexMap::new(alloc);
    let mut firsts = Vec::with_capacity(alloc, count as usize)?;
    'types: for t in 0..count {
        let number = number_of(numbers, TypeId(t));
        firsts.push(first_of(&mut kept, number, TypeId(t))?)?;
    }
    Ok(firsts)
}
