//! The pointers that correspond where two layouts repeat and tile.
#![tactic(auto)]

ghost use Rattle.std.specs.Prelude.{ℕ, ◌≡◌, ◌↔◌, ◌⊎◌, ◌<◌, ◌^◌, Some, length, IfOk, OnOk};
ghost use Rattle.std.specs.Int.{IsGcd};
ghost use Rattle.c_types.specs.Flows.{HeldPointer};
ghost use Rattle.phys_types.specs.Found.{held, Gains};
ghost use Rattle.phys_types.specs.Numbers.{spots_before};
ghost use Rattle.phys_types.specs.Standing.{shown, IsHeld, IsWith, AreHeld, IsInColumn, StandInColumn, StandInColumns};

use crate::alike::pointer_at;
use crate::comparing::{greatest_common_divisor, spots_before};
use crate::found::Found;
use crate::held::Held;
use crate::spot::{Layout, Spot};
use cc_base::NoMemory;
use indexmap::IndexSet;
use std::alloc::Global;

/// Adds a pointer to others, if there is one.
fn add_pointer(pointers: &mut IndexSet<Held>, pointer: Option<Held>) -> Result<(), NoMemory>
    ensures { OnOk result ((p : HeldPointer) → IsHeld pointers.new.keys p ↔
        (IsHeld pointers.old.keys p ⊎ (shown pointer ≡ Some p))) }
{
    if let Some(p) = pointer {
        pointers.insert(p)?;
    }
    Ok(())
}

/// The pointers among the spots with the numbers `first`, `first + step`, `first + 2 * step` and so on, none twice.
fn column(
    alloc: Global,
    spots: &[Spot],
    first: usize,
    step: usize,
) -> Result<IndexSet<Held>, NoMemory>
    requires some { first < step }
    requires small { step < 2 ^ 63 }
    ensures { IfOk result (λ pointers. (p : HeldPointer)
        → IsHeld pointers.keys p ↔ IsInColumn step first spots.now p) }
{
    let mut pointers = IndexSet::new(alloc);
    let mut i = first;
    'steps: while i < spots.len() {
        add_pointer(&mut pointers, pointer_at(spots[i]))?;
        i += step;
    }
    Ok(pointers)
}

/// Adds a pointer with each of others.
fn add_with(found: &mut Found, p: Held, qs: &[Held]) -> Result<(), NoMemory>
    ensures { OnOk result (Gains (IsWith (held p) qs.now) found.old found.new) }
{
    'others: for q in qs {
        found.add(p, *q)?;
    }
    Ok(())
}

/// Adds each of some pointers with each of others.
fn add_each(found: &mut Found, ps: &[Held], qs: &[Held]) -> Result<(), NoMemory>
    ensures { OnOk result (Gains (AreHeld ps.now qs.now) found.old found.new) }
{
    'pointers: for p in ps {
        add_with(found, *p, qs)?;
    }
    Ok(())
}

/// Adds the pointers that are in one column of two lists, or of one of them.
fn add_column(
    alloc: Global,
    found: &mut Found,
    xs: &[Spot],
    ys: &[Spot],
    first: usize,
    step: usize,
) -> Result<(), NoMemory>
    requires some { first < step }
    requires small { step < 2 ^ 63 }
    ensures { OnOk result (Gains (StandInColumn step xs.now ys.now first) found.old found.new) }
{
    let ps = column(alloc, xs, first, step)?;
    let qs = column(alloc, ys, first, step)?;
    add_each(found, ps.as_slice(), qs.as_slice())?;
    add_each(found, ps.as_slice(), ps.as_slice())?;
    add_each(found, qs.as_slice(), qs.as_slice())
}

/// Adds the pointers that are in one column, for each column of two lists that stand in rows of `step` spots.
pub(crate) fn add_columns(
    alloc: Global,
    found: &mut Found,
    xs: &[Spot],
    ys: &[Spot],
    step: usize,
) -> Result<(), NoMemory>
    requires { step < 2 ^ 63 }
    ensures { OnOk result (Gains (StandInColumns step xs.now ys.now step) found.old found.new) }
{
    'columns: for first in 0..step {
        add_column(alloc, found, xs, ys, first, step)?;
    }
    Ok(())
}

/// How many spots of the layout `x` stand in its first bytes, as many as the greatest common divisor of the two sizes.
pub(crate) fn spots_in_unit(x: &Layout, y: &Layout) -> usize
    ensures count { (g : ℕ) → IsGcd x.now.size y.now.size g → result
        ≡ length (spots_before g x.now.spots.items) }
    ensures small { result < 2 ^ 63 }
{
    spots_before(greatest_common_divisor(x.size, y.size), &x.spots).len()
}
