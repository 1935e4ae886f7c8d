//! Layouts put behind one another.
#![tactic(auto)]

ghost use Rattle.std.specs.Prelude.{ℕ, ◌≡◌, ◌+◌, ◌*◌, ◌<◌, ◌≤◌, [], ◌∷◌, ◌++◌, length, map, IfOk, OnOk};
ghost use Rattle.phys_types.specs.Spots.{shifted, copies};
ghost use Rattle.phys_types.specs.Numbers.{AreLow};

use crate::spot::Spot;
use cc_base::NoMemory;
use std::alloc::Global;

/// Puts spots behind others, `n` cells further on.
pub(crate) fn push_shifted(spots: &mut Vec<Spot>, part: &[Spot], n: u64) -> Result<(), NoMemory>
    requires low { AreLow part.now }
    requires small { n ≤ 1048576 }
    ensures { OnOk result (spots.new.items ≡ spots.old.items ++ map (shifted n) part.now) }
{
    for s in part {
        push_one(spots, *s, n)?;
    }
    Ok(())
}

/// Puts a spot behind others, `n` cells further on.
fn push_one(spots: &mut Vec<Spot>, s: Spot, n: u64) -> Result<(), NoMemory>
    requires low { s.start ≤ 1048576 }
    requires small { n ≤ 1048576 }
    ensures { OnOk result (spots.new.items ≡ spots.old.items ++ map (shifted n) (s ∷ [])) }
{
    spots.push(Spot {
        start: s.start + n,
        item: s.item,
    })?;
    Ok(())
}

/// The spots of `count` copies, one behind another, each of `size` cells.
pub(crate) fn copied(
    alloc: Global,
    spots: &[Spot],
    size: u64,
    count: u64,
) -> Result<Vec<Spot>, NoMemory>
    requires low { AreLow spots.now }
    requires small { count * size ≤ 1048576 }
    ensures { IfOk result (λ all. all.items ≡ copies count size 0 spots.now) }
{
    let mut all = Vec::new(alloc);
    if spots.is_empty() {
        return Ok(all);
    }
    for i in 0..count {
        push_shifted(&mut all, spots, i * size)?;
    }
    Ok(all)
}
