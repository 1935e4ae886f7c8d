//! Layouts lent: the one that is kept of a type, or one that is written out for a question and dropped after it.
#![tactic(auto)]

ghost use Rattle.std.specs.Prelude.{◌≡◌, ◌≤◌, ◌⊎◌, take, IfOk};
ghost use Rattle.cc_base.specs.declared.number.TypeId.{TypeId};
ghost use Rattle.c_types.specs.Table.{Table};
ghost use Rattle.c_types.specs.Cells.{Relation};
ghost use Rattle.phys_types.specs.Shown.{IsLayoutOf, IsLowKept, IsKeptOf, all_size, all_spots};
ghost use Rattle.phys_types.specs.Lending.{lent_layout};

use crate::copying::copied;
use crate::keeping::{Repeated, times};
use crate::spot::Layout;
use cc_base::NoMemory;
use std::alloc::Global;

/// A layout that is kept, or one that was written out.
#[derive(Drop)]
pub enum Lent<'a> {
    Whole(&'a Layout),
    Written(Layout),
}

impl<'a> Lent<'a> {
    /// The layout.
    pub fn layout(&self) -> &Layout
        ensures { result.now ≡ lent_layout self.now }
    {
        match self {
            Lent::Whole(layout) => *layout,
            Lent::Written(layout) => layout,
        }
    }
}

/// The layout that is kept as a part and a count.
pub(crate) fn lend<'a>(alloc: Global, kept: &'a Repeated) -> Result<Lent<'a>, NoMemory>
    requires { IsLowKept kept.now }
    ensures { (table : Table) (E : Relation) (t : TypeId) → IsKeptOf table E t kept.now
        → IfOk result (λ lent. IsLayoutOf table E t (lent_layout lent)) }
{
    if kept.count == 1 {
        return Ok(Lent::Whole(&kept.part));
    }
    let whole = times(alloc, &kept.part, kept.count)?;
    Ok(Lent::Written(whole))
}

/// How many copies have as many spots as the limit says, or all of them.
fn enough(count: u64, limit: usize) -> u64
    ensures few { result ≤ count }
    ensures enough { (limit ≤ result) ⊎ (result ≡ count) }
{
    if count <= limit as u64 {
        count
    } else {
        limit as u64
    }
}

/// The same with its first spots alone, as many as the limit says.
pub(crate) fn lend_front<'a>(
    alloc: Global,
    kept: &'a Repeated,
    limit: usize,
) -> Result<Lent<'a>, NoMemory>
    requires { IsLowKept kept.now }
    ensures size { IfOk result (λ lent. (lent_layout lent).size ≡ all_size kept.now) }
    ensures spots { IfOk result (λ lent. (lent_layout lent).spots.items
        ≡ take limit (all_spots kept.now)) }
{
    if kept.count == 1 {
        if kept.part.spots.len() <= limit {
            return Ok(Lent::Whole(&kept.part));
        }
    }
    let count = enough(kept.count, limit);
    let mut spots = copied(alloc, &kept.part.spots, kept.part.size, count)?;
    spots.truncate(limit);
    Ok(Lent::Written(Layout {
        size: kept.count * kept.part.size,
        spots,
        holds: kept.part.holds,
    }))
}
