//! What is kept of the layout of a type: a part, and how often it stands. A long array is kept as copies of what its elements share, any
//! other type as its whole layout, once.
#![tactic(auto)]

ghost use Rattle.std.specs.Prelude.{◌≡◌, ◌*◌, ◌≤◌, IfOk};
ghost use Rattle.phys_types.specs.Spots.{copies};
ghost use Rattle.phys_types.specs.Shown.{IsLow, IsMadeOf, IsTimes};

use crate::copying::copied;
use crate::spot::Layout;
use cc_base::NoMemory;
use std::alloc::Global;

/// The most spots of an array whose layout is kept as a whole.
const FEW_SPOTS: usize = 1024;

/// As many copies of a layout, one behind another.
#[derive(Debug, Drop)]
pub struct Repeated {
    pub part: Layout,
    pub count: u64,
}

/// The layout of copies, one behind another.
pub(crate) fn times(alloc: Global, part: &Layout, count: u64) -> Result<Layout, NoMemory>
    requires low { IsLow part.now }
    requires small { count * part.now.size ≤ 1048576 }
    ensures { IfOk result (IsMadeOf (count * part.now.size)
        (copies count part.now.size 0 part.now.spots.items) part.now.holds) }
{
    Ok(Layout {
        size: count * part.size,
        spots: copied(alloc, &part.spots, part.size, count)?,
        holds: part.holds,
    })
}

/// The same layout again.
fn same(alloc: Global, part: &Layout) -> Result<Layout, NoMemory>
    ensures { IfOk result (IsMadeOf part.now.size part.now.spots.items part.now.holds) }
{
    Ok(Layout {
        size: part.size,
        spots: Vec::from_slice(alloc, &part.spots)?,
        holds: part.holds,
    })
}

/// What is kept of copies of a layout. Where they have few spots, they are written out.
pub(crate) fn kept_times(alloc: Global, part: &Layout, count: u64) -> Result<Repeated, NoMemory>
    requires low { IsLow part.now }
    requires small { count * part.now.size ≤ 1048576 }
    ensures { IfOk result (IsTimes count part.now) }
{
    if (count as usize).saturating_mul(part.spots.len()) <= FEW_SPOTS {
        let whole = times(alloc, part, count)?;
        return Ok(Repeated {
            part: whole,
            count: 1,
        });
    }
    let copy = same(alloc, part)?;
    Ok(Repeated { part: copy, count })
}
