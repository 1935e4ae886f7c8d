//! Whether a layout is made of repetitions of a shorter one.
#![tactic(auto)]

ghost use Rattle.std.specs.Prelude.{ℕ, ◌≡◌, ◌≤◌, ◌&&◌, nat_lt, IfOk};
ghost use Rattle.std.specs.Int.{IsGcd};
ghost use Rattle.phys_types.specs.Numbers.{number_in, repeat_spots, AreLow};

use crate::comparing::{end_within, greatest_common_divisor, same_spots, spots_before};
use crate::copying::copied;
use crate::spot::Layout;
use cc_base::NoMemory;
use std::alloc::Global;

/// Whether a layout that begins with the `n` cells of another tiles with it: whether its cells are its first ones again
/// and again, as many of them as the two sizes have as their greatest common divisor.
pub(crate) fn tiles(alloc: Global, numbers: &[usize], x: &Layout, n: u64) -> Result<bool, NoMemory>
    requires low { AreLow x.now.spots.items }
    requires small { x.now.size ≤ 1048576 }
    ensures { (g : ℕ) → IsGcd x.now.size n g → IfOk result
        (λ tile. tile ≡ (nat_lt 0 n && repeat_spots
        (number_in numbers.now) x.now.size g x.now.spots.items)) }
{
    if n == 0 {
        return Ok(false);
    }
    let unit = greatest_common_divisor(x.size, n);
    let first = spots_before(unit, &x.spots);
    if !end_within(unit, first) {
        return Ok(false);
    }
    let all = copied(alloc, first, unit, x.size / unit)?;
    Ok(same_spots(numbers, &x.spots, &all))
}
