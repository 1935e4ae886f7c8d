//! The layout of a type as a list of places where its items end, in the source and once cured.
#![tactic(auto)]

ghost use Rattle.std.specs.Prelude.{◌≡◌, ◌≤◌, ◌*◌, List, IfOk, length, slice_get, Some};
ghost use Rattle.std.specs.List.{All};
ghost use Rattle.std.specs.List.Sorted.{IsNonDecreasingBy};
ghost use Rattle.cc_base.specs.declared.kind.Kind.{Kind};
ghost use Rattle.cc_base.specs.declared.number.NodeId.{NodeId};
ghost use Rattle.cc_base.specs.Kinds.{kind_at};
ghost use Rattle.c_types.specs.Cells.{IsBetweenPointers};
ghost use Rattle.c_types.specs.Widths.{before};
ghost use Rattle.phys_types.specs.declared.spot.Spot.{Spot};
ghost use Rattle.phys_types.specs.Spots.{cells_from};
ghost use Rattle.fat_layouts.specs.Standing.{IsPart};
ghost use Rattle.fat_layouts.specs.Stops.{HasNode, IsLaid, item_width, all_stops, first_stop, IsLastPassed};

use crate::widths::width;
use cc_base::{Kinds, NoMemory};
use phys_types::{Item, Spot};
use std::alloc::Global;

/// Where an item of a layout ends, as an offset in the source and as one in the cured program.
#[derive(Clone, Copy)]
pub(crate) struct Stop {
    pub(crate) end: u64,
    pub(crate) cured: u64,
}

/// The part of which the layout of a type consists: how many cells it has, and its stops, from the start on.
pub(crate) struct CuredLayout {
    pub(crate) size: u64,
    pub(crate) stops: Vec<Stop>,
}

impl Drop for CuredLayout {
    fn drop(self) {
        let Self { size: _, stops: _ } = self;
    }
}

/// The bytes that an item takes once cured.
fn item_width(kinds: &Kinds, item: Item) -> u64
    requires { HasNode (length kinds.now) item }
    ensures { result ≡ item_width (kind_at kinds.now) item }
{
    match item {
        Item::Pointer(node, _) => width(kinds.kind_of(node)),
        _ => item.size(),
    }
}

/// The start of a type, and where the items at its spots end.
pub(crate) fn stops_of(alloc: Global, kinds: &Kinds, spots: &[Spot]) -> Result<Vec<Stop>, NoMemory>
    requires nodes { All (λ s. HasNode (length kinds.now) s.item) spots.now }
    requires laid { IsLaid spots.now }
    ensures { IfOk result (λ stops. stops.items ≡ all_stops (kind_at kinds.now) spots.now) }
{
    let mut last = Stop { end: 0, cured: 0 };
    let mut stops = vec![in alloc; last; 1]?;
    'spots: for spot in spots {
        let cured = last.cured + (spot.start - last.end) + item_width(kinds, spot.item);
        last = Stop {
            end: spot.start + spot.item.size(),
            cured,
        };
        stops.push(last)?;
    }
    Ok(stops)
}

/// The last of the stops that isn't behind an offset. It takes a number of steps that is logarithmic in theirs.
pub(crate) fn last_passed(stops: &[Stop], offset: u64) -> Stop
    requires ordered { IsNonDecreasingBy (λ s. s.end) stops.now }
    requires first { slice_get stops.now 0 ≡ Some first_stop }
    ensures { IsLastPassed stops.now offset result }
{
    let passed = stops.partition_point(|stop| stop.end <= offset);
    stops[passed - 1]
}

/// The bytes that the first bytes of a part take once cured, as many as `offset`.
pub(crate) fn cured_in(part: &CuredLayout, offset: u64) -> u64
    requires part { (kind : NodeId → Kind) × (spots : List Spot) × IsPart kind spots part.now }
    requires within { offset ≤ part.now.size }
    ensures small { result ≤ 3 * offset }
    ensures before { (kind : NodeId → Kind) (spots : List Spot) → IsPart kind spots part.now
        → IsBetweenPointers (cells_from 0 spots part.now.size) offset
        → result ≡ before kind (cells_from 0 spots part.now.size) offset }
{
    let stop = last_passed(&part.stops, offset);
    stop.cured + (offset - stop.end)
}
