//! Layouts compared under numbers for what their pointers point to.
#![tactic(auto)]

ghost use Rattle.std.specs.Prelude.{ℕ, ◌≡◌, ◌+◌, ◌<◌, ◌≤◌, ◌&&◌, length, nat_le, IsTrue};
ghost use Rattle.std.specs.Int.{IsGcd};
ghost use Rattle.phys_types.specs.Spots.{AreSpots, item_size};
ghost use Rattle.phys_types.specs.Numbers.{number_in, same_item, same_spot, same_spots, start_from, begin_with_spots, spots_before, end_within, AreLow};
ghost use Rattle.phys_types.specs.Shown.{all_size, all_spots};

use crate::keeping::Repeated;
use crate::spot::{Item, Layout, Spot};
use cc_base::TypeId;

/// The number of a type, by the list of all; 0 for one that isn't in it.
pub fn number_of(numbers: &[usize], t: TypeId) -> usize
    ensures { result ≡ number_in numbers.now t }
{
    numbers.get(t.0 as usize).copied().unwrap_or(0)
}

/// Whether two items have alike cells: pointers to types with one number, bytes of one union, or one tag.
pub(crate) fn same_item(numbers: &[usize], x: Item, y: Item) -> bool
    ensures { result ≡ same_item (number_in numbers.now) x y }
{
    match x {
        Item::Pointer(_, to) => match y {
            Item::Pointer(_, target) => number_of(numbers, to) == number_of(numbers, target),
            _ => false,
        },
        Item::Mixed(t, _) => match y {
            Item::Mixed(u, _) => t.0 == u.0,
            _ => false,
        },
        Item::Incomplete(t) => match y {
            Item::Incomplete(u) => t.0 == u.0,
            _ => false,
        },
    }
}

/// Whether two spots begin at one place and have alike cells.
pub(crate) fn same_spot(numbers: &[usize], x: Spot, y: Spot) -> bool
    ensures { result ≡ same_spot (number_in numbers.now) x y }
{
    x.start == y.start && same_item(numbers, x.item, y.item)
}

/// Whether there are as many spots, the same one by one.
pub(crate) fn same_spots(numbers: &[usize], xs: &[Spot], ys: &[Spot]) -> bool
    ensures { result ≡ same_spots (number_in numbers.now) xs.now ys.now }
{
    if xs.len() != ys.len() {
        return false;
    }
    for (i, x) in xs.iter().enumerate() {
        if !same_spot(numbers, *x, ys[i]) {
            return false;
        }
    }
    true
}

/// Whether no spot begins before `n`.
fn start_from(n: u64, spots: &[Spot]) -> bool
    ensures { result ≡ start_from n spots.now }
{
    match spots.first() {
        Some(spot) => n <= spot.start,
        None => true,
    }
}

/// Whether the spots that begin before `n` are the same as `front`.
fn begin_with_spots(numbers: &[usize], n: u64, spots: &[Spot], front: &[Spot]) -> bool
    ensures { result ≡ begin_with_spots (number_in numbers.now) n spots.now front.now }
{
    if front.len() > spots.len() {
        return false;
    }
    let (first, rest) = spots.split_at(front.len());
    same_spots(numbers, first, front) && start_from(n, rest)
}

/// Whether the first cells of a layout are alike to all of another's.
pub(crate) fn begins(numbers: &[usize], x: &Layout, y: &Layout) -> bool
    ensures { result ≡ (nat_le y.now.size x.now.size && begin_with_spots
        (number_in numbers.now) y.now.size x.now.spots.items y.now.spots.items) }
{
    y.size <= x.size && begin_with_spots(numbers, y.size, &x.spots, &y.spots)
}

/// Whether layouts of copies of the same part show by one copy that the first begins with the second.
pub(crate) fn begins_by_part(numbers: &[usize], x: &Repeated, y: &Repeated) -> bool
    ensures { IsTrue result → IsTrue (nat_le (all_size y.now) (all_size x.now) && begin_with_spots
        (number_in numbers.now) (all_size y.now) (all_spots x.now) (all_spots y.now)) }
{
    if x.part.size != y.part.size || x.count < y.count {
        return false;
    }
    same_spots(numbers, &x.part.spots, &y.part.spots)
}

/// Whether layouts of as many copies of the same part show by one copy that they are the same.
pub(crate) fn same_by_part(numbers: &[usize], x: &Repeated, y: &Repeated) -> bool
    ensures { IsTrue result → (all_size x.now ≡ all_size y.now) × IsTrue
        (same_spots (number_in numbers.now) (all_spots x.now) (all_spots y.now)) }
{
    if x.part.size != y.part.size || x.count != y.count {
        return false;
    }
    same_spots(numbers, &x.part.spots, &y.part.spots)
}

/// The spots up to the first that begins at `n` or later.
pub(crate) fn spots_before(n: u64, spots: &[Spot]) -> &[Spot]
    ensures { result.now ≡ spots_before n spots.now }
{
    for (i, spot) in spots.iter().enumerate() {
        if spot.start >= n {
            return &spots[..i];
        }
    }
    spots
}

/// Whether no spot ends past `n`.
pub(crate) fn end_within(n: u64, spots: &[Spot]) -> bool
    requires { AreLow spots.now }
    ensures { result ≡ end_within n spots.now }
{
    for spot in spots {
        if !ends_within(n, *spot) {
            return false;
        }
    }
    true
}

/// Whether a spot ends at `n` or before.
fn ends_within(n: u64, spot: Spot) -> bool
    requires { spot.start + item_size spot.item ≤ 1048576 }
    ensures { result ≡ nat_le (spot.start + item_size spot.item) n }
{
    spot.start + spot.item.size() <= n
}

/// The greatest common divisor.
pub(crate) fn greatest_common_divisor(a: u64, b: u64) -> u64
    ensures { IsGcd a b result }
{
    let mut x = a;
    let mut y = b;
    'euclid: while y != 0 {
        let rest = x % y;
        x = y;
        y = rest;
    }
    x
}
