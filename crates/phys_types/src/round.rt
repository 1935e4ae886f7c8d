//! A round of the refinement that finds which types are physically equal.
#![tactic(auto)]

ghost use Rattle.std.specs.Prelude.{ℕ, ◌≡◌, ◌<◌, ◌≤◌, Some, List, length, take, replicate, slice_index_or, nat_eq, IfOk, OnOk, IsTrue};
ghost use Rattle.std.specs.List.{All, Contains};
ghost use Rattle.indexmap.specs.IndexMap.{get};
ghost use Rattle.cc_base.specs.declared.number.TypeId.{TypeId};
ghost use Rattle.c_types.specs.Table.{IsType};
ghost use Rattle.c_types.specs.Equality.{made_alike};
ghost use Rattle.c_types.specs.Sound.{IsWellFormed};
ghost use Rattle.phys_types.specs.Numbers.{number_in, same_number};
ghost use Rattle.phys_types.specs.Orders.{IsWholeOrder};
ghost use Rattle.phys_types.specs.Reach.{IsClosed};
ghost use Rattle.phys_types.specs.Shown.{IsKeptOf, IsLowKept, ArePartsKept, ArePartsShown};
ghost use Rattle.phys_types.specs.Rounds.{IsOrder, AreShown, IsRound, AreSettled, AreStable, first_place};

use crate::building::kept_of;
use crate::comparing::{number_of, same_by_part};
use crate::keeping::Repeated;
use crate::lending::lend;
use crate::makeup::looks_alike;
use crate::phys::is_one_function;
use crate::refining::refine;
use c_types::Types;
use cc_base::{NoMemory, TypeId};
use indexmap::IndexMap;
use std::alloc::Global;

/// Numbers of types, and what is kept of the layouts of the types in order, under the numbers of the round before.
#[derive(Drop)]
pub(crate) struct Round {
    pub(crate) numbers: Vec<usize>,
    pub(crate) layouts: Vec<Repeated>,
}

/// As many zeros.
pub(crate) fn zeros(alloc: Global, count: usize) -> Result<Vec<usize>, NoMemory>
    ensures { IfOk result (λ zeros. zeros.items ≡ replicate count 0) }
{
    Ok(vec![in alloc; 0; count]?)
}

/// Whether two types look alike, by what is kept of them.
fn look_alike(
    alloc: Global,
    types: &Types,
    numbers: &[usize],
    t: TypeId,
    x: &Repeated,
    u: TypeId,
    y: &Repeated,
) -> Result<bool, NoMemory>
    requires formed { IsWellFormed types.now }
    requires first { IsType types.now t }
    requires second { IsType types.now u }
    requires first_kept { IsKeptOf types.now (same_number (number_in numbers.now)) t x.now }
    requires second_kept { IsKeptOf types.now (same_number (number_in numbers.now)) u y.now }
    ensures { IfOk result (λ alike. alike ≡ made_alike types.now
        (same_number (number_in numbers.now)) t u) }
{
    if !is_one_function(types, t, u) && same_by_part(numbers, x, y) {
        return Ok(true);
    }
    let lent = lend(alloc, x)?;
    let other = lend(alloc, y)?;
    Ok(looks_alike(types, numbers, t, lent.layout(), u, other.layout()))
}

/// The place of the first of the types so far that is made like a type, or how many there are.
fn first_alike(
    alloc: Global,
    types: &Types,
    numbers: &[usize],
    order: &[TypeId],
    layouts: &[Repeated],
    t: TypeId,
    own: &Repeated,
) -> Result<usize, NoMemory>
    requires formed { IsWellFormed types.now }
    requires typed { IsType types.now t }
    requires types { All (IsType types.now) order.now }
    requires within { length layouts.now ≤ length order.now }
    requires shown { AreShown types.now (same_number (number_in numbers.now)) order.now
        layouts.now }
    requires own { IsKeptOf types.now (same_number (number_in numbers.now)) t own.now }
    ensures { IfOk result (λ place. place ≡ first_place (λ u. made_alike types.now
        (same_number (number_in numbers.now)) u t) (take (length layouts.now) order.now)) }
{
    for (i, other) in layouts.iter().enumerate() {
        let alike = look_alike(alloc, types, numbers, order[i], other, t, own)?;
        if alike {
            return Ok(i);
        }
    }
    Ok(layouts.len())
}

/// The numbers of a round: each type gets the place of the first that is made like it, where what they point to is equal by
/// the numbers before.
pub(crate) fn renumber(
    alloc: Global,
    types: &Types,
    order: &[TypeId],
    places: &[usize],
    numbers: &[usize],
) -> Result<Round, NoMemory>
    requires formed { IsWellFormed types.now }
    requires order { IsOrder types.now order.now places.now }
    ensures { IfOk result (λ round. IsRound types.now (same_number (number_in numbers.now))
        order.now round.numbers.items round.layouts.items) }
{
    let mut next = zeros(alloc, types.count() as usize)?;
    let mut layouts = Vec::with_capacity(alloc, order.len())?;
    'types: for t in order {
        let own = kept_of(alloc, types, numbers, places, &layouts, *t)?;
        let first = first_alike(alloc, types, numbers, order, &layouts, *t, &own)?;
        next[t.0 as usize] = first;
        layouts.push(own)?;
    }
    Ok(Round {
        numbers: next,
        layouts,
    })
}

/// What is kept of the layouts of the types in order, under numbers.
fn built(
    alloc: Global,
    types: &Types,
    order: &[TypeId],
    places: &[usize],
    numbers: &[usize],
) -> Result<Vec<Repeated>, NoMemory>
    requires formed { IsWellFormed types.now }
    requires order { IsOrder types.now order.now places.now }
    ensures all { IfOk result (λ layouts. length layouts.items ≡ length order.now) }
    ensures shown { IfOk result (λ layouts. AreShown types.now
        (same_number (number_in numbers.now)) order.now layouts.items) }
{
    let mut layouts = Vec::with_capacity(alloc, order.len())?;
    'types: for t in order {
        let own = kept_of(alloc, types, numbers, places, &layouts, *t)?;
        layouts.push(own)?;
    }
    Ok(layouts)
}

/// The place that is kept for a number; the first that comes is.
fn first_with(
    firsts: &mut IndexMap<usize, usize>,
    number: usize,
    place: usize,
) -> Result<usize, NoMemory>
    ensures here { IfOk result (λ first. get nat_eq firsts.new number ≡ Some first) }
    ensures kept { OnOk result ((n k : ℕ) → get nat_eq firsts.old n ≡ Some k
        → get nat_eq firsts.new n ≡ Some k) }
{
    if let Some(first) = firsts.get(&number) {
        return Ok(*first);
    }
    firsts.insert(number, place)?;
    Ok(place)
}

/// Whether the types at two places look alike. A type looks like itself.
fn look_alike_at(
    alloc: Global,
    types: &Types,
    order: &[TypeId],
    layouts: &[Repeated],
    numbers: &[usize],
    first: usize,
    place: usize,
) -> Result<bool, NoMemory>
    requires formed { IsWellFormed types.now }
    requires types { All (IsType types.now) order.now }
    requires all { length layouts.now ≡ length order.now }
    requires shown { AreShown types.now (same_number (number_in numbers.now)) order.now
        layouts.now }
    requires place { place < length order.now }
    ensures { (d : TypeId) → IfOk result (λ alike. IsTrue alike → IsTrue (made_alike types.now
        (same_number (number_in numbers.now)) (slice_index_or order.now first d)
        (slice_index_or order.now place d))) }
{
    if first == place {
        return Ok(true);
    }
    if first >= order.len() {
        return Ok(false);
    }
    look_alike(
        alloc,
        types,
        numbers,
        order[first],
        &layouts[first],
        order[place],
        &layouts[place],
    )
}

/// Whether types of one number are made alike: each is compared with the first of its number.
fn are_stable(
    alloc: Global,
    types: &Types,
    order: &[TypeId],
    layouts: &[Repeated],
    numbers: &[usize],
) -> Result<bool, NoMemory>
    requires formed { IsWellFormed types.now }
    requires types { All (IsType types.now) order.now }
    requires all { length layouts.now ≡ length order.now }
    requires shown { AreShown types.now (same_number (number_in numbers.now)) order.now
        layouts.now }
    ensures { IfOk result (λ stable. IsTrue stable → AreStable types.now order.now numbers.now) }
{
    let mut firsts = IndexMap::new(alloc);
    'places: for place in 0..order.len() {
        let first = first_with(&mut firsts, number_of(numbers, order[place]), place)?;
        let alike = look_alike_at(alloc, types, order, layouts, numbers, first, place)?;
        if !alike {
            return Ok(false);
        }
    }
    Ok(true)
}

/// How many of the first spots of a type numbers are made finer by, at first.
const FIRST_LIMIT: usize = 1024;

/// Numbers that are the same exactly for physically equal types, and what is kept of the layouts of the types in order, under them.
///
/// One number for all types is made finer, until types of one number are made alike. A union may be mixed under finer numbers that
/// wasn't before, so layouts are built again. Where that doesn't come to an end, the levels of the definition decide.
pub(crate) fn settle(
    alloc: Global,
    types: &Types,
    order: &[TypeId],
    places: &[usize],
) -> Result<Round, NoMemory>
    requires formed { IsWellFormed types.now }
    requires order { IsWholeOrder types.now order.now places.now }
    ensures { IfOk result (λ round. AreSettled types.now order.now round.numbers.items
        round.layouts.items) }
{
    let count = types.count() as usize;
    let mut numbers = zeros(alloc, count)?;
    let mut limit = FIRST_LIMIT;
    'rounds: for _round in 0..count {
        let layouts = built(alloc, types, order, places, &numbers)?;
        let stable = are_stable(alloc, types, order, &layouts, &numbers)?;
        if stable {
            return Ok(Round { numbers, layouts });
        }
        numbers = refine(alloc, types, places, &layouts, &numbers, limit)?;
        limit = limit.saturating_mul(4);
    }
    settle_by_levels(alloc, types, order, places)
}

/// The same by levels: the numbers after k rounds from one number for all types are equality at level k.
///
/// The rounds end where one changes nothing, and after the square of the number of types at the latest.
fn settle_by_levels(
    alloc: Global,
    types: &Types,
    order: &[TypeId],
    places: &[usize],
) -> Result<Round, NoMemory>
    requires formed { IsWellFormed types.now }
    requires order { IsOrder types.now order.now places.now }
    requires closed { IsClosed types.now (Contains order.now) }
    ensures { IfOk result (λ round. AreSettled types.now order.now round.numbers.items
        round.layouts.items) }
{
    let count = types.count() as usize;
    let mut numbers = zeros(alloc, count)?;
    'rounds: for _round in 0..count * count {
        let round = renumber(alloc, types, order, places, &numbers)?;
        if round.numbers.as_slice() == numbers.as_slice() {
            return Ok(round);
        }
        let Round {
            numbers: next,
            layouts: _layouts,
        } = round;
        numbers = next;
    }
    let Round {
        numbers: _next,
        layouts,
    } = renumber(alloc, types, order, places, &numbers)?;
    Ok(Round { numbers, layouts })
}
