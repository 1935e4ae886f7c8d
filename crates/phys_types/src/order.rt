//! An order of the types in which parts come first.
#![tactic(auto)]

ghost use Rattle.std.specs.Prelude.{ℕ, ◌≡◌, ◌<◌, ◌≤◌, List, length, slice_index_or, IfOk, OnOk, IsTrue, false, replicate};
ghost use Rattle.std.specs.List.{All, Contains, list_all};
ghost use Rattle.cc_base.specs.declared.number.TypeId.{TypeId};
ghost use Rattle.c_types.specs.Table.{Table, IsType, IsAggregate, parts_at, shape_at, members_at};
ghost use Rattle.c_types.specs.Sound.{IsWellFormed};
ghost use Rattle.phys_types.specs.Rounds.{IsOrder};
ghost use Rattle.phys_types.specs.Orders.{IsPlacing, is_marked, is_done, waiting, Steps, RoundSteps, IsWholeOrder};

use crate::round::zeros;
use c_types::{TypeShape, Types};
use cc_base::{NoMemory, TypeId};
use std::alloc::Global;

/// The types of a table in an order in which the parts of a type come before it, and the place of each.
#[derive(Drop)]
pub(crate) struct Order {
    pub(crate) list: Vec<TypeId>,
    pub(crate) places: Vec<usize>,
}

/// Whether the members of a struct or union are placed.
fn members_placed(types: &Types, placed: &[bool], t: TypeId) -> bool
    requires typed { IsType types.now t }
    requires aggregate { IsAggregate types.now t }
    requires fits { length placed.now ≡ length types.now }
    requires members { All (IsType types.now) (members_at types.now t) }
    ensures { result ≡ list_all (is_marked placed.now) (members_at types.now t) }
{
    'members: for i in 0..types.fields(t) {
        let member = types.field(t, i).ty;
        if !placed[member.0 as usize] {
            return false;
        }
    }
    true
}

/// Whether the parts of a type are placed.
fn parts_placed(types: &Types, placed: &[bool], t: TypeId) -> bool
    requires formed { IsWellFormed types.now }
    requires typed { IsType types.now t }
    requires fits { length placed.now ≡ length types.now }
    ensures { result ≡ list_all (is_marked placed.now) (parts_at types.now t) }
{
    match types.shape(t) {
        TypeShape::Array(element, _) => placed[element.0 as usize],
        TypeShape::Struct(_) => members_placed(types, placed, t),
        TypeShape::Union(_) => members_placed(types, placed, t),
        _ => true,
    }
}

/// Places a type if its parts are placed and it is not, and says whether it did.
fn place(
    types: &Types,
    list: &mut Vec<TypeId>,
    places: &mut [usize],
    placed: &mut [bool],
    t: TypeId,
) -> Result<bool, NoMemory>
    requires formed { IsWellFormed types.now }
    requires typed { IsType types.now t }
    requires placing { IsPlacing types.now list.old.items places.old placed.old }
    ensures placing { OnOk result (IsPlacing types.now list.new.items places.new placed.new) }
    ensures steps { IfOk result (Steps placed.old placed.new) }
    ensures done { OnOk result (IsTrue (is_done types.now placed.new t)) }
{
    if placed[t.0 as usize] || !parts_placed(types, placed, t) {
        return Ok(false);
    }
    places[t.0 as usize] = list.len();
    placed[t.0 as usize] = true;
    list.push(t)?;
    Ok(true)
}

/// Tries to place each type once, and says whether one was placed.
fn place_round(
    types: &Types,
    list: &mut Vec<TypeId>,
    places: &mut [usize],
    placed: &mut [bool],
) -> Result<bool, NoMemory>
    requires formed { IsWellFormed types.now }
    requires placing { IsPlacing types.now list.old.items places.old placed.old }
    ensures placing { OnOk result (IsPlacing types.now list.new.items places.new placed.new) }
    ensures round { IfOk result (RoundSteps types.now placed.old placed.new (length types.now)) }
{
    let mut changed = false;
    'types: for t in 0..types.count() {
        let step = place(types, list, places, placed, TypeId(t))?;
        changed |= step;
    }
    Ok(changed)
}

/// Places all types, round after round.
fn place_all(
    types: &Types,
    list: &mut Vec<TypeId>,
    places: &mut [usize],
    placed: &mut [bool],
) -> Result<(), NoMemory>
    requires formed { IsWellFormed types.now }
    requires placing { IsPlacing types.now list.old.items places.old placed.old }
    ensures { OnOk result (IsWholeOrder types.now list.new.items places.new) }
{
    'rounds: loop {
        let changed = place_round(types, list, places, placed)?;
        if !changed {
            return Ok(());
        }
    }
}

/// The types of a table in an order in which the parts of a type come before it.
pub(crate) fn in_order(alloc: Global, types: &Types) -> Result<Order, NoMemory>
    requires { IsWellFormed types.now }
    ensures { IfOk result (λ order. IsWholeOrder types.now order.list.items order.places.items) }
{
    let count = types.count() as usize;
    let mut list = Vec::with_capacity(alloc, count)?;
    let mut places = zeros(alloc, count)?;
    let mut placed = unmarked(alloc, count)?;
    place_all(types, &mut list, &mut places, &mut placed)?;
    Ok(Order { list, places })
}

/// As many marks that are not set.
fn unmarked(alloc: Global, count: usize) -> Result<Vec<bool>, NoMemory>
    ensures { IfOk result (λ marks. marks.items ≡ replicate count false) }
{
    Ok(vec![in alloc; false; count]?)
}
