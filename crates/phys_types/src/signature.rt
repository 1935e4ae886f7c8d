//! Numbers that types made alike share, and what a type points to: types are told apart by them, a type at a time.
#![tactic(auto)]

ghost use Rattle.std.specs.Prelude.{◌≡◌, ◌++◌, ◌∷◌, flat_map, IfOk, OnOk};
ghost use Rattle.std.specs.List.{All};
ghost use Rattle.c_types.specs.Sound.{IsWellFormed};
ghost use Rattle.c_types.specs.Table.{IsType};
ghost use Rattle.phys_types.specs.Signatures.{mixed, mixed_all, item_form, spot_form, slot_form, slot_in, form_at, item_targets, slot_targets, targets_at};

use crate::spot::{Item, Spot};
use c_types::{TypeShape, Types};
use cc_base::{NoMemory, TypeId};
use std::alloc::Global;

/// An odd number whose bits are well mixed.
const FACTOR: usize = 6_364_136_223_846_793_005;

/// A number from two: others give another one, but for rare accidents. Zeros give zero.
#[tactic(auto, unfolding(crate::specs::Signatures::mixed))]
pub fn mixed(first: usize, second: usize) -> usize
    ensures { result ≡ mixed first second }
{
    let sum = first.wrapping_mul(FACTOR).wrapping_add(second);
    sum.wrapping_mul(sum.wrapping_mul(2).wrapping_add(1))
}

/// What is seen of an item without what it points to.
fn item_form(item: Item) -> usize
    ensures { result ≡ item_form item }
{
    match item {
        Item::Pointer(_, _) => 1,
        Item::Mixed(t, _) => mixed(2, t.0 as usize),
        Item::Incomplete(t) => mixed(3, t.0 as usize),
    }
}

/// What is seen of spots without what they point to.
fn spots_form(spots: &[Spot]) -> usize
    ensures { result ≡ mixed_all 2 spot_form spots.now }
{
    let mut form = 2;
    'spots: for spot in spots {
        form = mixed(form, mixed(spot.start as usize, item_form(spot.item)));
    }
    form
}

/// What is seen of a parameter or a result without what it points to.
fn slot_form(types: &Types, p: TypeId) -> usize
    requires { IsType types.now p }
    ensures { result ≡ slot_form (slot_in types.now p) }
{
    match types.shape(p) {
        TypeShape::Void => 1,
        TypeShape::Integer { bytes, signed } => mixed(2, mixed(*bytes as usize, *signed as usize)),
        TypeShape::Pointer(_, _) => 3,
        _ => 4,
    }
}

/// What is seen of parameters without what they point to, behind a number.
fn slots_form(types: &Types, start: usize, ps: &[TypeId]) -> usize
    requires { All (IsType types.now) ps.now }
    ensures { result ≡ mixed_all start (λ p. slot_form (slot_in types.now p)) ps.now }
{
    let mut form = start;
    'slots: for p in ps {
        form = mixed(form, slot_form(types, *p));
    }
    form
}

/// What is seen of a type without what it points to, by how many cells it has and by its first spots.
pub(crate) fn form_of(types: &Types, t: TypeId, size: u64, spots: &[Spot]) -> usize
    requires formed { IsWellFormed types.now }
    requires typed { IsType types.now t }
    ensures { result ≡ form_at types.now t size spots.now }
{
    match types.shape(t) {
        TypeShape::Function(ps, r) => {
            let first = mixed(1, slot_form(types, *r));
            slots_form(types, first, ps.ids())
        }
        _ => mixed(spots_form(spots), size as usize),
    }
}

/// Adds what an item points to.
fn add_item_target(targets: &mut Vec<TypeId>, item: Item) -> Result<(), NoMemory>
    ensures { OnOk result (targets.new.items ≡ targets.old.items ++ item_targets item) }
{
    if let Item::Pointer(_, to) = item {
        targets.push(to)?;
    }
    Ok(())
}

/// What spots point to, in order.
fn spots_targets(alloc: Global, spots: &[Spot]) -> Result<Vec<TypeId>, NoMemory>
    ensures { IfOk result (λ targets. targets.items
        ≡ flat_map (λ s. item_targets s.item) spots.now) }
{
    let mut targets = Vec::new(alloc);
    'spots: for spot in spots {
        add_item_target(&mut targets, spot.item)?;
    }
    Ok(targets)
}

/// Adds what a parameter or a result points to; one that is no scalar counts as what it is.
fn add_slot_target(types: &Types, targets: &mut Vec<TypeId>, p: TypeId) -> Result<(), NoMemory>
    requires { IsType types.now p }
    ensures { OnOk result (targets.new.items
        ≡ targets.old.items ++ slot_targets (slot_in types.now p)) }
{
    let target = match types.shape(p) {
        TypeShape::Void => return Ok(()),
        TypeShape::Integer { .. } => return Ok(()),
        TypeShape::Pointer(_, to) => *to,
        _ => p,
    };
    targets.push(target)?;
    Ok(())
}

/// Adds what parameters point to, in order.
fn add_slots_targets(
    types: &Types,
    targets: &mut Vec<TypeId>,
    ps: &[TypeId],
) -> Result<(), NoMemory>
    requires { All (IsType types.now) ps.now }
    ensures { OnOk result (targets.new.items ≡ targets.old.items ++ flat_map
        (λ p. slot_targets (slot_in types.now p)) ps.now) }
{
    'slots: for p in ps {
        add_slot_target(types, targets, *p)?;
    }
    Ok(())
}

/// What the result and the parameters of a function point to, in order.
fn function_targets(
    alloc: Global,
    types: &Types,
    r: TypeId,
    ps: &[TypeId],
) -> Result<Vec<TypeId>, NoMemory>
    requires result { IsType types.now r }
    requires parameters { All (IsType types.now) ps.now }
    ensures { IfOk result (λ targets. targets.items
        ≡ flat_map (λ p. slot_targets (slot_in types.now p)) (r ∷ ps.now)) }
{
    let mut targets = Vec::new(alloc);
    add_slot_target(types, &mut targets, r)?;
    add_slots_targets(types, &mut targets, ps)?;
    Ok(targets)
}

/// What a type points to, in order, as its first spots show it.
pub(crate) fn targets_of(
    alloc: Global,
    types: &Types,
    t: TypeId,
    spots: &[Spot],
) -> Result<Vec<TypeId>, NoMemory>
    requires formed { IsWellFormed types.now }
    requires typed { IsType types.now t }
    ensures { IfOk result (λ targets. targets.items ≡ targets_at types.now t spots.now) }
{
    match types.shape(t) {
        TypeShape::Function(ps, r) => function_targets(alloc, types, *r, ps.ids()),
        _ => spots_targets(alloc, spots),
    }
}
