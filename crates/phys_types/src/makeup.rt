//! Whether two types are made alike, up to what they point to.
#![tactic(auto)]

ghost use Rattle.std.specs.Prelude.{ℕ, ◌≡◌, ◌≤◌, ◌&&◌, List, ◌∷◌, length, map};
ghost use Rattle.std.specs.List.{All};
ghost use lib.Pointwise.{pointwise};
ghost use Rattle.cc_base.specs.declared.number.TypeId.{TypeId};
ghost use Rattle.c_types.specs.Table.{IsType, shape_at};
ghost use Rattle.c_types.specs.Cells.{Relation};
ghost use Rattle.c_types.specs.Equality.{slot_of, same_slot, makeup_at, same_makeup};
ghost use Rattle.c_types.specs.Sound.{IsWellFormed};
ghost use Rattle.phys_types.specs.Numbers.{number_in, same_number};
ghost use Rattle.phys_types.specs.Shown.{IsLayoutOf};

use crate::comparing::{number_of, same_spots};
use crate::spot::Layout;
use c_types::{TypeShape, Types};
use cc_base::TypeId;

/// Whether a parameter or a result is passed like another.
fn same_slot(types: &Types, numbers: &[usize], p: TypeId, q: TypeId) -> bool
    requires first { IsType types.now p }
    requires second { IsType types.now q }
    ensures { result ≡ same_slot (same_number (number_in numbers.now))
        (slot_of p (shape_at types.now p)) (slot_of q (shape_at types.now q)) }
{
    match types.shape(p) {
        TypeShape::Void => matches!(types.shape(q), TypeShape::Void),
        TypeShape::Integer { bytes, signed } => match types.shape(q) {
            TypeShape::Integer {
                bytes: size,
                signed: sign,
            } => *bytes == *size && *signed == *sign,
            _ => false,
        },
        TypeShape::Pointer(_, to) => match types.shape(q) {
            TypeShape::Pointer(_, target) => number_of(numbers, *to) == number_of(numbers, *target),
            _ => false,
        },
        _ => match types.shape(q) {
            TypeShape::Void => false,
            TypeShape::Integer {
                bytes: _,
                signed: _,
            } => false,
            TypeShape::Pointer(_, _) => false,
            _ => number_of(numbers, p) == number_of(numbers, q),
        },
    }
}

/// Whether there are as many parameters, passed alike one by one.
fn same_slots(types: &Types, numbers: &[usize], ps: &[TypeId], qs: &[TypeId]) -> bool
    requires first { All (IsType types.now) ps.now }
    requires second { All (IsType types.now) qs.now }
    ensures { result ≡ pointwise (λ p q. same_slot (same_number (number_in numbers.now))
        (slot_of p (shape_at types.now p)) (slot_of q (shape_at types.now q))) ps.now qs.now }
{
    if ps.len() != qs.len() {
        return false;
    }
    for (i, p) in ps.iter().enumerate() {
        if !same_slot(types, numbers, *p, qs[i]) {
            return false;
        }
    }
    true
}

/// Whether two types look alike by their layouts: whether they are made alike, where what they point to is taken to be equal by the
/// numbers. Whether unions are mixed is judged as it is in the layouts.
pub(crate) fn looks_alike(
    types: &Types,
    numbers: &[usize],
    t: TypeId,
    x: &Layout,
    u: TypeId,
    y: &Layout,
) -> bool
    requires formed { IsWellFormed types.now }
    requires first { IsType types.now t }
    requires second { IsType types.now u }
    ensures { (E : Relation) → IsLayoutOf types.now E t x.now → IsLayoutOf types.now E u y.now
        → result ≡ same_makeup (same_number (number_in numbers.now)) (makeup_at types.now E t)
        (makeup_at types.now E u) }
{
    match types.shape(t) {
        TypeShape::Function(ps, r) => match types.shape(u) {
            TypeShape::Function(qs, s) => same_slot(types, numbers, *r, *s)
                && same_slots(types, numbers, ps.ids(), qs.ids()),
            _ => false,
        },
        _ => match types.shape(u) {
            TypeShape::Function(_, _) => false,
            _ => x.size == y.size && same_spots(numbers, &x.spots, &y.spots),
        },
    }
}
