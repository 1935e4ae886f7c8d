//! What instructions without code leave in the temporary that they write.
ghost use Rattle.std.specs.Prelude.{◌≡◌, Some, None};
ghost use Rattle.c_types.specs.Table.{shape_at};
ghost use Rattle.cil_form.specs.Meaning.{into_of_set, into_of_calculate, into_of_point, into_of_convert, into_of_allocate, into_of_runtime};
ghost use Rattle.cure_instrs.specs.Lines.{held_views};
ghost use Rattle.cure_bodies.specs.Holding.{Notes};
ghost use Rattle.cure_bodies.specs.Results.{set_result, operator_result, calculate_result, point_result, convert_result, allocate_result, runtime_result, called_by};

use crate::held::{a_long, an_int, called_by, held_at};
use crate::holding::{Holdings, note};
use cc_base::TypeId;
use check_insert::Draft;
use cil_form::{Allocate, Calculate, Call, Convert, Operator, Point, RuntimeCall, Set};
use cure_instrs::Held;
use cure_scope::Scope;

/// What a constant or a copy leaves. `from` is what the temporary holds that is copied.
pub(crate) fn note_set(
    out: &mut Draft,
    k: &Scope<'_>,
    held: &mut Holdings,
    from: Option<Held>,
    i: Set,
)
    ensures { Notes (into_of_set i) (set_result i k.now.layouts.now.table (held_views from)) out.old
        held.old out.new held.new }
{
    match i {
        Set::Integer { into, value: _, ty } => note(out, held, into, held_at(k, ty)),
        Set::Null { into, ty } => note(out, held, into, held_at(k, ty)),
        Set::Function {
            into,
            function: _,
            ty,
        } => note(out, held, into, held_at(k, ty)),
        Set::Object {
            into,
            object: _,
            home,
            ty,
        } => note(out, held, into, Some(Held::Place(home, ty))),
        Set::Copy { into, from: _ } => note(out, held, into, from),
    }
}

/// What an operator gives.
fn operator_result(k: &Scope<'_>, operator: Operator, ty: TypeId) -> Option<Held>
    ensures { held_views result ≡ operator_result operator k.now.layouts.now.table ty }
{
    match operator {
        Operator::Compare(_) => Some(an_int()),
        Operator::Add
        | Operator::Subtract
        | Operator::Multiply
        | Operator::Divide
        | Operator::Remainder
        | Operator::And
        | Operator::Or
        | Operator::ExclusiveOr
        | Operator::ShiftLeft
        | Operator::ShiftRight => held_at(k, ty),
    }
}

/// What an operator on integers, or a truth value, leaves.
pub(crate) fn note_calculate(out: &mut Draft, k: &Scope<'_>, held: &mut Holdings, i: Calculate)
    ensures { Notes (into_of_calculate i) (calculate_result i k.now.layouts.now.table) out.old
        held.old out.new held.new }
{
    match i {
        Calculate::Negate {
            into,
            operand: _,
            ty,
        } => note(out, held, into, held_at(k, ty)),
        Calculate::Complement {
            into,
            operand: _,
            ty,
        } => note(out, held, into, held_at(k, ty)),
        Calculate::Binary {
            into,
            operator,
            left: _,
            right: _,
            ty,
            place: _,
        } => note(out, held, into, operator_result(k, operator, ty)),
        Calculate::Truth { into, operand: _ } => note(out, held, into, Some(an_int())),
        Calculate::Not { into, operand: _ } => note(out, held, into, Some(an_int())),
    }
}

/// What an instruction on pointers leaves.
pub(crate) fn note_point(out: &mut Draft, k: &Scope<'_>, held: &mut Holdings, i: Point)
    ensures { Notes (into_of_point i) (point_result i k.now.layouts.now.table) out.old held.old
        out.new held.new }
{
    match i {
        Point::Move { into, ty, .. } => note(out, held, into, held_at(k, ty)),
        Point::Difference { into, .. } => note(out, held, into, Some(a_long())),
        Point::Compare { into, .. } => note(out, held, into, Some(an_int())),
        Point::IsNull { into, .. } => note(out, held, into, Some(an_int())),
        Point::Member {
            into,
            inner,
            member_ty,
            ..
        } => note(out, held, into, Some(Held::Place(inner, member_ty))),
        Point::Decay {
            into,
            inner,
            element,
            ..
        } => note(out, held, into, Some(Held::Pointer(inner, element))),
        Point::Address {
            into,
            inner,
            ty,
            ..
        } => note(out, held, into, Some(Held::Pointer(inner, ty))),
    }
}

/// What a conversion leaves.
pub(crate) fn note_convert(out: &mut Draft, k: &Scope<'_>, held: &mut Holdings, i: Convert)
    ensures { Notes (into_of_convert i) (convert_result i k.now.layouts.now.table) out.old held.old
        out.new held.new }
{
    match i {
        Convert::Integer { into, from: _, ty } => note(out, held, into, held_at(k, ty)),
        Convert::ToPointer { into, ty, .. } => note(out, held, into, held_at(k, ty)),
        Convert::FromPointer { into, ty, .. } => note(out, held, into, held_at(k, ty)),
        Convert::Pointer { into, ty, .. } => note(out, held, into, held_at(k, ty)),
    }
}

/// What an allocation leaves.
pub(crate) fn note_allocate(out: &mut Draft, held: &mut Holdings, i: Allocate)
    ensures { Notes (into_of_allocate i) (allocate_result i) out.old held.old out.new held.new }
{
    match i {
        Allocate::Malloc { into, node, ty, .. } => note(
            out,
            held,
            into,
            Some(Held::Pointer(node, ty)),
        ),
        Allocate::Calloc { into, node, ty, .. } => note(
            out,
            held,
            into,
            Some(Held::Pointer(node, ty)),
        ),
    }
}

/// What a call leaves.
pub(crate) fn note_call(out: &mut Draft, k: &Scope<'_>, held: &mut Holdings, i: Call)
    ensures { Notes i.into (called_by k.now.layouts.now.table
        (shape_at k.now.layouts.now.table i.ty)) out.old held.old out.new held.new }
{
    note(out, held, i.into, called_by(k, i.ty))
}

/// What a call of the C library leaves.
pub(crate) fn note_runtime(out: &mut Draft, held: &mut Holdings, i: RuntimeCall)
    ensures { Notes (into_of_runtime i) (runtime_result i) out.old held.old out.new held.new }
{
    match i {
        RuntimeCall::Free { into, pointer: _ } => note(out, held, into, None),
        RuntimeCall::Getchar { into } => note(out, held, into, Some(an_int())),
        RuntimeCall::Putchar { into, value: _ } => note(out, held, into, Some(an_int())),
        RuntimeCall::Exit { into, status: _ } => note(out, held, into, None),
    }
}
