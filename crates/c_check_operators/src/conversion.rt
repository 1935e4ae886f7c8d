//! Conversions that C makes without being told, and casts (C99 6.3, 6.5.4, 6.5.16.1).
#![tactic(auto)]

ghost use Rattle.std.specs.Prelude.{◌≡◌, ◌&&◌, IfOk, false, option_copied};
ghost use Rattle.cc_base.specs.declared.number.NodeId.{NodeId};
ghost use Rattle.c_types.specs.declared.shape.TypeShape.TheVariants.{Pointer};
ghost use Rattle.c_tree.specs.TypedViews.{typed_expr_view};
ghost use Rattle.c_typing.specs.Assignments as assignments;
ghost use Rattle.c_typing.specs.Conversions as conversions;
ghost use Rattle.c_typing.specs.Growing.{Grows};
ghost use Rattle.c_typing.specs.Judging.{Answers, known};
ghost use Rattle.c_typing.specs.KindViews.{shape_or_void};
ghost use Rattle.c_typing.specs.Operands as operands;
ghost use Rattle.c_typing.specs.OperandViews.{part_view, part_ref_view};
ghost use Rattle.c_typing.specs.Shapes.{is_pointer_shape};
ghost use Rattle.c_typing.specs.Tests as tests;

use crate::unary::to_integer;
use crate::value_shape::shape_of;
use c_tree::{Boxed, Conversion, TypedExpr};
use c_types::{TypeShape, Types};
use c_typing::constant::is_null_constant;
use c_typing::operand::{Part, PartRef};
use c_typing::same::is_same_type;
use c_typing::scope::Scope;
use c_typing::shapes::{is_complete_at, is_data, is_pointer, is_void, shape_at};
use c_typing::typing::{made_for, raw_value, side_of, value_of};
use cc_base::{Fault, NoMemory, Place, TypeId};

pub(crate) fn points_to_void(types: &Types, t: TypeId) -> bool
    ensures { result ≡ conversions.points_to_void types.now t }
{
    is_void(shape_at(types, t))
}

pub(crate) fn are_data(types: &Types, t: TypeId, u: TypeId) -> bool
    ensures { result ≡ conversions.are_data types.now t u }
{
    is_data(types, t) && is_data(types, u)
}

/// Whether a pointer to the one type is taken where one to the other is wanted (C99 6.5.16.1).
pub(crate) fn is_taken_as(types: &Types, t: TypeId, u: TypeId) -> bool
    ensures { result ≡ conversions.is_taken_as types.now t u }
{
    is_same_type(types, t, u)
        || (are_data(types, t, u) && (points_to_void(types, t) || points_to_void(types, u)))
}

/// The conversion of a pointer to a pointer to a type.
fn taken(types: &Types, from: Option<&TypeShape>, to: TypeId) -> Option<Conversion>
    ensures { (n : NodeId) → result ≡ conversions.implicit_between types.now false
        (shape_or_void (option_copied from.entry)) (Pointer n to) }
{
    match from {
        Some(TypeShape::Pointer(_, t)) if is_taken_as(types, *t, to) => {
            Some(Conversion::PointerToPointer)
        }
        _ => None,
    }
}

/// The conversion that is made, without being told, of a value with this shape; `null` says that it is a null constant.
pub(crate) fn implicit_between(
    types: &Types,
    null: bool,
    from: Option<&TypeShape>,
    to: Option<&TypeShape>,
) -> Option<Conversion>
    ensures { result ≡ conversions.implicit_between types.now null
        (shape_or_void (option_copied from.entry)) (shape_or_void (option_copied to.entry)) }
{
    match to {
        Some(TypeShape::Integer { .. }) => match from {
            Some(TypeShape::Integer { .. }) => Some(Conversion::IntegerToInteger),
            _ => None,
        },
        Some(TypeShape::Pointer(_, to)) => {
            if null {
                Some(Conversion::NullToPointer)
            } else {
                taken(types, from, *to)
            }
        }
        _ => None,
    }
}

#[tactic(auto, using(crate::proofs::NullLaws::implicit_null))]
fn implicit(types: &Types, e: &TypedExpr, t: TypeId) -> Option<Conversion>
    ensures { result ≡ conversions.implicit types.now (typed_expr_view e.now) t }
{
    let to = shape_at(types, t);
    let null = is_null_with(types, PartRef::Value(e), to);
    implicit_between(types, null, shape_at(types, e.ty()), to)
}

/// A value with a conversion; one to the integer type that it has makes nothing.
#[tactic(auto, using(c_tree::proofs::TypedViewLaws::typed_views))]
fn converting(
    scope: &Scope,
    which: Conversion,
    at: Place,
    t: TypeId,
    e: Boxed<TypedExpr>,
) -> Result<Boxed<TypedExpr>, NoMemory>
    ensures { IfOk result (λ made. typed_expr_view made
        ≡ conversions.converting which at t (typed_expr_view e)) }
{
    match which {
        Conversion::IntegerToInteger => to_integer(scope, at, t, e),
        _ => Ok(Boxed::new(scope.alloc(), TypedExpr::Convert(which, at, t, e))?),
    }
}

/// A value, converted to a type without being told.
pub fn converted_to(
    scope: &Scope,
    types: &Types,
    at: Place,
    t: TypeId,
    e: Boxed<TypedExpr>,
) -> Result<Boxed<TypedExpr>, NoMemory>
    ensures { IfOk result (λ made. typed_expr_view made
        ≡ assignments.converted_to types.now at t (typed_expr_view e)) }
{
    match implicit(types, e.get(), t) {
        Some(which) => converting(scope, which, at, t, e),
        None => Ok(e),
    }
}

pub(crate) fn is_null_part(types: &Types, x: PartRef) -> bool
    ensures { result ≡ tests.is_null_part types.now (part_ref_view x.entry) }
{
    match x {
        PartRef::Value(e) => is_null_constant(types, e),
        _ => false,
    }
}

/// Whether a part is a null constant where a value of this shape is wanted, or meets it. Only a pointer asks for its value.
pub(crate) fn is_null_with(types: &Types, x: PartRef, other: Option<&TypeShape>) -> bool
    ensures { result ≡ tests.is_null_part types.now (part_ref_view x.entry) && is_pointer_shape
        (shape_or_void (option_copied other.entry)) }
{
    if is_pointer(other) {
        return is_null_part(types, x);
    }
    false
}

/// Whether a value becomes one of this shape without being told.
#[tactic(auto, using(crate::proofs::NullLaws::implicit_null))]
pub fn fits(types: &Types, x: PartRef, to: Option<&TypeShape>) -> bool
    ensures { result ≡ tests.fits types.now (part_ref_view x.entry)
        (shape_or_void (option_copied to.entry)) }
{
    let value = shape_of(types, x);
    let null = is_null_with(types, x, to);
    implicit_between(types, null, value.get(), to).is_some()
}

/// The conversion that a cast makes (C99 6.5.4).
fn cast_between(null: bool, from: Option<&TypeShape>, to: Option<&TypeShape>) -> Option<Conversion>
    ensures { result ≡ conversions.cast_between null (shape_or_void (option_copied from.entry))
        (shape_or_void (option_copied to.entry)) }
{
    match to {
        Some(TypeShape::Integer { .. }) => match from {
            Some(TypeShape::Integer { .. }) => Some(Conversion::IntegerToInteger),
            _ => None,
        },
        Some(TypeShape::Pointer(_, _)) => match from {
            _ if null => Some(Conversion::NullToPointer),
            Some(TypeShape::Integer { .. }) => Some(Conversion::IntegerToPointer),
            Some(TypeShape::Pointer(_, _)) => Some(Conversion::PointerToPointer),
            _ => None,
        },
        _ => None,
    }
}

#[tactic(auto, using(crate::proofs::NullLaws::cast_null))]
pub(crate) fn cast_conversion(types: &Types, e: &TypedExpr, t: TypeId) -> Option<Conversion>
    ensures { result ≡ conversions.cast_conversion types.now (typed_expr_view e.now) t }
{
    let to = shape_at(types, t);
    let null = is_null_with(types, PartRef::Value(e), to);
    cast_between(null, shape_at(types, e.ty()), to)
}

/// Whether a part can be cast to a type of this shape.
#[tactic(auto, using(crate::proofs::NullLaws::cast_null))]
pub(crate) fn is_castable(types: &Types, x: PartRef, to: Option<&TypeShape>) -> bool
    ensures { result ≡ tests.is_castable types.now (part_ref_view x.entry)
        (shape_or_void (option_copied to.entry)) }
{
    let value = shape_of(types, x);
    let null = is_null_with(types, x, to);
    is_void(to) || cast_between(null, value.get(), to).is_some()
}

/// Whether a type is a pointer to what is complete.
fn is_pointer_to_complete(scope: &Scope, types: &Types, t: TypeId) -> bool
    ensures { result ≡ conversions.is_pointer_to_complete types.now scope.now.scopes t }
{
    match shape_at(types, t) {
        Some(TypeShape::Pointer(_, to)) => is_complete_at(scope, types, *to),
        _ => false,
    }
}

/// An allocation that is given to a type.
#[tactic(auto, unfolding(c_typing::specs::Operands::given_allocation))]
fn given_allocation(
    scope: &mut Scope,
    types: &mut Types,
    t: TypeId,
    at: Place,
    e: Boxed<TypedExpr>,
) -> Result<Part, Fault>
    ensures answers { Answers part_view (operands.given_allocation t at (typed_expr_view e)
        (conversions.is_pointer_to_complete types.old scope.old.scopes t)
        (known types.old scope.old)) result (known types.new scope.new) }
    ensures grows { Grows (known types.old scope.old) (known types.new scope.new) }
{
    if is_pointer_to_complete(scope, types, t) {
        return Ok(Part::Allocation(made_for(scope, t, e)?));
    }
    let v = raw_value(scope, types, at, e)?;
    Ok(Part::Value(v))
}

/// What is given to a type.
#[tactic(auto, unfolding(c_typing::specs::Operands::given))]
pub fn given(
    scope: &mut Scope,
    types: &mut Types,
    t: TypeId,
    at: Place,
    x: Part,
) -> Result<Part, Fault>
    ensures answers { Answers part_view (operands.given t at (part_view x)
        (known types.old scope.old)) result (known types.new scope.new) }
    ensures grows { Grows (known types.old scope.old) (known types.new scope.new) }
{
    match x {
        Part::Allocation(e) => given_allocation(scope, types, t, at, e),
        _ => {
            let v = value_of(scope, types, at, x)?;
            Ok(side_of(v))
        }
    }
}
