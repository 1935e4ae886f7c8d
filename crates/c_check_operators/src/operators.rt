//! What operators of two operands accept (C99 6.5.5 to 6.5.14).
#![tactic(auto)]

ghost use Rattle.std.specs.Prelude.{◌≡◌, ◌&&◌, ◌||◌, Some, option_copied};
ghost use Rattle.c_typing.specs.Integers.{is_order};
ghost use Rattle.c_tree.specs.TypedViews.{typed_expr_view};
ghost use Rattle.c_types.specs.Sound.{IsIntegerSize};
ghost use Rattle.c_typing.specs.KindViews.{kind_view, shape_or_void};
ghost use Rattle.c_typing.specs.OperandViews.{part_ref_view};
ghost use Rattle.c_typing.specs.Tests as tests;
ghost use Rattle.c_typing.specs.Tests.{first_broken, AsValue};

use crate::meeting::meet;
use crate::value_shape::shape_of;
use c_tree::{Binary, TypedExpr};
use c_types::{TypeShape, Types};
use c_typing::constant::{cannot_divide, constant_value};
use c_typing::kind::{Kind, is_equality, is_logical, is_order, left_kind, right_kind};
use c_typing::operand::PartRef;
use c_typing::same::is_same_type;
use c_typing::scope::Scope;
use c_typing::shapes::{
    are_integers, integer_at, is_index_pair, is_integer, is_pointer, is_scalar, point_to_data,
    points_to_incomplete, shape_at,
};
use c_typing::stops::refusal;
use c_typing::value::converted;
use cc_base::{Fault, Place, Rule};

/// Pointers to one type.
pub(crate) fn point_alike(types: &Types, a: Option<&TypeShape>, b: Option<&TypeShape>) -> bool
    ensures { result ≡ tests.point_alike types.now (shape_or_void (option_copied a.entry))
        (shape_or_void (option_copied b.entry)) }
{
    match (a, b) {
        (Some(TypeShape::Pointer(_, t)), Some(TypeShape::Pointer(_, u))) => {
            is_same_type(types, *t, *u)
        }
        _ => false,
    }
}

/// Whether `+` moves these operands, or `-` moves or subtracts them.
pub(crate) fn is_moving(
    types: &Types,
    operator: Binary,
    a: Option<&TypeShape>,
    b: Option<&TypeShape>,
) -> bool
    ensures { result ≡ tests.is_moving types.now operator (shape_or_void (option_copied a.entry))
        (shape_or_void (option_copied b.entry)) }
{
    match operator {
        Binary::Add => is_index_pair(a, b),
        Binary::Subtract => (is_pointer(a) && is_integer(b)) || point_alike(types, a, b),
        _ => false,
    }
}

/// Whether `<` and its like compare these operands as pointers.
fn are_ordered(
    types: &Types,
    operator: Binary,
    a: Option<&TypeShape>,
    b: Option<&TypeShape>,
) -> bool
    ensures { result ≡ is_order operator && (tests.point_alike types.now
        (shape_or_void (option_copied a.entry)) (shape_or_void (option_copied b.entry)) &&
        tests.point_to_data types.now (shape_or_void (option_copied a.entry))) }
{
    is_order(operator) && point_alike(types, a, b) && point_to_data(types, a)
}

/// Whether an operator accepts these operands.
fn accepts(types: &Types, operator: Binary, x: PartRef, y: PartRef) -> bool
    ensures { result ≡ tests.accepts types.now operator (part_ref_view x.entry)
        (part_ref_view y.entry) }
{
    let left = shape_of(types, x);
    let right = shape_of(types, y);
    if is_logical(operator) {
        return is_scalar(left.get()) && is_scalar(right.get());
    }
    are_integers(left.get(), right.get())
        || is_moving(types, operator, left.get(), right.get())
        || are_ordered(types, operator, left.get(), right.get())
        || (is_equality(operator) && meet(types, x, y))
}

/// A constant of one integer type, as one of another.
fn constant_as(from: Kind, to: Kind, z: i128) -> i128
    requires { IsIntegerSize to.bytes }
    ensures { result ≡ tests.constant_as (kind_view from) (kind_view to) z }
{
    if from.bytes == to.bytes && from.signed == to.signed {
        z
    } else {
        converted(to, z)
    }
}

/// Whether two values, each converted to the type that the operator asks for, have no quotient.
fn divides_as(operator: Binary, left: Kind, right: Kind, x: i128, y: i128) -> bool
    requires left { IsIntegerSize left.bytes }
    requires right { IsIntegerSize right.bytes }
    ensures { result ≡ tests.divides_as operator (Some (kind_view left)) (Some (kind_view right))
        (Some x) (Some y) }
{
    let to = left_kind(operator, left, right);
    let x = constant_as(left, to, x);
    let y = constant_as(right, right_kind(operator, left, right), y);
    cannot_divide(operator, to, x, y)
}

/// Whether both operands are constant, and the operator divides them without a result.
fn divides_constants(types: &Types, operator: Binary, a: &TypedExpr, b: &TypedExpr) -> bool
    ensures { result ≡ tests.divides_part types.now operator (AsValue (typed_expr_view a.now))
        (AsValue (typed_expr_view b.now)) }
{
    let left = integer_at(types, a.ty());
    let right = integer_at(types, b.ty());
    let x = constant_value(types, a);
    let y = constant_value(types, b);
    match (left, right, x, y) {
        (Some(left), Some(right), Some(x), Some(y)) => divides_as(operator, left, right, x, y),
        _ => false,
    }
}

/// Whether both operands are constant, and the operator divides without a result. Only an operator that divides looks at them.
fn divides_part(types: &Types, operator: Binary, a: &TypedExpr, b: &TypedExpr) -> bool
    ensures { result ≡ tests.divides_part types.now operator (AsValue (typed_expr_view a.now))
        (AsValue (typed_expr_view b.now)) }
{
    match operator {
        Binary::Divide | Binary::Remainder => divides_constants(types, operator, a, b),
        _ => false,
    }
}

/// Whether an operator would move a pointer to what is not complete.
fn moves_incomplete(
    scope: &Scope,
    types: &Types,
    operator: Binary,
    a: Option<&TypeShape>,
    b: Option<&TypeShape>,
) -> bool
    ensures { result ≡ tests.is_moving types.now operator (shape_or_void (option_copied a.entry))
        (shape_or_void (option_copied b.entry)) && (tests.points_to_incomplete types.now
        scope.now.scopes (shape_or_void (option_copied a.entry)) || tests.points_to_incomplete
        types.now scope.now.scopes (shape_or_void (option_copied b.entry))) }
{
    is_moving(types, operator, a, b)
        && (points_to_incomplete(scope, types, a) || points_to_incomplete(scope, types, b))
}

/// The rules of an operator of two operands. A division of constants is named at the first token.
pub(crate) fn infix_fault(
    scope: &Scope,
    types: &Types,
    operator: Binary,
    at: Place,
    begin: Place,
    a: &TypedExpr,
    b: &TypedExpr,
) -> Option<Fault>
    ensures { result ≡ first_broken (tests.infix_tests types.now scope.now.scopes operator at begin
        (AsValue (typed_expr_view a.now)) (AsValue (typed_expr_view b.now))) }
{
    let left = shape_at(types, a.ty());
    let right = shape_at(types, b.ty());
    if moves_incomplete(scope, types, operator, left, right) {
        return Some(refusal(at, Rule::Incomplete));
    }
    if !accepts(types, operator, PartRef::Value(a), PartRef::Value(b)) {
        return Some(refusal(at, Rule::Mismatch));
    }
    if divides_part(types, operator, a, b) {
        return Some(refusal(begin, Rule::NotConstant));
    }
    None
}
