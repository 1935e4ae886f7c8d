//! Operators of two operands (C99 6.5.2.1, 6.5.5 to 6.5.14).
#![tactic(auto)]

ghost use Rattle.std.specs.Prelude.{◌≡◌, IfOk};
ghost use Rattle.c_tree.specs.TypedParts.{type_of};
ghost use Rattle.c_types.specs.Table.{shape_at};
ghost use Rattle.c_tree.specs.TypedTree as typed;
ghost use Rattle.c_tree.specs.TypedViews.{typed_expr_view};
ghost use Rattle.c_typing.specs.Growing.{Grows};
ghost use Rattle.c_typing.specs.Judging.{Answers, known};
ghost use Rattle.c_typing.specs.KindViews.{kind_view};
ghost use Rattle.c_typing.specs.Operations as operations;
ghost use Rattle.c_typing.specs.OperandViews.{part_view, operand_view, value_view};
ghost use Rattle.c_typing.specs.Rules as rules;
ghost use Rattle.c_typing.specs.Shapes.{is_pointer_shape, pointee_at};
ghost use Rattle.c_check_operators.specs.ShapeViews.{meeting_view};
ghost use Rattle.c_typing.specs.Tests as tests;
ghost use Rattle.c_typing.specs.Tests.{first_broken, AsPlace, AsValue};

use crate::allowed::held_within;
use crate::meeting::{Meeting, how_they_meet};
use crate::operators::infix_fault;
use crate::unary::to_integer;
use c_tree::{Binary, Boxed, Conversion, Side, TypedExpr, TypedPlace};
use c_types::Types;
use c_typing::construct::held_with_two;
use c_typing::kind::{Kind, is_logical, is_order, left_kind, result_kind, right_kind};
use c_typing::operand::{Operand, Part, Value};
use c_typing::scope::Scope;
use c_typing::shapes::{
    INT, integer_at, is_index_pair, is_pointer, pointee_at, points_to_incomplete, shape_at,
};
use c_typing::stops::refusal;
use cc_base::{Fault, NoMemory, Place, Rule, TypeId};

/// `long`, the type of the difference of two pointers (C99 7.17).
const LONG: TypeId = TypeId(7);

/// The rules of `a[b]`.
fn index_fault(
    scope: &Scope,
    types: &Types,
    at: Place,
    a: &TypedExpr,
    b: &TypedExpr,
) -> Option<Fault>
    ensures { result ≡ first_broken (tests.index_tests types.now scope.now.scopes at
        (AsValue (typed_expr_view a.now)) (AsValue (typed_expr_view b.now))) }
{
    let left = shape_at(types, a.ty());
    let right = shape_at(types, b.ty());
    if !is_index_pair(left, right) {
        return Some(refusal(at, Rule::Mismatch));
    }
    if points_to_incomplete(scope, types, left) || points_to_incomplete(scope, types, right) {
        return Some(refusal(at, Rule::Incomplete));
    }
    None
}

/// `a[b]` with the pointer on this side.
#[tactic(auto, using(c_tree::proofs::TypedViewLaws::typed_views))]
fn element_on(
    scope: &Scope,
    side: Side,
    a: Boxed<TypedExpr>,
    at: Place,
    b: Boxed<TypedExpr>,
    t: TypeId,
) -> Result<Part, NoMemory>
    ensures { IfOk result (λ x. part_view x ≡ AsPlace
        (typed.Element side (typed_expr_view a) at (typed_expr_view b) t)) }
{
    Ok(Part::Place(Boxed::new(scope.alloc(), TypedPlace::Element(side, a, at, b, t))?))
}

/// `a[b]`, where one of the two is a pointer.
fn element(
    scope: &Scope,
    types: &Types,
    a: Boxed<TypedExpr>,
    at: Place,
    b: Boxed<TypedExpr>,
) -> Result<Part, NoMemory>
    ensures { IfOk result (λ x. part_view x ≡ operations.element (typed_expr_view a) at
        (typed_expr_view b) (pointee_at types.now (type_of (typed_expr_view a)))
        (pointee_at types.now (type_of (typed_expr_view b)))) }
{
    match (
        pointee_at(types, a.get().ty()),
        pointee_at(types, b.get().ty()),
    ) {
        (Some(t), _) => element_on(scope, Side::Left, a, at, b, t),
        (None, Some(t)) => element_on(scope, Side::Right, a, at, b, t),
        (None, None) => Ok(Part::Value(a)),
    }
}

/// `a[b]` (C99 6.5.2.1).
#[tactic(auto, unfolding(c_typing::specs::Operations::index, c_typing::specs::Operations::construct, c_typing::specs::Judging::holding))]
pub fn index(
    scope: &mut Scope,
    types: &mut Types,
    a: Value,
    at: Place,
    b: Value,
) -> Result<Operand, Fault>
    ensures answers { Answers operand_view (operations.index (value_view a) at (value_view b)
        (known types.old scope.old)) result (known types.new scope.new) }
    ensures grows { Grows (known types.old scope.old) (known types.new scope.new) }
{
    let Value {
        expr: left,
        place,
        held,
    } = a;
    let Value {
        expr: right,
        held: held_after,
        ..
    } = b;
    let fault = index_fault(scope, types, at, left.get(), right.get());
    let held = held_within(fault, place, held_with_two(held, held_after))?;
    let part = element(scope, types, left, at, right)?;
    Ok(Operand { part, place, held })
}

/// An operator on two integers.
#[tactic(auto, using(c_tree::proofs::TypedViewLaws::typed_views))]
fn arithmetic_of(
    scope: &Scope,
    operator: Binary,
    a: Boxed<TypedExpr>,
    at: Place,
    b: Boxed<TypedExpr>,
    t: TypeId,
) -> Result<Boxed<TypedExpr>, NoMemory>
    ensures { IfOk result (λ made. typed_expr_view made
        ≡ typed.Arithmetic operator (typed_expr_view a) at (typed_expr_view b) t) }
{
    Ok(Boxed::new(scope.alloc(), TypedExpr::Arithmetic(operator, a, at, b, t))?)
}

/// An operator on two integers, each converted to the type that it asks for.
fn arithmetic(
    scope: &Scope,
    operator: Binary,
    a: Boxed<TypedExpr>,
    at: Place,
    b: Boxed<TypedExpr>,
    kinds: (Kind, Kind),
) -> Result<Boxed<TypedExpr>, NoMemory>
    ensures { IfOk result (λ made. typed_expr_view made ≡ operations.arithmetic operator
        (typed_expr_view a) at (typed_expr_view b) (kind_view kinds.0) (kind_view kinds.1)) }
{
    let (left, right) = kinds;
    let a = to_integer(scope, at, left_kind(operator, left, right).ty(), a)?;
    let b = to_integer(scope, at, right_kind(operator, left, right).ty(), b)?;
    let t = result_kind(operator, left, right).ty();
    arithmetic_of(scope, operator, a, at, b, t)
}

/// A null constant, converted to a pointer type.
#[tactic(auto, using(c_tree::proofs::TypedViewLaws::typed_views))]
fn null_of(
    scope: &Scope,
    at: Place,
    t: TypeId,
    e: Boxed<TypedExpr>,
) -> Result<Boxed<TypedExpr>, NoMemory>
    ensures { IfOk result (λ made. typed_expr_view made ≡ rules.null_of at t (typed_expr_view e)) }
{
    Ok(Boxed::new(
        scope.alloc(),
        TypedExpr::Convert(Conversion::NullToPointer, at, t, e),
    )?)
}

/// A comparison of two pointers.
#[tactic(auto, using(c_tree::proofs::TypedViewLaws::typed_views))]
fn comparison(
    scope: &Scope,
    operator: Binary,
    a: Boxed<TypedExpr>,
    at: Place,
    b: Boxed<TypedExpr>,
) -> Result<Boxed<TypedExpr>, NoMemory>
    ensures { IfOk result (λ made. typed_expr_view made ≡ typed.Compared operator
        (typed_expr_view a) at (typed_expr_view b) operations.int_type) }
{
    Ok(Boxed::new(scope.alloc(), TypedExpr::Compared(operator, a, at, b, INT))?)
}

/// A comparison whose right side is a null constant.
fn compared_with_null(
    scope: &Scope,
    operator: Binary,
    a: Boxed<TypedExpr>,
    at: Place,
    b: Boxed<TypedExpr>,
) -> Result<Boxed<TypedExpr>, NoMemory>
    ensures { IfOk result (λ made. typed_expr_view made ≡ typed.Compared operator
        (typed_expr_view a) at (rules.null_of at (type_of (typed_expr_view a)) (typed_expr_view b))
        operations.int_type) }
{
    let b = null_of(scope, at, a.get().ty(), b)?;
    comparison(scope, operator, a, at, b)
}

/// A comparison whose left side is a null constant.
fn null_compared(
    scope: &Scope,
    operator: Binary,
    a: Boxed<TypedExpr>,
    at: Place,
    b: Boxed<TypedExpr>,
) -> Result<Boxed<TypedExpr>, NoMemory>
    ensures { IfOk result (λ made. typed_expr_view made ≡ typed.Compared operator
        (rules.null_of at (type_of (typed_expr_view b)) (typed_expr_view a)) at
        (typed_expr_view b) operations.int_type) }
{
    let a = null_of(scope, at, b.get().ty(), a)?;
    comparison(scope, operator, a, at, b)
}

/// `==` and `!=` of two that meet.
fn equated(
    scope: &Scope,
    how: Meeting,
    operator: Binary,
    a: Boxed<TypedExpr>,
    at: Place,
    b: Boxed<TypedExpr>,
) -> Result<Boxed<TypedExpr>, NoMemory>
    ensures { IfOk result (λ made. typed_expr_view made ≡ operations.equated
        (meeting_view how) operator (typed_expr_view a) at (typed_expr_view b)) }
{
    match how {
        Meeting::RightIsNull(_) => compared_with_null(scope, operator, a, at, b),
        Meeting::LeftIsNull(_) => null_compared(scope, operator, a, at, b),
        Meeting::BothPoint(_) | Meeting::NeverMeet => comparison(scope, operator, a, at, b),
    }
}

/// A comparison of two that are not both integers.
fn compared(
    scope: &Scope,
    types: &Types,
    operator: Binary,
    a: Boxed<TypedExpr>,
    at: Place,
    b: Boxed<TypedExpr>,
) -> Result<Boxed<TypedExpr>, NoMemory>
    ensures { IfOk result (λ made. typed_expr_view made ≡ operations.compared types.now operator
        (typed_expr_view a) at (typed_expr_view b)) }
{
    if is_order(operator) {
        return comparison(scope, operator, a, at, b);
    }
    let how = how_they_meet(types, a.get(), b.get());
    equated(scope, how, operator, a, at, b)
}

/// A pointer that an integer moves.
#[tactic(auto, using(c_tree::proofs::TypedViewLaws::typed_views))]
fn moved(
    scope: &Scope,
    operator: Binary,
    side: Side,
    a: Boxed<TypedExpr>,
    at: Place,
    b: Boxed<TypedExpr>,
    t: TypeId,
) -> Result<Boxed<TypedExpr>, NoMemory>
    ensures { IfOk result (λ made. typed_expr_view made
        ≡ typed.Moved operator side (typed_expr_view a) at (typed_expr_view b) t) }
{
    Ok(Boxed::new(scope.alloc(), TypedExpr::Moved(operator, side, a, at, b, t))?)
}

#[tactic(auto, using(c_tree::proofs::TypedViewLaws::typed_views))]
fn subtracted(
    scope: &Scope,
    a: Boxed<TypedExpr>,
    at: Place,
    b: Boxed<TypedExpr>,
) -> Result<Boxed<TypedExpr>, NoMemory>
    ensures { IfOk result (λ made. typed_expr_view made
        ≡ typed.Difference (typed_expr_view a) at (typed_expr_view b) operations.long_type) }
{
    Ok(Boxed::new(scope.alloc(), TypedExpr::Difference(a, at, b, LONG))?)
}

/// An operator on two that are not both integers.
fn pointers(
    scope: &Scope,
    types: &Types,
    operator: Binary,
    a: Boxed<TypedExpr>,
    at: Place,
    b: Boxed<TypedExpr>,
) -> Result<Boxed<TypedExpr>, NoMemory>
    ensures { IfOk result (λ made. typed_expr_view made ≡ operations.pointers types.now operator
        (typed_expr_view a) at (typed_expr_view b) (is_pointer_shape
        (shape_at types.now (type_of (typed_expr_view a))))
        (is_pointer_shape (shape_at types.now (type_of (typed_expr_view b))))) }
{
    let left = a.get().ty();
    let right = b.get().ty();
    match operator {
        Binary::Add => {
            if is_pointer(shape_at(types, left)) {
                moved(scope, operator, Side::Left, a, at, b, left)
            } else {
                moved(scope, operator, Side::Right, a, at, b, right)
            }
        }
        Binary::Subtract => {
            if is_pointer(shape_at(types, right)) {
                subtracted(scope, a, at, b)
            } else {
                moved(scope, operator, Side::Left, a, at, b, left)
            }
        }
        _ => compared(scope, types, operator, a, at, b),
    }
}

/// `&&` and `||`.
#[tactic(auto, using(c_tree::proofs::TypedViewLaws::typed_views))]
fn logical(
    scope: &Scope,
    operator: Binary,
    a: Boxed<TypedExpr>,
    at: Place,
    b: Boxed<TypedExpr>,
) -> Result<Boxed<TypedExpr>, NoMemory>
    ensures { IfOk result (λ made. typed_expr_view made ≡ typed.Logical operator
        (typed_expr_view a) at (typed_expr_view b) operations.int_type) }
{
    Ok(Boxed::new(scope.alloc(), TypedExpr::Logical(operator, a, at, b, INT))?)
}

/// What an operator makes of two values.
fn operation(
    scope: &Scope,
    types: &Types,
    operator: Binary,
    a: Boxed<TypedExpr>,
    at: Place,
    b: Boxed<TypedExpr>,
) -> Result<Boxed<TypedExpr>, NoMemory>
    ensures { IfOk result (λ made. typed_expr_view made ≡ operations.operation types.now operator
        (typed_expr_view a) at (typed_expr_view b)) }
{
    if is_logical(operator) {
        return logical(scope, operator, a, at, b);
    }
    match (
        integer_at(types, a.get().ty()),
        integer_at(types, b.get().ty()),
    ) {
        (Some(left), Some(right)) => arithmetic(scope, operator, a, at, b, (left, right)),
        _ => pointers(scope, types, operator, a, at, b),
    }
}

/// An operator of two operands (C99 6.5.5 to 6.5.14).
#[tactic(auto, unfolding(c_typing::specs::Operations::infix_of, c_typing::specs::Operations::construct, c_typing::specs::Judging::holding))]
pub fn infix_of(
    scope: &mut Scope,
    types: &mut Types,
    operator: Binary,
    a: Value,
    at: Place,
    b: Value,
) -> Result<Operand, Fault>
    ensures answers { Answers operand_view (operations.infix_of operator (value_view a) at
        (value_view b) (known types.old scope.old)) result (known types.new scope.new) }
    ensures grows { Grows (known types.old scope.old) (known types.new scope.new) }
{
    let Value {
        expr: left,
        place,
        held,
    } = a;
    let Value {
        expr: right,
        held: held_after,
        ..
    } = b;
    let fault = infix_fault(scope, types, operator, at, place, left.get(), right.get());
    let held = held_within(fault, place, held_with_two(held, held_after))?;
    let made = operation(scope, types, operator, left, at, right)?;
    Ok(Operand {
        part: Part::Value(made),
        place,
        held,
    })
}
