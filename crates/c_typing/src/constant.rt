//! Integer constant expressions (C99 6.6) and their values, and null pointer constants (C99 6.3.2.3).
#![tactic(auto)]

ghost use Rattle.std.specs.Prelude.{◌≡◌, pos, true, false, Some, None, if◌then◌else◌};
ghost use Rattle.std.specs.Ordering.{int_eq};
ghost use Rattle.c_types.specs.Sound.{IsIntegerSize};
ghost use Rattle.c_tree.specs.Arithmetic.{operator_of};
ghost use Rattle.c_tree.specs.TypedParts.{type_of};
ghost use Rattle.c_tree.specs.TypedViews.{typed_expr_view};
ghost use Rattle.integers.specs.Arithmetic as arithmetic;
ghost use Rattle.c_typing.specs.Constants as constants;
ghost use Rattle.c_typing.specs.KindViews.{kind_view};
ghost use Rattle.c_typing.specs.Shapes.{integer_at};

use crate::kind::Kind;
use crate::shapes::{integer_at, is_void, pointee_at, shape_at};
use crate::value::{
    both_bits, can_divide, complement, converted, difference, either_bits, equal, less,
    less_or_equal, negated, other_bits, product, quotient, remainder, same, shifted_left,
    shifted_right, sum, truth,
};
use c_tree::{Binary, Conversion, TypedExpr, Unary};
use c_types::Types;
use cc_base::TypeId;

/// The value of an operator on two values of one type.
fn computed(operator: Binary, kind: Kind, x: i128, y: i128) -> i128
    requires size { IsIntegerSize kind.bytes }
    requires divisor { arithmetic.divides (operator_of operator) ≡ true → int_eq y (pos 0) ≡ false }
    ensures { result ≡ arithmetic.computed (operator_of operator) (kind_view kind) x y }
{
    match operator {
        Binary::Multiply => product(kind, x, y),
        Binary::Divide => quotient(kind, x, y),
        Binary::Remainder => remainder(kind, x, y),
        Binary::Add => sum(kind, x, y),
        Binary::Subtract => difference(kind, x, y),
        Binary::ShiftLeft => shifted_left(kind, x, y),
        Binary::ShiftRight => shifted_right(kind, x, y),
        Binary::Less => less(x, y),
        Binary::Greater => less(y, x),
        Binary::LessEqual => less_or_equal(x, y),
        Binary::GreaterEqual => less_or_equal(y, x),
        Binary::Equal => equal(x, y),
        Binary::NotEqual => truth(!same(x, y)),
        Binary::BitAnd | Binary::LogicalAnd => both_bits(kind, x, y),
        Binary::BitXor => other_bits(kind, x, y),
        Binary::BitOr | Binary::LogicalOr => either_bits(kind, x, y),
    }
}

/// Whether the operator divides and these values have no quotient.
pub fn cannot_divide(operator: Binary, kind: Kind, x: i128, y: i128) -> bool
    requires { IsIntegerSize kind.bytes }
    ensures { result ≡ constants.cannot_divide (operator_of operator) (kind_view kind) x y }
{
    match operator {
        Binary::Divide => !can_divide(kind, x, y),
        Binary::Remainder => !can_divide(kind, x, y),
        _ => false,
    }
}

/// The value of an operator on two values, where there is one.
fn checked(operator: Binary, kind: Kind, x: i128, y: i128) -> Option<i128>
    requires { IsIntegerSize kind.bytes }
    ensures { result ≡ if constants.cannot_divide (operator_of operator)
        (kind_view kind) x y then None else Some
        (arithmetic.computed (operator_of operator) (kind_view kind) x y) }
{
    if cannot_divide(operator, kind, x, y) {
        return None;
    }
    Some(computed(operator, kind, x, y))
}

/// Whether a value counts as true.
fn is_true(z: i128) -> bool
    ensures { result ≡ constants.is_true z }
{
    !same(z, 0)
}

/// The value of `+`, `-`, `~` and `!` on a value of a promoted type.
fn alone(operator: Unary, kind: Kind, x: i128) -> i128
    requires { IsIntegerSize kind.bytes }
    ensures { result ≡ constants.alone operator (kind_view kind) x }
{
    match operator {
        Unary::Minus => negated(kind, x),
        Unary::Complement => complement(kind, x),
        Unary::Not => truth(!is_true(x)),
        _ => x,
    }
}

/// The value of `&&` and `||`.
fn logical(operator: Binary, x: i128, y: i128) -> i128
    ensures { result ≡ constants.logical operator x y }
{
    match operator {
        Binary::LogicalAnd => { if is_true(x) { truth(is_true(y)) } else { 0 } }
        _ => { if is_true(x) { 1 } else { truth(is_true(y)) } }
    }
}

/// The value of an integer that is converted to an integer type.
fn converted_value(types: &Types, which: Conversion, t: TypeId, x: Option<i128>) -> Option<i128>
    ensures { result ≡ constants.converted_value types.now which t x }
{
    if which != Conversion::IntegerToInteger {
        return None;
    }
    let kind = integer_at(types, t)?;
    Some(converted(kind, x?))
}

fn alone_value(types: &Types, operator: Unary, t: TypeId, x: Option<i128>) -> Option<i128>
    ensures { result ≡ constants.with_type (integer_at types.now t)
        (λ k. constants.with_value x (λ z. Some (constants.alone operator k z))) }
{
    let kind = integer_at(types, t)?;
    Some(alone(operator, kind, x?))
}

/// The value of an operator on two values that may be there.
fn checked_values(operator: Binary, kind: Kind, x: Option<i128>, y: Option<i128>) -> Option<i128>
    requires { IsIntegerSize kind.bytes }
    ensures { result ≡ constants.with_value x (λ a. constants.with_value y
        (λ b. if constants.cannot_divide (operator_of operator)
        (kind_view kind) a b then None else Some
        (arithmetic.computed (operator_of operator) (kind_view kind) a b))) }
{
    match (x, y) {
        (Some(x), Some(y)) => checked(operator, kind, x, y),
        _ => None,
    }
}

fn computed_value(
    types: &Types,
    operator: Binary,
    t: TypeId,
    x: Option<i128>,
    y: Option<i128>,
) -> Option<i128>
    ensures { result ≡ constants.with_type (integer_at types.now t)
        (λ k. constants.with_value x (λ a. constants.with_value y
        (λ b. if constants.cannot_divide (operator_of operator) k a b then None else Some
        (arithmetic.computed (operator_of operator) k a b)))) }
{
    match integer_at(types, t) {
        Some(kind) => checked_values(operator, kind, x, y),
        None => None,
    }
}

fn logical_value(operator: Binary, x: Option<i128>, y: Option<i128>) -> Option<i128>
    ensures { result ≡ constants.with_value x (λ a. constants.with_value y
        (λ b. Some (constants.logical operator a b))) }
{
    Some(logical(operator, x?, y?))
}

fn chosen_value(condition: Option<i128>, x: Option<i128>, y: Option<i128>) -> Option<i128>
    ensures { result ≡ constants.with_value condition (λ c. constants.with_value x
        (λ a. constants.with_value y (λ b. Some (if constants.is_true c then a else b)))) }
{
    let condition = condition?;
    let x = x?;
    let y = y?;
    if is_true(condition) { Some(x) } else { Some(y) }
}

/// The value of an integer constant expression.
#[tactic(auto, using(c_tree::proofs::TypedViewLaws::typed_views))]
pub fn constant_value(types: &Types, e: &TypedExpr) -> Option<i128>
    ensures { result ≡ constants.constant_value types.now (typed_expr_view e.now) }
{
    match e {
        TypedExpr::Integer(_, value, _, _) => Some(i128::from(*value)),
        TypedExpr::Character(value, _, _) => Some(i128::from(*value)),
        TypedExpr::Enumerator(_, value, _) => Some(*value),
        TypedExpr::Paren(_, inner) => constant_value(types, inner.get()),
        TypedExpr::Convert(which, _, t, inner) => {
            if *which != Conversion::IntegerToInteger {
                return None;
            }
            converted_value(types, *which, *t, constant_value(types, inner.get()))
        }
        TypedExpr::Cast(which, _, to, inner) => {
            if *which != Conversion::IntegerToInteger {
                return None;
            }
            converted_value(
                types,
                *which,
                to.get().ty,
                constant_value(types, inner.get()),
            )
        }
        TypedExpr::Prefix(operator, _, inner, _) => {
            let x = constant_value(types, inner.get());
            alone_value(types, *operator, inner.get().ty(), x)
        }
        TypedExpr::SizeOfPlace(_, _, size, _)
        | TypedExpr::SizeOfValue(_, _, size, _)
        | TypedExpr::SizeOfType(_, _, _, size, _) => Some(i128::from(*size)),
        TypedExpr::Arithmetic(operator, a, _, b, _) => {
            let x = constant_value(types, a.get());
            let y = constant_value(types, b.get());
            computed_value(types, *operator, a.get().ty(), x, y)
        }
        TypedExpr::Logical(operator, a, _, b, _) => {
            let x = constant_value(types, a.get());
            logical_value(*operator, x, constant_value(types, b.get()))
        }
        TypedExpr::Conditional(c, _, a, b, _) => {
            let condition = constant_value(types, c.get());
            let x = constant_value(types, a.get());
            chosen_value(condition, x, constant_value(types, b.get()))
        }
        _ => None,
    }
}

fn is_zero_constant(types: &Types, e: &TypedExpr) -> bool
    ensures { result ≡ constants.is_zero_constant types.now (typed_expr_view e.now) }
{
    match constant_value(types, e) {
        Some(z) => same(z, 0),
        None => false,
    }
}

fn is_void_pointer(types: &Types, t: TypeId) -> bool
    ensures { result ≡ constants.is_void_pointer types.now t }
{
    match pointee_at(types, t) {
        Some(to) => is_void(shape_at(types, to)),
        None => false,
    }
}

/// An integer constant expression of value 0 that is cast to `void *`.
#[tactic(auto, using(c_tree::proofs::TypedViewLaws::typed_views))]
fn is_cast_zero(types: &Types, e: &TypedExpr) -> bool
    ensures { result ≡ constants.is_cast_zero types.now (typed_expr_view e.now) }
{
    match e {
        TypedExpr::Paren(_, inner) => is_cast_zero(types, inner.get()),
        TypedExpr::Cast(_, _, to, inner) => {
            is_void_pointer(types, to.get().ty) && is_zero_constant(types, inner.get())
        }
        _ => false,
    }
}

/// A null pointer constant (C99 6.3.2.3).
pub fn is_null_constant(types: &Types, e: &TypedExpr) -> bool
    ensures { result ≡ constants.is_null_constant types.now (typed_expr_view e.now) }
{
    is_zero_constant(types, e) || is_cast_zero(types, e)
}
