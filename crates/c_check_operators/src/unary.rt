//! Operators of one operand (C99 6.5.3), and `++` and `--` after one.
#![tactic(auto)]

ghost use Rattle.std.specs.Prelude.{◌≡◌, IfOk, IfSome, true, option_map};
ghost use Rattle.c_types.specs.Sound.{IsIntegerSize};
ghost use Rattle.c_tree.specs.TypedParts.{type_of};
ghost use Rattle.c_tree.specs.TypedViews.{typed_expr_view};
ghost use Rattle.c_typing.specs.Growing.{Grows};
ghost use Rattle.c_typing.specs.Judging.{Answers, known};
ghost use Rattle.c_typing.specs.Judging as judging;
ghost use Rattle.c_typing.specs.KindViews.{kind_view};
ghost use Rattle.c_typing.specs.Operations as operations;
ghost use Rattle.c_typing.specs.Operands as operands;
ghost use Rattle.c_typing.specs.OperandViews.{part_view, operand_view, value_view};
ghost use Rattle.c_typing.specs.Shapes.{pointee_at, integer_at};
ghost use Rattle.c_typing.specs.Conversions.{to_integer};
ghost use Rattle.c_typing.specs.Tests as tests;
ghost use Rattle.c_typing.specs.Tests.{first_broken, AsValue};

use c_tree::{Boxed, Conversion, TypedExpr, TypedPlace, Unary};
use c_types::{TypeShape, Types};
use c_typing::construct::{held_with_one, holding};
use c_typing::kind::Kind;
use c_typing::operand::{Operand, Part, Value};
use c_typing::scope::Scope;
use c_typing::shapes::{
    INT, integer_at, is_function, is_integer, is_pointer, is_scalar, pointee_at, points_to_open,
    shape_at,
};
use c_typing::stops::refusal;
use c_typing::typing::value;
use cc_base::{Fault, NoMemory, Place, Rule, TypeId};

/// The rules of `*`.
fn target_fault(scope: &Scope, types: &Types, at: Place, e: &TypedExpr) -> Option<Fault>
    ensures { result ≡ first_broken (tests.target_tests types.now scope.now.scopes at
        (AsValue (typed_expr_view e.now))) }
{
    let shape = shape_at(types, e.ty());
    if points_to_open(scope, types, shape) {
        return Some(refusal(at, Rule::Incomplete));
    }
    if !is_pointer(shape) {
        return Some(refusal(at, Rule::Mismatch));
    }
    None
}

/// `*` of a value.
#[tactic(auto, using(c_tree::proofs::TypedViewLaws::typed_views))]
fn pointed(scope: &Scope, types: &Types, at: Place, e: Boxed<TypedExpr>) -> Result<Part, NoMemory>
    ensures { IfOk result (λ x. part_view x ≡ operations.pointed types.now at (typed_expr_view e)
        (pointee_at types.now (type_of (typed_expr_view e)))) }
{
    let Some(to) = pointee_at(types, e.get().ty()) else {
        return Ok(Part::Value(e));
    };
    if is_function(shape_at(types, to)) {
        Ok(Part::Value(Boxed::new(scope.alloc(), TypedExpr::FunctionAt(at, e))?))
    } else {
        Ok(Part::Place(Boxed::new(scope.alloc(), TypedPlace::Target(at, e, to))?))
    }
}

#[tactic(auto, unfolding(c_typing::specs::Operations::target_of, c_typing::specs::Operations::construct, c_typing::specs::Judging::holding))]
fn target_of(scope: &mut Scope, types: &mut Types, at: Place, v: Value) -> Result<Operand, Fault>
    ensures answers { Answers operand_view (operations.target_of at (value_view v)
        (known types.old scope.old)) result (known types.new scope.new) }
    ensures grows { Grows (known types.old scope.old) (known types.new scope.new) }
{
    if let Some(fault) = target_fault(scope, types, at, v.expr.get()) {
        return Err(fault);
    }
    let held = holding(at, held_with_one(v.held))?;
    let part = pointed(scope, types, at, v.expr)?;
    Ok(Operand {
        part,
        place: at,
        held,
    })
}

/// `*` (C99 6.5.3.2).
#[tactic(auto, unfolding(c_typing::specs::Operations::target))]
pub(crate) fn target(
    scope: &mut Scope,
    types: &mut Types,
    at: Place,
    x: Operand,
) -> Result<Operand, Fault>
    ensures answers { Answers operand_view (operations.target at (operand_view x)
        (known types.old scope.old)) result (known types.new scope.new) }
    ensures grows { Grows (known types.old scope.old) (known types.new scope.new) }
{
    let v = value(scope, types, x)?;
    target_of(scope, types, at, v)
}

/// The rules of `+`, `-`, `~` and `!`.
fn prefix_fault(
    scope: &Scope,
    types: &Types,
    operator: Unary,
    at: Place,
    e: &TypedExpr,
) -> Option<Fault>
    requires { operations.is_arithmetic_prefix operator ≡ true }
    ensures { result ≡ first_broken (tests.prefix_tests types.now scope.now.scopes operator at
        (AsValue (typed_expr_view e.now))) }
{
    let shape = shape_at(types, e.ty());
    let fits = match operator {
        Unary::Not => is_scalar(shape),
        _ => is_integer(shape),
    };
    if fits {
        None
    } else {
        Some(refusal(at, Rule::Mismatch))
    }
}

/// An integer, converted to an integer type where it has another.
#[tactic(auto, using(c_tree::proofs::TypedViewLaws::typed_views))]
pub fn to_integer(
    scope: &Scope,
    at: Place,
    t: TypeId,
    e: Boxed<TypedExpr>,
) -> Result<Boxed<TypedExpr>, NoMemory>
    ensures { IfOk result (λ made. typed_expr_view made ≡ to_integer at t (typed_expr_view e)) }
{
    if e.get().ty().0 == t.0 {
        return Ok(e);
    }
    Ok(Boxed::new(
        scope.alloc(),
        TypedExpr::Convert(Conversion::IntegerToInteger, at, t, e),
    )?)
}

/// `+`, `-` and `~` of a value that is promoted.
#[tactic(auto, using(c_tree::proofs::TypedViewLaws::typed_views))]
fn promoted_operand(
    scope: &Scope,
    types: &Types,
    operator: Unary,
    at: Place,
    e: Boxed<TypedExpr>,
) -> Result<Boxed<TypedExpr>, NoMemory>
    ensures { IfOk result (λ made. typed_expr_view made ≡ operations.promoted_operand operator at
        (typed_expr_view e) (integer_at types.now (type_of (typed_expr_view e)))) }
{
    match integer_at(types, e.get().ty()) {
        Some(kind) => {
            let to = kind.promoted().ty();
            let converted = to_integer(scope, at, to, e)?;
            Ok(Boxed::new(
                scope.alloc(),
                TypedExpr::Prefix(operator, at, converted, to),
            )?)
        }
        None => Ok(Boxed::new(scope.alloc(), TypedExpr::Prefix(operator, at, e, INT))?),
    }
}

/// What `+`, `-`, `~` and `!` make of a value.
#[tactic(auto, using(c_tree::proofs::TypedViewLaws::typed_views))]
fn operator_on(
    scope: &Scope,
    types: &Types,
    operator: Unary,
    at: Place,
    e: Boxed<TypedExpr>,
) -> Result<Boxed<TypedExpr>, NoMemory>
    ensures { IfOk result (λ made. typed_expr_view made
        ≡ operations.operator_on types.now operator at (typed_expr_view e)) }
{
    match operator {
        Unary::Not => Ok(Boxed::new(scope.alloc(), TypedExpr::Prefix(operator, at, e, INT))?),
        _ => promoted_operand(scope, types, operator, at, e),
    }
}

#[tactic(auto, unfolding(c_typing::specs::Operations::prefix_of, c_typing::specs::Operations::construct, c_typing::specs::Judging::holding))]
fn prefix_of(
    scope: &mut Scope,
    types: &mut Types,
    operator: Unary,
    at: Place,
    v: Value,
) -> Result<Operand, Fault>
    requires { operations.is_arithmetic_prefix operator ≡ true }
    ensures answers { Answers operand_view (operations.prefix_of operator at (value_view v)
        (known types.old scope.old)) result (known types.new scope.new) }
    ensures grows { Grows (known types.old scope.old) (known types.new scope.new) }
{
    if let Some(fault) = prefix_fault(scope, types, operator, at, v.expr.get()) {
        return Err(fault);
    }
    let held = holding(at, held_with_one(v.held))?;
    let made = operator_on(scope, types, operator, at, v.expr)?;
    Ok(Operand {
        part: Part::Value(made),
        place: at,
        held,
    })
}

/// `+`, `-`, `~` and `!` (C99 6.5.3.3).
pub(crate) fn computed(
    scope: &mut Scope,
    types: &mut Types,
    operator: Unary,
    at: Place,
    x: Operand,
) -> Result<Operand, Fault>
    requires { operations.is_arithmetic_prefix operator ≡ true }
    ensures answers { Answers operand_view (judging.next (operands.value (operand_view x)
        (known types.old scope.old)) (operations.prefix_of operator at)) result
        (known types.new scope.new) }
    ensures grows { Grows (known types.old scope.old) (known types.new scope.new) }
{
    let v = value(scope, types, x)?;
    prefix_of(scope, types, operator, at, v)
}
