//! `++` and `--` (C99 6.5.2.4, 6.5.3.1), and the operators of one operand together.
#![tactic(auto)]

ghost use Rattle.std.specs.Prelude.{◌≡◌, [], ◌∷◌};
ghost use Rattle.c_tree.specs.TypedTree as typed;
ghost use Rattle.c_typing.specs.Growing.{Grows};
ghost use Rattle.c_typing.specs.Judging.{Answers, known};
ghost use Rattle.c_typing.specs.Operations as operations;
ghost use Rattle.c_typing.specs.OperandViews.{part_view, operand_view};
ghost use Rattle.c_typing.specs.Tests as tests;
ghost use Rattle.c_typing.specs.Tests.{first_broken};

use crate::address::{address, can_be_written, size};
use crate::allowed::allowed;
use crate::unary::{computed, target};
use crate::value_shape::shape_of;
use c_tree::{Boxed, Step, TypedExpr, Unary};
use c_types::{TypeShape, Types};
use c_typing::operand::{Operand, Part};
use c_typing::scope::Scope;
use c_typing::shapes::{is_scalar, points_to_incomplete, shape_at};
use c_typing::stops::{no_room, refusal};
use cc_base::{Fault, Place, Rule};

/// Whether a part is an array.
pub(crate) fn is_array_part(types: &Types, x: &Part) -> bool
    ensures { result ≡ tests.is_array_part types.now (part_view x.now) }
{
    match x {
        Part::Place(p) => matches!(shape_at(types, p.get().ty()), Some(TypeShape::Array(_, _))),
        _ => false,
    }
}

/// The rules of `++` and `--`.
fn step_fault(scope: &Scope, types: &Types, at: Place, x: &Part) -> Option<Fault>
    ensures { result ≡ first_broken (tests.step_tests types.now scope.now.scopes at
        (part_view x.now)) }
{
    let value = shape_of(types, x.as_ref());
    let shape = value.get();
    if points_to_incomplete(scope, types, shape) {
        return Some(refusal(at, Rule::Incomplete));
    }
    if !is_scalar(shape) {
        return Some(refusal(at, Rule::Mismatch));
    }
    if !can_be_written(x) || is_array_part(types, x) {
        return Some(refusal(at, Rule::NotPlace));
    }
    None
}

/// `++` or `--` before a place.
#[tactic(auto, using(c_tree::proofs::TypedViewLaws::typed_views), unfolding(c_typing::specs::Operations::step_part))]
fn part_before(
    scope: &Scope,
    types: &Types,
    operator: Step,
    at: Place,
    x: Part,
) -> Result<Part, Fault>
    ensures { Answers part_view (operations.step_part (λ p. typed.StepBefore operator at p) at
        (part_view x) (known types.now scope.now)) result (known types.now scope.now) }
{
    match x {
        Part::Place(p) => {
            Ok(Part::Value(Boxed::new(scope.alloc(), TypedExpr::StepBefore(operator, at, p))?))
        }
        _ => Err(no_room(at)),
    }
}

/// `++` or `--` after a place.
#[tactic(auto, using(c_tree::proofs::TypedViewLaws::typed_views), unfolding(c_typing::specs::Operations::step_part))]
fn part_after(
    scope: &Scope,
    types: &Types,
    operator: Step,
    at: Place,
    x: Part,
) -> Result<Part, Fault>
    ensures { Answers part_view (operations.step_part (λ p. typed.StepAfter p operator at) at
        (part_view x) (known types.now scope.now)) result (known types.now scope.now) }
{
    match x {
        Part::Place(p) => {
            Ok(Part::Value(Boxed::new(scope.alloc(), TypedExpr::StepAfter(p, operator, at))?))
        }
        _ => Err(no_room(at)),
    }
}

/// `++` and `--` before their operand (C99 6.5.3.1).
#[tactic(auto, unfolding(c_typing::specs::Operations::step_before, c_typing::specs::Operations::construct, c_typing::specs::Judging::holding))]
fn step_before(
    scope: &mut Scope,
    types: &mut Types,
    operator: Step,
    at: Place,
    x: Operand,
) -> Result<Operand, Fault>
    ensures answers { Answers operand_view (operations.step_before operator at (operand_view x)
        (known types.old scope.old)) result (known types.new scope.new) }
    ensures grows { Grows (known types.old scope.old) (known types.new scope.new) }
{
    let fault = step_fault(scope, types, at, &x.part);
    let allowed = allowed(fault, at, x)?;
    let part = part_before(scope, types, operator, at, allowed.part)?;
    Ok(Operand {
        part,
        place: at,
        held: allowed.held,
    })
}

/// `++` and `--` after their operand (C99 6.5.2.4).
#[tactic(auto, unfolding(c_typing::specs::Operations::step_after, c_typing::specs::Operations::construct, c_typing::specs::Judging::holding))]
pub fn step_after(
    scope: &mut Scope,
    types: &mut Types,
    operator: Step,
    at: Place,
    x: Operand,
) -> Result<Operand, Fault>
    ensures answers { Answers operand_view (operations.step_after operator at (operand_view x)
        (known types.old scope.old)) result (known types.new scope.new) }
    ensures grows { Grows (known types.old scope.old) (known types.new scope.new) }
{
    let begin = x.place;
    let fault = step_fault(scope, types, at, &x.part);
    let allowed = allowed(fault, begin, x)?;
    let part = part_after(scope, types, operator, at, allowed.part)?;
    Ok(Operand {
        part,
        place: begin,
        held: allowed.held,
    })
}

/// The operators of one operand that stand before it (C99 6.5.3).
#[tactic(auto, unfolding(c_typing::specs::Operations::prefix))]
pub fn prefix(
    scope: &mut Scope,
    types: &mut Types,
    operator: Unary,
    at: Place,
    x: Operand,
) -> Result<Operand, Fault>
    ensures answers { Answers operand_view (operations.prefix operator at (operand_view x)
        (known types.old scope.old)) result (known types.new scope.new) }
    ensures grows { Grows (known types.old scope.old) (known types.new scope.new) }
{
    match operator {
        Unary::Increment => step_before(scope, types, Step::Increment, at, x),
        Unary::Decrement => step_before(scope, types, Step::Decrement, at, x),
        Unary::AddressOf => address(scope, types, at, x),
        Unary::Dereference => target(scope, types, at, x),
        Unary::SizeOf => size(scope, types, at, x),
        Unary::Plus => computed(scope, types, Unary::Plus, at, x),
        Unary::Minus => computed(scope, types, Unary::Minus, at, x),
        Unary::Complement => computed(scope, types, Unary::Complement, at, x),
        Unary::Not => computed(scope, types, Unary::Not, at, x),
    }
}
