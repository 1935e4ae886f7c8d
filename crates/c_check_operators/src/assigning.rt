//! Assignments (C99 6.5.16).
#![tactic(auto)]

ghost use Rattle.std.specs.Prelude.{◌≡◌, ◌&&◌, ◌||◌, true, IfOk, Some};
ghost use Rattle.c_tree.specs.declared.operator.Assignment.TheVariants as assignment;
ghost use Rattle.c_tree.specs.TypedParts.{type_of, place_type};
ghost use Rattle.c_tree.specs.TypedTree as typed;
ghost use Rattle.c_tree.specs.TypedViews.{typed_expr_view, typed_place_view};
ghost use Rattle.c_typing.specs.Assignments as assignments;
ghost use Rattle.c_typing.specs.Growing.{Grows};
ghost use Rattle.c_typing.specs.Judging.{Answers, known, next, pure};
ghost use Rattle.c_typing.specs.KindViews.{kind_view};
ghost use Rattle.c_typing.specs.OperandViews.{part_view, operand_view, value_view, part_ref_view};
ghost use Rattle.c_typing.specs.Rules as rules;
ghost use Rattle.c_typing.specs.Shapes.{integer_at, is_integer_shape, is_pointer_shape};
ghost use Rattle.c_typing.specs.Tests as tests;
ghost use Rattle.c_typing.specs.Tests.{first_broken, AsPlace, AsValue};

use crate::address::can_be_written;
use crate::allowed::held_within;
use crate::cells::count_cells;
use crate::conversion::{converted_to, fits, given};
use crate::operators::is_moving;
use crate::step::is_array_part;
use crate::unary::to_integer;
use crate::value_shape::shape_of;
use c_tree::{Assignment, Binary, Boxed, TypedExpr, TypedPlace};
use c_types::Types;
use c_typing::construct::held_with_two;
use c_typing::kind::{Kind, assigning, left_kind, right_kind};
use c_typing::operand::{Operand, Part, PartRef, Value};
use c_typing::same::is_same_type;
use c_typing::scope::Scope;
use c_typing::shapes::{
    are_integers, integer_at, is_aggregate, is_integer, is_pointer, points_to_incomplete, shape_at,
};
use c_typing::stops::{no_room, refusal};
use cc_base::{Fault, NoMemory, Place, Rule, TypeId};

/// Two structs of one type.
pub(crate) fn are_one_struct(types: &Types, x: PartRef, y: PartRef) -> bool
    ensures { result ≡ tests.are_one_struct types.now (part_ref_view x.entry)
        (part_ref_view y.entry) }
{
    match (x, y) {
        (PartRef::Place(p), PartRef::Place(q)) => {
            is_aggregate(shape_at(types, p.ty())) && is_same_type(types, p.ty(), q.ty())
        }
        _ => false,
    }
}

/// Whether an assignment by this operator takes these operands.
fn are_updatable(types: &Types, operator: Binary, x: PartRef, y: PartRef) -> bool
    ensures { result ≡ (tests.are_integers (tests.shape_of types.now (part_ref_view x.entry))
        (tests.shape_of types.now (part_ref_view y.entry)) ||
        ((is_pointer_shape (tests.shape_of types.now (part_ref_view x.entry)) && is_integer_shape
        (tests.shape_of types.now (part_ref_view y.entry))) && tests.is_moving types.now operator
        (tests.shape_of types.now (part_ref_view x.entry))
        (tests.shape_of types.now (part_ref_view y.entry)))) }
{
    let left = shape_of(types, x);
    let right = shape_of(types, y);
    are_integers(left.get(), right.get())
        || ((is_pointer(left.get()) && is_integer(right.get()))
            && is_moving(types, operator, left.get(), right.get()))
}

/// Whether a compound assignment takes these operands.
fn is_updatable(types: &Types, operator: Assignment, x: PartRef, y: PartRef) -> bool
    requires { rules.is_compound operator ≡ true }
    ensures { result ≡ tests.is_assignable types.now operator (part_ref_view x.entry)
        (part_ref_view y.entry) }
{
    let binary = assigning(operator);
    are_updatable(types, binary, x, y)
}

fn is_assignable(types: &Types, x: PartRef, y: PartRef) -> bool
    ensures { result ≡ tests.is_assignable types.now assignment.Assign (part_ref_view x.entry)
        (part_ref_view y.entry) }
{
    let left = shape_of(types, x);
    fits(types, y, left.get()) || are_one_struct(types, x, y)
}

/// The rules of `=`.
fn assign_fault(scope: &Scope, types: &Types, at: Place, x: &Part, y: &Part) -> Option<Fault>
    ensures { result ≡ first_broken (tests.assign_tests types.now scope.now.scopes assignment.Assign
        at (part_view x.now) (part_view y.now)) }
{
    if !is_assignable(types, x.as_ref(), y.as_ref()) {
        return Some(refusal(at, Rule::Mismatch));
    }
    if !can_be_written(x) || is_array_part(types, x) {
        return Some(refusal(at, Rule::NotPlace));
    }
    None
}

/// The rules of a compound assignment.
fn update_fault(
    scope: &Scope,
    types: &Types,
    operator: Assignment,
    at: Place,
    x: &Part,
    e: &TypedExpr,
) -> Option<Fault>
    requires { rules.is_compound operator ≡ true }
    ensures { result ≡ first_broken (tests.assign_tests types.now scope.now.scopes operator at
        (part_view x.now) (AsValue (typed_expr_view e.now))) }
{
    if !is_updatable(types, operator, x.as_ref(), PartRef::Value(e)) {
        return Some(refusal(at, Rule::Mismatch));
    }
    let value = shape_of(types, x.as_ref());
    if points_to_incomplete(scope, types, value.get()) {
        return Some(refusal(at, Rule::Incomplete));
    }
    if !can_be_written(x) || is_array_part(types, x) {
        return Some(refusal(at, Rule::NotPlace));
    }
    None
}

/// The type of what is assigned to.
fn part_type(x: &Part) -> TypeId
    ensures { result ≡ assignments.part_type (part_view x.now) }
{
    match x {
        Part::Place(p) => p.get().ty(),
        Part::Value(e) => e.get().ty(),
        Part::Allocation(_) => TypeId(0),
    }
}

/// `=` of two structs.
#[tactic(auto, using(c_tree::proofs::TypedViewLaws::typed_views))]
fn struct_assigned(
    scope: &Scope,
    at: Place,
    p: Boxed<TypedPlace>,
    q: Boxed<TypedPlace>,
) -> Result<Part, NoMemory>
    ensures { IfOk result (λ x. part_view x ≡ AsPlace
        (typed.StructAssign (typed_place_view p) at (typed_place_view q))) }
{
    Ok(Part::Place(Boxed::new(scope.alloc(), TypedPlace::StructAssign(p, at, q))?))
}

/// `=` of a value that has the type of the place.
#[tactic(auto, using(c_tree::proofs::TypedViewLaws::typed_views))]
fn value_assigned(
    scope: &Scope,
    at: Place,
    p: Boxed<TypedPlace>,
    e: Boxed<TypedExpr>,
) -> Result<Part, NoMemory>
    ensures { IfOk result (λ x. part_view x ≡ AsValue
        (typed.Assign (typed_place_view p) at (typed_expr_view e))) }
{
    Ok(Part::Value(Boxed::new(scope.alloc(), TypedExpr::Assign(p, at, e))?))
}

/// `=` of a value, converted to the type of the place.
fn converted_assigned(
    scope: &Scope,
    types: &Types,
    at: Place,
    p: Boxed<TypedPlace>,
    e: Boxed<TypedExpr>,
) -> Result<Part, NoMemory>
    ensures { IfOk result (λ x. part_view x ≡ AsValue (typed.Assign (typed_place_view p) at
        (assignments.converted_to types.now at (place_type (typed_place_view p))
        (typed_expr_view e)))) }
{
    let e = converted_to(scope, types, at, p.get().ty(), e)?;
    value_assigned(scope, at, p, e)
}

/// What `=` makes of a place and what is given to it.
fn assigned(
    scope: &Scope,
    types: &Types,
    at: Place,
    p: Boxed<TypedPlace>,
    y: Part,
) -> Result<Part, NoMemory>
    ensures { IfOk result (λ x. part_view x ≡ assignments.assigned types.now at (typed_place_view p)
        (part_view y)) }
{
    match y {
        Part::Place(q) => struct_assigned(scope, at, p, q),
        Part::Value(e) => converted_assigned(scope, types, at, p, e),
        Part::Allocation(e) => value_assigned(scope, at, p, e),
    }
}

/// The pointers that `=` moves are counted, where a struct is assigned.
fn count_moved(
    scope: &mut Scope,
    types: &Types,
    at: Place,
    t: TypeId,
    y: &Part,
) -> Result<TypeId, Fault>
    ensures answers { Answers (λ t. t) (assignments.moved at t (part_view y.now)
        (known types.now scope.old)) result (known types.now scope.new) }
    ensures grows { Grows (known types.now scope.old) (known types.now scope.new) }
{
    match y {
        Part::Place(_) => count_cells(scope, types, at, t),
        _ => Ok(t),
    }
}

/// `=` of a place and what is given to it.
#[tactic(auto, unfolding(c_typing::specs::Assignments::assign_part))]
fn assign_place(
    scope: &mut Scope,
    types: &Types,
    at: Place,
    p: Boxed<TypedPlace>,
    y: Part,
) -> Result<Part, Fault>
    ensures answers { Answers part_view (assignments.assign_part at (AsPlace (typed_place_view p))
        (part_view y) (known types.now scope.old)) result (known types.now scope.new) }
    ensures grows { Grows (known types.now scope.old) (known types.now scope.new) }
{
    count_moved(scope, types, at, p.get().ty(), &y)?;
    Ok(assigned(scope, types, at, p, y)?)
}

#[tactic(auto, unfolding(c_typing::specs::Assignments::assign_part))]
fn assign_part(scope: &mut Scope, types: &Types, at: Place, x: Part, y: Part) -> Result<Part, Fault>
    ensures answers { Answers part_view (assignments.assign_part at (part_view x) (part_view y)
        (known types.now scope.old)) result (known types.now scope.new) }
    ensures grows { Grows (known types.now scope.old) (known types.now scope.new) }
{
    match x {
        Part::Place(p) => assign_place(scope, types, at, p, y),
        _ => Err(no_room(at)),
    }
}

/// `=` that breaks no rule and holds so many values at once.
fn allowed_assign(
    scope: &mut Scope,
    types: &mut Types,
    x: Operand,
    at: Place,
    y: Operand,
    held: u32,
) -> Result<Operand, Fault>
    ensures answers { Answers operand_view (next (assignments.assign_part at (part_view x.part)
        (part_view y.part) (known types.old scope.old))
        (λ made. pure (record { part = made; place = x.place; held = held }))) result
        (known types.new scope.new) }
    ensures grows { Grows (known types.old scope.old) (known types.new scope.new) }
{
    let place = x.place;
    let part = assign_part(scope, types, at, x.part, y.part)?;
    Ok(Operand { part, place, held })
}

/// `=` with what is given to its left side.
#[tactic(auto, unfolding(c_typing::specs::Assignments::assign_given, c_typing::specs::Operations::construct, c_typing::specs::Judging::holding))]
fn assign_given(
    scope: &mut Scope,
    types: &mut Types,
    x: Operand,
    at: Place,
    y: Operand,
) -> Result<Operand, Fault>
    ensures answers { Answers operand_view (assignments.assign_given (operand_view x) at
        (operand_view y) (known types.old scope.old)) result (known types.new scope.new) }
    ensures grows { Grows (known types.old scope.old) (known types.new scope.new) }
{
    let held = held_with_two(x.held, y.held);
    let fault = assign_fault(scope, types, at, &x.part, &y.part);
    match held_within(fault, x.place, held) {
        Ok(held) => allowed_assign(scope, types, x, at, y, held),
        Err(fault) => Err(fault),
    }
}

/// `=` (C99 6.5.16.1).
#[tactic(auto, unfolding(c_typing::specs::Assignments::assign))]
pub fn assign(
    scope: &mut Scope,
    types: &mut Types,
    x: Operand,
    at: Place,
    y: Operand,
) -> Result<Operand, Fault>
    ensures answers { Answers operand_view (assignments.assign (operand_view x) at (operand_view y)
        (known types.old scope.old)) result (known types.new scope.new) }
    ensures grows { Grows (known types.old scope.old) (known types.new scope.new) }
{
    let Operand { part, place, held } = y;
    let part = given(scope, types, part_type(&x.part), place, part)?;
    let y = Operand { part, place, held };
    assign_given(scope, types, x, at, y)
}

/// A compound assignment whose operator gives this type.
#[tactic(auto, using(c_tree::proofs::TypedViewLaws::typed_views))]
fn updated_as(
    scope: &Scope,
    operator: Assignment,
    at: Place,
    p: Boxed<TypedPlace>,
    e: Boxed<TypedExpr>,
    t: TypeId,
) -> Result<Boxed<TypedExpr>, NoMemory>
    ensures { IfOk result (λ made. typed_expr_view made
        ≡ typed.AssignWith operator (typed_place_view p) at (typed_expr_view e) t) }
{
    Ok(Boxed::new(scope.alloc(), TypedExpr::AssignWith(operator, p, at, e, t))?)
}

/// A compound assignment of integers, of which the right one is converted to the type that the operator asks for.
fn updated_integer(
    scope: &Scope,
    operator: Assignment,
    at: Place,
    p: Boxed<TypedPlace>,
    e: Boxed<TypedExpr>,
    kinds: (Kind, Kind),
) -> Result<Boxed<TypedExpr>, NoMemory>
    ensures { IfOk result (λ made. typed_expr_view made ≡ assignments.updated operator at
        (typed_place_view p) (typed_expr_view e) (Some (kind_view kinds.0))
        (Some (kind_view kinds.1))) }
{
    let (left, right) = kinds;
    let binary = assigning(operator);
    let e = to_integer(scope, at, right_kind(binary, left, right).ty(), e)?;
    let t = left_kind(binary, left, right).ty();
    updated_as(scope, operator, at, p, e, t)
}

/// What a compound assignment makes of a place and a value.
fn updated(
    scope: &Scope,
    types: &Types,
    operator: Assignment,
    at: Place,
    p: Boxed<TypedPlace>,
    e: Boxed<TypedExpr>,
) -> Result<Boxed<TypedExpr>, NoMemory>
    ensures { IfOk result (λ made. typed_expr_view made ≡ assignments.updated operator at
        (typed_place_view p) (typed_expr_view e) (integer_at types.now
        (place_type (typed_place_view p))) (integer_at types.now (type_of (typed_expr_view e)))) }
{
    let t = p.get().ty();
    match (integer_at(types, t), integer_at(types, e.get().ty())) {
        (Some(left), Some(right)) => updated_integer(scope, operator, at, p, e, (left, right)),
        _ => updated_as(scope, operator, at, p, e, t),
    }
}

#[tactic(auto, unfolding(c_typing::specs::Assignments::update_part))]
fn update_part(
    scope: &Scope,
    types: &Types,
    operator: Assignment,
    at: Place,
    x: Part,
    e: Boxed<TypedExpr>,
) -> Result<Boxed<TypedExpr>, Fault>
    ensures { Answers (λ made. AsValue (typed_expr_view made))
        (assignments.update_part operator at (part_view x) (typed_expr_view e)
        (known types.now scope.now)) result (known types.now scope.now) }
{
    match x {
        Part::Place(p) => Ok(updated(scope, types, operator, at, p, e)?),
        _ => Err(no_room(at)),
    }
}

/// A compound assignment (C99 6.5.16.2).
#[tactic(auto, unfolding(c_typing::specs::Assignments::update_by, c_typing::specs::Operations::construct, c_typing::specs::Judging::holding))]
pub fn update_by(
    scope: &mut Scope,
    types: &mut Types,
    operator: Assignment,
    x: Operand,
    at: Place,
    v: Value,
) -> Result<Operand, Fault>
    requires { rules.is_compound operator ≡ true }
    ensures answers { Answers operand_view (assignments.update_by operator (operand_view x) at
        (value_view v) (known types.old scope.old)) result (known types.new scope.new) }
    ensures grows { Grows (known types.old scope.old) (known types.new scope.new) }
{
    let Operand { part, place, held } = x;
    let Value {
        expr,
        held: held_after,
        ..
    } = v;
    let fault = update_fault(scope, types, operator, at, &part, expr.get());
    let held = held_within(fault, place, held_with_two(held, held_after))?;
    let made = update_part(scope, types, operator, at, part, expr)?;
    Ok(Operand {
        part: Part::Value(made),
        place,
        held,
    })
}
