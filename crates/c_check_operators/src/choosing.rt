//! `?:` and `,` (C99 6.5.15, 6.5.17).
#![tactic(auto)]

ghost use Rattle.std.specs.Prelude.{◌≡◌, ◌&&◌, ◌||◌, IfOk, Some};
ghost use Rattle.c_types.specs.Table.{shape_at};
ghost use Rattle.c_tree.specs.TypedParts.{type_of};
ghost use Rattle.c_tree.specs.TypedTree as typed;
ghost use Rattle.c_tree.specs.TypedViews.{typed_expr_view, typed_place_view};
ghost use Rattle.c_typing.specs.Assignments as assignments;
ghost use Rattle.c_typing.specs.Conversions.{to_integer};
ghost use Rattle.c_typing.specs.Growing.{Grows};
ghost use Rattle.c_typing.specs.Integers.{common};
ghost use Rattle.c_typing.specs.Judging.{Answers, integer_type, known, next, pure, void_type};
ghost use Rattle.c_typing.specs.KindViews.{kind_view};
ghost use Rattle.c_typing.specs.OperandViews.{part_view, operand_view, value_view, part_ref_view};
ghost use Rattle.c_typing.specs.Rules as rules;
ghost use Rattle.c_typing.specs.Shapes.{integer_at, is_void_shape};
ghost use Rattle.c_typing.specs.Tests as tests;
ghost use Rattle.c_typing.specs.Tests.{first_broken, AsPlace, AsValue};

use crate::allowed::held_within;
use crate::assigning::are_one_struct;
use crate::meeting::{how_they_meet, meet};
use crate::unary::to_integer;
use crate::value_shape::shape_of;
use c_tree::{Boxed, Conversion, TypedExpr, TypedPlace};
use c_types::Types;
use c_typing::constant::is_null_constant;
use c_typing::construct::{held_with_three, held_with_two, holding};
use c_typing::kind::Kind;
use c_typing::operand::{Operand, Part, PartRef, Pointing, Value};
use c_typing::scope::Scope;
use c_typing::shapes::{are_integers, integer_at, is_scalar, is_void, shape_at};
use c_typing::stops::{no_room, refusal};
use c_typing::typing::{new_pointer, side_of};
use cc_base::{Fault, NoMemory, Place, Rule, TypeId};

/// `void`.
const VOID: TypeId = TypeId(0);

/// Whether a `?:` accepts these sides.
fn are_alike(types: &Types, x: PartRef, y: PartRef) -> bool
    ensures { result ≡ (tests.are_integers (tests.shape_of types.now (part_ref_view x.entry))
        (tests.shape_of types.now (part_ref_view y.entry)) ||
        ((is_void_shape (tests.shape_of types.now (part_ref_view x.entry)) && is_void_shape
        (tests.shape_of types.now (part_ref_view y.entry))) ||
        (tests.are_one_struct types.now (part_ref_view x.entry)
        (part_ref_view y.entry) || tests.meet types.now (part_ref_view x.entry)
        (part_ref_view y.entry)))) }
{
    let left = shape_of(types, x);
    let right = shape_of(types, y);
    are_integers(left.get(), right.get())
        || (is_void(left.get()) && is_void(right.get()))
        || are_one_struct(types, x, y)
        || meet(types, x, y)
}

/// The rules of `?:`.
fn choice_fault(types: &Types, at: Place, c: &TypedExpr, x: PartRef, y: PartRef) -> Option<Fault>
    ensures { result ≡ first_broken (tests.choice_tests types.now at
        (AsValue (typed_expr_view c.now)) (part_ref_view x.entry) (part_ref_view y.entry)) }
{
    if !is_scalar(shape_at(types, c.ty())) {
        return Some(refusal(at, Rule::Mismatch));
    }
    if are_alike(types, x, y) {
        None
    } else {
        Some(refusal(at, Rule::Mismatch))
    }
}

/// A side of a `?:` of pointers, which flows into the type of the whole unless it is a null constant.
#[tactic(auto, using(c_tree::proofs::TypedViewLaws::typed_views))]
fn into_choice(
    scope: &Scope,
    types: &Types,
    at: Place,
    t: TypeId,
    e: Boxed<TypedExpr>,
) -> Result<Boxed<TypedExpr>, NoMemory>
    ensures { IfOk result (λ made. typed_expr_view made
        ≡ rules.into_choice types.now at t (typed_expr_view e)) }
{
    let which = if is_null_constant(types, e.get()) {
        Conversion::NullToPointer
    } else {
        Conversion::PointerToPointer
    };
    Ok(Boxed::new(scope.alloc(), TypedExpr::Convert(which, at, t, e))?)
}

/// The parts of a `?:` of values: its condition, its first token, its `?` and its sides.
#[derive(Drop)]
struct Chosen {
    condition: Boxed<TypedExpr>,
    begin: Place,
    at: Place,
    a: Boxed<TypedExpr>,
    b: Boxed<TypedExpr>,
}

/// `?:` of pointers that have this type.
#[tactic(auto, using(c_tree::proofs::TypedViewLaws::typed_views))]
fn pointer_conditional(
    scope: &Scope,
    condition: Boxed<TypedExpr>,
    at: Place,
    a: Boxed<TypedExpr>,
    b: Boxed<TypedExpr>,
    made: Pointing,
) -> Result<Boxed<TypedExpr>, NoMemory>
    ensures { IfOk result (λ e. typed_expr_view e ≡ typed.PointerConditional
        (typed_expr_view condition) at (typed_expr_view a) (typed_expr_view b) made.node made.ty) }
{
    Ok(Boxed::new(
        scope.alloc(),
        TypedExpr::PointerConditional(condition, at, a, b, made.node, made.ty),
    )?)
}

/// Both sides of a `?:` of pointers, which flow into the type of the whole.
fn both_into_choice(
    scope: &Scope,
    types: &Types,
    at: Place,
    t: TypeId,
    a: Boxed<TypedExpr>,
    b: Boxed<TypedExpr>,
) -> Result<(Boxed<TypedExpr>, Boxed<TypedExpr>), NoMemory>
    ensures { IfOk result (λ pair. (typed_expr_view pair.0
        ≡ rules.into_choice types.now at t (typed_expr_view a))
        × (typed_expr_view pair.1 ≡ rules.into_choice types.now at t (typed_expr_view b))) }
{
    let a = into_choice(scope, types, at, t, a)?;
    let b = into_choice(scope, types, at, t, b)?;
    Ok((a, b))
}

/// `?:` of two that flow into this pointer type.
fn chosen_pointer(
    scope: &Scope,
    types: &Types,
    x: Chosen,
    made: Pointing,
) -> Result<Boxed<TypedExpr>, NoMemory>
    ensures { IfOk result (λ e. typed_expr_view e ≡ typed.PointerConditional
        (typed_expr_view x.condition) x.at (rules.into_choice types.now x.at made.ty
        (typed_expr_view x.a)) (rules.into_choice types.now x.at made.ty (typed_expr_view x.b))
        made.node made.ty) }
{
    let (a, b) = both_into_choice(scope, types, x.at, made.ty, x.a, x.b)?;
    pointer_conditional(scope, x.condition, x.at, a, b, made)
}

/// `?:` of pointers to this type.
#[tactic(auto, unfolding(c_typing::specs::Assignments::pointer_choice))]
fn choice_to(
    scope: &mut Scope,
    types: &mut Types,
    x: Chosen,
    to: TypeId,
) -> Result<Boxed<TypedExpr>, Fault>
    ensures answers { Answers (λ e. AsValue (typed_expr_view e))
        (assignments.pointer_choice (typed_expr_view x.condition) x.begin x.at (typed_expr_view x.a)
        (typed_expr_view x.b) (Some to) (known types.old scope.old)) result
        (known types.new scope.new) }
    ensures grows { Grows (known types.old scope.old) (known types.new scope.new) }
{
    let made = new_pointer(scope, types, x.begin, to)?;
    Ok(chosen_pointer(scope, types, x, made)?)
}

/// `?:` of pointers to what both sides point to.
#[tactic(auto, unfolding(c_typing::specs::Assignments::pointer_choice))]
fn pointer_choice(
    scope: &mut Scope,
    types: &mut Types,
    x: Chosen,
    to: Option<TypeId>,
) -> Result<Boxed<TypedExpr>, Fault>
    ensures answers { Answers (λ e. AsValue (typed_expr_view e))
        (assignments.pointer_choice (typed_expr_view x.condition) x.begin x.at (typed_expr_view x.a)
        (typed_expr_view x.b) to (known types.old scope.old)) result (known types.new scope.new) }
    ensures grows { Grows (known types.old scope.old) (known types.new scope.new) }
{
    match to {
        Some(to) => choice_to(scope, types, x, to),
        None => Err(no_room(x.begin)),
    }
}

/// `?:` of two that have this type.
#[tactic(auto, using(c_tree::proofs::TypedViewLaws::typed_views))]
fn conditional(
    scope: &Scope,
    condition: Boxed<TypedExpr>,
    at: Place,
    a: Boxed<TypedExpr>,
    b: Boxed<TypedExpr>,
    t: TypeId,
) -> Result<Boxed<TypedExpr>, NoMemory>
    ensures { IfOk result (λ e. typed_expr_view e ≡ typed.Conditional (typed_expr_view condition) at
        (typed_expr_view a) (typed_expr_view b) t) }
{
    Ok(Boxed::new(
        scope.alloc(),
        TypedExpr::Conditional(condition, at, a, b, t),
    )?)
}

/// `?:` of two without a value.
fn void_choice(scope: &Scope, x: Chosen) -> Result<Boxed<TypedExpr>, NoMemory>
    ensures { IfOk result (λ e. typed_expr_view e ≡ typed.Conditional
        (typed_expr_view x.condition) x.at (typed_expr_view x.a) (typed_expr_view x.b) void_type) }
{
    let Chosen {
        condition,
        at,
        a,
        b,
        ..
    } = x;
    conditional(scope, condition, at, a, b, VOID)
}

/// `?:` of two that are not both integers.
#[tactic(auto, unfolding(c_typing::specs::Assignments::choice_of_pointers))]
fn choice_of_pointers(
    scope: &mut Scope,
    types: &mut Types,
    x: Chosen,
) -> Result<Boxed<TypedExpr>, Fault>
    ensures answers { Answers (λ e. AsValue (typed_expr_view e))
        (assignments.choice_of_pointers (typed_expr_view x.condition) x.begin x.at
        (typed_expr_view x.a) (typed_expr_view x.b) (is_void_shape
        (shape_at types.old (type_of (typed_expr_view x.a))) && is_void_shape
        (shape_at types.old (type_of (typed_expr_view x.b)))) (known types.old scope.old)) result
        (known types.new scope.new) }
    ensures grows { Grows (known types.old scope.old) (known types.new scope.new) }
{
    if is_void(shape_at(types, x.a.get().ty())) && is_void(shape_at(types, x.b.get().ty())) {
        return Ok(void_choice(scope, x)?);
    }
    let to = how_they_meet(types, x.a.get(), x.b.get()).pointee();
    pointer_choice(scope, types, x, to)
}

/// Two integers, each converted to this type.
fn both_to_integer(
    scope: &Scope,
    at: Place,
    t: TypeId,
    a: Boxed<TypedExpr>,
    b: Boxed<TypedExpr>,
) -> Result<(Boxed<TypedExpr>, Boxed<TypedExpr>), NoMemory>
    ensures { IfOk result (λ pair. (typed_expr_view pair.0 ≡ to_integer at t (typed_expr_view a))
        × (typed_expr_view pair.1 ≡ to_integer at t (typed_expr_view b))) }
{
    let a = to_integer(scope, at, t, a)?;
    let b = to_integer(scope, at, t, b)?;
    Ok((a, b))
}

/// `?:` of two integers, each converted to the type in which they meet.
fn integer_choice(
    scope: &Scope,
    x: Chosen,
    left: Kind,
    right: Kind,
) -> Result<Boxed<TypedExpr>, NoMemory>
    ensures { IfOk result (λ e. typed_expr_view e ≡ typed.Conditional
        (typed_expr_view x.condition) x.at (to_integer x.at
        (integer_type (common (kind_view left) (kind_view right))) (typed_expr_view x.a))
        (to_integer x.at (integer_type (common (kind_view left) (kind_view right)))
        (typed_expr_view x.b)) (integer_type (common (kind_view left) (kind_view right)))) }
{
    let t = left.common(right).ty();
    let (a, b) = both_to_integer(scope, x.at, t, x.a, x.b)?;
    conditional(scope, x.condition, x.at, a, b, t)
}

/// `?:` of two values.
#[tactic(auto, unfolding(c_typing::specs::Assignments::choice_of_values))]
fn choice_of_values(
    scope: &mut Scope,
    types: &mut Types,
    x: Chosen,
) -> Result<Boxed<TypedExpr>, Fault>
    ensures answers { Answers (λ e. AsValue (typed_expr_view e))
        (assignments.choice_of_values (typed_expr_view x.condition) x.begin x.at
        (typed_expr_view x.a) (typed_expr_view x.b) (integer_at types.old
        (type_of (typed_expr_view x.a))) (integer_at types.old (type_of (typed_expr_view x.b)))
        (known types.old scope.old)) result (known types.new scope.new) }
    ensures grows { Grows (known types.old scope.old) (known types.new scope.new) }
{
    match (
        integer_at(types, x.a.get().ty()),
        integer_at(types, x.b.get().ty()),
    ) {
        (Some(left), Some(right)) => Ok(integer_choice(scope, x, left, right)?),
        _ => choice_of_pointers(scope, types, x),
    }
}

/// `?:` of two structs.
#[tactic(auto, using(c_tree::proofs::TypedViewLaws::typed_views))]
fn struct_choice(
    scope: &Scope,
    condition: Boxed<TypedExpr>,
    at: Place,
    p: Boxed<TypedPlace>,
    q: Boxed<TypedPlace>,
) -> Result<Part, NoMemory>
    ensures { IfOk result (λ x. part_view x ≡ AsPlace (typed.StructConditional
        (typed_expr_view condition) at (typed_place_view p) (typed_place_view q))) }
{
    Ok(Part::Place(Boxed::new(
        scope.alloc(),
        TypedPlace::StructConditional(condition, at, p, q),
    )?))
}

/// The parts of a `?:`: its condition, its first token, its `?` and its sides.
#[derive(Drop)]
struct Sides {
    condition: Boxed<TypedExpr>,
    begin: Place,
    at: Place,
    x: Part,
    y: Part,
}

/// `?:` of two structs, as a part.
#[tactic(auto, unfolding(c_typing::specs::Assignments::choice_of_parts))]
fn place_choice(
    scope: &Scope,
    types: &Types,
    condition: Boxed<TypedExpr>,
    places: (Place, Place),
    p: Boxed<TypedPlace>,
    q: Boxed<TypedPlace>,
) -> Result<Part, Fault>
    ensures { Answers part_view (assignments.choice_of_parts
        (typed_expr_view condition) places.0 places.1 (AsPlace (typed_place_view p))
        (AsPlace (typed_place_view q)) (known types.now scope.now)) result
        (known types.now scope.now) }
{
    let made = struct_choice(scope, condition, places.1, p, q)?;
    Ok(made)
}

/// `?:` whose first side is a struct.
#[tactic(auto, unfolding(c_typing::specs::Assignments::choice_of_parts))]
fn choice_of_structs(
    scope: &Scope,
    types: &Types,
    condition: Boxed<TypedExpr>,
    places: (Place, Place),
    p: Boxed<TypedPlace>,
    y: Part,
) -> Result<Part, Fault>
    ensures { Answers part_view (assignments.choice_of_parts
        (typed_expr_view condition) places.0 places.1 (AsPlace (typed_place_view p)) (part_view y)
        (known types.now scope.now)) result (known types.now scope.now) }
{
    match y {
        Part::Place(q) => place_choice(scope, types, condition, places, p, q),
        _ => Err(no_room(places.0)),
    }
}

/// `?:` of two values, as a part.
#[tactic(auto, unfolding(c_typing::specs::Assignments::choice_of_parts))]
fn value_choice(scope: &mut Scope, types: &mut Types, x: Chosen) -> Result<Part, Fault>
    ensures answers { Answers part_view (assignments.choice_of_parts
        (typed_expr_view x.condition) x.begin x.at (AsValue (typed_expr_view x.a))
        (AsValue (typed_expr_view x.b)) (known types.old scope.old)) result
        (known types.new scope.new) }
    ensures grows { Grows (known types.old scope.old) (known types.new scope.new) }
{
    let made = choice_of_values(scope, types, x)?;
    Ok(Part::Value(made))
}

/// `?:` whose first side is a value.
#[tactic(auto, unfolding(c_typing::specs::Assignments::choice_of_parts))]
fn choice_with_value(
    scope: &mut Scope,
    types: &mut Types,
    condition: Boxed<TypedExpr>,
    places: (Place, Place),
    a: Boxed<TypedExpr>,
    y: Part,
) -> Result<Part, Fault>
    ensures answers { Answers part_view (assignments.choice_of_parts
        (typed_expr_view condition) places.0 places.1 (AsValue (typed_expr_view a)) (part_view y)
        (known types.old scope.old)) result (known types.new scope.new) }
    ensures grows { Grows (known types.old scope.old) (known types.new scope.new) }
{
    let (begin, at) = places;
    match y {
        Part::Value(b) => {
            let x = Chosen {
                condition,
                begin,
                at,
                a,
                b,
            };
            value_choice(scope, types, x)
        }
        _ => Err(no_room(begin)),
    }
}

#[tactic(auto, unfolding(c_typing::specs::Assignments::choice_of_parts))]
fn choice_of_parts(scope: &mut Scope, types: &mut Types, sides: Sides) -> Result<Part, Fault>
    ensures answers { Answers part_view (assignments.choice_of_parts
        (typed_expr_view sides.condition) sides.begin sides.at (part_view sides.x)
        (part_view sides.y) (known types.old scope.old)) result (known types.new scope.new) }
    ensures grows { Grows (known types.old scope.old) (known types.new scope.new) }
{
    let Sides {
        condition,
        begin,
        at,
        x,
        y,
    } = sides;
    match x {
        Part::Place(p) => choice_of_structs(scope, types, condition, (begin, at), p, y),
        Part::Value(a) => choice_with_value(scope, types, condition, (begin, at), a, y),
        Part::Allocation(_) => Err(no_room(begin)),
    }
}

/// A `?:` that breaks no rule and holds so many values at once.
fn allowed_choice(
    scope: &mut Scope,
    types: &mut Types,
    sides: Sides,
    held: u32,
) -> Result<Operand, Fault>
    ensures answers { Answers operand_view (next (assignments.choice_of_parts
        (typed_expr_view sides.condition) sides.begin sides.at (part_view sides.x)
        (part_view sides.y) (known types.old scope.old))
        (λ x. pure (record { part = x; place = sides.begin; held = held }))) result
        (known types.new scope.new) }
    ensures grows { Grows (known types.old scope.old) (known types.new scope.new) }
{
    let place = sides.begin;
    let part = choice_of_parts(scope, types, sides)?;
    Ok(Operand { part, place, held })
}

/// `?:` (C99 6.5.15).
#[tactic(auto, unfolding(c_typing::specs::Assignments::choice, c_typing::specs::Operations::construct, c_typing::specs::Judging::holding))]
pub fn choice(
    scope: &mut Scope,
    types: &mut Types,
    c: Value,
    at: Place,
    a: Value,
    b: Value,
) -> Result<Operand, Fault>
    ensures answers { Answers operand_view (assignments.choice (value_view c) at (value_view a)
        (value_view b) (known types.old scope.old)) result (known types.new scope.new) }
    ensures grows { Grows (known types.old scope.old) (known types.new scope.new) }
{
    let begin = c.place;
    let held = held_with_three(c.held, a.held, b.held);
    let condition = c.expr;
    let x = side_of(a.expr);
    let y = side_of(b.expr);
    let fault = choice_fault(types, at, condition.get(), x.as_ref(), y.as_ref());
    let sides = Sides {
        condition,
        begin,
        at,
        x,
        y,
    };
    match held_within(fault, begin, held) {
        Ok(held) => allowed_choice(scope, types, sides, held),
        Err(fault) => Err(fault),
    }
}

/// `,` before a struct.
#[tactic(auto, using(c_tree::proofs::TypedViewLaws::typed_views))]
fn before_struct(scope: &Scope, a: Boxed<TypedExpr>, p: Boxed<TypedPlace>) -> Result<Part, NoMemory>
    ensures { IfOk result (λ x. part_view x ≡ AsPlace
        (typed.StructComma (typed_expr_view a) (typed_place_view p))) }
{
    Ok(Part::Place(Boxed::new(scope.alloc(), TypedPlace::StructComma(a, p))?))
}

/// `,` before a value.
#[tactic(auto, using(c_tree::proofs::TypedViewLaws::typed_views))]
fn before_value(scope: &Scope, a: Boxed<TypedExpr>, b: Boxed<TypedExpr>) -> Result<Part, NoMemory>
    ensures { IfOk result (λ x. part_view x ≡ AsValue
        (typed.Comma (typed_expr_view a) (typed_expr_view b))) }
{
    Ok(Part::Value(Boxed::new(scope.alloc(), TypedExpr::Comma(a, b))?))
}

/// What `,` makes of a value and what follows it.
fn comma_part(scope: &Scope, a: Boxed<TypedExpr>, b: Part) -> Result<Part, NoMemory>
    ensures { IfOk result (λ x. part_view x
        ≡ assignments.comma_part (typed_expr_view a) (part_view b)) }
{
    match b {
        Part::Place(p) => before_struct(scope, a, p),
        Part::Value(b) | Part::Allocation(b) => before_value(scope, a, b),
    }
}

/// `,` (C99 6.5.17).
#[tactic(auto, unfolding(c_typing::specs::Assignments::comma, c_typing::specs::Operations::construct, c_typing::specs::Judging::holding))]
pub fn comma(scope: &Scope, types: &Types, a: Value, b: Value) -> Result<Operand, Fault>
    ensures { Answers operand_view (assignments.comma (value_view a) (value_view b)
        (known types.now scope.now)) result (known types.now scope.now) }
{
    let Value { expr, place, held } = a;
    let Value {
        expr: last,
        held: held_after,
        ..
    } = b;
    let held = holding(place, held_with_two(held, held_after))?;
    let part = comma_part(scope, expr, side_of(last))?;
    Ok(Operand { part, place, held })
}
