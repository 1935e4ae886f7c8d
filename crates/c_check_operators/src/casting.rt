//! Casts, and `sizeof` of a type name (C99 6.5.3.4, 6.5.4).
#![tactic(auto)]

ghost use Rattle.std.specs.Prelude.{◌≡◌, IfOk};
ghost use Rattle.c_types.specs.Layouts.{size_of};
ghost use Rattle.c_types.specs.Table.{shape_at};
ghost use Rattle.c_tree.specs.TypedTree as typed;
ghost use Rattle.c_tree.specs.TypedParts.{named_type};
ghost use Rattle.c_tree.specs.TypedViews.{typed_expr_view, typed_type_name_view};
ghost use Rattle.c_typing.specs.Assignments as assignments;
ghost use Rattle.c_typing.specs.Growing.{Grows};
ghost use Rattle.c_typing.specs.Judging.{Answers, known};
ghost use Rattle.c_typing.specs.Operations as operations;
ghost use Rattle.c_typing.specs.OperandViews.{part_view, operand_view, part_ref_view};
ghost use Rattle.c_typing.specs.Refusals.{type_size_tests};
ghost use Rattle.c_typing.specs.Shapes.{is_void_shape};
ghost use Rattle.c_typing.specs.Tests as tests;
ghost use Rattle.c_typing.specs.Tests.{first_broken};

use crate::address::{SIZE, size_at};
use crate::allowed::allowed;
use crate::conversion::{cast_conversion, given, is_castable};
use c_tree::{Boxed, Conversion, TypedExpr, TypedTypeName};
use c_types::Types;
use c_typing::operand::{Operand, Part, PartRef};
use c_typing::scope::Scope;
use c_typing::shapes::{is_complete_at, is_void, shape_at};
use c_typing::stops::refusal;
use cc_base::{Fault, NoMemory, Place, Rule, TypeId};

/// The type that a type name is.
#[tactic(auto, using(c_tree::proofs::TypedViewLaws::typed_views))]
fn type_named(name: &TypedTypeName) -> TypeId
    ensures { result ≡ named_type (typed_type_name_view name.now) }
{
    name.ty
}

/// The rules of a cast.
fn cast_fault(types: &Types, at: Place, x: PartRef, t: TypeId) -> Option<Fault>
    ensures { result ≡ first_broken (tests.cast_tests types.now at (part_ref_view x.entry) t) }
{
    if is_castable(types, x, shape_at(types, t)) {
        None
    } else {
        Some(refusal(at, Rule::Mismatch))
    }
}

/// A part as the operand of a cast.
#[tactic(auto, using(c_tree::proofs::TypedViewLaws::typed_views))]
fn part_expr(scope: &Scope, x: Part) -> Result<Boxed<TypedExpr>, NoMemory>
    ensures { IfOk result (λ e. typed_expr_view e ≡ assignments.part_expr (part_view x)) }
{
    match x {
        Part::Place(p) => Ok(Boxed::new(scope.alloc(), TypedExpr::Unread(p))?),
        Part::Value(e) => Ok(e),
        Part::Allocation(e) => Ok(e),
    }
}

/// The conversion that a cast makes; one to `void` where there is no other.
fn cast_which(types: &Types, is_allocation: bool, e: &TypedExpr, t: TypeId) -> Conversion
    ensures { result ≡ assignments.cast_by types.now is_allocation (typed_expr_view e.now) t
        (is_void_shape (shape_at types.now t)) }
{
    if is_void(shape_at(types, t)) {
        return Conversion::ToVoid;
    }
    if is_allocation {
        return Conversion::AllocationToPointer;
    }
    match cast_conversion(types, e, t) {
        Some(which) => which,
        None => Conversion::ToVoid,
    }
}

fn is_allocation(x: &Part) -> bool
    ensures { result ≡ assignments.is_allocation_part (part_view x.now) }
{
    matches!(x, Part::Allocation(_))
}

/// A cast by this conversion.
#[tactic(auto, using(c_tree::proofs::TypedViewLaws::typed_views))]
fn cast_by(
    scope: &Scope,
    which: Conversion,
    at: Place,
    to: Boxed<TypedTypeName>,
    e: Boxed<TypedExpr>,
) -> Result<Boxed<TypedExpr>, NoMemory>
    ensures { IfOk result (λ made. typed_expr_view made
        ≡ typed.Cast which at (typed_type_name_view to) (typed_expr_view e)) }
{
    Ok(Boxed::new(scope.alloc(), TypedExpr::Cast(which, at, to, e))?)
}

/// What a cast makes of what was given to its type.
fn cast_part(
    scope: &Scope,
    types: &Types,
    at: Place,
    to: Boxed<TypedTypeName>,
    x: Part,
) -> Result<Boxed<TypedExpr>, NoMemory>
    ensures { IfOk result (λ e. typed_expr_view e ≡ assignments.cast_part types.now at
        (typed_type_name_view to) (part_view x)) }
{
    let taken = is_allocation(&x);
    let e = part_expr(scope, x)?;
    let which = cast_which(types, taken, e.get(), type_named(to.get()));
    cast_by(scope, which, at, to, e)
}

/// A cast of what was given to its type.
#[tactic(auto, unfolding(c_typing::specs::Assignments::cast_given, c_typing::specs::Operations::construct, c_typing::specs::Judging::holding))]
fn cast_given(
    scope: &Scope,
    types: &Types,
    at: Place,
    to: Boxed<TypedTypeName>,
    x: Operand,
) -> Result<Operand, Fault>
    ensures { Answers operand_view (assignments.cast_given at (typed_type_name_view to)
        (operand_view x) (known types.now scope.now)) result (known types.now scope.now) }
{
    let fault = cast_fault(types, at, x.part.as_ref(), type_named(to.get()));
    let allowed = allowed(fault, at, x)?;
    let made = cast_part(scope, types, at, to, allowed.part)?;
    Ok(Operand {
        part: Part::Value(made),
        place: at,
        held: allowed.held,
    })
}

/// A cast (C99 6.5.4).
#[tactic(auto, unfolding(c_typing::specs::Assignments::cast))]
pub fn cast(
    scope: &mut Scope,
    types: &mut Types,
    at: Place,
    to: Boxed<TypedTypeName>,
    x: Operand,
) -> Result<Operand, Fault>
    ensures answers { Answers operand_view (assignments.cast at (typed_type_name_view to)
        (operand_view x) (known types.old scope.old)) result (known types.new scope.new) }
    ensures grows { Grows (known types.old scope.old) (known types.new scope.new) }
{
    let Operand { part, place, held } = x;
    let part = given(scope, types, type_named(to.get()), place, part)?;
    cast_given(scope, types, at, to, Operand { part, place, held })
}

/// The rules of `sizeof` of a type name.
fn type_size_fault(scope: &Scope, types: &Types, at: Place, t: TypeId) -> Option<Fault>
    ensures { result ≡ first_broken (type_size_tests types.now scope.now.scopes at t) }
{
    if is_complete_at(scope, types, t) {
        None
    } else {
        Some(refusal(at, Rule::Incomplete))
    }
}

/// The size that a type name has.
#[tactic(auto, using(c_tree::proofs::TypedViewLaws::typed_views))]
fn named_size(
    scope: &Scope,
    types: &Types,
    at: Place,
    paren: Place,
    name: Boxed<TypedTypeName>,
) -> Result<Boxed<TypedExpr>, NoMemory>
    ensures { IfOk result (λ e. typed_expr_view e ≡ typed.SizeOfType at paren
        (typed_type_name_view name) (size_of types.now (named_type (typed_type_name_view name)))
        operations.size_type) }
{
    let size = size_at(types, type_named(name.get()));
    Ok(Boxed::new(
        scope.alloc(),
        TypedExpr::SizeOfType(at, paren, name, size, SIZE),
    )?)
}

/// `sizeof` of a type name (C99 6.5.3.4).
#[tactic(auto, unfolding(c_typing::specs::Assignments::size_of_type, c_typing::specs::Operations::construct, c_typing::specs::Judging::holding))]
pub fn size_of_type(
    scope: &Scope,
    types: &Types,
    at: Place,
    paren: Place,
    name: Boxed<TypedTypeName>,
) -> Result<Operand, Fault>
    ensures { Answers operand_view (assignments.size_of_type at paren (typed_type_name_view name)
        (known types.now scope.now)) result (known types.now scope.now) }
{
    if let Some(fault) = type_size_fault(scope, types, at, type_named(name.get())) {
        return Err(fault);
    }
    let made = named_size(scope, types, at, paren, name)?;
    Ok(Operand {
        part: Part::Value(made),
        place: at,
        held: 1,
    })
}
