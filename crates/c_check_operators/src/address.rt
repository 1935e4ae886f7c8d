//! `&`, `sizeof`, `++` and `--` (C99 6.5.2.4, 6.5.3).
#![tactic(auto)]

ghost use Rattle.std.specs.Prelude.{◌≡◌, [], ◌∷◌, IfOk, option_map};
ghost use Rattle.c_types.specs.Layouts.{size_of};
ghost use Rattle.c_tree.specs.TypedParts.{type_of};
ghost use Rattle.c_tree.specs.TypedTree as typed;
ghost use Rattle.c_tree.specs.TypedViews.{typed_expr_view, typed_place_view};
ghost use Rattle.c_typing.specs.Growing.{Grows};
ghost use Rattle.c_typing.specs.Judging.{Answers, known};
ghost use Rattle.c_typing.specs.Operations as operations;
ghost use Rattle.c_typing.specs.OperandViews.{part_view, operand_view};
ghost use Rattle.c_typing.specs.Rules as rules;
ghost use Rattle.c_typing.specs.Tests as tests;
ghost use Rattle.c_typing.specs.Tests.{first_broken, AsPlace};

use crate::allowed::allowed;
use c_tree::{Boxed, Side, TypedExpr, TypedPlace};
use c_types::Types;
use c_typing::operand::{Operand, Part};
use c_typing::scope::Scope;
use c_typing::shapes::is_complete_at;
use c_typing::stops::{no_room, refusal};
use c_typing::typing::{new_pointer, value_of};
use cc_base::{Fault, Place, Rule, TypeId};

/// `unsigned long`, the type of sizes (C99 7.17).
pub(crate) const SIZE: TypeId = TypeId(8);

/// What can be written, and its address taken (C99 6.3.2.1).
#[tactic(auto, using(c_tree::proofs::TypedViewLaws::typed_views))]
pub(crate) fn is_lvalue(p: &TypedPlace) -> bool
    ensures { result ≡ rules.is_lvalue (typed_place_view p.now) }
{
    match p {
        TypedPlace::ParenPlace(_, inner) => is_lvalue(inner.get()),
        TypedPlace::Member(inner, _, _, _, _, _) => is_lvalue(inner.get()),
        TypedPlace::StructAssign(_, _, _) => false,
        TypedPlace::StructConditional(_, _, _, _) => false,
        TypedPlace::StructComma(_, _) => false,
        TypedPlace::Variable(_, _, _) => true,
        TypedPlace::String(_, _, _) => true,
        TypedPlace::Target(_, _, _) => true,
        TypedPlace::Element(_, _, _, _, _) => true,
        TypedPlace::MemberAt(_, _, _, _, _, _) => true,
    }
}

/// The function itself: a name of a function, or `*` of a pointer to one.
#[tactic(auto, using(c_tree::proofs::TypedViewLaws::typed_views))]
pub(crate) fn is_designator(e: &TypedExpr) -> bool
    ensures { result ≡ rules.is_designator (typed_expr_view e.now) }
{
    match e {
        TypedExpr::FunctionName(_, _, _, _) | TypedExpr::FunctionAt(_, _) => true,
        TypedExpr::Paren(_, inner) => is_designator(inner.get()),
        _ => false,
    }
}

/// The type of the pointer that `&` of a place gives back.
#[tactic(auto, using(c_tree::proofs::TypedViewLaws::typed_views))]
fn type_behind(p: &TypedPlace) -> Option<TypeId>
    ensures { result ≡ option_map type_of (rules.pointer_behind (typed_place_view p.now)) }
{
    match p {
        TypedPlace::Target(_, e, _) => Some(e.get().ty()),
        TypedPlace::Element(Side::Left, a, _, _, _) => Some(a.get().ty()),
        TypedPlace::Element(Side::Right, _, _, b, _) => Some(b.get().ty()),
        TypedPlace::ParenPlace(_, inner) => type_behind(inner.get()),
        _ => None,
    }
}

/// What can be written is a place that is no value.
pub(crate) fn can_be_written(x: &Part) -> bool
    ensures { result ≡ tests.can_be_written (part_view x.now) }
{
    match x {
        Part::Place(p) => is_lvalue(p.get()),
        _ => false,
    }
}

fn is_function_part(x: &Part) -> bool
    ensures { result ≡ tests.is_function_part (part_view x.now) }
{
    match x {
        Part::Value(e) => is_designator(e.get()),
        _ => false,
    }
}

/// The rules of `&`.
fn address_fault(at: Place, x: &Part) -> Option<Fault>
    ensures { result ≡ first_broken (tests.address_tests at (part_view x.now)) }
{
    if can_be_written(x) || is_function_part(x) {
        None
    } else {
        Some(refusal(at, Rule::NotPlace))
    }
}

/// `&` of a place.
#[tactic(auto, using(c_tree::proofs::TypedViewLaws::typed_views), unfolding(c_typing::specs::Operations::address_of_part, c_typing::specs::Operations::address_behind))]
fn address_of_place(
    scope: &mut Scope,
    types: &mut Types,
    at: Place,
    p: Boxed<TypedPlace>,
) -> Result<Boxed<TypedExpr>, Fault>
    ensures answers { Answers (λ e. tests.AsValue (typed_expr_view e))
        (operations.address_of_part at (AsPlace (typed_place_view p)) (known types.old scope.old))
        result (known types.new scope.new) }
    ensures grows { Grows (known types.old scope.old) (known types.new scope.new) }
{
    match type_behind(p.get()) {
        Some(t) => Ok(Boxed::new(scope.alloc(), TypedExpr::AddressOfElement(at, p, t))?),
        None => {
            let made = new_pointer(scope, types, at, p.get().ty())?;
            Ok(Boxed::new(
                scope.alloc(),
                TypedExpr::AddressOf(at, p, made.node, made.ty),
            )?)
        }
    }
}

#[tactic(auto, using(c_tree::proofs::TypedViewLaws::typed_views), unfolding(c_typing::specs::Operations::address_of_part))]
fn address_of_part(scope: &mut Scope, types: &mut Types, at: Place, x: Part) -> Result<Part, Fault>
    ensures answers { Answers part_view (operations.address_of_part at (part_view x)
        (known types.old scope.old)) result (known types.new scope.new) }
    ensures grows { Grows (known types.old scope.old) (known types.new scope.new) }
{
    match x {
        Part::Place(p) => Ok(Part::Value(address_of_place(scope, types, at, p)?)),
        Part::Value(e) => {
            Ok(Part::Value(Boxed::new(scope.alloc(), TypedExpr::AddressOfFunction(at, e))?))
        }
        Part::Allocation(_) => Err(no_room(at)),
    }
}

/// `&` (C99 6.5.3.2).
#[tactic(auto, unfolding(c_typing::specs::Operations::address, c_typing::specs::Operations::construct, c_typing::specs::Judging::holding))]
pub(crate) fn address(
    scope: &mut Scope,
    types: &mut Types,
    at: Place,
    x: Operand,
) -> Result<Operand, Fault>
    ensures answers { Answers operand_view (operations.address at (operand_view x)
        (known types.old scope.old)) result (known types.new scope.new) }
    ensures grows { Grows (known types.old scope.old) (known types.new scope.new) }
{
    let fault = address_fault(at, &x.part);
    let allowed = allowed(fault, at, x)?;
    let part = address_of_part(scope, types, at, allowed.part)?;
    Ok(Operand {
        part,
        place: at,
        held: allowed.held,
    })
}

/// The size of a type, in bytes; 0 where it isn't complete.
#[tactic(auto, using(crate::proofs::SizeLaws::incomplete_size))]
pub(crate) fn size_at(types: &Types, t: TypeId) -> u64
    ensures { result ≡ size_of types.now t }
{
    if t.0 >= types.count() {
        return 0;
    }
    if types.is_complete(t) {
        types.size_of(t)
    } else {
        0
    }
}

/// Whether the type of an operand of `sizeof` is complete; that of a function is not.
fn is_complete_part(scope: &Scope, types: &Types, x: &Part) -> bool
    ensures { result ≡ tests.is_complete_part types.now scope.now.scopes (part_view x.now) }
{
    match x {
        Part::Place(p) => is_complete_at(scope, types, p.get().ty()),
        Part::Value(e) => is_complete_at(scope, types, e.get().ty()) && !is_designator(e.get()),
        Part::Allocation(_) => true,
    }
}

/// The rules of `sizeof`.
fn size_fault(scope: &Scope, types: &Types, at: Place, x: &Part) -> Option<Fault>
    ensures { result ≡ first_broken (tests.size_tests types.now scope.now.scopes at
        (part_view x.now)) }
{
    if is_complete_part(scope, types, x) {
        None
    } else {
        Some(refusal(at, Rule::Incomplete))
    }
}

/// The size of an operand: that of a place as it is, else that of its value.
#[tactic(auto, using(c_tree::proofs::TypedViewLaws::typed_views), unfolding(c_typing::specs::Operations::size_of_part))]
fn size_of_part(
    scope: &mut Scope,
    types: &mut Types,
    at: Place,
    begin: Place,
    x: Part,
) -> Result<Boxed<TypedExpr>, Fault>
    ensures answers { Answers (λ e. tests.AsValue (typed_expr_view e))
        (operations.size_of_part at begin (part_view x) (known types.old scope.old)) result
        (known types.new scope.new) }
    ensures grows { Grows (known types.old scope.old) (known types.new scope.new) }
{
    match x {
        Part::Place(p) => {
            let size = size_at(types, p.get().ty());
            Ok(Boxed::new(scope.alloc(), TypedExpr::SizeOfPlace(at, p, size, SIZE))?)
        }
        _ => {
            let e = value_of(scope, types, begin, x)?;
            let size = size_at(types, e.get().ty());
            Ok(Boxed::new(scope.alloc(), TypedExpr::SizeOfValue(at, e, size, SIZE))?)
        }
    }
}

/// `sizeof` of an expression (C99 6.5.3.4).
#[tactic(auto, unfolding(c_typing::specs::Operations::size, c_typing::specs::Operations::construct, c_typing::specs::Judging::holding))]
pub(crate) fn size(
    scope: &mut Scope,
    types: &mut Types,
    at: Place,
    x: Operand,
) -> Result<Operand, Fault>
    ensures answers { Answers operand_view (operations.size at (operand_view x)
        (known types.old scope.old)) result (known types.new scope.new) }
    ensures grows { Grows (known types.old scope.old) (known types.new scope.new) }
{
    let begin = x.place;
    let fault = size_fault(scope, types, at, &x.part);
    let allowed = allowed(fault, at, x)?;
    let made = size_of_part(scope, types, at, begin, allowed.part)?;
    Ok(Operand {
        part: Part::Value(made),
        place: at,
        held: allowed.held,
    })
}
