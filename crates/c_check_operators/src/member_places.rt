//! Members of structs and unions (C99 6.5.2.3).
#![tactic(auto)]

ghost use Rattle.std.specs.Prelude.{◌≡◌, IfOk, option_copied};
ghost use Rattle.c_types.specs.Layouts.{member_at};
ghost use Rattle.c_tree.specs.TypedParts.{type_of};
ghost use Rattle.c_tree.specs.TypedTree as typed;
ghost use Rattle.c_tree.specs.TypedViews.{typed_expr_view, typed_place_view};
ghost use Rattle.c_typing.specs.Growing.{Grows};
ghost use Rattle.c_typing.specs.Judging.{Answers, known};
ghost use Rattle.c_typing.specs.KindViews.{shape_or_void};
ghost use Rattle.c_check_operators.specs.MemberViews.{found_view};
ghost use Rattle.c_typing.specs.Operations as operations;
ghost use Rattle.c_typing.specs.OperandViews.{part_view, operand_view, value_view, part_ref_view};
ghost use Rattle.c_typing.specs.Rules.{number_of_shape};
ghost use Rattle.c_typing.specs.Shapes.{pointee_at};
ghost use Rattle.c_typing.specs.Tests as tests;
ghost use Rattle.c_typing.specs.Tests.{first_broken, AsPlace};
ghost use Rattle.c_types.specs.Table.{shape_at};

use crate::allowed::allowed;
use crate::value_shape::shape_of;
use c_tree::{Boxed, Identifier, TypedExpr, TypedPlace};
use c_types::{TypeShape, Types};
use c_typing::construct::{held_with_one, holding};
use c_typing::copies::copied_name;
use c_typing::operand::{Operand, Part, PartRef, Value};
use c_typing::scope::Scope;
use c_typing::shapes::{is_aggregate, pointed_shape, pointee_at, shape_at};
use c_typing::stops::{no_room, refusal};
use cc_base::{Fault, NoMemory, NodeId, Place, Rule, TypeId};

/// The number of a member, and a node for its place.
#[derive(Clone, Copy)]
pub(crate) struct FoundMember {
    pub(crate) member: u32,
    pub(crate) node: NodeId,
}

/// The place of a member by its name, in what has this shape.
fn named_member(scope: &Scope, shape: Option<&TypeShape>, name: &[u8]) -> Option<usize>
    ensures { result ≡ operations.named_member scope.now.scopes
        (shape_or_void (option_copied shape.entry)) name.now }
{
    match shape {
        Some(TypeShape::Struct(number) | TypeShape::Union(number)) => {
            scope.member(*number as usize, name)
        }
        _ => None,
    }
}

/// Whether a struct or union with this shape has the member.
fn names_member(scope: &Scope, shape: Option<&TypeShape>, name: &[u8]) -> bool
    ensures { result ≡ tests.names_member scope.now.scopes
        (number_of_shape (shape_or_void (option_copied shape.entry))) name.now }
{
    match shape {
        Some(TypeShape::Struct(number) | TypeShape::Union(number)) => {
            matches!(scope.member(*number as usize, name), Some(_))
        }
        _ => false,
    }
}

/// The rules of `.` and `->`, by the shape of what has the member.
fn member_fault(
    scope: &Scope,
    shape: Option<&TypeShape>,
    at: Place,
    name: &Identifier,
) -> Option<Fault>
    ensures { result ≡ first_broken (tests.member_tests scope.now.scopes
        (shape_or_void (option_copied shape.entry)) at name.now.bytes name.now.place) }
{
    let aggregate = is_aggregate(shape);
    if aggregate && !names_member(scope, shape, name.bytes.as_slice()) {
        return Some(refusal(name.place, Rule::UnknownName));
    }
    if !aggregate {
        return Some(refusal(at, Rule::Mismatch));
    }
    None
}

/// A place in a list that 32 bits can number.
#[tactic(auto, unfolding(c_typing::specs::Operations::numbered))]
pub(crate) fn numbered(
    scope: &Scope,
    types: &Types,
    at: Place,
    place: Option<usize>,
) -> Result<u32, Fault>
    ensures { Answers (λ i. i) (operations.numbered at place (known types.now scope.now)) result
        (known types.now scope.now) }
{
    match place {
        Some(i) => {
            if i < 4_294_967_296 {
                Ok(i as u32)
            } else {
                Err(no_room(at))
            }
        }
        None => Err(no_room(at)),
    }
}

/// The number of a member, and a node for its place.
#[tactic(auto, using(c_typing::proofs::GrowingLaws::grown), unfolding(c_typing::specs::Operations::found, c_typing::specs::Judging::new_node))]
fn found(
    scope: &mut Scope,
    types: &Types,
    begin: Place,
    whole: TypeId,
    name: &Identifier,
) -> Result<FoundMember, Fault>
    ensures answers { Answers found_view (operations.found begin (shape_at types.now whole) name.now
        (known types.now scope.old)) result (known types.now scope.new) }
    ensures grows { Grows (known types.now scope.old) (known types.now scope.new) }
{
    let place = named_member(scope, shape_at(types, whole), name.bytes.as_slice());
    let member = numbered(scope, types, begin, place)?;
    let Some(node) = scope.new_node() else {
        return Err(no_room(begin));
    };
    Ok(FoundMember { member, node })
}

/// The type of a member by its number.
#[tactic(auto, using(crate::proofs::MemberLaws::no_type, crate::proofs::MemberLaws::no_member, crate::proofs::MemberLaws::no_such_member))]
fn member_at(types: &Types, t: TypeId, i: u32) -> TypeId
    ensures { result ≡ member_at types.now t i }
{
    if t.0 >= types.count() {
        return t;
    }
    if !is_aggregate(Some(types.shape(t))) {
        return t;
    }
    if i as usize >= types.fields(t) {
        return t;
    }
    types.field(t, i as usize).ty
}

/// The place of a member that was found, in a place.
#[tactic(auto, using(c_tree::proofs::TypedViewLaws::typed_views))]
fn place_in(
    scope: &Scope,
    p: Boxed<TypedPlace>,
    at: Place,
    name: &Identifier,
    found: FoundMember,
    t: TypeId,
) -> Result<Boxed<TypedPlace>, NoMemory>
    ensures { IfOk result (λ made. typed_place_view made
        ≡ typed.Member (typed_place_view p) at name.now found.member found.node t) }
{
    let alloc = scope.alloc();
    let name = Boxed::new(alloc, copied_name(alloc, name)?)?;
    Ok(Boxed::new(
        scope.alloc(),
        TypedPlace::Member(p, at, name, found.member, found.node, t),
    )?)
}

/// A member of a place.
#[tactic(auto, unfolding(c_typing::specs::Operations::member_of))]
fn member_of_place(
    scope: &mut Scope,
    types: &Types,
    begin: Place,
    at: Place,
    name: &Identifier,
    p: Boxed<TypedPlace>,
) -> Result<Part, Fault>
    ensures answers { Answers part_view (operations.member_of begin at name.now
        (AsPlace (typed_place_view p)) (known types.now scope.old)) result
        (known types.now scope.new) }
    ensures grows { Grows (known types.now scope.old) (known types.now scope.new) }
{
    let whole = p.get().ty();
    let i = found(scope, types, begin, whole, name)?;
    let t = member_at(types, whole, i.member);
    Ok(Part::Place(place_in(scope, p, at, name, i, t)?))
}

/// A member of a part, which is a place.
#[tactic(auto, unfolding(c_typing::specs::Operations::member_of))]
fn member_of(
    scope: &mut Scope,
    types: &Types,
    begin: Place,
    at: Place,
    name: &Identifier,
    x: Part,
) -> Result<Part, Fault>
    ensures answers { Answers part_view (operations.member_of begin at name.now (part_view x)
        (known types.now scope.old)) result (known types.now scope.new) }
    ensures grows { Grows (known types.now scope.old) (known types.now scope.new) }
{
    match x {
        Part::Place(p) => member_of_place(scope, types, begin, at, name, p),
        _ => Err(no_room(begin)),
    }
}

/// The rules of `.`.
fn part_fault(
    scope: &Scope,
    types: &Types,
    x: PartRef,
    at: Place,
    name: &Identifier,
) -> Option<Fault>
    ensures { result ≡ first_broken (tests.member_tests scope.now.scopes
        (tests.shape_of types.now (part_ref_view x.entry)) at name.now.bytes name.now.place) }
{
    let shape = shape_of(types, x);
    member_fault(scope, shape.get(), at, name)
}

/// `.` (C99 6.5.2.3).
#[tactic(auto, unfolding(c_typing::specs::Operations::member, c_typing::specs::Operations::construct, c_typing::specs::Judging::holding))]
pub fn member(
    scope: &mut Scope,
    types: &Types,
    x: Operand,
    at: Place,
    name: &Identifier,
) -> Result<Operand, Fault>
    ensures answers { Answers operand_view (operations.member (operand_view x) at name.now
        (known types.now scope.old)) result (known types.now scope.new) }
    ensures grows { Grows (known types.now scope.old) (known types.now scope.new) }
{
    let place = x.place;
    let fault = part_fault(scope, types, x.part.as_ref(), at, name);
    let allowed = allowed(fault, place, x)?;
    let part = member_of(scope, types, place, at, name, allowed.part)?;
    Ok(Operand {
        part,
        place,
        held: allowed.held,
    })
}

/// The rules of `->`.
fn value_fault(
    scope: &Scope,
    types: &Types,
    e: &TypedExpr,
    at: Place,
    name: &Identifier,
) -> Option<Fault>
    ensures { result ≡ first_broken (tests.member_tests scope.now.scopes
        (tests.pointed_shape types.now (shape_at types.now (type_of (typed_expr_view e.now)))) at
        name.now.bytes name.now.place) }
{
    let shape = pointed_shape(types, shape_at(types, e.ty()));
    member_fault(scope, shape, at, name)
}

/// The place of a member that was found, in what a pointer points to.
#[tactic(auto, using(c_tree::proofs::TypedViewLaws::typed_views))]
fn place_behind(
    scope: &Scope,
    e: Boxed<TypedExpr>,
    at: Place,
    name: &Identifier,
    found: FoundMember,
    t: TypeId,
) -> Result<Boxed<TypedPlace>, NoMemory>
    ensures { IfOk result (λ made. typed_place_view made
        ≡ typed.MemberAt (typed_expr_view e) at name.now found.member found.node t) }
{
    let alloc = scope.alloc();
    let name = Boxed::new(alloc, copied_name(alloc, name)?)?;
    Ok(Boxed::new(
        scope.alloc(),
        TypedPlace::MemberAt(e, at, name, found.member, found.node, t),
    )?)
}

/// A member of what a pointer points to.
#[tactic(auto, unfolding(c_typing::specs::Operations::member_at_pointer))]
fn member_at_pointer(
    scope: &mut Scope,
    types: &Types,
    begin: Place,
    at: Place,
    name: &Identifier,
    e: Boxed<TypedExpr>,
) -> Result<Part, Fault>
    ensures answers { Answers part_view (operations.member_at_pointer begin at name.now
        (typed_expr_view e) (pointee_at types.now (type_of (typed_expr_view e)))
        (known types.now scope.old)) result (known types.now scope.new) }
    ensures grows { Grows (known types.now scope.old) (known types.now scope.new) }
{
    let Some(whole) = pointee_at(types, e.get().ty()) else {
        return Err(no_room(begin));
    };
    let i = found(scope, types, begin, whole, name)?;
    let t = member_at(types, whole, i.member);
    Ok(Part::Place(place_behind(scope, e, at, name, i, t)?))
}

/// `->` (C99 6.5.2.3).
#[tactic(auto, unfolding(c_typing::specs::Operations::pointed_member, c_typing::specs::Operations::construct, c_typing::specs::Judging::holding))]
pub fn pointed_member(
    scope: &mut Scope,
    types: &Types,
    v: Value,
    at: Place,
    name: &Identifier,
) -> Result<Operand, Fault>
    ensures answers { Answers operand_view (operations.pointed_member (value_view v) at name.now
        (known types.now scope.old)) result (known types.now scope.new) }
    ensures grows { Grows (known types.now scope.old) (known types.now scope.new) }
{
    if let Some(fault) = value_fault(scope, types, v.expr.get(), at, name) {
        return Err(fault);
    }
    let place = v.place;
    let held = holding(place, held_with_one(v.held))?;
    let part = member_at_pointer(scope, types, place, at, name, v.expr)?;
    Ok(Operand { part, place, held })
}
