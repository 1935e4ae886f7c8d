//! Types that expressions make, and the values of places (C99 6.3.2.1).
#![tactic(auto)]

ghost use Rattle.std.specs.Prelude.{◌≡◌, ◌<◌, ◌≤◌, length, None, IfSome, IfOk};
ghost use Rattle.c_types.specs.Table.{shape_at};
ghost use Rattle.c_tree.specs.TypedParts.{place_type};
ghost use Rattle.c_types.specs.Calls.{IsAddable};
ghost use Rattle.c_tree.specs.TypedViews.{typed_expr_view, typed_place_view};
ghost use Rattle.c_typing.specs.Growing.{Grows};
ghost use Rattle.c_typing.specs.Judging.{Answers, known};
ghost use Rattle.c_typing.specs.Judging as judging;
ghost use Rattle.c_typing.specs.Operands as operands;
ghost use Rattle.c_typing.specs.OperandViews.{part_view, operand_view, value_view, pointing_view};

use crate::operand::{Operand, Part, Pointing, Value};
use crate::scope::Scope;
use crate::shapes::shape_at;
use crate::stops::no_room;
use c_tree::{Boxed, TypedExpr, TypedPlace};
use c_types::{TypeFault, TypeShape, Types};
use cc_base::{Fault, NoMemory, NodeId, Place, TypeId};

/// The type with a shape, which is added where there is none.
pub fn type_with(
    scope: &Scope,
    types: &mut Types,
    at: Place,
    shape: TypeShape,
) -> Result<TypeId, Fault>
    requires { IsAddable types.old shape }
    ensures answers { Answers (λ t. t) (judging.type_with at shape (known types.old scope.now))
        result (known types.new scope.now) }
    ensures grows { Grows (known types.old scope.now) (known types.new scope.now) }
{
    match types.add(shape) {
        Ok(t) => Ok(t),
        Err(TypeFault::TooLarge(limit)) => Err(Fault::TooLarge { place: at, limit }),
        Err(TypeFault::NoMemory) => Err(Fault::NoMemory),
    }
}

/// The pointer type with a node to a type.
#[tactic(auto, unfolding(crate::specs::Judging::pointer_type))]
pub fn pointer_type(
    scope: &Scope,
    types: &mut Types,
    at: Place,
    node: NodeId,
    to: TypeId,
) -> Result<TypeId, Fault>
    ensures answers { Answers (λ t. t) (judging.pointer_type at node to (known types.old scope.now))
        result (known types.new scope.now) }
    ensures grows { Grows (known types.old scope.now) (known types.new scope.now) }
{
    if to.0 >= types.count() {
        return Err(no_room(at));
    }
    type_with(scope, types, at, TypeShape::Pointer(node, to))
}

/// A pointer type with a node of its own.
#[tactic(auto, unfolding(crate::specs::Judging::new_pointer, crate::specs::Judging::new_node))]
pub fn new_pointer(
    scope: &mut Scope,
    types: &mut Types,
    at: Place,
    to: TypeId,
) -> Result<Pointing, Fault>
    ensures answers { Answers pointing_view (judging.new_pointer at to (known types.old scope.old))
        result (known types.new scope.new) }
    ensures grows { Grows (known types.old scope.old) (known types.new scope.new) }
{
    let Some(node) = scope.new_node() else {
        return Err(no_room(at));
    };
    let ty = pointer_type(scope, types, at, node, to)?;
    Ok(Pointing { node, ty })
}

/// An allocation that nothing takes over is of raw bytes.
#[tactic(auto, using(c_tree::proofs::TypedViewLaws::typed_views))]
fn made_raw(
    scope: &Scope,
    pointing: Pointing,
    e: Boxed<TypedExpr>,
) -> Result<Boxed<TypedExpr>, NoMemory>
    ensures { IfOk result (λ made. typed_expr_view made
        ≡ operands.made_raw pointing.node pointing.ty (typed_expr_view e)) }
{
    let made = match e.into_inner() {
        TypedExpr::Paren(at, inner) => TypedExpr::Paren(at, made_raw(scope, pointing, inner)?),
        TypedExpr::AllocateFor(function, f, at, arguments, _) => {
            TypedExpr::Allocate(function, f, at, arguments, pointing.node, pointing.ty)
        }
        other => other,
    };
    Ok(Boxed::new(scope.alloc(), made)?)
}

/// How the value of a place is taken, by its type.
#[derive(Clone, Copy)]
pub enum Reading {
    /// It is the address of the first element, of this type.
    Decays(TypeId),
    Reads,
    /// A struct or union is not read.
    Stays,
    /// No place has the type.
    Nothing,
}

fn reading_at(types: &Types, t: TypeId) -> Reading
    ensures { result ≡ operands.reading_of (shape_at types.now t) }
{
    match shape_at(types, t) {
        Some(TypeShape::Array(element, _)) => Reading::Decays(*element),
        Some(TypeShape::Integer { .. } | TypeShape::Pointer(_, _)) => Reading::Reads,
        Some(TypeShape::Struct(_) | TypeShape::Union(_)) => Reading::Stays,
        _ => Reading::Nothing,
    }
}

/// The value of a place: an array's is its address.
#[tactic(auto, using(c_tree::proofs::TypedViewLaws::typed_views), unfolding(crate::specs::Operands::place_value))]
fn place_value(
    scope: &mut Scope,
    types: &mut Types,
    at: Place,
    p: Boxed<TypedPlace>,
) -> Result<Boxed<TypedExpr>, Fault>
    ensures answers { Answers typed_expr_view (operands.place_value at (typed_place_view p)
        (operands.reading_of (shape_at types.old (place_type (typed_place_view p))))
        (known types.old scope.old)) result (known types.new scope.new) }
    ensures grows { Grows (known types.old scope.old) (known types.new scope.new) }
{
    let alloc = scope.alloc();
    match reading_at(types, p.get().ty()) {
        Reading::Decays(element) => {
            let made = new_pointer(scope, types, at, element)?;
            Ok(Boxed::new(alloc, TypedExpr::Decay(p, made.node, made.ty))?)
        }
        Reading::Reads => Ok(Boxed::new(alloc, TypedExpr::Read(p))?),
        Reading::Stays => Ok(Boxed::new(alloc, TypedExpr::Unread(p))?),
        // no place has the type
        Reading::Nothing => Err(no_room(at)),
    }
}

/// An allocation that nothing takes over, with a node of its own.
#[tactic(auto, unfolding(crate::specs::Operands::raw_value))]
pub fn raw_value(
    scope: &mut Scope,
    types: &mut Types,
    at: Place,
    e: Boxed<TypedExpr>,
) -> Result<Boxed<TypedExpr>, Fault>
    ensures answers { Answers typed_expr_view (operands.raw_value at (typed_expr_view e)
        (known types.old scope.old)) result (known types.new scope.new) }
    ensures grows { Grows (known types.old scope.old) (known types.new scope.new) }
{
    let made = new_pointer(scope, types, at, TypeId(0))?;
    Ok(made_raw(scope, made, e)?)
}

/// The value of a part whose first token has the place (C99 6.3.2.1).
#[tactic(auto, unfolding(crate::specs::Operands::value_of))]
pub fn value_of(
    scope: &mut Scope,
    types: &mut Types,
    at: Place,
    part: Part,
) -> Result<Boxed<TypedExpr>, Fault>
    ensures answers { Answers typed_expr_view (operands.value_of at (part_view part)
        (known types.old scope.old)) result (known types.new scope.new) }
    ensures grows { Grows (known types.old scope.old) (known types.new scope.new) }
{
    match part {
        Part::Place(p) => place_value(scope, types, at, p),
        Part::Value(e) => Ok(e),
        Part::Allocation(e) => raw_value(scope, types, at, e),
    }
}

/// The value of an operand (C99 6.3.2.1).
#[tactic(auto, unfolding(crate::specs::Operands::value))]
pub fn value(scope: &mut Scope, types: &mut Types, x: Operand) -> Result<Value, Fault>
    ensures answers { Answers value_view (operands.value (operand_view x)
        (known types.old scope.old)) result (known types.new scope.new) }
    ensures grows { Grows (known types.old scope.old) (known types.new scope.new) }
{
    let Operand { part, place, held } = x;
    let expr = value_of(scope, types, place, part)?;
    Ok(Value { expr, place, held })
}

/// An allocation for what a pointer type points to.
#[tactic(auto, using(c_tree::proofs::TypedViewLaws::typed_views))]
pub fn made_for(scope: &Scope, t: TypeId, e: Boxed<TypedExpr>) -> Result<Boxed<TypedExpr>, NoMemory>
    ensures { IfOk result (λ made. typed_expr_view made ≡ operands.made_for t (typed_expr_view e)) }
{
    let made = match e.into_inner() {
        TypedExpr::Paren(at, inner) => TypedExpr::Paren(at, made_for(scope, t, inner)?),
        TypedExpr::AllocateFor(function, f, at, arguments, _) => {
            TypedExpr::AllocateFor(function, f, at, arguments, t)
        }
        other => other,
    };
    Ok(Boxed::new(scope.alloc(), made)?)
}

/// A value where a struct may stand: a struct that is not read is the place that it is.
#[tactic(auto, using(c_tree::proofs::TypedViewLaws::typed_views))]
pub fn side_of(e: Boxed<TypedExpr>) -> Part
    ensures { part_view result ≡ operands.side_of (typed_expr_view e) }
{
    if !matches!(e.get(), TypedExpr::Unread(_)) {
        return Part::Value(e);
    }
    let TypedExpr::Unread(p) = e.into_inner() else {
        unreachable!()
    };
    Part::Place(p)
}
