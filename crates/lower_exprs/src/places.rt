//! What is read off trees and types.
ghost use Rattle.std.specs.Prelude.{◌≡◌, ◌↔◌, IsTrue, IfOk, Some, None, IfSome, IfNone};
ghost use Rattle.integers.specs.Arithmetic as arithmetic;
ghost use Rattle.c_tree.specs.Places.{pieces_place};
ghost use Rattle.c_tree.specs.TypedParts.{pointer_side, type_of, place_at, named_type};
ghost use Rattle.c_tree.specs.TypedViews.{typed_expr_view, typed_place_view, typed_type_name_view};
ghost use Rattle.src_machine.specs.Expressions.{is_through_pointer, is_pointer_shape};
ghost use Rattle.src_mem.specs.Operations.{pointee_at};
ghost use Rattle.lower_rules.specs.Words.{object_in, node_of, is_pointer};
ghost use Rattle.lower_rules.specs.Expressions.{IsFixed, node_in_place};
ghost use Rattle.lower_exprs.specs.Drafts.{context_of};
ghost use Rattle.lower_exprs.specs.Ready.{HasObject, IsNumbered};

use crate::draft::Scope;
use c_tree::{Side, StringPiece, TypedExpr, TypedPlace, TypedTypeName};
use c_types::TypeShape;
use cc_base::{NodeId, Place, TypeId};
use cil_form::{Object, StaticNumber, VariableNumber};

/// The place of the first literal.
fn pieces_place(pieces: &[StringPiece]) -> Place
    ensures { result ≡ pieces_place pieces.now }
{
    match pieces.split_first() {
        Some((piece, _)) => piece.place,
        None => Place { line: 1, col: 1 },
    }
}

/// Where the checks of a place stand.
#[tactic(auto, using(c_tree::proofs::TypedViewLaws::typed_views))]
pub fn place_at(p: &TypedPlace) -> Place
    ensures { result ≡ place_at (typed_place_view p.now) }
{
    match p {
        TypedPlace::Variable(name, _, _) => name.place,
        TypedPlace::String(pieces, _, _) => pieces_place(pieces.as_slice()),
        TypedPlace::ParenPlace(_, p) => place_at(p.get()),
        TypedPlace::Target(at, _, _) => *at,
        TypedPlace::Element(_, _, at, _, _) => *at,
        TypedPlace::Member(_, at, _, _, _, _) => *at,
        TypedPlace::MemberAt(_, at, _, _, _, _) => *at,
        TypedPlace::StructAssign(_, at, _) => *at,
        TypedPlace::StructConditional(_, at, _, _) => *at,
        TypedPlace::StructComma(_, p) => place_at(p.get()),
    }
}

/// The node of a place's address, where it is no choice between structs.
#[tactic(auto, using(c_tree::proofs::TypedViewLaws::typed_views))]
pub(crate) fn node_in_place(k: &Scope<'_>, p: &TypedPlace) -> NodeId
    ensures { result ≡ node_in_place (context_of k.now) (typed_place_view p.now) }
{
    match p {
        TypedPlace::Variable(_, home, _) => *home,
        TypedPlace::String(_, home, _) => *home,
        TypedPlace::ParenPlace(_, p) => node_in_place(k, p.get()),
        TypedPlace::Target(_, e, _) => node_of(k, e.get().ty()),
        TypedPlace::Element(Side::Left, a, _, _, _) => node_of(k, a.get().ty()),
        TypedPlace::Element(Side::Right, _, _, b, _) => node_of(k, b.get().ty()),
        TypedPlace::Member(_, _, _, _, node, _) => *node,
        TypedPlace::MemberAt(_, _, _, _, node, _) => *node,
        TypedPlace::StructAssign(p, _, _) => node_in_place(k, p.get()),
        TypedPlace::StructConditional(_, _, p, _) => node_in_place(k, p.get()),
        TypedPlace::StructComma(_, p) => node_in_place(k, p.get()),
    }
}

/// Whether a place is no choice between structs.
#[tactic(auto, using(c_tree::proofs::TypedViewLaws::typed_views))]
pub(crate) fn is_fixed(p: &TypedPlace) -> bool
    ensures { IsTrue result ↔ IsFixed (typed_place_view p.now) }
{
    match p {
        TypedPlace::Variable(_, _, _) => true,
        TypedPlace::String(_, _, _) => true,
        TypedPlace::ParenPlace(_, p) => is_fixed(p.get()),
        TypedPlace::Target(_, _, _) => true,
        TypedPlace::Element(_, _, _, _, _) => true,
        TypedPlace::Member(_, _, _, _, _, _) => true,
        TypedPlace::MemberAt(_, _, _, _, _, _) => true,
        TypedPlace::StructAssign(p, _, _) => is_fixed(p.get()),
        TypedPlace::StructConditional(_, _, _, _) => false,
        TypedPlace::StructComma(_, p) => is_fixed(p.get()),
    }
}

/// Whether a pointer's operator gives the place.
#[tactic(auto, using(c_tree::proofs::TypedViewLaws::typed_views))]
pub(crate) fn is_through_pointer(p: &TypedPlace) -> bool
    ensures { result ≡ is_through_pointer (typed_place_view p.now) }
{
    match p {
        TypedPlace::Variable(_, _, _) => false,
        TypedPlace::String(_, _, _) => false,
        TypedPlace::ParenPlace(_, p) => is_through_pointer(p.get()),
        TypedPlace::Target(_, _, _) => true,
        TypedPlace::Element(_, _, _, _, _) => true,
        TypedPlace::Member(_, _, _, _, _, _) => false,
        TypedPlace::MemberAt(_, _, _, _, _, _) => false,
        TypedPlace::StructAssign(_, _, _) => false,
        TypedPlace::StructConditional(_, _, _, _) => false,
        TypedPlace::StructComma(_, _) => false,
    }
}

/// The type that a type name names.
#[tactic(auto, using(c_tree::proofs::TypedViewLaws::typed_views))]
pub(crate) fn named_type(name: &TypedTypeName) -> TypeId
    ensures { result ≡ named_type (typed_type_name_view name.now) }
{
    name.ty
}

/// The type of the operand that is the pointer.
pub(crate) fn pointer_type(which: Side, a: &TypedExpr, b: &TypedExpr) -> TypeId
    ensures { result ≡ type_of (pointer_side which (typed_expr_view a.now)
        (typed_expr_view b.now)) }
{
    match which {
        Side::Left => a.ty(),
        Side::Right => b.ty(),
    }
}

/// Whether the values of a type are pointers.
pub(crate) fn is_pointer(k: &Scope<'_>, t: TypeId) -> bool
    ensures { result ≡ is_pointer (context_of k.now) t }
{
    if t.0 < k.types.count() {
        matches!(k.types.shape(t), TypeShape::Pointer(_, _))
    } else {
        false
    }
}

/// The node of a pointer type.
pub(crate) fn node_of(k: &Scope<'_>, t: TypeId) -> NodeId
    ensures { result ≡ node_of (context_of k.now) t }
{
    if t.0 < k.types.count() {
        match k.types.shape(t) {
            TypeShape::Pointer(node, _) => *node,
            _ => NodeId(0),
        }
    } else {
        NodeId(0)
    }
}

/// What a pointer type points to.
pub(crate) fn pointee_of(k: &Scope<'_>, t: TypeId) -> TypeId
    ensures { result ≡ pointee_at k.now.types.now t }
{
    if t.0 < k.types.count() {
        match k.types.shape(t) {
            TypeShape::Pointer(_, to) => *to,
            _ => TypeId(0),
        }
    } else {
        TypeId(0)
    }
}

/// The object with this home.
pub fn object_in(k: &Scope<'_>, home: NodeId) -> Option<Object>
    ensures found { IfSome result (λ o. object_in (context_of k.now) home ≡ Some o) }
    ensures none { IfNone result (HasObject (context_of k.now) home → ⊥) }
{
    match k.variables.get_index_of(&home) {
        Some(i) => {
            if i < 4_294_967_296 {
                Some(Object::Variable(VariableNumber(i as u32)))
            } else {
                None
            }
        }
        None => match k.statics.get_index_of(&home) {
            Some(i) => {
                if i < 4_294_967_296 {
                    Some(Object::Static(StaticNumber(i as u32)))
                } else {
                    None
                }
            }
            None => None,
        },
    }
}
