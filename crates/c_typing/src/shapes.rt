//! What types are by their shapes, and which are the same.
#![tactic(auto)]

ghost use Rattle.std.specs.Prelude.{◌≡◌, IfSome, option_copied, option_map};
ghost use Rattle.c_types.specs.Sound.{IsIntegerSize};
ghost use Rattle.c_types.specs.Table.{shape_at, is_aggregate_shape};
ghost use Rattle.c_typing.specs.KindViews.{kind_view, shape_or_void};
ghost use Rattle.c_typing.specs.Scopes.{is_complete_at};
ghost use Rattle.c_typing.specs.Shapes as shapes;
ghost use Rattle.c_typing.specs.Shapes.{integer_at, pointee_at};
ghost use Rattle.c_typing.specs.Tests as tests;

use crate::kind::Kind;
use crate::scope::Scope;
use c_types::{TypeShape, Types};
use cc_base::TypeId;

/// `int`.
pub const INT: TypeId = TypeId(5);

/// The shape of a type. What is no type has none, and is read as `void`.
pub fn shape_at(types: &Types, t: TypeId) -> Option<&TypeShape>
    ensures { shape_or_void (option_copied result) ≡ shape_at types.now t }
{
    if t.0 < types.count() {
        Some(types.shape(t))
    } else {
        None
    }
}

/// An integer type (C99 6.2.5).
pub fn is_integer(shape: Option<&TypeShape>) -> bool
    ensures { result ≡ shapes.is_integer_shape (shape_or_void (option_copied shape.entry)) }
{
    matches!(shape, Some(TypeShape::Integer { .. }))
}

/// A pointer type (C99 6.2.5).
pub fn is_pointer(shape: Option<&TypeShape>) -> bool
    ensures { result ≡ shapes.is_pointer_shape (shape_or_void (option_copied shape.entry)) }
{
    matches!(shape, Some(TypeShape::Pointer(_, _)))
}

/// An integer or a pointer (C99 6.2.5).
pub fn is_scalar(shape: Option<&TypeShape>) -> bool
    ensures { result ≡ shapes.is_scalar_shape (shape_or_void (option_copied shape.entry)) }
{
    matches!(
        shape,
        Some(TypeShape::Integer { .. } | TypeShape::Pointer(_, _))
    )
}

/// `void`, and what is no type.
pub fn is_void(shape: Option<&TypeShape>) -> bool
    ensures { result ≡ shapes.is_void_shape (shape_or_void (option_copied shape.entry)) }
{
    matches!(shape, None | Some(TypeShape::Void))
}

/// A function type (C99 6.2.5).
pub fn is_function(shape: Option<&TypeShape>) -> bool
    ensures { result ≡ shapes.is_function_shape (shape_or_void (option_copied shape.entry)) }
{
    matches!(shape, Some(TypeShape::Function(_, _)))
}

/// A struct or a union.
pub fn is_aggregate(shape: Option<&TypeShape>) -> bool
    ensures { result ≡ is_aggregate_shape (shape_or_void (option_copied shape.entry)) }
{
    matches!(shape, Some(TypeShape::Struct(_) | TypeShape::Union(_)))
}

/// Whether a type is complete at this point of the text.
pub fn is_complete_at(scope: &Scope, types: &Types, t: TypeId) -> bool
    ensures { result ≡ is_complete_at types.now scope.now.scopes t }
{
    match shape_at(types, t) {
        Some(TypeShape::Struct(number) | TypeShape::Union(number)) => {
            scope.has_members(*number as usize)
        }
        None | Some(TypeShape::Void | TypeShape::Function(_, _)) => false,
        Some(_) => true,
    }
}

/// A pointer to what is not complete at this point of the text.
pub fn points_to_incomplete(scope: &Scope, types: &Types, shape: Option<&TypeShape>) -> bool
    ensures { result ≡ tests.points_to_incomplete types.now scope.now.scopes
        (shape_or_void (option_copied shape.entry)) }
{
    match shape {
        Some(TypeShape::Pointer(_, to)) => !is_complete_at(scope, types, *to),
        _ => false,
    }
}

/// A pointer to a function.
fn points_to_function(types: &Types, shape: Option<&TypeShape>) -> bool
    ensures { result ≡ tests.points_to_function types.now
        (shape_or_void (option_copied shape.entry)) }
{
    match shape {
        Some(TypeShape::Pointer(_, to)) => is_function(shape_at(types, *to)),
        _ => false,
    }
}

/// A pointer to `void`, or to a struct or union whose members are not known.
pub fn points_to_open(scope: &Scope, types: &Types, shape: Option<&TypeShape>) -> bool
    ensures { result ≡ tests.points_to_open types.now scope.now.scopes
        (shape_or_void (option_copied shape.entry)) }
{
    points_to_incomplete(scope, types, shape) && !points_to_function(types, shape)
}

/// A pointer and an integer, on either side.
pub fn is_index_pair(a: Option<&TypeShape>, b: Option<&TypeShape>) -> bool
    ensures { result ≡ tests.is_index_pair (shape_or_void (option_copied a.entry))
        (shape_or_void (option_copied b.entry)) }
{
    (is_pointer(a) && is_integer(b)) || (is_integer(a) && is_pointer(b))
}

/// Whether both are integer types.
pub fn are_integers(a: Option<&TypeShape>, b: Option<&TypeShape>) -> bool
    ensures { result ≡ tests.are_integers (shape_or_void (option_copied a.entry))
        (shape_or_void (option_copied b.entry)) }
{
    is_integer(a) && is_integer(b)
}

/// What a pointer may point to that is no function.
pub fn is_data(types: &Types, t: TypeId) -> bool
    ensures { result ≡ shapes.is_data types.now t }
{
    !is_function(shape_at(types, t))
}

/// Whether it is a pointer to what is no function, `void` included.
pub fn point_to_data(types: &Types, shape: Option<&TypeShape>) -> bool
    ensures { result ≡ tests.point_to_data types.now (shape_or_void (option_copied shape.entry)) }
{
    match shape {
        Some(TypeShape::Pointer(_, to)) => is_data(types, *to),
        _ => false,
    }
}

/// What is before a `->` points to what has this shape.
pub fn pointed_shape<'t>(types: &'t Types, shape: Option<&TypeShape>) -> Option<&'t TypeShape>
    ensures { shape_or_void (option_copied result) ≡ tests.pointed_shape types.now
        (shape_or_void (option_copied shape.entry)) }
{
    match shape {
        Some(TypeShape::Pointer(_, to)) => shape_at(types, *to),
        _ => None,
    }
}

/// What a pointer type points to.
pub fn pointee_at(types: &Types, t: TypeId) -> Option<TypeId>
    ensures { result ≡ pointee_at types.now t }
{
    match shape_at(types, t) {
        Some(TypeShape::Pointer(_, to)) => Some(*to),
        _ => None,
    }
}

/// The integer type with a number.
#[tactic(auto, using(crate::proofs::KindLaws::integer_sized))]
pub fn integer_at(types: &Types, t: TypeId) -> Option<Kind>
    ensures kind { option_map kind_view result ≡ integer_at types.now t }
    ensures sized { IfSome result (λ k. IsIntegerSize k.bytes) }
{
    if t.0 >= types.count() {
        return None;
    }
    match types.shape(t) {
        TypeShape::Integer { bytes, signed } => Some(Kind {
            bytes: *bytes,
            signed: *signed,
        }),
        _ => None,
    }
}
