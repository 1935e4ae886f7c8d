//! The shapes of the values of parts (C99 6.3.2.1).
#![tactic(auto)]

ghost use Rattle.std.specs.Prelude.{◌≡◌, option_copied};
ghost use Rattle.c_typing.specs.KindViews.{shape_or_void};
ghost use Rattle.c_check_operators.specs.ShapeViews.{value_shape_view};
ghost use Rattle.c_typing.specs.OperandViews.{part_ref_view};
ghost use Rattle.c_typing.specs.Tests as tests;

use c_types::{TypeShape, Types};
use c_typing::operand::PartRef;
use c_typing::shapes::shape_at;
use cc_base::{NodeId, TypeId};

/// The shape of the value of a part.
#[derive(Drop)]
pub(crate) enum ValueShape<'t> {
    /// The pointer that an array or an allocation is. Its node plays no part.
    Pointer(TypeShape),
    Same(Option<&'t TypeShape>),
}

impl ValueShape<'_> {
    pub(crate) fn get(&self) -> Option<&TypeShape>
        ensures { shape_or_void (option_copied result) ≡ value_shape_view self.now }
    {
        match self {
            ValueShape::Pointer(shape) => Some(shape),
            ValueShape::Same(shape) => *shape,
        }
    }
}

/// The shape of the value of a part: an array is a pointer to its element.
pub(crate) fn shape_of<'t>(types: &'t Types, x: PartRef) -> ValueShape<'t>
    ensures { value_shape_view result ≡ tests.shape_of types.now (part_ref_view x.entry) }
{
    match x {
        PartRef::Place(p) => match shape_at(types, p.ty()) {
            Some(TypeShape::Array(element, _)) => {
                ValueShape::Pointer(TypeShape::Pointer(NodeId(0), *element))
            }
            shape => ValueShape::Same(shape),
        },
        PartRef::Value(e) => ValueShape::Same(shape_at(types, e.ty())),
        PartRef::Allocation(_) => ValueShape::Pointer(TypeShape::Pointer(NodeId(0), TypeId(0))),
    }
}
