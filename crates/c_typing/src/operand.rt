//! Parts of an expression as they were judged.
#![tactic(auto)]

ghost use Rattle.std.specs.Prelude.{◌≡◌};
ghost use Rattle.c_typing.specs.OperandViews.{part_view, part_ref_view};

use c_tree::{Boxed, TypedExpr, TypedPlace};
use cc_base::{NodeId, Place, TypeId};

/// A part as its own rules leave it, before what is around it reads it or converts it.
#[derive(Drop)]
pub enum Part {
    Place(Boxed<TypedPlace>),
    Value(Boxed<TypedExpr>),
    /// An allocation, which is a `void *` until something takes it over.
    Allocation(Boxed<TypedExpr>),
}

/// A part that is looked at.
#[derive(Clone, Copy)]
pub enum PartRef<'e> {
    Place(&'e TypedPlace),
    Value(&'e TypedExpr),
    Allocation(&'e TypedExpr),
}

impl Part {
    /// The part, looked at.
    pub fn as_ref(&self) -> PartRef<'_>
        ensures { part_ref_view result ≡ part_view self.now }
    {
        match self {
            Part::Place(p) => PartRef::Place(p.get()),
            Part::Value(e) => PartRef::Value(e.get()),
            Part::Allocation(e) => PartRef::Allocation(e.get()),
        }
    }
}

/// A part, the place of its first token, and how many values it holds at once.
#[derive(Drop)]
pub struct Operand {
    pub part: Part,
    pub place: Place,
    pub held: u32,
}

/// The value of an operand.
#[derive(Drop)]
pub struct Value {
    pub expr: Boxed<TypedExpr>,
    pub place: Place,
    pub held: u32,
}

/// A node and the pointer type that has it.
#[derive(Clone, Copy)]
pub struct Pointing {
    pub node: NodeId,
    pub ty: TypeId,
}
