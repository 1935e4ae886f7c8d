//! What the table keeps of each type beside its shape.
#![tactic(auto)]

use crate::layout::Layout;
use cc_base::TypeId;
use std::alloc::AllocError;

/// The place of a member in a struct or a union (C99 6.7.2.1).
#[derive(Clone, Copy, Debug, PartialEq, Eq)]
pub struct FieldPlace {
    /// Where the member begins, in bytes from the start of the object.
    pub offset: u64,
    /// The member's type.
    pub ty: TypeId,
}

/// What the table keeps of a type beside its shape.
pub(crate) struct Kept {
    pub(crate) layout: Layout,
    /// How many pointers an object of the type holds.
    pub(crate) pointers: u64,
    pub(crate) fields: Vec<FieldPlace>,
    /// The first type of the table that is the same type (C99 6.2.7).
    pub(crate) first: TypeId,
}

impl Drop for Kept {
    fn drop(self) {
        let Self {
            layout: _,
            pointers: _,
            fields: _,
            first: _,
        } = self;
    }
}

impl Clone for Kept {
    ghost use Rattle.std.specs.Prelude.{◌≡◌};

    ghost is_clone = { λ x y. (y.layout ≡ x.layout) × (y.pointers ≡ x.pointers) × (y.fields.items ≡ x.fields.items) × (y.first ≡ x.first) };

    fn clone(&self) -> Result<Kept, AllocError> {
        Ok(Kept {
            layout: self.layout,
            pointers: self.pointers,
            fields: Vec::from_slice(*self.fields.allocator(), &self.fields)?,
            first: self.first,
        })
    }
}
