//! A type with a number.
#![tactic(auto)]

use cc_base::TypeId;

/// A type and a number for it.
#[derive(Clone, Copy)]
pub(crate) struct Numbered {
    pub(crate) ty: TypeId,
    pub(crate) number: usize,
}
