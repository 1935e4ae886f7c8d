//! What a unit asks of its expressions, specifiers and declarators, and what each answer means (C99 6.5, 6.7).
#![tactic(auto)]

mod calls;
mod definitions;

pub use c_check_declarators::{homes, places};
pub use c_typing::level::Level;
pub use c_typing::{Declared, Naming, Scope, Tag};
pub use calls::{
    check_constant, check_declarator, check_definition, check_expr, check_specifiers, check_value,
};
