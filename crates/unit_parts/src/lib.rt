//! What a typed unit is made of beside its code: the objects that live as long as the program, the local variables of its functions, and the
//! sites that its parts ask.
#![tactic(auto)]

mod asking;
mod collected;
mod literals;
mod walk;

pub use asking::{ask, ask_links, ask_nothing};
pub use collected::{Collected, Scope};
pub use literals::keep;
pub use walk::{declarator, expr, place, specifiers};
