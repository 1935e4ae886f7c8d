//! What a cured program is made of besides the code of its functions: signatures, the areas of objects, what frames are charged, and
//! globals (CCured, TOPLAS 2005).
#![tactic(auto)]

mod areas;
mod frames;
mod function_types;
mod globals;
mod words;

pub use areas::{area_of, areas_of};
pub use frames::{charge_of, variables};
pub use function_types::{Signatures, signatures_of};
pub use globals::{addresses, globals_of};
pub use words::{words_in, words_of_kind};
