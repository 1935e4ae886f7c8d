//! The cured code of pointer arithmetic, comparisons of pointers, and addresses of parts.
#![tactic(auto)]

mod addresses;
mod comparing;
mod moving;
mod parts;

pub use addresses::{ArrayAt, MemberOf, put_address, put_decay, put_member, put_null};
pub use comparing::{Pointers, put_compare, put_difference};
pub use moving::{Moving, put_move};
pub use parts::{Outer, Part, put_part, put_part_of};
