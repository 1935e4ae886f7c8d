//! The cured code of the instructions of three-address code. What it is stands in `cure_rules`; here it is made.
#![tactic(auto)]

mod needs;
mod scope;

pub use needs::put_guarded;
pub use scope::{
    ADDRESS, AMOUNT, BASE, BYTES, CHARGE, EIGHT, FIRST, LAST, LEAST, LEAST_FACTOR, MADE, MASK,
    MOVED, NOUGHT, OFFSET, OTHER_WORD, SECOND, SEVEN, SIGNATURE, SIZE, SPAN, SPAN_FACTOR, Scope,
    WORD, column, pointer_slots,
};
