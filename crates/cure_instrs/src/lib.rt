//! The cured code of the instructions of three-address code. What it is stands in `cure_rules`; here it is made.
#![tactic(auto)]

mod accessing;
mod calculating;
mod held;
mod loading;
mod pieces;
mod reach;
mod setting;
mod storing;

pub use accessing::{PointerType, Reached, pointer_in, put_load, put_store};
pub use calculating::{integer_in, put_calculate, put_compared, put_tested};
pub use held::{Held, Width, held_words, is_wide, is_wide_kind, narrow_of, word_number};
pub use loading::put_words_loaded;
pub use pieces::{put_copies, put_narrowing, put_noughts, put_three, put_two};
pub use reach::{cured_size, reach_of, size_at, source_size, wild_numbers};
pub use setting::{node_of, put_set, start_line};
pub use storing::{
    StorePlaces, home_slot, put_integer_store, put_integer_stored, put_pointer_store,
    put_pointer_stored,
};
