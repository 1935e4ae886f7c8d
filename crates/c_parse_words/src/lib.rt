//! What single tokens and rows of words say to the parser of expressions and declarators (C99 6.5, 6.7).
#![tactic(auto)]

pub mod array_words;
pub mod begins;
pub mod cursor;
pub mod fault;
pub mod levels;
pub mod lookahead;
pub mod measured;
pub mod next;
pub mod operators;
pub mod series;
pub mod specifier_words;
pub mod stars;
pub mod stop;
pub mod string_pieces;
pub mod words;
