//! Cuts a text into the tokens of C, by C99 6.4: words, numbers, character constants, string
//! literals and punctuators, with their places.
#![tactic(auto)]

mod byte;
mod gap;
mod lexer;
mod literal;
mod number;
mod position;
mod punctuator;
mod step;
mod token;
mod word;

pub use lexer::tokens;
pub use literal::literal_bytes;
pub use number::IntegerType;
pub use position::end_of;
pub use punctuator::Punctuator;
pub use token::{Token, TokenKind};
pub use word::Keyword;
