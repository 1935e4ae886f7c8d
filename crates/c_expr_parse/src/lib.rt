//! Parses expressions, specifiers and declarators (C99 6.5, 6.7).
#![tactic(auto)]

mod arguments;
mod assignment;
mod boxing;
mod calls;
mod declarator_layer;
mod enumerator_list;
mod expression;
mod grammar;
mod infix;
mod initialiser;
mod initialiser_list;
mod laws;
mod member_rows;
mod nesting;
mod operand;
mod parameter_list;
mod part_list;
mod postfix;
mod specifier_list;
mod type_name;

pub use calls::{Level, parse_declarator, parse_expr, parse_specifiers};
pub use initialiser::read_initialiser;
pub use laws::{
    declarators_are_answered_once, declarators_are_spelled_once, expressions_are_answered_once,
    expressions_are_spelled_once, initialisers_are_answered_once, initialisers_are_spelled_once,
    specifiers_are_answered_once, specifiers_are_spelled_once,
};
pub use nesting::{read_declarator, read_expr, read_specifiers};
