//! The tree of a unit of C, with its parentheses kept: what the parser gives and the checker reads.
#![tactic(auto)]

mod boxed;
mod expr;
mod items;
mod leaf;
mod literal;
mod operator;
mod place;
mod statement;
mod typed_expr;
mod typed_statement;
mod typed_type;
mod typed_unit;
mod typed_word;

pub use boxed::Boxed;
pub use expr::{
    Core, Declarator, Enumerator, Expr, Members, Parameter, Part, Specifier, Specifiers, TypeName,
};
pub use items::Items;
pub use leaf::{Identifier, Separator, Star, StringPiece, Word};
pub use literal::{copied_pieces, pieces_bytes};
pub use operator::{AggregateKind, Assignment, Binary, MemberOperator, Step, Unary};
pub use statement::{
    BlockItem, Declaration, External, FunctionDefinition, InitDeclarator, Initialiser, Statement,
    Unit,
};
pub use typed_expr::{
    TypedCore, TypedDeclarator, TypedEnumerator, TypedExpr, TypedForm, TypedMembers,
    TypedParameter, TypedPart, TypedPlace, TypedSpecifier, TypedSpecifiers, TypedTypeName,
};
pub use typed_statement::{
    TypedBlockItem, TypedDeclaration, TypedExternal, TypedFunction, TypedInitDeclarator,
    TypedInitialiser, TypedItem, TypedStatement, TypedUnit,
};
pub use typed_unit::{Printed, Typed};
pub use typed_word::{Adjusted, Conversion, Home, Runtime, Side, TypedStar};
