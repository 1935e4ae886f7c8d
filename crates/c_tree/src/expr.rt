//! Expressions, and what they hold of declarations: type names, specifiers, members, enumerators,
//! declarators and parameters.
use crate::boxed::Boxed;
use crate::items::Items;
use crate::leaf::{Identifier, Star, StringPiece, Word};
use crate::operator::{AggregateKind, Assignment, Binary, MemberOperator, Step, Unary};
use c_lexer::IntegerType;
use cc_base::Place;

/// An expression (C99 6.5). Each place is that of the token named beside it.
#[cycle(expressions)]
pub enum Expr {
    Name(Identifier),
    /// An integer constant: its type and its value.
    Integer(IntegerType, u64, Place),
    /// A character constant: its value as an int.
    Character(i32, Place),
    /// Adjacent string literals, at least one.
    String(Items<StringPiece>),
    /// The `(`, and what stands in the parentheses.
    Paren(Place, Boxed<Expr>),
    /// The array, the `[` and the index.
    Index(Boxed<Expr>, Place, Boxed<Expr>),
    /// The function, the `(` and the arguments.
    Call(Boxed<Expr>, Place, Items<Expr>),
    /// The struct or union, or the pointer to one; the operator; the member.
    Member(Boxed<Expr>, MemberOperator, Place, Boxed<Identifier>),
    /// `++` or `--` after its operand.
    Postfix(Boxed<Expr>, Step, Place),
    Prefix(Unary, Place, Boxed<Expr>),
    /// The `sizeof`, the `(` and the type.
    SizeOfType(Place, Place, Boxed<TypeName>),
    /// The `(`, the type and the operand.
    Cast(Place, Boxed<TypeName>, Boxed<Expr>),
    /// The left side, the operator's place and the right side.
    Infix(Binary, Boxed<Expr>, Place, Boxed<Expr>),
    /// The condition, the `?`, the value where it holds and the value where not.
    Conditional(Boxed<Expr>, Place, Boxed<Expr>, Boxed<Expr>),
    /// The left side, the operator's place and the right side.
    Assign(Assignment, Boxed<Expr>, Place, Boxed<Expr>),
    Comma(Boxed<Expr>, Boxed<Expr>),
}

impl Drop for Expr {
    #[cycle(expr_drops)]
    fn drop(self) {
        match self {
            Self::Name(_)
            | Self::Integer(_, _, _)
            | Self::Character(_, _)
            | Self::String(_)
            | Self::Paren(_, _)
            | Self::Index(_, _, _)
            | Self::Call(_, _, _)
            | Self::Member(_, _, _, _)
            | Self::Postfix(_, _, _)
            | Self::Prefix(_, _, _)
            | Self::SizeOfType(_, _, _)
            | Self::Cast(_, _, _)
            | Self::Infix(_, _, _, _)
            | Self::Conditional(_, _, _, _)
            | Self::Assign(_, _, _, _)
            | Self::Comma(_, _) => {}
        }
    }
}

/// A type in a cast or in `sizeof` (C99 6.7.6): a declaration without a name.
#[cycle(expressions)]
pub struct TypeName {
    pub specifiers: Specifiers,
    pub declarator: Option<Declarator>,
}

impl Drop for TypeName {
    #[cycle(expr_drops)]
    fn drop(self) {
        let Self {
            specifiers: _,
            declarator: _,
        } = self;
    }
}

/// Storage words, qualifiers and type words in the order of the text.
#[cycle(expressions)]
pub struct Specifiers {
    pub list: Items<Specifier>,
}

impl Drop for Specifiers {
    #[cycle(expr_drops)]
    fn drop(self) {
        let Self { list: _ } = self;
    }
}

#[cycle(expressions)]
pub enum Specifier {
    /// A storage word, a qualifier, `inline`, or a word for a type.
    Keyword(Word),
    /// The name of a type that a typedef declared.
    Typedef(Identifier),
    /// `struct` or `union` with its place, and the tag.
    Tagged(AggregateKind, Place, Identifier),
    /// `struct` or `union` with its place, the tag, the `{` and the rows of members.
    Aggregate(AggregateKind, Place, Option<Identifier>, Place, Items<Members>),
    /// `enum` and the tag.
    Enum(Place, Identifier),
    /// `enum`, the tag, the `{`, the enumerators, and whether a comma stands after the last.
    Enumeration(Place, Option<Identifier>, Place, Items<Enumerator>, bool),
}

impl Drop for Specifier {
    #[cycle(expr_drops)]
    fn drop(self) {
        match self {
            Self::Keyword(_)
            | Self::Typedef(_)
            | Self::Tagged(_, _, _)
            | Self::Aggregate(_, _, _, _, _)
            | Self::Enum(_, _)
            | Self::Enumeration(_, _, _, _, _) => {}
        }
    }
}

/// One row of members: `specifiers declarators ;`.
#[cycle(expressions)]
pub struct Members {
    pub specifiers: Specifiers,
    pub declarators: Items<Declarator>,
}

impl Drop for Members {
    #[cycle(expr_drops)]
    fn drop(self) {
        let Self {
            specifiers: _,
            declarators: _,
        } = self;
    }
}

#[cycle(expressions)]
pub enum Enumerator {
    Plain(Identifier),
    /// The name, the `=` and the value.
    Valued(Identifier, Place, Expr),
}

impl Drop for Enumerator {
    #[cycle(expr_drops)]
    fn drop(self) {
        match self {
            Self::Plain(_) | Self::Valued(_, _, _) => {}
        }
    }
}

/// Stars, then a name, nothing or a declarator in parentheses, then array and function parts.
#[cycle(expressions)]
pub struct Declarator {
    pub stars: Items<Star>,
    pub core: Core,
    pub parts: Items<Part>,
}

impl Drop for Declarator {
    #[cycle(expr_drops)]
    fn drop(self) {
        let Self {
            stars: _,
            core: _,
            parts: _,
        } = self;
    }
}

#[cycle(expressions)]
pub enum Core {
    Names(Identifier),
    Unnamed,
    /// The `(` and the declarator in the parentheses.
    Nested(Place, Boxed<Declarator>),
}

impl Drop for Core {
    #[cycle(expr_drops)]
    fn drop(self) {
        match self {
            Self::Names(_) | Self::Unnamed | Self::Nested(_, _) => {}
        }
    }
}

#[cycle(expressions)]
pub enum Part {
    /// The `[`, `static` and qualifiers, and the size.
    Array(Place, Items<Word>, Option<Expr>),
    /// The `(` and the parameters. `()` has none, `(void)` has one.
    Function(Place, Items<Parameter>),
}

impl Drop for Part {
    #[cycle(expr_drops)]
    fn drop(self) {
        match self {
            Self::Array(_, _, _) | Self::Function(_, _) => {}
        }
    }
}

#[cycle(expressions)]
pub struct Parameter {
    pub specifiers: Specifiers,
    pub declarator: Option<Declarator>,
}

impl Drop for Parameter {
    #[cycle(expr_drops)]
    fn drop(self) {
        let Self {
            specifiers: _,
            declarator: _,
        } = self;
    }
}
