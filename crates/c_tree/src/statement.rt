//! Declarations, statements and units.
use crate::boxed::Boxed;
use crate::expr::{Declarator, Expr, Specifiers};
use crate::items::Items;
use cc_base::Place;

/// An initialiser (C99 6.7.8).
pub enum Initialiser {
    Value(Expr),
    /// The `{`, the items, at least one, and whether a comma stands after the last.
    Listed(Place, Items<Initialiser>, bool),
}

impl Drop for Initialiser {
    fn drop(self) {
        match self {
            Self::Value(_) | Self::Listed(_, _, _) => {}
        }
    }
}

pub enum InitDeclarator {
    Plain(Declarator),
    /// The declarator, the `=` and the initialiser.
    Initialised(Declarator, Place, Initialiser),
}

impl Drop for InitDeclarator {
    fn drop(self) {
        match self {
            Self::Plain(_) | Self::Initialised(_, _, _) => {}
        }
    }
}

/// `specifiers declarators ;` (C99 6.7).
pub struct Declaration {
    pub specifiers: Specifiers,
    pub declarators: Items<InitDeclarator>,
}

impl Drop for Declaration {
    fn drop(self) {
        let Self {
            specifiers: _,
            declarators: _,
        } = self;
    }
}

/// A statement (C99 6.8). The places before an expression in parentheses are those of the keyword
/// and of the `(`. Parts stand in boxes, so that no variant is much larger than `;`.
#[cycle(statements)]
pub enum Statement {
    /// The `{` and what the block holds.
    Block(Place, Items<BlockItem>),
    Express(Expr),
    /// `;` alone.
    Empty,
    If(Place, Place, Boxed<Expr>, Boxed<Statement>),
    IfElse(Place, Place, Boxed<Expr>, Boxed<Statement>, Boxed<Statement>),
    /// The third place is that of the `{`.
    Switch(Place, Place, Boxed<Expr>, Place, Items<BlockItem>),
    While(Place, Place, Boxed<Expr>, Boxed<Statement>),
    /// The places are those of `while` and its `(`.
    DoWhile(Boxed<Statement>, Place, Place, Boxed<Expr>),
    For(
        Place,
        Place,
        Option<Boxed<Expr>>,
        Option<Boxed<Expr>>,
        Option<Boxed<Expr>>,
        Boxed<Statement>,
    ),
    ForDeclaration(
        Place,
        Place,
        Boxed<Declaration>,
        Option<Boxed<Expr>>,
        Option<Boxed<Expr>>,
        Boxed<Statement>,
    ),
    Break(Place),
    Continue(Place),
    Return(Place, Option<Boxed<Expr>>),
}

impl Drop for Statement {
    #[cycle(statement_drops)]
    fn drop(self) {
        match self {
            Self::Block(_, _)
            | Self::Express(_)
            | Self::Empty
            | Self::If(_, _, _, _)
            | Self::IfElse(_, _, _, _, _)
            | Self::Switch(_, _, _, _, _)
            | Self::While(_, _, _, _)
            | Self::DoWhile(_, _, _, _)
            | Self::For(_, _, _, _, _, _)
            | Self::ForDeclaration(_, _, _, _, _, _)
            | Self::Break(_)
            | Self::Continue(_)
            | Self::Return(_, _) => {}
        }
    }
}

/// What a block holds. Labels stand only in the block of a `switch`, each before a statement or
/// another label.
#[cycle(statements)]
pub enum BlockItem {
    Statement(Statement),
    Declaration(Declaration),
    /// The `case` and its value.
    Case(Place, Expr),
    /// The `default`.
    Default(Place),
}

impl Drop for BlockItem {
    #[cycle(statement_drops)]
    fn drop(self) {
        match self {
            Self::Statement(_) | Self::Declaration(_) | Self::Case(_, _) | Self::Default(_) => {}
        }
    }
}

/// A function with its body (C99 6.9.1).
pub struct FunctionDefinition {
    pub specifiers: Specifiers,
    pub declarator: Declarator,
    /// The `{` of the body.
    pub brace: Place,
    pub body: Items<BlockItem>,
}

impl Drop for FunctionDefinition {
    fn drop(self) {
        let Self {
            specifiers: _,
            declarator: _,
            brace: _,
            body: _,
        } = self;
    }
}

pub enum External {
    Declaration(Declaration),
    Function(FunctionDefinition),
}

impl Drop for External {
    fn drop(self) {
        match self {
            Self::Declaration(_) | Self::Function(_) => {}
        }
    }
}

/// A unit: declarations and function definitions in the order of the text (C99 6.9).
pub struct Unit {
    pub externals: Items<External>,
}

impl Drop for Unit {
    fn drop(self) {
        let Self { externals: _ } = self;
    }
}
