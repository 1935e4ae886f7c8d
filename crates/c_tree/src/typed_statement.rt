//! Typed declarations, statements and units. Contracts see them as the plain data of the typed tree.
use crate::boxed::Boxed;
use crate::items::Items;
use crate::leaf::StringPiece;
use crate::typed_expr::{TypedDeclarator, TypedExpr, TypedPlace, TypedSpecifiers};
use cc_base::{Place, TypeId};

/// An initialiser (C99 6.7.8).
#[cycle(typed_initialisers)]
pub enum TypedInitialiser {
    /// A value, converted to the type of what it initialises.
    Value(TypedExpr),
    /// A struct or union that is copied, and the place of the `=` or of the item's first token.
    Copied(TypedPlace, Place),
    /// A string literal that initialises an array of char, and its bytes as far as they fit.
    Text(Items<StringPiece>, Items<u8>),
    /// The `{`, the items, whether a comma stands after the last, and the type of what is set to zero first.
    Listed(Place, Items<TypedItem>, bool, TypeId),
}

impl Drop for TypedInitialiser {
    #[cycle(initialiser_drops)]
    fn drop(self) {
        match self {
            Self::Value(_) | Self::Copied(_, _) | Self::Text(_, _) | Self::Listed(_, _, _, _) => {}
        }
    }
}

/// An item in braces: the offset of what it initialises in what is listed, its type and its initialiser.
#[cycle(typed_initialisers)]
pub struct TypedItem {
    pub offset: u64,
    pub ty: TypeId,
    pub initialiser: TypedInitialiser,
}

impl Drop for TypedItem {
    #[cycle(initialiser_drops)]
    fn drop(self) {
        let Self {
            offset: _,
            ty: _,
            initialiser: _,
        } = self;
    }
}

pub enum TypedInitDeclarator {
    Plain(TypedDeclarator),
    /// The declarator, the `=` and the initialiser.
    Initialised(TypedDeclarator, Place, TypedInitialiser),
}

impl Drop for TypedInitDeclarator {
    fn drop(self) {
        match self {
            Self::Plain(_) | Self::Initialised(_, _, _) => {}
        }
    }
}

/// `specifiers declarators ;` (C99 6.7).
pub struct TypedDeclaration {
    pub specifiers: TypedSpecifiers,
    pub declarators: Items<TypedInitDeclarator>,
}

impl Drop for TypedDeclaration {
    fn drop(self) {
        let Self {
            specifiers: _,
            declarators: _,
        } = self;
    }
}

/// A statement (C99 6.8). The places before an expression in parentheses are those of the keyword
/// and of the `(`. Parts stand in boxes, as in `Statement`.
#[cycle(typed_statements)]
pub enum TypedStatement {
    /// The `{` and what the block holds.
    Block(Place, Items<TypedBlockItem>),
    Express(TypedExpr),
    /// `;` alone.
    Empty,
    If(Place, Place, Boxed<TypedExpr>, Boxed<TypedStatement>),
    IfElse(Place, Place, Boxed<TypedExpr>, Boxed<TypedStatement>, Boxed<TypedStatement>),
    /// The third place is that of the `{`.
    Switch(Place, Place, Boxed<TypedExpr>, Place, Items<TypedBlockItem>),
    While(Place, Place, Boxed<TypedExpr>, Boxed<TypedStatement>),
    /// The places are those of `while` and its `(`.
    DoWhile(Boxed<TypedStatement>, Place, Place, Boxed<TypedExpr>),
    For(
        Place,
        Place,
        Option<Boxed<TypedExpr>>,
        Option<Boxed<TypedExpr>>,
        Option<Boxed<TypedExpr>>,
        Boxed<TypedStatement>,
    ),
    ForDeclaration(
        Place,
        Place,
        Boxed<TypedDeclaration>,
        Option<Boxed<TypedExpr>>,
        Option<Boxed<TypedExpr>>,
        Boxed<TypedStatement>,
    ),
    Break(Place),
    Continue(Place),
    /// The value, converted to the type of the function's result.
    Return(Place, Option<Boxed<TypedExpr>>),
}

impl Drop for TypedStatement {
    #[cycle(typed_statement_drops)]
    fn drop(self) {
        match self {
            Self::Block(_, _)
            | Self::Express(_)
            | Self::Empty
            | Self::If(_, _, _, _)
            | Self::IfElse(_, _, _, _, _)
            | Self::Switch(_, _, _, _, _)
            | Self::While(_, _, _, _)
            | Self::DoWhile(_, _, _, _)
            | Self::For(_, _, _, _, _, _)
            | Self::ForDeclaration(_, _, _, _, _, _)
            | Self::Break(_)
            | Self::Continue(_)
            | Self::Return(_, _) => {}
        }
    }
}

/// What a block holds. Labels stand only in the block of a `switch`.
#[cycle(typed_statements)]
pub enum TypedBlockItem {
    Statement(TypedStatement),
    Declaration(TypedDeclaration),
    /// The `case`, the expression, and its value in the type of the `switch`.
    Case(Place, TypedExpr, i128),
    Default(Place),
}

impl Drop for TypedBlockItem {
    #[cycle(typed_statement_drops)]
    fn drop(self) {
        match self {
            Self::Statement(_) | Self::Declaration(_) | Self::Case(_, _, _) | Self::Default(_) => {}
        }
    }
}

/// A function with its body (C99 6.9.1).
pub struct TypedFunction {
    pub specifiers: TypedSpecifiers,
    pub declarator: TypedDeclarator,
    /// The `{` of the body.
    pub brace: Place,
    pub body: Items<TypedBlockItem>,
}

impl Drop for TypedFunction {
    fn drop(self) {
        let Self {
            specifiers: _,
            declarator: _,
            brace: _,
            body: _,
        } = self;
    }
}

pub enum TypedExternal {
    Declaration(TypedDeclaration),
    Function(TypedFunction),
}

impl Drop for TypedExternal {
    fn drop(self) {
        match self {
            Self::Declaration(_) | Self::Function(_) => {}
        }
    }
}

/// A unit: declarations and function definitions in the order of the text (C99 6.9).
pub struct TypedUnit {
    pub externals: Items<TypedExternal>,
}

impl Drop for TypedUnit {
    fn drop(self) {
        let Self { externals: _ } = self;
    }
}
