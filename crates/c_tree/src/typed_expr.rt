//! Typed expressions, and what they hold of declarations. Contracts see them as the plain data of the typed tree.
use crate::boxed::Boxed;
use crate::items::Items;
use crate::leaf::{Identifier, StringPiece, Word};
use crate::operator::{AggregateKind, Assignment, Binary, Step, Unary};
use crate::typed_word::{Adjusted, Conversion, Home, Runtime, Side, TypedStar};
use c_lexer::IntegerType;
use cc_base::{NodeId, Place, TypeId};

/// An expression that has a value, with its type (C99 6.5). A place is that of the operator; a type comes last, its node before it.
#[cycle(typed)]
#[derive(Drop)]
pub enum TypedExpr {
    /// An integer constant: its type, its value, its place, its type in the table.
    Integer(IntegerType, u64, Place, TypeId),
    /// A character constant, which is an int.
    Character(i32, Place, TypeId),
    /// An enumeration constant and its value.
    Enumerator(Boxed<Identifier>, i128, TypeId),
    /// The address of the function that the unit defines under this number; silent.
    FunctionName(Identifier, u32, NodeId, TypeId),
    /// A runtime function, where it is called.
    RuntimeName(Identifier, Runtime, TypeId),
    Paren(Place, Boxed<TypedExpr>),
    /// The value of a scalar place; silent.
    Read(Boxed<TypedPlace>),
    /// A struct or union that is evaluated and not read; silent.
    Unread(Boxed<TypedPlace>),
    /// The address of the first element of an array; silent.
    Decay(Boxed<TypedPlace>, NodeId, TypeId),
    /// A conversion to a type, with the place where it is checked; silent.
    Convert(Conversion, Place, TypeId, Boxed<TypedExpr>),
    /// The conversion, the `(`, the type name and the operand.
    Cast(Conversion, Place, Boxed<TypedTypeName>, Boxed<TypedExpr>),
    /// `&` of a place that is a part of its own.
    AddressOf(Place, Boxed<TypedPlace>, NodeId, TypeId),
    /// `&*p` and `&p[i]`.
    AddressOfElement(Place, Boxed<TypedPlace>, TypeId),
    /// `&` of a function.
    AddressOfFunction(Place, Boxed<TypedExpr>),
    /// `*` of a pointer to a function.
    FunctionAt(Place, Boxed<TypedExpr>),
    /// `+`, `-`, `~` and `!`.
    Prefix(Unary, Place, Boxed<TypedExpr>, TypeId),
    /// `sizeof` of a place, with its value.
    SizeOfPlace(Place, Boxed<TypedPlace>, u64, TypeId),
    /// `sizeof` of an expression that is no place.
    SizeOfValue(Place, Boxed<TypedExpr>, u64, TypeId),
    /// The `sizeof`, the `(`, the type name and the value.
    SizeOfType(Place, Place, Boxed<TypedTypeName>, u64, TypeId),
    /// `++` or `--` before its operand.
    StepBefore(Step, Place, Boxed<TypedPlace>),
    /// `++` or `--` after its operand.
    StepAfter(Boxed<TypedPlace>, Step, Place),
    /// An operator on integers.
    Arithmetic(Binary, Boxed<TypedExpr>, Place, Boxed<TypedExpr>, TypeId),
    /// A pointer plus or minus an integer.
    Moved(Binary, Side, Boxed<TypedExpr>, Place, Boxed<TypedExpr>, TypeId),
    /// The difference of two pointers.
    Difference(Boxed<TypedExpr>, Place, Boxed<TypedExpr>, TypeId),
    /// A comparison of two pointers.
    Compared(Binary, Boxed<TypedExpr>, Place, Boxed<TypedExpr>, TypeId),
    /// `&&` or `||`.
    Logical(Binary, Boxed<TypedExpr>, Place, Boxed<TypedExpr>, TypeId),
    /// `?:` of integers or of `void`.
    Conditional(Boxed<TypedExpr>, Place, Boxed<TypedExpr>, Boxed<TypedExpr>, TypeId),
    /// `?:` of pointers.
    PointerConditional(Boxed<TypedExpr>, Place, Boxed<TypedExpr>, Boxed<TypedExpr>, NodeId, TypeId),
    Comma(Boxed<TypedExpr>, Boxed<TypedExpr>),
    Assign(Boxed<TypedPlace>, Place, Boxed<TypedExpr>),
    /// A compound assignment, with the type in which it is computed.
    AssignWith(Assignment, Boxed<TypedPlace>, Place, Boxed<TypedExpr>, TypeId),
    /// A call through a pointer to a function.
    Call(Boxed<TypedExpr>, Place, Items<TypedExpr>, TypeId),
    /// A call of a runtime function.
    CallRuntime(Runtime, Boxed<TypedExpr>, Place, Items<TypedExpr>, TypeId),
    /// An allocation that nothing takes over.
    Allocate(Runtime, Boxed<TypedExpr>, Place, Items<TypedExpr>, NodeId, TypeId),
    /// An allocation, with the pointer type that takes it over.
    AllocateFor(Runtime, Boxed<TypedExpr>, Place, Items<TypedExpr>, TypeId),
}

/// An expression that designates an object or a part of one (C99 6.3.2.1).
#[cycle(typed)]
pub enum TypedPlace {
    /// A variable, by the node of its home.
    Variable(Identifier, NodeId, TypeId),
    /// Adjacent string literals, by the node of their home.
    String(Items<StringPiece>, NodeId, TypeId),
    ParenPlace(Place, Boxed<TypedPlace>),
    /// `*` of a pointer.
    Target(Place, Boxed<TypedExpr>, TypeId),
    /// `a[b]`.
    Element(Side, Boxed<TypedExpr>, Place, Boxed<TypedExpr>, TypeId),
    /// `.` with the number of the member and the node of its place.
    Member(Boxed<TypedPlace>, Place, Boxed<Identifier>, u32, NodeId, TypeId),
    /// `->` with the number of the member and the node of its place.
    MemberAt(Boxed<TypedExpr>, Place, Boxed<Identifier>, u32, NodeId, TypeId),
    StructAssign(Boxed<TypedPlace>, Place, Boxed<TypedPlace>),
    StructConditional(Boxed<TypedExpr>, Place, Boxed<TypedPlace>, Boxed<TypedPlace>),
    StructComma(Boxed<TypedExpr>, Boxed<TypedPlace>),
}

impl Drop for TypedPlace {
    #[cycle(typed_drops)]
    fn drop(self) {
        match self {
            Self::Variable(_, _, _)
            | Self::String(_, _, _)
            | Self::ParenPlace(_, _)
            | Self::Target(_, _, _)
            | Self::Element(_, _, _, _, _)
            | Self::Member(_, _, _, _, _, _)
            | Self::MemberAt(_, _, _, _, _, _)
            | Self::StructAssign(_, _, _)
            | Self::StructConditional(_, _, _, _)
            | Self::StructComma(_, _) => {}
        }
    }
}

/// A type name and its type.
#[cycle(typed)]
pub struct TypedTypeName {
    pub specifiers: TypedSpecifiers,
    pub declarator: Option<TypedForm>,
    pub ty: TypeId,
}

impl Drop for TypedTypeName {
    #[cycle(typed_drops)]
    fn drop(self) {
        let Self {
            specifiers: _,
            declarator: _,
            ty: _,
        } = self;
    }
}

/// Specifiers in the order of the text, and the type that they name together.
#[cycle(typed)]
pub struct TypedSpecifiers {
    pub list: Items<TypedSpecifier>,
    pub ty: TypeId,
}

impl Drop for TypedSpecifiers {
    #[cycle(typed_drops)]
    fn drop(self) {
        let Self { list: _, ty: _ } = self;
    }
}

/// A specifier, with the type that it names.
#[cycle(typed)]
pub enum TypedSpecifier {
    Keyword(Word),
    Typedef(Identifier, TypeId),
    Tagged(AggregateKind, Place, Identifier, TypeId),
    Aggregate(AggregateKind, Place, Option<Identifier>, Place, Items<TypedMembers>, TypeId),
    Enum(Place, Identifier),
    Enumeration(Place, Option<Identifier>, Place, Items<TypedEnumerator>, bool),
}

impl Drop for TypedSpecifier {
    #[cycle(typed_drops)]
    fn drop(self) {
        match self {
            Self::Keyword(_)
            | Self::Typedef(_, _)
            | Self::Tagged(_, _, _, _)
            | Self::Aggregate(_, _, _, _, _, _)
            | Self::Enum(_, _)
            | Self::Enumeration(_, _, _, _, _) => {}
        }
    }
}

/// One row of members.
#[cycle(typed)]
pub struct TypedMembers {
    pub specifiers: TypedSpecifiers,
    pub declarators: Items<TypedDeclarator>,
}

impl Drop for TypedMembers {
    #[cycle(typed_drops)]
    fn drop(self) {
        let Self {
            specifiers: _,
            declarators: _,
        } = self;
    }
}

/// An enumerator with its value.
#[cycle(typed)]
pub enum TypedEnumerator {
    /// A name and its value.
    Plain(Identifier, i128),
    /// A name, the `=`, the expression and its value.
    Valued(Identifier, Place, TypedExpr, i128),
}

impl Drop for TypedEnumerator {
    #[cycle(typed_drops)]
    fn drop(self) {
        match self {
            Self::Plain(_, _) | Self::Valued(_, _, _, _) => {}
        }
    }
}

/// A declarator: the type that it gives to its name, and the home of that.
#[cycle(typed)]
pub struct TypedDeclarator {
    pub form: TypedForm,
    pub ty: TypeId,
    pub home: Option<NodeId>,
}

impl Drop for TypedDeclarator {
    #[cycle(typed_drops)]
    fn drop(self) {
        let Self {
            form: _,
            ty: _,
            home: _,
        } = self;
    }
}

/// Stars, then a name, nothing or a form in parentheses, then array and function parts.
#[cycle(typed)]
pub struct TypedForm {
    pub stars: Items<TypedStar>,
    pub core: TypedCore,
    pub parts: Items<TypedPart>,
}

impl Drop for TypedForm {
    #[cycle(typed_drops)]
    fn drop(self) {
        let Self {
            stars: _,
            core: _,
            parts: _,
        } = self;
    }
}

/// What a declarator has in its middle.
#[cycle(typed)]
pub enum TypedCore {
    /// The name and its home.
    Names(Identifier, Home),
    Unnamed,
    /// The `(` and what stands in the parentheses.
    Nested(Place, Boxed<TypedForm>),
}

impl Drop for TypedCore {
    #[cycle(typed_drops)]
    fn drop(self) {
        match self {
            Self::Names(_, _) | Self::Unnamed | Self::Nested(_, _) => {}
        }
    }
}

/// An array or function part.
#[cycle(typed)]
pub enum TypedPart {
    /// `[]` with the words in it.
    Array(Place, Items<Word>),
    /// `[e]` with the words in it and the value of e.
    SizedArray(Place, Items<Word>, TypedExpr, u64),
    /// The `(` and the parameters.
    Function(Place, Items<TypedParameter>),
}

impl Drop for TypedPart {
    #[cycle(typed_drops)]
    fn drop(self) {
        match self {
            Self::Array(_, _) | Self::SizedArray(_, _, _, _) | Self::Function(_, _) => {}
        }
    }
}

/// A parameter, with its type as the function has it.
#[cycle(typed)]
pub struct TypedParameter {
    pub specifiers: TypedSpecifiers,
    pub declarator: Option<TypedForm>,
    pub adjusted: Option<Adjusted>,
    pub ty: TypeId,
}

impl Drop for TypedParameter {
    #[cycle(typed_drops)]
    fn drop(self) {
        let Self {
            specifiers: _,
            declarator: _,
            adjusted: _,
            ty: _,
        } = self;
    }
}
