//! Operators.

/// `++` or `--`.
#[derive(Clone, Copy, Debug, PartialEq, Eq)]
pub enum Step {
    Increment,
    Decrement,
}

/// An operator before its operand (C99 6.5.3).
#[derive(Clone, Copy, Debug, PartialEq, Eq)]
pub enum Unary {
    Increment,
    Decrement,
    AddressOf,
    Dereference,
    Plus,
    Minus,
    Complement,
    Not,
    /// `sizeof` before an expression.
    SizeOf,
}

/// A binary operator (C99 6.5.5 to 6.5.14).
#[derive(Clone, Copy, Debug, PartialEq, Eq)]
pub enum Binary {
    Multiply,
    Divide,
    Remainder,
    Add,
    Subtract,
    ShiftLeft,
    ShiftRight,
    Less,
    Greater,
    LessEqual,
    GreaterEqual,
    Equal,
    NotEqual,
    BitAnd,
    BitXor,
    BitOr,
    LogicalAnd,
    LogicalOr,
}

/// An assignment operator (C99 6.5.16).
#[derive(Clone, Copy, Debug, PartialEq, Eq)]
pub enum Assignment {
    Assign,
    Multiply,
    Divide,
    Remainder,
    Add,
    Subtract,
    ShiftLeft,
    ShiftRight,
    BitAnd,
    BitXor,
    BitOr,
}

/// `.` or `->`.
#[derive(Clone, Copy, Debug, PartialEq, Eq)]
pub enum MemberOperator {
    Dot,
    Arrow,
}

/// `struct` or `union`.
#[derive(Clone, Copy, Debug, PartialEq, Eq)]
pub enum AggregateKind {
    Struct,
    Union,
}
