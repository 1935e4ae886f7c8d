//! Words of the typed tree.
#![tactic(auto)]

use crate::leaf::Star;
use cc_base::{NodeId, Place};

/// What a conversion does (C99 6.3).
#[derive(Clone, Copy, Debug, PartialEq, Eq)]
pub enum Conversion {
    /// An integer to an integer type (C99 6.3.1.3).
    IntegerToInteger,
    /// An integer that is no null constant to a pointer (C99 6.3.2.3).
    IntegerToPointer,
    /// A pointer to an integer (C99 6.3.2.3). No unit has one yet.
    PointerToInteger,
    /// A pointer to a pointer: the value flows from the one type to the other (C99 6.3.2.3).
    PointerToPointer,
    /// A null constant to a pointer (C99 6.3.2.3). Nothing flows.
    NullToPointer,
    /// What an allocation gives, to the pointer type that its block is made for. Nothing flows.
    AllocationToPointer,
    /// Any value to `void` (C99 6.3.2.2).
    ToVoid,
}

/// Which operand is the pointer.
#[derive(Clone, Copy, Debug, PartialEq, Eq)]
pub enum Side {
    Left,
    Right,
}

/// What a declarator's name has as its home: the node of the object that it names.
#[derive(Clone, Copy, Debug, PartialEq, Eq)]
pub enum Home {
    /// The name is no object.
    None,
    /// A new object that lives as long as the program (C99 6.2.4).
    Static(NodeId),
    /// A new object that lives as long as a call (C99 6.2.4).
    Local(NodeId),
    /// A parameter. It is an object where its function is defined (C99 6.9.1).
    Parameter(NodeId),
    /// The object of an earlier declaration (C99 6.2.2).
    Known(NodeId),
}

/// The pointer that a parameter becomes whose type is an array or a function (C99 6.7.5.3): its node, and the place of the array's `[`,
/// the function's `(` or the typedef's name.
#[derive(Clone, Copy, Debug, PartialEq, Eq)]
pub struct Adjusted {
    pub node: NodeId,
    pub place: Place,
}

/// A function of the C library that every unit knows without a declaration.
#[derive(Clone, Copy, Debug, PartialEq, Eq)]
pub enum Runtime {
    /// `void *malloc(unsigned long)` (C99 7.20.3.3).
    Malloc,
    /// `void *calloc(unsigned long, unsigned long)` (C99 7.20.3.1).
    Calloc,
    /// `void free(void *)` (C99 7.20.3.2).
    Free,
    /// `int getchar(void)` (C99 7.19.7.6).
    Getchar,
    /// `int putchar(int)` (C99 7.19.7.9).
    Putchar,
    /// `void exit(int)` (C99 7.20.4.3).
    Exit,
}

/// A `*` of a declarator, and its node.
#[derive(Debug)]
pub struct TypedStar {
    pub star: Star,
    pub node: NodeId,
}

impl Drop for TypedStar {
    fn drop(self) {
        let Self { star: _, node: _ } = self;
    }
}
