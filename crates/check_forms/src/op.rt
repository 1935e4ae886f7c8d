//! The primitives of C that ask something, with the slots of their operands.
use crate::slots::{Direction, Distance, Fixed, PointerSlots};
use cc_base::{Kind, Place};

/// Slots that hold what WILD pointers are compared with: 7, 8, and the address of the last function.
#[derive(Clone, Copy)]
pub struct WildNumbers {
    pub seven: u32,
    pub eight: u32,
    pub last: Fixed,
}

/// How far a pointer may lie from the start of its part once it is moved: at least -least and less than span - least
/// bytes.
#[derive(Clone, Copy)]
pub struct Reach {
    pub least: Fixed,
    pub span: Fixed,
}

/// What an integer must be so that its product with the size doesn't wrap: one of 32 bits may be any.
#[derive(Clone, Copy)]
pub enum Factor {
    Any,
    /// At least -least and less than span - least.
    Signed { least: Fixed, span: Fixed },
    /// Below the bound.
    Unsigned { bound: Fixed },
}

/// What is asked of a pointer that is converted.
#[derive(Clone, Copy)]
pub enum Conversion {
    /// Nothing.
    Free,
    /// RTTI: to a pointer to this type node or one that lies below it.
    Down { node: u32 },
    /// SEQ: to a pointer of one word that reaches so many bytes.
    Shrink { size: Fixed },
}

/// A primitive with the slots of its operands. Sizes are those of cured code, in bytes; `home` is the slot of the word
/// that says where a stored pointer's object lies, and `assignment` the place of the operator that stores it.
#[derive(Clone, Copy)]
pub enum Op {
    ReadInteger {
        p: PointerSlots,
        size: Fixed,
    },
    ReadPointer {
        p: PointerSlots,
        size: Fixed,
        numbers: WildNumbers,
    },
    WriteInteger {
        p: PointerSlots,
        size: Fixed,
    },
    WritePointer {
        p: PointerSlots,
        size: Fixed,
        numbers: WildNumbers,
        home: u32,
        assignment: Place,
    },
    /// A struct without pointers is copied; `other` is the kind of its target, and `target_at` the target's place.
    CopyPlain {
        source: PointerSlots,
        target: PointerSlots,
        other: Kind,
        size: Fixed,
        target_at: Place,
    },
    /// A struct with pointers; other than WILD, `KeepCell` follows for each of its pointers.
    CopyPointers {
        source: PointerSlots,
        target: PointerSlots,
        other: Kind,
        size: Fixed,
        numbers: WildNumbers,
        target_at: Place,
        assignment: Place,
    },
    /// One pointer of a struct that is copied.
    KeepCell {
        home: u32,
        target: u32,
    },
    /// The address of a member of a struct; `offset` is the slot of its offset.
    Member {
        p: PointerSlots,
        size: Fixed,
        numbers: WildNumbers,
        offset: u32,
        reach: Reach,
    },
    /// A pointer moved by n elements.
    Move {
        p: PointerSlots,
        direction: Direction,
        n: u32,
        factor: Factor,
        distance: Distance,
        numbers: WildNumbers,
        reach: Reach,
    },
    /// A difference of pointers, with the size of an element, or an order, without; `other` is the kind of q.
    Order {
        p: PointerSlots,
        q: PointerSlots,
        other: Kind,
        numbers: WildNumbers,
        apart: Option<Fixed>,
    },
    /// `==` or `!=`; `other` is the kind of q.
    Equate {
        p: PointerSlots,
        q: PointerSlots,
        other: Kind,
    },
    /// A call through a pointer; of a signature, one more than its number.
    Call {
        p: PointerSlots,
        signature: Fixed,
    },
    ReturnPointer {
        home: u32,
    },
    Convert {
        p: PointerSlots,
        conversion: Conversion,
    },
    /// `made` is what the allocation gave: 0, or the address of as many bytes as the slot `size` holds.
    Allocate {
        made: u32,
        size: u32,
        needed: Fixed,
    },
    DivideUnsigned {
        a: u32,
        b: u32,
    },
    DivideSigned {
        a: u32,
        b: u32,
        least: Fixed,
        minus_one: Fixed,
    },
    EnterMain {
        address: u32,
    },
}
