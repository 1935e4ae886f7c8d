//! The instructions of three-address code.
use crate::number::{FunctionNumber, Object, Temp};
use cc_base::{NodeId, Place, TypeId};

// An instruction reads its operands, then changes at most one temporary, `into`. A pointer that is used comes with its
// node, or with its type, which has the node in it; `place` is where the conditions of the use are checked.

/// Constants, addresses of objects and functions, and copies.
#[derive(Clone, Copy)]
pub enum Set {
    /// An integer of the type.
    Integer {
        into: Temp,
        value: i128,
        ty: TypeId,
    },
    /// The null pointer of the pointer type.
    Null {
        into: Temp,
        ty: TypeId,
    },
    /// The address of a function, of the pointer type.
    Function {
        into: Temp,
        function: FunctionNumber,
        ty: TypeId,
    },
    /// The address of a whole object, with its home and type.
    Object {
        into: Temp,
        object: Object,
        home: NodeId,
        ty: TypeId,
    },
    /// What another temporary holds.
    Copy {
        into: Temp,
        from: Temp,
    },
}

/// An operator on two integers (C99 6.5.5 to 6.5.14).
#[derive(Clone, Copy, Debug, PartialEq, Eq)]
pub enum Operator {
    Add,
    Subtract,
    Multiply,
    Divide,
    Remainder,
    And,
    Or,
    ExclusiveOr,
    ShiftLeft,
    ShiftRight,
    Compare(Comparison),
}

/// A comparison (C99 6.5.8, 6.5.9).
#[derive(Clone, Copy, Debug, PartialEq, Eq)]
pub enum Comparison {
    Equal,
    Different,
    Less,
    LessOrEqual,
    Greater,
    GreaterOrEqual,
}

/// Operators on integers, and truth values.
#[derive(Clone, Copy)]
pub enum Calculate {
    /// `-` in the type (C99 6.5.3.3).
    Negate {
        into: Temp,
        operand: Temp,
        ty: TypeId,
    },
    /// `~` in the type (C99 6.5.3.3).
    Complement {
        into: Temp,
        operand: Temp,
        ty: TypeId,
    },
    /// An operator whose operands have the type; the right operand of a shift may have another integer type.
    Binary {
        into: Temp,
        operator: Operator,
        left: Temp,
        right: Temp,
        ty: TypeId,
        place: Place,
    },
    /// 1 where the operand isn't 0 and isn't null, else 0.
    Truth {
        into: Temp,
        operand: Temp,
    },
    /// 0 where the operand isn't 0 and isn't null, else 1 (C99 6.5.3.3).
    Not {
        into: Temp,
        operand: Temp,
    },
}

/// Which way a pointer moves.
#[derive(Clone, Copy, Debug, PartialEq, Eq)]
pub enum Direction {
    Forward,
    Backward,
}

/// Pointer arithmetic and comparison, and addresses of parts.
#[derive(Clone, Copy)]
pub enum Point {
    /// A pointer of the type moves by so many elements (C99 6.5.6).
    Move {
        into: Temp,
        pointer: Temp,
        amount: Temp,
        direction: Direction,
        ty: TypeId,
        place: Place,
    },
    /// How many elements are between two pointers (C99 6.5.6).
    Difference {
        into: Temp,
        left: Temp,
        left_ty: TypeId,
        right: Temp,
        right_ty: TypeId,
        place: Place,
    },
    /// A comparison of two pointers, none of which is a null constant (C99 6.5.8, 6.5.9).
    Compare {
        into: Temp,
        comparison: Comparison,
        left: Temp,
        left_ty: TypeId,
        right: Temp,
        right_ty: TypeId,
        place: Place,
    },
    /// A pointer of the type compared with a null constant by `==`, or by `!=` where `different` (C99 6.5.9).
    IsNull {
        into: Temp,
        pointer: Temp,
        ty: TypeId,
        different: bool,
    },
    /// The address of a member of the struct or union that a pointer of the node `outer` points to (C99 6.5.2.3). The
    /// address has the node `inner` and points to the member's type.
    Member {
        into: Temp,
        from: Temp,
        outer: NodeId,
        ty: TypeId,
        member: u32,
        inner: NodeId,
        member_ty: TypeId,
        place: Place,
    },
    /// The address of the array's first element (C99 6.3.2.1), where the array is at a pointer of the node `outer`. It
    /// has conditions where an operator on a pointer gave the array.
    Decay {
        into: Temp,
        from: Temp,
        outer: NodeId,
        array: TypeId,
        checked: bool,
        inner: NodeId,
        element: TypeId,
        place: Place,
    },
    /// `&` of what a pointer of the node `outer` points to, as a part of its own (C99 6.5.3.2).
    Address {
        into: Temp,
        from: Temp,
        outer: NodeId,
        inner: NodeId,
        ty: TypeId,
    },
}

/// Conversions (C99 6.3).
#[derive(Clone, Copy)]
pub enum Convert {
    /// An integer to an integer type (C99 6.3.1.3).
    Integer {
        into: Temp,
        from: Temp,
        ty: TypeId,
    },
    /// An integer that is no null constant to a pointer type (C99 6.3.2.3).
    ToPointer {
        into: Temp,
        from: Temp,
        ty: TypeId,
        place: Place,
    },
    /// A pointer to an integer type (C99 6.3.2.3).
    FromPointer {
        into: Temp,
        from: Temp,
        from_ty: TypeId,
        ty: TypeId,
    },
    /// A pointer to another pointer type (C99 6.3.2.3).
    Pointer {
        into: Temp,
        from: Temp,
        from_ty: TypeId,
        ty: TypeId,
        place: Place,
    },
}

/// Where a store or a copy goes.
#[derive(Clone, Copy)]
pub enum Target {
    /// To what a pointer of the node points to.
    Pointer {
        pointer: Temp,
        node: NodeId,
    },
    /// Into an object of the type, from this byte on: what an initialiser does (C99 6.7.8).
    Part {
        object: Object,
        home: NodeId,
        ty: TypeId,
        offset: u64,
    },
}

/// Loads, stores and copies.
#[derive(Clone, Copy)]
pub enum Access {
    /// The scalar of the type that a pointer of the node points to.
    Load {
        into: Temp,
        from: Temp,
        node: NodeId,
        ty: TypeId,
        place: Place,
    },
    /// A scalar of the type is stored. ESCAPE stands at the assignment, the other conditions at `place`.
    Store {
        target: Target,
        value: Temp,
        ty: TypeId,
        place: Place,
        assignment: Place,
    },
    /// The object is set to zero as a whole.
    Clear {
        object: Object,
    },
    /// A struct or union of the type is copied from what a pointer of the node points to: a row of accesses, first a
    /// load of each pointer that it holds, in order, where the node isn't WILD, then one read of the whole and one write.
    Copy {
        target: Target,
        target_place: Place,
        from: Temp,
        from_node: NodeId,
        from_place: Place,
        ty: TypeId,
        assignment: Place,
    },
}

/// Blocks from `malloc` and `calloc` (C99 7.20.3), by the allocation's node and the type that the block is made for.
#[derive(Clone, Copy)]
pub enum Allocate {
    Malloc {
        into: Temp,
        size: Temp,
        node: NodeId,
        ty: TypeId,
        place: Place,
    },
    Calloc {
        into: Temp,
        count: Temp,
        size: Temp,
        node: NodeId,
        ty: TypeId,
        place: Place,
    },
}

/// A call through a pointer of the type (C99 6.5.2.2). The arguments are so many values, one after another from number `first` on.
#[derive(Clone, Copy)]
pub struct Call {
    pub into: Temp,
    pub callee: Temp,
    pub ty: TypeId,
    pub first: u8,
    pub count: u32,
    pub place: Place,
}

/// Calls of the other runtime functions (C99 7.19.7, 7.20.3.2, 7.20.4.3).
#[derive(Clone, Copy)]
pub enum RuntimeCall {
    Free { into: Temp, pointer: Temp },
    Getchar { into: Temp },
    Putchar { into: Temp, value: Temp },
    Exit { into: Temp, status: Temp },
}

/// An instruction of three-address code.
#[cycle(code)]
pub enum Instr {
    Set(Set),
    Calculate(Calculate),
    Point(Point),
    Convert(Convert),
    Access(Access),
    Allocate(Allocate),
    Call(Call),
    Runtime(RuntimeCall),
    /// The first code where the condition isn't 0 and isn't null, else the second.
    If {
        condition: Temp,
        then: Code,
        otherwise: Code,
    },
    /// The code runs once.
    Block(Code),
    /// Before each round a turn is taken. The code runs again and again until it is left.
    Loop(Code),
    /// Leaves an enclosing block or loop of the function, counted from 0 outwards.
    Break(u32),
    /// Leaves a function that gives nothing.
    Return,
    /// Leaves the function with a value of the type, which is its result's.
    ReturnValue {
        value: Temp,
        ty: TypeId,
        place: Place,
    },
}

impl Drop for Instr {
    #[cycle(instr_drops)]
    fn drop(self) {
        match self {
            Self::Set(_)
            | Self::Calculate(_)
            | Self::Point(_)
            | Self::Convert(_)
            | Self::Access(_)
            | Self::Allocate(_)
            | Self::Call(_)
            | Self::Runtime(_)
            | Self::If {
                condition: _,
                then: _,
                otherwise: _,
            }
            | Self::Block(_)
            | Self::Loop(_)
            | Self::Break(_)
            | Self::Return
            | Self::ReturnValue {
                value: _,
                ty: _,
                place: _,
            } => {}
        }
    }
}

/// Instructions in order. A plain list: instructions hold such lists themselves, so contracts see its items through the
/// field.
#[cycle(code)]
pub struct Code(pub Vec<Instr>);

impl Drop for Code {
    #[cycle(instr_drops)]
    fn drop(self) {
        let Self(_) = self;
    }
}
