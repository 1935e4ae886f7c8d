//! What instructions name by numbers.

use cc_base::{NodeId, TypeId};

/// A temporary of a call.
#[derive(Clone, Copy, Debug, PartialEq, Eq)]
pub enum Temp {
    /// The value of an expression or of an operand. The values are a stack: the code of an expression leaves its value in one of them and
    /// changes none below it. There are 256 of them, so that no more are held at once.
    Value(u8),
    /// What a `switch` keeps while its block runs: the number of the label where it begins. It has the number of the `switch` statements
    /// around it, which are fewer than 256, since no unit is nested deeper. These alone live across statements.
    Switch(u8),
    /// What an operator works in, between the values of its operands and its own. No code keeps it.
    Work(Work),
}

/// The temporaries that an operator works in.
#[derive(Clone, Copy, Debug, PartialEq, Eq)]
pub enum Work {
    First,
    Second,
}

/// The number of a defined function, from 0 in the order of the definitions.
#[derive(Clone, Copy, Debug, PartialEq, Eq)]
pub struct FunctionNumber(pub u32);

/// The number of a static object or string literal, from 0 in the order of the text.
#[derive(Clone, Copy, Debug, PartialEq, Eq)]
pub struct StaticNumber(pub u32);

/// The number of a variable of a function, from 0: its parameters that have names, and then its local variables, in the order of the text.
#[derive(Clone, Copy, Debug, PartialEq, Eq)]
pub struct VariableNumber(pub u32);

/// An object that has a home.
#[derive(Clone, Copy, Debug, PartialEq, Eq)]
pub enum Object {
    Static(StaticNumber),
    /// A variable of the call that names it.
    Variable(VariableNumber),
}

/// An object that is to be made: its type, and the node of its home.
#[derive(Clone, Copy, Debug, PartialEq, Eq)]
pub struct Planned {
    pub ty: TypeId,
    pub home: NodeId,
}
