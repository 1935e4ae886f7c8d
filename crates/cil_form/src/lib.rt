//! Three-address code as data, and the definition of what it means.
#![tactic(auto)]

mod cil;
mod instr;
pub mod laws;
mod number;
mod program;

pub use cil::Cil;
pub use instr::{
    Access, Allocate, Calculate, Call, Code, Comparison, Convert, Direction, Instr, Operator,
    Point, RuntimeCall, Set, Target,
};
pub use number::{FunctionNumber, Object, Planned, StaticNumber, Temp, VariableNumber, Work};
pub use program::{
    Bytes, Function, Functions, Locals, Parameter, Parameters, Program, Sites, Static, Statics,
};
