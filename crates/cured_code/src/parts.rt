//! The parts of a cured program.
use crate::instr::Code;
use std::marker::Model;

/// A signature: how many words the parameters of a function take, and how many its results.
#[derive(Clone, Copy, Debug, PartialEq, Eq)]
pub struct Sig {
    pub params: u32,
    pub results: u32,
}

/// An area of memory: that of a global or of a local of a frame. A tagged area has a base word and a tag bit for each
/// of its words; `bytes` is the number of bytes of its object.
#[derive(Clone, Copy, Debug, PartialEq, Eq)]
pub struct AreaLine {
    pub tagged: bool,
    pub bytes: u64,
}

/// A global: its area, and the bytes that it begins with. The bytes after these are 0.
pub struct GlobalLine {
    pub area: AreaLine,
    pub first: Bytes,
}

impl Drop for GlobalLine {
    fn drop(self) {
        let Self { area: _, first: _ } = self;
    }
}

/// A function: its signature's number, how many 64-bit slots it has, how many bytes each of its frames is charged, the
/// areas of its frame, and its instructions.
pub struct Function {
    pub sig: u32,
    pub slots: u32,
    pub charge: u64,
    pub locals: Locals,
    pub body: Code,
}

impl Drop for Function {
    fn drop(self) {
        let Self {
            sig: _,
            slots: _,
            charge: _,
            locals: _,
            body: _,
        } = self;
    }
}

/// A cured program: signatures, type nodes with their parents, globals and functions, each numbered from 0 but for the
/// nodes, which are numbered from 1. Function 0 is where the program starts.
pub struct Parts {
    pub sigs: Sigs,
    pub nodes: Parents,
    pub globals: Globals,
    pub functions: Functions,
}

impl Drop for Parts {
    fn drop(self) {
        let Self {
            sigs: _,
            nodes: _,
            globals: _,
            functions: _,
        } = self;
    }
}

/// The signatures of a program, in order. Contracts see them as a list.
#[derive(Drop)]
pub struct Sigs(pub Vec<Sig>);

impl Model for Sigs {
    ghost use Rattle.std.specs.Prelude.{List};
    ghost use Rattle.cured_code.specs.declared.parts.Sig.{Sig};

    ghost Value = { List Sig };

    ghost view = { λ s. s.0.items };
}

/// The parent of each type node, in order, and 0 for a node without one. Contracts see them as a list of numbers.
#[derive(Drop)]
pub struct Parents(pub Vec<u32>);

impl Model for Parents {
    ghost use Rattle.std.specs.Prelude.{List, ℕ};

    ghost Value = { List ℕ };

    ghost view = { λ s. s.0.items };
}

/// The globals of a program, in order. Contracts see them as a list.
#[derive(Drop)]
pub struct Globals(pub Vec<GlobalLine>);

impl Model for Globals {
    ghost use Rattle.std.specs.Prelude.{List};
    ghost use Rattle.cured_code.specs.declared.parts.GlobalLine.{GlobalLine};

    ghost Value = { List GlobalLine };

    ghost view = { λ s. s.0.items };
}

/// The functions of a program, in order. Contracts see them as a list.
#[derive(Drop)]
pub struct Functions(pub Vec<Function>);

impl Model for Functions {
    ghost use Rattle.std.specs.Prelude.{List};
    ghost use Rattle.std.specs.Coded.{codes};
    ghost use Rattle.cured_code.specs.declared.parts.Function.{Function};
    ghost use Rattle.cured_code.specs.contracts.instr.Instr as instr;

    ghost Value = { List Function };

    ghost coded = { Prim.hlevel (codes, instr.the_row.coded) };

    ghost view = { λ s. s.0.items };
}

/// The areas of a frame, in order. Contracts see them as a list.
#[derive(Drop)]
pub struct Locals(pub Vec<AreaLine>);

impl Model for Locals {
    ghost use Rattle.std.specs.Prelude.{List};
    ghost use Rattle.cured_code.specs.declared.parts.AreaLine.{AreaLine};

    ghost Value = { List AreaLine };

    ghost view = { λ s. s.0.items };
}

/// Bytes. Contracts see them as a list of numbers.
#[derive(Drop)]
pub struct Bytes(pub Vec<u8>);

impl Model for Bytes {
    ghost use Rattle.std.specs.Prelude.{List, ℕ};

    ghost Value = { List ℕ };

    ghost view = { λ s. s.0.items };
}
