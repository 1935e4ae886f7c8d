//! The parts of a program in three-address code.
use crate::instr::Code;
use crate::number::{FunctionNumber, Planned};
use c_types::Types;
use cc_base::{NodeId, Place, TypeId};
use kind_sites::Site;
use std::marker::Model;

/// A parameter: its type, and its home where it has a name.
#[derive(Clone, Copy, Debug, PartialEq, Eq)]
pub struct Parameter {
    pub ty: TypeId,
    pub home: Option<NodeId>,
}

/// A defined function: its type, its parameters, its local variables and its body.
pub struct Function {
    pub ty: TypeId,
    pub parameters: Parameters,
    pub locals: Locals,
    pub body: Code,
}

impl Drop for Function {
    fn drop(self) {
        let Self {
            ty: _,
            parameters: _,
            locals: _,
            body: _,
        } = self;
    }
}

/// A static object, which begins at zero, or a string literal, which begins with its bytes.
pub struct Static {
    pub planned: Planned,
    pub text: Option<Bytes>,
}

impl Drop for Static {
    fn drop(self) {
        let Self {
            planned: _,
            text: _,
        } = self;
    }
}

/// A program in three-address code.
#[derive(Drop)]
pub struct Program {
    /// The types of the unit.
    pub types: Types,
    /// How many nodes the unit has.
    pub nodes: u32,
    pub statics: Statics,
    /// The static initialisers, which run first.
    pub initialisers: Code,
    pub functions: Functions,
    pub main: FunctionNumber,
    /// The place of `main`'s name, where DEPTH of its entry is checked.
    pub main_place: Place,
    /// All sites of the unit: those of its types, objects and declarations, of the code, and of what never runs.
    pub sites: Sites,
}

/// The parameters of a function, in order. Contracts see them as a list.
pub struct Parameters(pub Vec<Parameter>);

impl Drop for Parameters {
    fn drop(self) {
        let Self(_) = self;
    }
}

impl Model for Parameters {
    ghost use Rattle.std.specs.Prelude.{List};
    ghost use Rattle.cil_form.specs.declared.program.Parameter.{Parameter};

    ghost Value = { List Parameter };

    ghost view = { λ s. s.0.items };
}

/// The local variables of a function, in order. Contracts see them as a list.
pub struct Locals(pub Vec<Planned>);

impl Drop for Locals {
    fn drop(self) {
        let Self(_) = self;
    }
}

impl Model for Locals {
    ghost use Rattle.std.specs.Prelude.{List};
    ghost use Rattle.cil_form.specs.declared.number.Planned.{Planned};

    ghost Value = { List Planned };

    ghost view = { λ s. s.0.items };
}

/// The static objects and literals of a program, in order. Contracts see them as a list.
pub struct Statics(pub Vec<Static>);

impl Drop for Statics {
    fn drop(self) {
        let Self(_) = self;
    }
}

impl Model for Statics {
    ghost use Rattle.std.specs.Prelude.{List};
    ghost use Rattle.cil_form.specs.declared.program.Static.{Static};

    ghost Value = { List Static };

    ghost view = { λ s. s.0.items };
}

/// The functions of a program, in order. Contracts see them as a list.
pub struct Functions(pub Vec<Function>);

impl Drop for Functions {
    fn drop(self) {
        let Self(_) = self;
    }
}

impl Model for Functions {
    ghost use Rattle.std.specs.Prelude.{List};
    ghost use Rattle.std.specs.Coded.{codes};
    ghost use Rattle.cil_form.specs.declared.program.Function.{Function};
    ghost use Rattle.cil_form.specs.contracts.instr.Instr as instr;

    ghost Value = { List Function };

    ghost coded = { Prim.hlevel (codes, instr.the_row.coded) };

    ghost view = { λ s. s.0.items };
}

/// Sites, in order. Contracts see them as a list.
pub struct Sites(pub Vec<Site>);

impl Drop for Sites {
    fn drop(self) {
        let Self(_) = self;
    }
}

impl Model for Sites {
    ghost use Rattle.std.specs.Prelude.{List};
    ghost use Rattle.kind_sites.specs.declared.site.Site.{Site};

    ghost Value = { List Site };

    ghost view = { λ s. s.0.items };
}

/// Bytes. Contracts see them as a list of numbers.
pub struct Bytes(pub Vec<u8>);

impl Drop for Bytes {
    fn drop(self) {
        let Self(_) = self;
    }
}

impl Model for Bytes {
    ghost use Rattle.std.specs.Prelude.{List, ℕ};

    ghost Value = { List ℕ };

    ghost view = { λ s. s.0.items };
}
