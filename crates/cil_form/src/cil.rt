//! Programs in three-address code that are in shape.
ghost use Rattle.std.specs.Prelude.{◌≡◌};
ghost use Rattle.cil_form.specs.Shape.{IsInShape};

use crate::program::Program;
use c_types::Types;
use std::marker::Model;

/// A program in three-address code that is in shape. Contracts see it as its parts.
pub struct Cil {
    program: Program,
}

impl Drop for Cil {
    fn drop(self) {
        let Self { program: _ } = self;
    }
}

impl Model for Cil {
    ghost use Rattle.std.specs.Coded.{codes};
    ghost use Rattle.cil_form.specs.declared.program.Program.{Program};
    ghost use Rattle.cil_form.specs.contracts.instr.Instr as instr;

    ghost Value = { Program };

    ghost coded = { Prim.hlevel (codes, instr.the_row.coded) };

    ghost use Rattle.cil_form.specs.Shape.{IsInShape};

    ghost view = { λ c. c.program };

    ghost invariant = { λ c. IsInShape c.program };
}

impl Cil {
    /// The code of a program that is in shape. Takes no memory.
    pub fn of(program: Program) -> Cil
        requires { IsInShape program }
        ensures { result ≡ program }
    {
        Cil { program }
    }

    /// The parts that the code was made of, which are in shape. Takes no memory.
    pub fn program(&self) -> &Program
        ensures same { result.now ≡ self.now }
        ensures in_shape { IsInShape self.now }
    {
        &self.program
    }

    /// How many nodes the program has. Takes no memory.
    pub fn nodes(&self) -> u32
        ensures { result ≡ self.now.nodes }
    {
        self.program.nodes
    }

    /// The types of the program. Takes no memory.
    pub fn types(&self) -> &Types
        ensures { result.now ≡ self.now.types }
    {
        &self.program.types
    }
}
