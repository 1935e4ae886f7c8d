//! Cured programs whose numbers are in range.
ghost use Rattle.std.specs.Prelude.{◌≡◌, ◌↔◌, IsSome, IfSome};
ghost use Rattle.cured_code.specs.Ranges.{IsInRange};

use crate::parts::Parts;
use crate::ranges::is_in_range;
use std::marker::Model;

/// A cured program whose numbers are all in range. Contracts see it as its parts.
pub struct Cured {
    parts: Parts,
}

impl Drop for Cured {
    fn drop(self) {
        let Self { parts: _ } = self;
    }
}

impl Model for Cured {
    ghost use Rattle.std.specs.Coded.{codes};
    ghost use Rattle.cured_code.specs.declared.parts.Parts.{Parts};
    ghost use Rattle.cured_code.specs.contracts.instr.Instr as instr;

    ghost Value = { Parts };

    ghost coded = { Prim.hlevel (codes, instr.the_row.coded) };

    ghost use Rattle.cured_code.specs.Ranges.{IsInRange};

    ghost view = { λ c. c.parts };

    ghost invariant = { λ c. IsInRange c.parts };
}

impl Cured {
    /// The program of these parts, where every number is in range and every limit is kept; else the parts are dropped.
    /// Takes no memory.
    pub fn new(parts: Parts) -> Option<Cured>
        ensures value { IfSome result (λ c. c ≡ parts) }
        ensures exact { IsSome result ↔ IsInRange parts }
    {
        if is_in_range(&parts) {
            Some(Cured { parts })
        } else {
            None
        }
    }

    /// The parts that the program was made of, which are in range. Takes no memory.
    pub fn parts(&self) -> &Parts
        ensures same { result.now ≡ self.now }
        ensures in_range { IsInRange self.now }
    {
        &self.parts
    }
}
