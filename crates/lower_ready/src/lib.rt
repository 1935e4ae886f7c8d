//! Each well typed unit within its limits has code: there are values enough for its expressions, each object that it names has a number, and
//! its homes are apart.
#![tactic(auto)]

ghost use Rattle.lower_ready.specs.Theorems.{UnitsHaveCode};

/// A well typed unit within its limits, nested at most 256 levels deep and with fewer than 2^32 nodes, has code: all of its functions and
/// static initialisers do, no two of its static objects or of the variables of one function have one home, and its functions are 65,535 at most.
pub fn a_well_typed_unit_has_code()
    ensures { UnitsHaveCode }
{}
