//! What is well typed of a unit is given by judging: where a typed unit over a table is numbered by its nodes and its types, judging its text
//! gives that tree. The law is the contract of a function that does nothing.
#![tactic(auto)]

ghost use Rattle.c_unit_given.specs.Theorems.{UnitsAreGiven, UnitsAreGivenOnce};

/// A unit of fewer than 2^29 tokens that is well typed over some table of types, and within its limits, is given: judging its text gives that
/// very tree (C99 6.9). So it is not refused, and no other tree makes the text well typed, over whichever table.
pub fn a_well_typed_unit_is_given()
    ensures given { UnitsAreGiven }
    ensures only { UnitsAreGivenOnce }
{}
