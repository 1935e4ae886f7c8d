//! A well typed C program is wrong nowhere: what makes CCured sound, said of C. It is laws alone; no program calls it.
#![tactic(auto)]

ghost use Rattle.units_are_safe.specs.Laws.{CodeNumbersNoPointer, UnitsAreNeverWrong};

/// A well typed unit within its limits, nested at most 256 levels deep, under kinds that are a solution for the sites of its code,
/// runs wrong nowhere, on every input of bytes and with every number of turns: it exits, stops at a check, or wants turns or input.
/// An operation is wrong where it has no meaning on its operands; an access is wrong where it would touch a byte outside the
/// pointer's part (outside the object, for a WILD pointer), a byte outside the object, or an object that has ended. The unit's code
/// converts no pointer to an integer, which no typing rule allows.
pub fn c_programs_are_never_wrong()
    ensures code { CodeNumbersNoPointer }
    ensures runs { UnitsAreNeverWrong }
{}
