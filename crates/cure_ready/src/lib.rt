//! What the curer asks of code in order to refuse nothing follows from the shape of the code, from the kinds and from the limits of
//! programs. Each law is the contract of a function that does nothing.
#![tactic(auto)]

ghost use Rattle.c_types.specs.Table.{Table};
ghost use Rattle.c_types.specs.Sound.{IsWellFormed};
ghost use Rattle.cil_form.specs.declared.instr.Instr.{Instr};
ghost use Rattle.cil_form.specs.Told.{AreAsked};
ghost use Rattle.cil_form.specs.Typing.{Context, Typing, IsShaped};
ghost use Rattle.cure_rules.specs.Known.{World};
ghost use Rattle.cure_points.specs.Cured.{AreMembersWhole};
ghost use Rattle.cure_objects.specs.Cured.{ArePartsWhole};
ghost use Rattle.cure_ready.specs.Curable.{IsCurable, CanBeCured};
ghost use Rattle.cure_ready.specs.Theorems.{FunctionsAreCurable, InitialisersAreCurable, ParametersCanBeStored};

/// No pointer has begun before a member, or before a part of an object, and ends in it.
pub fn parts_begin_between_pointers()
    ensures members { (table : Table) → IsWellFormed table → AreMembersWhole table }
    ensures parts { (table : Table) → IsWellFormed table → ArePartsWhole table }
{}

/// The curer refuses no instruction in shape: what its functions ask of the instruction is so, where kinds are a solution for the sites
/// of the program, and sites tell of each pointer that is known.
pub fn can_be_cured()
    ensures { (k : Context) (w : World) (i : Instr) (types after : Typing) → IsCurable k w
        → AreAsked k.sites types → IsShaped i k types after → CanBeCured i w types }
{}

/// The functions and the static initialisers of a program in shape are curable under a solution: the sites tell all of the program,
/// and function types have at most 127 parameters.
pub fn programs_are_curable()
    ensures functions { FunctionsAreCurable }
    ensures initialisers { InitialisersAreCurable }
{}

/// What the parameters of a function hold may be stored into their homes, which are SAFE or WILD.
pub fn parameters_can_be_stored()
    ensures { ParametersCanBeStored }
{}
