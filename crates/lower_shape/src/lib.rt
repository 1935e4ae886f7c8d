//! The code of a well typed unit is in shape. Each law is the contract of a function that does nothing, so that it is proved once and can be
//! cited.
#![tactic(auto)]

ghost use Rattle.c_tree.specs.TypedTree.{TypedTranslationUnit};
ghost use Rattle.c_unit_typing.specs.WellTyped.{IsWellTyped};
ghost use Rattle.cil_form.specs.Told.{IsToldOf};
ghost use Rattle.cil_form.specs.declared.program.Program.{Program};
ghost use Rattle.lower_shape.specs.Lowered.{IsLoweredFrom};
ghost use Rattle.lower_shape.specs.Theorems.{LoweredCodeIsInShape};

/// Lowered code is in shape: a program in three-address code that is lowered from a well typed unit within its limits, nested at most 256
/// levels deep, names what there is, in each instruction values of the types that it asks for, and keeps all limits of such programs.
pub fn lowered_code_is_in_shape()
    ensures { LoweredCodeIsInShape }
{}

/// The sites of lowered code tell all: of a program that is lowered from a well typed unit they tell what each pointer type points to, the
/// home of each object, each complete union, both ends of each flow and which types are of one name, and of each node one thing alone.
pub fn lowered_sites_are_told()
    ensures { (unit : TypedTranslationUnit) (program : Program) → IsWellTyped program.types unit
        → IsLoweredFrom unit program → IsToldOf program }
{}
