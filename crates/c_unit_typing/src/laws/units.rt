//! What judging gives for declarations, statements and units is well typed, erases to what was judged, and numbers its nodes in the order
//! of the text.
#![tactic(auto)]

ghost use Rattle.std.specs.Prelude.{◌≡◌};
ghost use Rattle.c_tree.specs.Erasure.{erased_unit};
ghost use Rattle.c_tree.specs.Tree as tree;
ghost use Rattle.c_tree.specs.TypedTree.{TypedTranslationUnit};
ghost use Rattle.c_unit_typing.specs.DefinitionJudging.{judged_unit};
ghost use Rattle.c_unit_typing.specs.UnitJudging.{UnitState, Gives};
ghost use Rattle.c_unit_typing.specs.WellTyped.{IsWellTyped};

/// A unit that is given is well typed: its parts are, its nodes are numbered, and it has a `main`. It erases to the unit that was judged.
pub fn a_judged_unit_is_well_typed()
    ensures typed { (u : tree.TranslationUnit) (whole : TypedTranslationUnit) (r : UnitState)
        → judged_unit u ≡ Gives whole r → IsWellTyped r.table whole }
    ensures erases { (u : tree.TranslationUnit) (whole : TypedTranslationUnit) (r : UnitState)
        → judged_unit u ≡ Gives whole r → erased_unit whole ≡ u }
{}
