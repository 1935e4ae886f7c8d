//! The pointers that assignments of structs move: judging counts them.
#![tactic(auto)]

ghost use Rattle.std.specs.Prelude.{◌≡◌};
ghost use Rattle.c_tree.specs.Tree as tree;
ghost use Rattle.c_tree.specs.TypedTree.{TypedTranslationUnit};
ghost use Rattle.c_unit_typing.specs.DefinitionJudging.{judged_unit};
ghost use Rattle.c_unit_typing.specs.Limits.{pointers_copied};
ghost use Rattle.c_unit_typing.specs.UnitJudging.{UnitState, Gives};

/// What judging counts of a unit is what the limit counts.
pub fn judging_counts_the_pointers_of_the_limit()
    ensures { (u : tree.TranslationUnit) (whole : TypedTranslationUnit) (r : UnitState)
        → judged_unit u ≡ Gives whole r → r.seen.cells ≡ pointers_copied r.table whole }
{}
