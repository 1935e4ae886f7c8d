//! The objects that last in what is well typed: its literals, each as large as its type, and the object that its own name declares.
#![tactic(auto)]

ghost use Rattle.std.specs.Prelude.{◌≡◌};
ghost use Rattle.c_tree.specs.Tree as tree;
ghost use Rattle.c_tree.specs.TypedTree.{TypedTranslationUnit};
ghost use Rattle.c_unit_typing.specs.DefinitionJudging.{judged_unit};
ghost use Rattle.c_unit_typing.specs.Limits.{global_bytes};
ghost use Rattle.c_unit_typing.specs.UnitJudging.{UnitState, Gives};

/// What judging counts of a unit is what the limit counts.
pub fn judging_counts_what_the_limit_counts()
    ensures { (u : tree.TranslationUnit) (whole : TypedTranslationUnit) (r : UnitState)
        → judged_unit u ≡ Gives whole r → r.seen.globals ≡ global_bytes r.table whole }
{}
