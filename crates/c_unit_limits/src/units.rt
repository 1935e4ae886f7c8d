//! A unit that judging gives is within its limits.
#![tactic(auto)]

ghost use Rattle.std.specs.Prelude.{◌≡◌};
ghost use Rattle.c_tree.specs.Tree as tree;
ghost use Rattle.c_tree.specs.TypedTree.{TypedTranslationUnit};
ghost use Rattle.c_unit_typing.specs.DefinitionJudging.{judged_unit};
ghost use Rattle.c_unit_typing.specs.Limits.{IsWithinLimits};
ghost use Rattle.c_unit_typing.specs.UnitJudging.{UnitState, Gives};

/// A unit that is given is within all its limits.
pub fn a_judged_unit_is_within_its_limits()
    ensures { (u : tree.TranslationUnit) (whole : TypedTranslationUnit) (r : UnitState)
        → judged_unit u ≡ Gives whole r → IsWithinLimits r.table whole }
{}
