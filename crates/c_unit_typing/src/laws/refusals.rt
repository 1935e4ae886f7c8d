//! What judging refuses of declarations, statements and units breaks the rule that is named, over the table where it stopped.
#![tactic(auto)]

ghost use Rattle.std.specs.Prelude.{◌≡◌};
ghost use Rattle.cc_base.specs.declared.fault.Fault.TheVariants.{Refused};
ghost use Rattle.cc_base.specs.declared.fault.Rule.{Rule};
ghost use Rattle.cc_base.specs.declared.place.Place.{Place};
ghost use Rattle.c_tree.specs.Tree as tree;
ghost use Rattle.c_unit_typing.specs.DefinitionJudging.{before_unit, judged_unit};
ghost use Rattle.c_unit_typing.specs.UnitJudging.{UnitState, Stops, known_of};
ghost use Rattle.c_unit_typing.specs.UnitRefusals.{RefusesUnit};

/// A unit that is refused breaks the first rule that fails in the order of its text, or has no `main` (C99 5.1.2.2.1).
pub fn a_refused_unit_breaks_its_rule()
    ensures { (u : tree.TranslationUnit) (p : Place) (t : Rule) (r : UnitState) → judged_unit u
        ≡ Stops (Refused p t) r → RefusesUnit r.table u (known_of (before_unit u)) (Refused p t) }
{}
