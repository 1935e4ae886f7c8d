//! Where judging refuses, it breaks the rule that is named: the first one that fails, in the order in which the parts of the text are judged.
#![tactic(auto)]

ghost use Rattle.std.specs.Prelude.{false, ◌≡◌};
ghost use Rattle.cc_base.specs.declared.fault.Fault.TheVariants.{Refused};
ghost use Rattle.cc_base.specs.declared.fault.Rule.{Rule};
ghost use Rattle.cc_base.specs.declared.place.Place.{Place};
ghost use Rattle.c_tree.specs.Tree as tree;
ghost use Rattle.c_typing.specs.Checking.{checked};
ghost use Rattle.c_typing.specs.Judging.{State, Stops};
ghost use Rattle.c_typing.specs.Refusals.{Refuses};
ghost use Rattle.c_typing.specs.Settled.{IsKnown};
ghost use Rattle.c_typing_laws.specs.Judged.{IsRefused};
ghost use Rattle.c_typing_laws.specs.Theorems.{RefusedExpressionsBreakTheirRule, RefusedArgumentsBreakTheirRule, RefusedTypeNamesBreakTheirRule, RefusedSpecifiersBreakTheirRule, RefusedSpecifiersAtAPlaceBreakTheirRule, RefusedDeclaratorsBreakTheirRule, RefusedPrototypesBreakTheirRule, RefusedConversionsBreakTheirRule, RefusedConstantsBreakTheirRule};

/// What is refused of an expression and of arguments (C99 6.5): a part that is judged before breaks no rule.
pub fn a_refused_expression_breaks_its_first_rule()
    ensures expression { RefusedExpressionsBreakTheirRule }
    ensures arguments { RefusedArgumentsBreakTheirRule }
{}

/// What is refused of a type name, of specifiers, of a declarator and of a function's parameters (C99 6.7). `alone` says that no declarator follows.
pub fn a_refused_declarator_breaks_its_first_rule()
    ensures type_name { RefusedTypeNamesBreakTheirRule }
    ensures whole { RefusedSpecifiersBreakTheirRule }
    ensures by_place { RefusedSpecifiersAtAPlaceBreakTheirRule }
    ensures declarator { RefusedDeclaratorsBreakTheirRule }
    ensures prototype { RefusedPrototypesBreakTheirRule }
{}

/// What is refused of an expression that a unit asks for, of its value where it becomes one of a type, and of a constant (C99 6.6, 6.7.8, 6.8.6.4).
pub fn a_refused_check_breaks_its_first_rule()
    ensures value { (e : tree.Expr) (s : State) (p : Place) (t : Rule) (r : State) → IsKnown s
        → checked e s ≡ Stops (Refused p t) r
        → IsRefused (λ T. Refuses T false e s.seen.scopes (Refused p t)) s r }
    ensures becomes { RefusedConversionsBreakTheirRule }
    ensures constant { RefusedConstantsBreakTheirRule }
{}
