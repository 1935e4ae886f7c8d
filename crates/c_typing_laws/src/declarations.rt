//! What judging gives for specifiers, type names, declarators and prototypes is well typed, and erases to what was judged.
#![tactic(auto)]

ghost use Rattle.std.specs.Prelude.{Bool, false, ◌≡◌};
ghost use Rattle.cc_base.specs.declared.place.Place.{Place};
ghost use Rattle.c_tree.specs.Tree as tree;
ghost use Rattle.c_tree.specs.TypedTree.{TypedParameters, TypedSpecifierList, TypedSpecifiers, TypedTypeName};
ghost use Rattle.c_typing.specs.Judging.{Gives, State};
ghost use Rattle.c_typing.specs.Settled.{IsKnown, IsListJudged};
ghost use Rattle.c_typing.specs.Walks.{judge_list, judge_prototype, judge_specifiers, judge_specifiers_of, judge_type_name};
ghost use Rattle.c_typing_laws.specs.Judged.{AreSpecifiersJudged, IsPrototypeJudged, IsTypeNameJudged};
ghost use Rattle.c_typing_laws.specs.Theorems.{DeclaratorsAreJudged};

/// What is judged of a list of specifiers, and of the type that they name together (C99 6.7.2). `alone` says that no declarator follows them (C99 6.7.2.3).
pub fn specifiers_are_judged()
    ensures list { (all : tree.Specifiers) (list : TypedSpecifierList) (s r : State) → IsKnown s
        → judge_list all s ≡ Gives list r → IsListJudged all list s r }
    ensures whole { (all : tree.Specifiers) (t : TypedSpecifiers) (s r : State) → IsKnown s
        → judge_specifiers all s ≡ Gives t r → AreSpecifiersJudged false all t s r }
    ensures by_place { (alone : Bool) (all : tree.Specifiers) (t : TypedSpecifiers) (s r : State)
        → IsKnown s → judge_specifiers_of alone all s ≡ Gives t r
        → AreSpecifiersJudged alone all t s r }
{}

/// What is judged of a type name (C99 6.7.6).
pub fn a_type_name_is_judged()
    ensures { (name : tree.TypeName) (t : TypedTypeName) (s r : State) → IsKnown s
        → judge_type_name name s ≡ Gives t r → IsTypeNameJudged name t s r }
{}

/// What is judged of a declarator behind specifiers, and of a function's parameters by themselves (C99 6.7.5).
pub fn a_declarator_is_judged()
    ensures declarator { DeclaratorsAreJudged }
    ensures prototype { (at : Place) (all : tree.Parameters) (list : TypedParameters) (s r : State)
        → IsKnown s → judge_prototype at all s ≡ Gives list r → IsPrototypeJudged all list s r }
{}
