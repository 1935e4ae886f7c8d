//! The nodes that judging makes are numbered one after another, in the order of the text, from the next one on.
#![tactic(auto)]

ghost use Rattle.std.specs.Prelude.{Bool, ◌≡◌};
ghost use Rattle.cc_base.specs.declared.number.TypeId.{TypeId};
ghost use Rattle.cc_base.specs.declared.place.Place.{Place};
ghost use Rattle.c_tree.specs.Tree as tree;
ghost use Rattle.c_tree.specs.TypedParts.{made_by, made_by_parameters, made_by_specifiers, made_by_type_name};
ghost use Rattle.c_tree.specs.TypedTree.{TypedExpr, TypedParameters, TypedSpecifiers, TypedTypeName};
ghost use Rattle.c_typing.specs.Checking.{Constant, checked, checked_constant, checked_value};
ghost use Rattle.c_typing.specs.Judging.{Gives, State};
ghost use Rattle.c_typing.specs.Operands.{Operand};
ghost use Rattle.c_typing.specs.Settled.{IsKnown};
ghost use Rattle.c_typing.specs.Walks.{judge, judge_prototype, judge_specifiers_of, judge_type_name};
ghost use Rattle.c_typing_laws.specs.Numbers.{AreNumberedFrom, made_by_part};
ghost use Rattle.c_typing_laws.specs.Theorems.{DeclaratorsAreNumbered};

/// The nodes of an expression, of its value, of its value where it becomes one of a type, and of a constant.
pub fn nodes_of_expressions_are_numbered()
    ensures expression { (called : Bool) (e : tree.Expr) (o : Operand) (s r : State) → IsKnown s
        → judge called e s ≡ Gives o r → AreNumberedFrom (made_by_part o.part) s r }
    ensures value { (e : tree.Expr) (v : TypedExpr) (s r : State) → IsKnown s → checked e s
        ≡ Gives v r → AreNumberedFrom (made_by v) s r }
    ensures becomes { (t : TypeId) (at : Place) (init : Bool) (e : tree.Expr) (v : TypedExpr)
        (s r : State) → IsKnown s → checked_value t at init e s ≡ Gives v r
        → AreNumberedFrom (made_by v) s r }
    ensures constant { (e : tree.Expr) (c : Constant) (s r : State) → IsKnown s
        → checked_constant e s ≡ Gives c r → AreNumberedFrom (made_by c.expr) s r }
{}

/// The nodes of a type name, of specifiers, of a declarator and of a function's parameters.
pub fn nodes_of_declarators_are_numbered()
    ensures type_name { (name : tree.TypeName) (t : TypedTypeName) (s r : State) → IsKnown s
        → judge_type_name name s ≡ Gives t r → AreNumberedFrom (made_by_type_name t) s r }
    ensures specifiers { (alone : Bool) (all : tree.Specifiers) (t : TypedSpecifiers) (s r : State)
        → IsKnown s → judge_specifiers_of alone all s ≡ Gives t r
        → AreNumberedFrom (made_by_specifiers t) s r }
    ensures declarator { DeclaratorsAreNumbered }
    ensures prototype { (at : Place) (all : tree.Parameters) (list : TypedParameters) (s r : State)
        → IsKnown s → judge_prototype at all s ≡ Gives list r
        → AreNumberedFrom (made_by_parameters list) s r }
{}
