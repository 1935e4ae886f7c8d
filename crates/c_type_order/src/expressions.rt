//! What expressions use: types, and in their type names sizes of arrays, which are of 64 bits, and members, which have names.
#![tactic(auto)]

ghost use Rattle.std.specs.Prelude.{Bool, List, ◌≡◌};
ghost use Rattle.c_tree.specs.Tree as tree;
ghost use Rattle.c_tree.specs.TypedTree.{TypedExpr};
ghost use Rattle.c_typing.specs.Checking.{Constant, checked, checked_constant};
ghost use Rattle.c_typing.specs.Judging.{Gives, State};
ghost use Rattle.c_typing.specs.Operands.{Operand, Value};
ghost use Rattle.c_typing.specs.Settled.{IsKnown};
ghost use Rattle.c_typing.specs.Walks.{judge, judge_arguments};
ghost use Rattle.c_type_order.specs.TypesUsed.{used_by};
ghost use Rattle.c_type_order.specs.Uses.{IsUsed, used_by_part, used_by_values};
ghost use Rattle.c_type_order.specs.Theorems.{ConversionsUseTypesInOrder};

/// What an expression, arguments, a value, a value that becomes one of a type, and a constant use.
pub fn types_of_expressions_are_used_in_order()
    ensures expression { (called : Bool) (e : tree.Expr) (o : Operand) (s r : State) → IsKnown s
        → judge called e s ≡ Gives o r → IsUsed (λ T. used_by_part T o.part) s.table r.table }
    ensures arguments { (all : tree.Arguments) (values : List Value) (s r : State) → IsKnown s
        → judge_arguments all s ≡ Gives values r → IsUsed (used_by_values values) s.table r.table }
    ensures value { (e : tree.Expr) (v : TypedExpr) (s r : State) → IsKnown s → checked e s
        ≡ Gives v r → IsUsed (λ T. used_by T v) s.table r.table }
    ensures becomes { ConversionsUseTypesInOrder }
    ensures constant { (e : tree.Expr) (c : Constant) (s r : State) → IsKnown s
        → checked_constant e s ≡ Gives c r → IsUsed (λ T. used_by T c.expr) s.table r.table }
{}
