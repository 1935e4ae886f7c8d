//! What is given for the expressions that a unit asks for is well typed, and erases to what was judged.
#![tactic(auto)]

ghost use Rattle.std.specs.Prelude.{◌≡◌};
ghost use Rattle.c_tree.specs.Tree as tree;
ghost use Rattle.c_tree.specs.TypedTree.{TypedExpr};
ghost use Rattle.c_typing.specs.Checking.{Constant, checked, checked_constant};
ghost use Rattle.c_typing.specs.Judging.{Gives, State};
ghost use Rattle.c_typing.specs.Settled.{IsKnown};
ghost use Rattle.c_typing_laws.specs.Judged.{IsChecked, IsConstantJudged};
ghost use Rattle.c_typing_laws.specs.Theorems.{ConvertedValuesAreWellTyped};

/// The value of an expression, its value where it becomes one of a type (C99 6.5.16.1, 6.7.8, 6.8.6.4), and a constant with its value (C99 6.6).
pub fn a_checked_expression_is_well_typed()
    ensures value { (e : tree.Expr) (v : TypedExpr) (s r : State) → IsKnown s → checked e s
        ≡ Gives v r → IsChecked e v s r }
    ensures becomes { ConvertedValuesAreWellTyped }
    ensures constant { (e : tree.Expr) (c : Constant) (s r : State) → IsKnown s
        → checked_constant e s ≡ Gives c r → IsConstantJudged e c s r }
{}
