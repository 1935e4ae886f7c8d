//! How many values a judged expression holds at once.
#![tactic(auto)]

ghost use Rattle.std.specs.Prelude.{Bool, ◌≡◌};
ghost use Rattle.c_tree.specs.Tree as tree;
ghost use Rattle.c_typing.specs.Held.{held};
ghost use Rattle.c_typing.specs.Judging.{Gives, State};
ghost use Rattle.c_typing.specs.Operands.{Operand};
ghost use Rattle.c_typing.specs.Walks.{judge};

/// What judging counts is what the expression holds.
pub fn a_judged_expression_holds_its_values()
    ensures { (called : Bool) (e : tree.Expr) (o : Operand) (s r : State) → judge called e s
        ≡ Gives o r → o.held ≡ held e }
{}
