//! What judging gives for whole expressions is well typed, and erases to what was judged.
#![tactic(auto)]

ghost use Rattle.std.specs.Prelude.{Bool, ◌≡◌};
ghost use Rattle.c_tree.specs.Tree as tree;
ghost use Rattle.c_typing.specs.Judging.{Gives, State};
ghost use Rattle.c_typing.specs.Operands.{Operand};
ghost use Rattle.c_typing.specs.Settled.{IsJudged, IsKnown};
ghost use Rattle.c_typing.specs.Walks.{judge};
ghost use Rattle.c_typing_laws.specs.Theorems.{ArgumentsAreJudged};

/// What is judged of an expression and of arguments (C99 6.5).
pub fn an_expression_is_judged()
    ensures expression { (called : Bool) (e : tree.Expr) (o : Operand) (s r : State) → IsKnown s
        → judge called e s ≡ Gives o r → IsJudged e o s.seen.scopes s r }
    ensures arguments { ArgumentsAreJudged }
{}
