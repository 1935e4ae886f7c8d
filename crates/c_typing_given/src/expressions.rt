//! Expressions and type names are given: from a state at a point of a text, judging gives the tree that stands there, where its types are
//! numbered by their uses, and no limit is met. So it is with the values that declarations and statements ask of expressions.
#![tactic(auto)]

ghost use Rattle.c_types.specs.Table.{Table};
ghost use Rattle.c_tree.specs.Tree as tree;
ghost use Rattle.c_typing.specs.Settled.{IsBasic};
ghost use Rattle.c_typing_given.specs.Given.{IsGiven, IsNameGiven};
ghost use Rattle.c_typing_given.specs.Limits.{IsLimited};
ghost use Rattle.c_typing_given.specs.Theorems.{DroppedValuesAreGiven, ConstantsAreGiven, ReturnedValuesAreGiven, InitialValuesAreGiven, CopiedValuesAreGiven};

/// What is well typed of an expression is given, and so is a type name.
pub fn an_expression_is_given()
    ensures expression { (T : Table) (e : tree.Expr) → IsBasic T → IsLimited T → IsGiven T e }
    ensures name { (T : Table) (name : tree.TypeName) → IsBasic T → IsLimited T
        → IsNameGiven T name }
{}

/// A value that is dropped or tested is given without the conversion that is made of it, and an integer constant with its value.
pub fn a_value_is_given()
    ensures dropped { DroppedValuesAreGiven }
    ensures constant { ConstantsAreGiven }
{}

/// A value that is returned is given with its conversion to the result's type (C99 6.8.6.4), and so is one that initialises an object, also
/// where the object's type takes an allocation over (C99 6.7.8). A struct or union that initialises another one is not read.
pub fn a_value_for_a_type_is_given()
    ensures returned { ReturnedValuesAreGiven }
    ensures initial { InitialValuesAreGiven }
    ensures copied { CopiedValuesAreGiven }
{}
