//! The rules of a part take those for the parts inside as parameters, so that each is proved by itself.
#![tactic(auto)]

ghost use Rattle.std.specs.Prelude.{suc};
ghost use Rattle.c_tree.specs.Depth.{expr_height, specifier_list_height, declarator_height};
ghost use Rattle.c_tree.specs.Views.{expr_view, specifiers_view, declarator_view};
ghost use Rattle.c_tree.specs.TypedViews.{typed_specifiers_view, typed_form_view};
ghost use Rattle.c_typing.specs.Growing.{Grows};
ghost use Rattle.c_typing.specs.Judging.{Answers, known};
ghost use Rattle.c_check_walk.specs.Listed.{IsListed};
ghost use Rattle.c_check_walk.specs.Nests.{Nests};
ghost use Rattle.c_typing.specs.OperandViews.{operand_view, value_view};
ghost use Rattle.c_typing.specs.Walks as walks;

use c_tree::{Declarator, Expr, Specifiers, TypedForm, TypedSpecifiers};
use c_types::Types;
use c_typing::naming::Naming;
use c_typing::operand::{Operand, Value};
use c_typing::scope::Scope;
use c_typing::typing::value;
use cc_base::{Fault, Place};

/// What the rules of a part stand on.
#[derive(Clone, Copy)]
pub(crate) struct Walker<E, S, D> {
    /// Judges an expression; the flag says that it is what a call calls.
    pub(crate) judge_expr: E,
    /// Judges a list of specifiers.
    pub(crate) judge_specifiers: S,
    /// Judges what stands in a declarator, whose name is to be this and whose type is named at the place.
    pub(crate) judge_form: D,
}

impl<
    E: Fn(&mut Scope, &mut Types, bool, &Expr) -> Result<Operand, Fault>,
    S: Fn(&mut Scope, &mut Types, &Specifiers) -> Result<TypedSpecifiers, Fault>,
    D: Fn(&mut Scope, &mut Types, Naming, Place, &Declarator) -> Result<TypedForm, Fault>,
> Walker<E, S, D> {
    pub(crate) fn expr(
        &self,
        scope: &mut Scope,
        types: &mut Types,
        called: bool,
        e: &Expr,
    ) -> Result<Operand, Fault>
        requires nests { Nests (suc (expr_height (expr_view e.now))) (E.pre self.now.judge_expr)
            (E.post self.now.judge_expr) (S.pre self.now.judge_specifiers)
            (S.post self.now.judge_specifiers) (D.pre self.now.judge_form)
            (D.post self.now.judge_form) }
        ensures answers { Answers operand_view (walks.judge called (expr_view e.now)
            (known types.old scope.old)) result (known types.new scope.new) }
        ensures grows { Grows (known types.old scope.old) (known types.new scope.new) }
    {
        (self.judge_expr)(scope, types, called, e)
    }

    /// An expression whose value is taken.
    #[tactic(auto, unfolding(c_typing::specs::Walks::judge_value))]
    pub(crate) fn value(
        &self,
        scope: &mut Scope,
        types: &mut Types,
        e: &Expr,
    ) -> Result<Value, Fault>
        requires nests { Nests (suc (expr_height (expr_view e.now))) (E.pre self.now.judge_expr)
            (E.post self.now.judge_expr) (S.pre self.now.judge_specifiers)
            (S.post self.now.judge_specifiers) (D.pre self.now.judge_form)
            (D.post self.now.judge_form) }
        ensures answers { Answers value_view (walks.judge_value (expr_view e.now)
            (known types.old scope.old)) result (known types.new scope.new) }
        ensures grows { Grows (known types.old scope.old) (known types.new scope.new) }
    {
        let x = self.expr(scope, types, false, e)?;
        value(scope, types, x)
    }

    pub(crate) fn specifiers(
        &self,
        scope: &mut Scope,
        types: &mut Types,
        specifiers: &Specifiers,
    ) -> Result<TypedSpecifiers, Fault>
        requires nests { Nests (suc (specifier_list_height (specifiers_view specifiers.now)))
            (E.pre self.now.judge_expr) (E.post self.now.judge_expr)
            (S.pre self.now.judge_specifiers) (S.post self.now.judge_specifiers)
            (D.pre self.now.judge_form) (D.post self.now.judge_form) }
        ensures answers { Answers typed_specifiers_view (walks.judge_specifiers
            (specifiers_view specifiers.now) (known types.old scope.old)) result
            (known types.new scope.new) }
        ensures listed { IsListed (walks.judge_list (specifiers_view specifiers.now)
            (known types.old scope.old)) result (known types.new scope.new) }
        ensures grows { Grows (known types.old scope.old) (known types.new scope.new) }
    {
        (self.judge_specifiers)(scope, types, specifiers)
    }

    pub(crate) fn form(
        &self,
        scope: &mut Scope,
        types: &mut Types,
        which: Naming,
        at: Place,
        d: &Declarator,
    ) -> Result<TypedForm, Fault>
        requires nests { Nests (suc (declarator_height (declarator_view d.now)))
            (E.pre self.now.judge_expr) (E.post self.now.judge_expr)
            (S.pre self.now.judge_specifiers) (S.post self.now.judge_specifiers)
            (D.pre self.now.judge_form) (D.post self.now.judge_form) }
        ensures answers { Answers typed_form_view (walks.judge_form which at (declarator_view d.now)
            (known types.old scope.old)) result (known types.new scope.new) }
        ensures grows { Grows (known types.old scope.old) (known types.new scope.new) }
    {
        (self.judge_form)(scope, types, which, at, d)
    }
}
