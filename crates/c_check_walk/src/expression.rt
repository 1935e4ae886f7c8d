//! The rules of an expression, over those of its parts, which are judged in the order of the text (C99 6.5).
#![tactic(auto)]

ghost use Rattle.std.specs.Prelude.{◌≡◌, true, map, suc};
ghost use Rattle.c_tree.specs.Depth.{arguments_height, expr_height};
ghost use Rattle.c_tree.specs.declared.operator.Assignment.TheVariants as assignment;
ghost use Rattle.c_tree.specs.Tree as tree;
ghost use Rattle.c_tree.specs.Views.{arguments_of, expr_view, type_name_view};
ghost use Rattle.c_typing.specs.Growing.{Grows};
ghost use Rattle.c_typing.specs.Judging.{Answers, known};
ghost use Rattle.c_check_walk.specs.Nests.{Nests};
ghost use Rattle.c_typing.specs.OperandViews.{operand_view, value_view};
ghost use Rattle.c_typing.specs.Rules as rules;
ghost use Rattle.c_typing.specs.Walks as walks;

use crate::walker::Walker;
use c_check_operators::assigning::{assign, update_by};
use c_check_operators::binary::{index, infix_of};
use c_check_operators::calls::call;
use c_check_operators::casting::{cast, size_of_type};
use c_check_operators::choosing::{choice, comma};
use c_check_operators::leaf::{character, integer, paren};
use c_check_operators::literals::literal;
use c_check_operators::member_places::{member, pointed_member};
use c_check_operators::names::name;
use c_check_operators::step::{prefix, step_after};
use c_tree::{
    Assignment, Binary, Declarator, Expr, Identifier, MemberOperator, Specifiers, Step, TypeName,
    TypedForm, TypedSpecifiers, Unary,
};
use c_types::Types;
use c_typing::naming::Naming;
use c_typing::operand::{Operand, Value};
use c_typing::scope::Scope;
use c_typing::typing::value;
use cc_base::{Fault, Place};

impl<
    E: Fn(&mut Scope, &mut Types, bool, &Expr) -> Result<Operand, Fault>,
    S: Fn(&mut Scope, &mut Types, &Specifiers) -> Result<TypedSpecifiers, Fault>,
    D: Fn(&mut Scope, &mut Types, Naming, Place, &Declarator) -> Result<TypedForm, Fault>,
> Walker<E, S, D> {
    /// `a[b]`.
    #[tactic(auto, using(crate::proofs::NestLaws::nests), unfolding(c_typing::specs::Walks::judge, c_typing::specs::Walks::judge_value))]
    fn index_layer(
        &self,
        scope: &mut Scope,
        types: &mut Types,
        called: bool,
        a: &Expr,
        at: Place,
        b: &Expr,
    ) -> Result<Operand, Fault>
        requires nests { Nests (expr_height (tree.Index (expr_view a.now) at (expr_view b.now)))
            (E.pre self.now.judge_expr) (E.post self.now.judge_expr)
            (S.pre self.now.judge_specifiers) (S.post self.now.judge_specifiers)
            (D.pre self.now.judge_form) (D.post self.now.judge_form) }
        ensures answers { Answers operand_view (walks.judge called
            (tree.Index (expr_view a.now) at (expr_view b.now)) (known types.old scope.old)) result
            (known types.new scope.new) }
        ensures grows { Grows (known types.old scope.old) (known types.new scope.new) }
    {
        let x = self.value(scope, types, a)?;
        let y = self.value(scope, types, b)?;
        index(scope, types, x, at, y)
    }

    /// An operator of two operands.
    #[tactic(auto, using(crate::proofs::NestLaws::nests), unfolding(c_typing::specs::Walks::judge, c_typing::specs::Walks::judge_value))]
    fn infix_layer(
        &self,
        scope: &mut Scope,
        types: &mut Types,
        called: bool,
        operator: Binary,
        a: &Expr,
        at: Place,
        b: &Expr,
    ) -> Result<Operand, Fault>
        requires nests { Nests (expr_height (tree.Infix operator (expr_view a.now) at
            (expr_view b.now))) (E.pre self.now.judge_expr) (E.post self.now.judge_expr)
            (S.pre self.now.judge_specifiers) (S.post self.now.judge_specifiers)
            (D.pre self.now.judge_form) (D.post self.now.judge_form) }
        ensures answers { Answers operand_view (walks.judge called
            (tree.Infix operator (expr_view a.now) at (expr_view b.now))
            (known types.old scope.old)) result (known types.new scope.new) }
        ensures grows { Grows (known types.old scope.old) (known types.new scope.new) }
    {
        let x = self.value(scope, types, a)?;
        let y = self.value(scope, types, b)?;
        infix_of(scope, types, operator, x, at, y)
    }

    /// `,`.
    #[tactic(auto, using(crate::proofs::NestLaws::nests), unfolding(c_typing::specs::Walks::judge, c_typing::specs::Walks::judge_value))]
    fn comma_layer(
        &self,
        scope: &mut Scope,
        types: &mut Types,
        called: bool,
        a: &Expr,
        b: &Expr,
    ) -> Result<Operand, Fault>
        requires nests { Nests (expr_height (tree.Comma (expr_view a.now) (expr_view b.now)))
            (E.pre self.now.judge_expr) (E.post self.now.judge_expr)
            (S.pre self.now.judge_specifiers) (S.post self.now.judge_specifiers)
            (D.pre self.now.judge_form) (D.post self.now.judge_form) }
        ensures answers { Answers operand_view (walks.judge called
            (tree.Comma (expr_view a.now) (expr_view b.now)) (known types.old scope.old)) result
            (known types.new scope.new) }
        ensures grows { Grows (known types.old scope.old) (known types.new scope.new) }
    {
        let x = self.value(scope, types, a)?;
        let y = self.value(scope, types, b)?;
        comma(scope, types, x, y)
    }

    /// An operator before its operand.
    #[tactic(auto, unfolding(c_typing::specs::Walks::judge, c_typing::specs::Walks::judge_value))]
    fn prefix_layer(
        &self,
        scope: &mut Scope,
        types: &mut Types,
        called: bool,
        operator: Unary,
        at: Place,
        e: &Expr,
    ) -> Result<Operand, Fault>
        requires nests { Nests (expr_height (tree.Prefix operator at (expr_view e.now)))
            (E.pre self.now.judge_expr) (E.post self.now.judge_expr)
            (S.pre self.now.judge_specifiers) (S.post self.now.judge_specifiers)
            (D.pre self.now.judge_form) (D.post self.now.judge_form) }
        ensures answers { Answers operand_view (walks.judge called
            (tree.Prefix operator at (expr_view e.now)) (known types.old scope.old)) result
            (known types.new scope.new) }
        ensures grows { Grows (known types.old scope.old) (known types.new scope.new) }
    {
        let x = self.expr(scope, types, false, e)?;
        prefix(scope, types, operator, at, x)
    }

    /// `++` or `--` after its operand.
    #[tactic(auto, unfolding(c_typing::specs::Walks::judge, c_typing::specs::Walks::judge_value))]
    fn postfix_layer(
        &self,
        scope: &mut Scope,
        types: &mut Types,
        called: bool,
        e: &Expr,
        operator: Step,
        at: Place,
    ) -> Result<Operand, Fault>
        requires nests { Nests (expr_height (tree.Postfix (expr_view e.now) operator at))
            (E.pre self.now.judge_expr) (E.post self.now.judge_expr)
            (S.pre self.now.judge_specifiers) (S.post self.now.judge_specifiers)
            (D.pre self.now.judge_form) (D.post self.now.judge_form) }
        ensures answers { Answers operand_view (walks.judge called
            (tree.Postfix (expr_view e.now) operator at) (known types.old scope.old)) result
            (known types.new scope.new) }
        ensures grows { Grows (known types.old scope.old) (known types.new scope.new) }
    {
        let x = self.expr(scope, types, false, e)?;
        step_after(scope, types, operator, at, x)
    }

    /// `?:`.
    #[tactic(auto, using(crate::proofs::NestLaws::nests), unfolding(c_typing::specs::Walks::judge, c_typing::specs::Walks::judge_value))]
    fn conditional_layer(
        &self,
        scope: &mut Scope,
        types: &mut Types,
        called: bool,
        c: &Expr,
        at: Place,
        a: &Expr,
        b: &Expr,
    ) -> Result<Operand, Fault>
        requires nests { Nests (expr_height (tree.Conditional (expr_view c.now) at (expr_view a.now)
            (expr_view b.now))) (E.pre self.now.judge_expr) (E.post self.now.judge_expr)
            (S.pre self.now.judge_specifiers) (S.post self.now.judge_specifiers)
            (D.pre self.now.judge_form) (D.post self.now.judge_form) }
        ensures answers { Answers operand_view (walks.judge called
            (tree.Conditional (expr_view c.now) at (expr_view a.now) (expr_view b.now))
            (known types.old scope.old)) result (known types.new scope.new) }
        ensures grows { Grows (known types.old scope.old) (known types.new scope.new) }
    {
        let z = self.value(scope, types, c)?;
        let x = self.value(scope, types, a)?;
        let y = self.value(scope, types, b)?;
        choice(scope, types, z, at, x, y)
    }

    /// `=`.
    #[tactic(auto, using(crate::proofs::NestLaws::nests), unfolding(c_typing::specs::Walks::judge, c_typing::specs::Walks::judge_value))]
    fn assign_layer(
        &self,
        scope: &mut Scope,
        types: &mut Types,
        called: bool,
        a: &Expr,
        at: Place,
        b: &Expr,
    ) -> Result<Operand, Fault>
        requires nests { Nests (expr_height (tree.Assign assignment.Assign (expr_view a.now) at
            (expr_view b.now))) (E.pre self.now.judge_expr) (E.post self.now.judge_expr)
            (S.pre self.now.judge_specifiers) (S.post self.now.judge_specifiers)
            (D.pre self.now.judge_form) (D.post self.now.judge_form) }
        ensures answers { Answers operand_view (walks.judge called
            (tree.Assign assignment.Assign (expr_view a.now) at (expr_view b.now))
            (known types.old scope.old)) result (known types.new scope.new) }
        ensures grows { Grows (known types.old scope.old) (known types.new scope.new) }
    {
        let x = self.expr(scope, types, false, a)?;
        let y = self.expr(scope, types, false, b)?;
        assign(scope, types, x, at, y)
    }

    /// A compound assignment.
    #[tactic(auto, using(crate::proofs::NestLaws::nests, crate::proofs::ExprLaws::update_judged))]
    fn update_layer(
        &self,
        scope: &mut Scope,
        types: &mut Types,
        called: bool,
        operator: Assignment,
        a: &Expr,
        at: Place,
        b: &Expr,
    ) -> Result<Operand, Fault>
        requires compound { rules.is_compound operator ≡ true }
        requires nests { Nests (expr_height (tree.Assign operator (expr_view a.now) at
            (expr_view b.now))) (E.pre self.now.judge_expr) (E.post self.now.judge_expr)
            (S.pre self.now.judge_specifiers) (S.post self.now.judge_specifiers)
            (D.pre self.now.judge_form) (D.post self.now.judge_form) }
        ensures answers { Answers operand_view (walks.judge called
            (tree.Assign operator (expr_view a.now) at (expr_view b.now))
            (known types.old scope.old)) result (known types.new scope.new) }
        ensures grows { Grows (known types.old scope.old) (known types.new scope.new) }
    {
        let x = self.expr(scope, types, false, a)?;
        let y = self.value(scope, types, b)?;
        update_by(scope, types, operator, x, at, y)
    }

    /// `sizeof` of a type name.
    #[tactic(auto, unfolding(c_typing::specs::Walks::judge, c_typing::specs::Walks::judge_value))]
    fn size_layer(
        &self,
        scope: &mut Scope,
        types: &mut Types,
        called: bool,
        at: Place,
        paren: Place,
        name: &TypeName,
    ) -> Result<Operand, Fault>
        requires nests { Nests (expr_height (tree.SizeOfType at paren (type_name_view name.now)))
            (E.pre self.now.judge_expr) (E.post self.now.judge_expr)
            (S.pre self.now.judge_specifiers) (S.post self.now.judge_specifiers)
            (D.pre self.now.judge_form) (D.post self.now.judge_form) }
        ensures answers { Answers operand_view (walks.judge called
            (tree.SizeOfType at paren (type_name_view name.now)) (known types.old scope.old)) result
            (known types.new scope.new) }
        ensures grows { Grows (known types.old scope.old) (known types.new scope.new) }
    {
        let name = self.type_name(scope, types, name)?;
        size_of_type(scope, types, at, paren, name)
    }

    /// A cast.
    #[tactic(auto, using(crate::proofs::NestLaws::nests), unfolding(c_typing::specs::Walks::judge, c_typing::specs::Walks::judge_value))]
    fn cast_layer(
        &self,
        scope: &mut Scope,
        types: &mut Types,
        called: bool,
        at: Place,
        name: &TypeName,
        e: &Expr,
    ) -> Result<Operand, Fault>
        requires nests { Nests (expr_height (tree.Cast at (type_name_view name.now)
            (expr_view e.now))) (E.pre self.now.judge_expr) (E.post self.now.judge_expr)
            (S.pre self.now.judge_specifiers) (S.post self.now.judge_specifiers)
            (D.pre self.now.judge_form) (D.post self.now.judge_form) }
        ensures answers { Answers operand_view (walks.judge called
            (tree.Cast at (type_name_view name.now) (expr_view e.now)) (known types.old scope.old))
            result (known types.new scope.new) }
        ensures grows { Grows (known types.old scope.old) (known types.new scope.new) }
    {
        let to = self.type_name(scope, types, name)?;
        let x = self.expr(scope, types, false, e)?;
        cast(scope, types, at, to, x)
    }

    /// An expression in parentheses.
    #[tactic(auto, unfolding(c_typing::specs::Walks::judge))]
    fn paren_layer(
        &self,
        scope: &mut Scope,
        types: &mut Types,
        called: bool,
        at: Place,
        e: &Expr,
    ) -> Result<Operand, Fault>
        requires nests { Nests (expr_height (tree.Paren at (expr_view e.now)))
            (E.pre self.now.judge_expr) (E.post self.now.judge_expr)
            (S.pre self.now.judge_specifiers) (S.post self.now.judge_specifiers)
            (D.pre self.now.judge_form) (D.post self.now.judge_form) }
        ensures answers { Answers operand_view (walks.judge called (tree.Paren at (expr_view e.now))
            (known types.old scope.old)) result (known types.new scope.new) }
        ensures grows { Grows (known types.old scope.old) (known types.new scope.new) }
    {
        let x = self.expr(scope, types, called, e)?;
        paren(scope, types, at, x)
    }

    /// A member.
    #[tactic(auto, unfolding(c_typing::specs::Walks::judge, c_typing::specs::Walks::judge_value))]
    fn member_layer(
        &self,
        scope: &mut Scope,
        types: &mut Types,
        called: bool,
        e: &Expr,
        operator: MemberOperator,
        at: Place,
        word: &Identifier,
    ) -> Result<Operand, Fault>
        requires nests { Nests (expr_height (tree.Member (expr_view e.now) operator at word.now))
            (E.pre self.now.judge_expr) (E.post self.now.judge_expr)
            (S.pre self.now.judge_specifiers) (S.post self.now.judge_specifiers)
            (D.pre self.now.judge_form) (D.post self.now.judge_form) }
        ensures answers { Answers operand_view (walks.judge called
            (tree.Member (expr_view e.now) operator at word.now) (known types.old scope.old)) result
            (known types.new scope.new) }
        ensures grows { Grows (known types.old scope.old) (known types.new scope.new) }
    {
        match operator {
            MemberOperator::Dot => {
                let x = self.expr(scope, types, false, e)?;
                member(scope, types, x, at, word)
            }
            MemberOperator::Arrow => {
                let x = self.value(scope, types, e)?;
                pointed_member(scope, types, x, at, word)
            }
        }
    }

    /// Arguments, one after another.
    #[tactic(auto, using(crate::proofs::StayLaws::none_judged))]
    fn arguments(
        &self,
        scope: &mut Scope,
        types: &mut Types,
        list: &[Expr],
    ) -> Result<Vec<Value>, Fault>
        requires nests { Nests (suc (arguments_height (arguments_of (map expr_view list.now))))
            (E.pre self.now.judge_expr) (E.post self.now.judge_expr)
            (S.pre self.now.judge_specifiers) (S.post self.now.judge_specifiers)
            (D.pre self.now.judge_form) (D.post self.now.judge_form) }
        ensures answers { Answers (λ values. map value_view values.items)
            (walks.judge_arguments (arguments_of (map expr_view list.now))
            (known types.old scope.old)) result (known types.new scope.new) }
        ensures grows { Grows (known types.old scope.old) (known types.new scope.new) }
    {
        let mut values = Vec::new(scope.alloc());
        for e in list {
            values.push(self.value(scope, types, e)?)?;
        }
        Ok(values)
    }

    /// A call.
    #[tactic(auto, using(crate::proofs::NestLaws::nests), unfolding(c_typing::specs::Walks::judge))]
    fn call_layer(
        &self,
        scope: &mut Scope,
        types: &mut Types,
        called: bool,
        f: &Expr,
        at: Place,
        arguments: &[Expr],
    ) -> Result<Operand, Fault>
        requires nests { Nests (expr_height (tree.Call (expr_view f.now) at
            (arguments_of (map expr_view arguments.now)))) (E.pre self.now.judge_expr)
            (E.post self.now.judge_expr) (S.pre self.now.judge_specifiers)
            (S.post self.now.judge_specifiers) (D.pre self.now.judge_form)
            (D.post self.now.judge_form) }
        ensures answers { Answers operand_view (walks.judge called
            (tree.Call (expr_view f.now) at (arguments_of (map expr_view arguments.now)))
            (known types.old scope.old)) result (known types.new scope.new) }
        ensures grows { Grows (known types.old scope.old) (known types.new scope.new) }
    {
        let x = self.expr(scope, types, true, f)?;
        let f = value(scope, types, x)?;
        let values = self.arguments(scope, types, arguments)?;
        call(scope, types, f, at, values)
    }

    /// An assignment.
    fn assignment_layer(
        &self,
        scope: &mut Scope,
        types: &mut Types,
        called: bool,
        operator: Assignment,
        a: &Expr,
        at: Place,
        b: &Expr,
    ) -> Result<Operand, Fault>
        requires nests { Nests (expr_height (tree.Assign operator (expr_view a.now) at
            (expr_view b.now))) (E.pre self.now.judge_expr) (E.post self.now.judge_expr)
            (S.pre self.now.judge_specifiers) (S.post self.now.judge_specifiers)
            (D.pre self.now.judge_form) (D.post self.now.judge_form) }
        ensures answers { Answers operand_view (walks.judge called
            (tree.Assign operator (expr_view a.now) at (expr_view b.now))
            (known types.old scope.old)) result (known types.new scope.new) }
        ensures grows { Grows (known types.old scope.old) (known types.new scope.new) }
    {
        match operator {
            Assignment::Assign => self.assign_layer(scope, types, called, a, at, b),
            _ => self.update_layer(scope, types, called, operator, a, at, b),
        }
    }

    /// An expression.
    #[tactic(auto, using(c_tree::proofs::ViewLaws::expr_views))]
    pub(crate) fn expr_layer(
        &self,
        scope: &mut Scope,
        types: &mut Types,
        called: bool,
        e: &Expr,
    ) -> Result<Operand, Fault>
        requires nests { Nests (expr_height (expr_view e.now)) (E.pre self.now.judge_expr)
            (E.post self.now.judge_expr) (S.pre self.now.judge_specifiers)
            (S.post self.now.judge_specifiers) (D.pre self.now.judge_form)
            (D.post self.now.judge_form) }
        ensures answers { Answers operand_view (walks.judge called (expr_view e.now)
            (known types.old scope.old)) result (known types.new scope.new) }
        ensures grows { Grows (known types.old scope.old) (known types.new scope.new) }
    {
        match e {
            Expr::Name(word) => name(scope, types, called, word),
            Expr::Integer(of, value, at) => integer(scope, types, *of, *value, *at),
            Expr::Character(value, at) => character(scope, types, *value, *at),
            Expr::String(pieces) => literal(scope, types, pieces.as_slice()),
            Expr::Paren(at, e) => self.paren_layer(scope, types, called, *at, e.get()),
            Expr::Index(a, at, b) => {
                self.index_layer(scope, types, called, a.get(), *at, b.get())
            }
            Expr::Call(f, at, arguments) => {
                self.call_layer(scope, types, called, f.get(), *at, arguments.as_slice())
            }
            Expr::Member(e, operator, at, word) => {
                self.member_layer(scope, types, called, e.get(), *operator, *at, word.get())
            }
            Expr::Postfix(e, step, at) => {
                self.postfix_layer(scope, types, called, e.get(), *step, *at)
            }
            Expr::Prefix(operator, at, e) => {
                self.prefix_layer(scope, types, called, *operator, *at, e.get())
            }
            Expr::SizeOfType(at, paren, name) => {
                self.size_layer(scope, types, called, *at, *paren, name.get())
            }
            Expr::Cast(at, name, e) => {
                self.cast_layer(scope, types, called, *at, name.get(), e.get())
            }
            Expr::Infix(operator, a, at, b) => {
                self.infix_layer(scope, types, called, *operator, a.get(), *at, b.get())
            }
            Expr::Conditional(c, at, a, b) => {
                self.conditional_layer(scope, types, called, c.get(), *at, a.get(), b.get())
            }
            Expr::Assign(operator, a, at, b) => {
                self.assignment_layer(scope, types, called, *operator, a.get(), *at, b.get())
            }
            Expr::Comma(a, b) => self.comma_layer(scope, types, called, a.get(), b.get()),
        }
    }
}
