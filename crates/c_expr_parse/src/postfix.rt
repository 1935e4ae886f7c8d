//! Postfix expressions (C99 6.5.2).
ghost use Rattle.std.specs.Prelude.{suc, IfOk};
ghost use Rattle.c_tree.specs.Depth.{expr_height};
ghost use Rattle.c_tree.specs.Views.{expr_view};
ghost use Rattle.c_parse_words.specs.Seen.{names_of, suffix_view, Reads};
ghost use Rattle.c_parse_words.specs.Tests as tests;
ghost use Rattle.c_expr_parse.specs.ExprRules as spec;
ghost use Rattle.c_expr_parse.specs.Rules.{rules};
ghost use Rattle.c_expr_parse.specs.Nests.{Nests, IsMeasured};
ghost use Rattle.parse_rules.specs.Parsers.{loop};

use crate::boxing::boxed;
use crate::grammar::Grammar;
use c_parse_words::begins::Naming;
use c_parse_words::cursor::Cursor;
use c_parse_words::lookahead::{Suffix, has_suffix, is_close_bracket, is_close_paren, next_suffix};
use c_parse_words::measured::Measured;
use c_parse_words::stop::Stop;
use c_parse_words::words::Scope;
use c_tree::{Boxed, Declarator, Expr, MemberOperator, Specifiers, Step};
use cc_base::Place;
use indexmap::IndexSet;
use std::alloc::Global;

impl<
    'a,
    E: Fn(Global, &IndexSet<Vec<u8>>, &mut Cursor<'_>, u16, u8) -> Result<Measured<Expr>, Stop>,
    S: Fn(
        Global,
        &IndexSet<Vec<u8>>,
        &mut Cursor<'_>,
        u16,
        Scope,
    ) -> Result<Measured<Specifiers>, Stop>,
    D: Fn(
        Global,
        &IndexSet<Vec<u8>>,
        &mut Cursor<'_>,
        u16,
        Naming,
    ) -> Result<Measured<Declarator>, Stop>,
> Grammar<'a, E, S, D> {
    #[tactic(auto, using(c_tree::proofs::ViewLaws::expr_views), unfolding(crate::specs::ExprRules::with_suffix))]
    fn index(
        &self,
        cursor: &mut Cursor<'_>,
        e: Measured<Expr>,
        at: Place,
    ) -> Result<Measured<Expr>, Stop>
        requires nests { Nests self.now.names.now self.now.depth (E.pre self.now.read_expr)
            (E.post self.now.read_expr) (S.pre self.now.read_specifiers)
            (S.post self.now.read_specifiers) (D.pre self.now.read_declarator)
            (D.post self.now.read_declarator) }
        requires measured { IsMeasured (suc self.now.depth)
            (expr_height (expr_view e.tree)) e.height }
        ensures reads { Reads (λ m. expr_view m.tree) (spec.with_suffix
            (names_of self.now.names.now) self.now.depth
            (rules (names_of self.now.names.now) self.now.depth) (expr_view e.tree)
            (tests.IndexAt at) cursor.old) result cursor.new }
        ensures height { IfOk result (λ m. IsMeasured (suc self.now.depth)
            (expr_height (expr_view m.tree)) m.height) }
    {
        let e = boxed(self.alloc, e)?;
        cursor.take_above(self.depth, e.height)?;
        let index = boxed(self.alloc, self.expr(cursor, 0)?)?;
        let close = is_close_bracket(cursor.peek());
        cursor.expect(close)?;
        Ok(Measured {
            height: 1 + e.height.max(index.height),
            tree: Expr::Index(e.tree, at, index.tree),
        })
    }

    #[tactic(auto, using(c_tree::proofs::ViewLaws::expr_views), unfolding(crate::specs::ExprRules::with_suffix))]
    fn call(
        &self,
        cursor: &mut Cursor<'_>,
        e: Measured<Expr>,
        at: Place,
    ) -> Result<Measured<Expr>, Stop>
        requires nests { Nests self.now.names.now self.now.depth (E.pre self.now.read_expr)
            (E.post self.now.read_expr) (S.pre self.now.read_specifiers)
            (S.post self.now.read_specifiers) (D.pre self.now.read_declarator)
            (D.post self.now.read_declarator) }
        requires measured { IsMeasured (suc self.now.depth)
            (expr_height (expr_view e.tree)) e.height }
        ensures reads { Reads (λ m. expr_view m.tree) (spec.with_suffix
            (names_of self.now.names.now) self.now.depth
            (rules (names_of self.now.names.now) self.now.depth) (expr_view e.tree)
            (tests.CallAt at) cursor.old) result cursor.new }
        ensures height { IfOk result (λ m. IsMeasured (suc self.now.depth)
            (expr_height (expr_view m.tree)) m.height) }
    {
        let e = boxed(self.alloc, e)?;
        cursor.take_above(self.depth, e.height)?;
        let arguments = self.arguments(cursor)?;
        let close = is_close_paren(cursor.peek());
        cursor.expect(close)?;
        Ok(Measured {
            height: 1 + e.height.max(arguments.height),
            tree: Expr::Call(e.tree, at, arguments.tree),
        })
    }

    #[tactic(auto, using(c_tree::proofs::ViewLaws::expr_views), unfolding(crate::specs::ExprRules::with_suffix))]
    fn member(
        &self,
        cursor: &mut Cursor<'_>,
        e: Measured<Expr>,
        op: MemberOperator,
        at: Place,
    ) -> Result<Measured<Expr>, Stop>
        requires nests { Nests self.now.names.now self.now.depth (E.pre self.now.read_expr)
            (E.post self.now.read_expr) (S.pre self.now.read_specifiers)
            (S.post self.now.read_specifiers) (D.pre self.now.read_declarator)
            (D.post self.now.read_declarator) }
        requires measured { IsMeasured (suc self.now.depth)
            (expr_height (expr_view e.tree)) e.height }
        ensures reads { Reads (λ m. expr_view m.tree) (spec.with_suffix
            (names_of self.now.names.now) self.now.depth
            (rules (names_of self.now.names.now) self.now.depth) (expr_view e.tree)
            (tests.MemberAt op at) cursor.old) result cursor.new }
        ensures height { IfOk result (λ m. IsMeasured (suc self.now.depth)
            (expr_height (expr_view m.tree)) m.height) }
    {
        let e = boxed(self.alloc, e)?;
        cursor.take_above(self.depth, e.height)?;
        let name = Boxed::new(self.alloc, cursor.take_name(self.alloc)?)?;
        Ok(Measured {
            height: 1 + e.height,
            tree: Expr::Member(e.tree, op, at, name),
        })
    }

    #[tactic(auto, using(c_tree::proofs::ViewLaws::expr_views), unfolding(crate::specs::ExprRules::with_suffix))]
    fn step(
        &self,
        cursor: &mut Cursor<'_>,
        e: Measured<Expr>,
        step: Step,
        at: Place,
    ) -> Result<Measured<Expr>, Stop>
        requires nests { Nests self.now.names.now self.now.depth (E.pre self.now.read_expr)
            (E.post self.now.read_expr) (S.pre self.now.read_specifiers)
            (S.post self.now.read_specifiers) (D.pre self.now.read_declarator)
            (D.post self.now.read_declarator) }
        requires measured { IsMeasured (suc self.now.depth)
            (expr_height (expr_view e.tree)) e.height }
        ensures reads { Reads (λ m. expr_view m.tree) (spec.with_suffix
            (names_of self.now.names.now) self.now.depth
            (rules (names_of self.now.names.now) self.now.depth) (expr_view e.tree)
            (tests.StepAt step at) cursor.old) result cursor.new }
        ensures height { IfOk result (λ m. IsMeasured (suc self.now.depth)
            (expr_height (expr_view m.tree)) m.height) }
    {
        let e = boxed(self.alloc, e)?;
        cursor.take_above(self.depth, e.height)?;
        Ok(Measured {
            height: 1 + e.height,
            tree: Expr::Postfix(e.tree, step, at),
        })
    }

    #[tactic(auto, using(c_tree::proofs::ViewLaws::expr_views), unfolding(crate::specs::ExprRules::with_suffix))]
    fn with_suffix(
        &self,
        cursor: &mut Cursor<'_>,
        e: Measured<Expr>,
        suffix: Suffix,
    ) -> Result<Measured<Expr>, Stop>
        requires nests { Nests self.now.names.now self.now.depth (E.pre self.now.read_expr)
            (E.post self.now.read_expr) (S.pre self.now.read_specifiers)
            (S.post self.now.read_specifiers) (D.pre self.now.read_declarator)
            (D.post self.now.read_declarator) }
        requires measured { IsMeasured (suc self.now.depth)
            (expr_height (expr_view e.tree)) e.height }
        ensures reads { Reads (λ m. expr_view m.tree) (spec.with_suffix
            (names_of self.now.names.now) self.now.depth
            (rules (names_of self.now.names.now) self.now.depth) (expr_view e.tree)
            (suffix_view suffix) cursor.old) result cursor.new }
        ensures height { IfOk result (λ m. IsMeasured (suc self.now.depth)
            (expr_height (expr_view m.tree)) m.height) }
    {
        match suffix {
            Suffix::Index(at) => self.index(cursor, e, at),
            Suffix::Call(at) => self.call(cursor, e, at),
            Suffix::Member(op, at) => self.member(cursor, e, op, at),
            Suffix::Step(step, at) => self.step(cursor, e, step, at),
            Suffix::None => Err(Stop::Syntax),
        }
    }

    #[tactic(auto, using(c_tree::proofs::ViewLaws::expr_views), unfolding(crate::specs::ExprRules::postfix_step))]
    fn postfix_step(
        &self,
        cursor: &mut Cursor<'_>,
        e: Measured<Expr>,
    ) -> Result<Measured<Expr>, Stop>
        requires nests { Nests self.now.names.now self.now.depth (E.pre self.now.read_expr)
            (E.post self.now.read_expr) (S.pre self.now.read_specifiers)
            (S.post self.now.read_specifiers) (D.pre self.now.read_declarator)
            (D.post self.now.read_declarator) }
        requires measured { IsMeasured (suc self.now.depth)
            (expr_height (expr_view e.tree)) e.height }
        ensures reads { Reads (λ m. expr_view m.tree) (spec.postfix_step
            (names_of self.now.names.now) self.now.depth
            (rules (names_of self.now.names.now) self.now.depth) (expr_view e.tree) cursor.old)
            result cursor.new }
        ensures height { IfOk result (λ m. IsMeasured (suc self.now.depth)
            (expr_height (expr_view m.tree)) m.height) }
    {
        let suffix = next_suffix(cursor.peek());
        self.with_suffix(cursor, e, suffix)
    }

    /// What goes on from a primary expression.
    #[tactic(auto, using(c_tree::proofs::ViewLaws::expr_views), unfolding(crate::specs::ExprRules::postfix))]
    pub fn postfix(
        &self,
        cursor: &mut Cursor<'_>,
        first: Measured<Expr>,
    ) -> Result<Measured<Expr>, Stop>
        requires nests { Nests self.now.names.now self.now.depth (E.pre self.now.read_expr)
            (E.post self.now.read_expr) (S.pre self.now.read_specifiers)
            (S.post self.now.read_specifiers) (D.pre self.now.read_declarator)
            (D.post self.now.read_declarator) }
        requires measured { IsMeasured (suc self.now.depth)
            (expr_height (expr_view first.tree)) first.height }
        ensures reads { Reads (λ m. expr_view m.tree) (spec.postfix
            (names_of self.now.names.now) self.now.depth
            (rules (names_of self.now.names.now) self.now.depth) (expr_view first.tree) cursor.old)
            result cursor.new }
        ensures height { IfOk result (λ m. IsMeasured (suc self.now.depth)
            (expr_height (expr_view m.tree)) m.height) }
    {
        let mut e = first;
        for _turn in 0..cursor.left() {
            if !has_suffix(cursor.peek()) {
                return Ok(e);
            }
            e = self.postfix_step(cursor, e)?;
        }
        Ok(e)
    }
}
