//! Binary operators, by precedence and grouping (C99 6.5.5 to 6.5.14).
ghost use Rattle.std.specs.Prelude.{suc, IfOk};
ghost use Rattle.parse_rules.specs.Parsers.{loop};
ghost use Rattle.c_tree.specs.Depth.{expr_height};
ghost use Rattle.c_tree.specs.Views.{expr_view};
ghost use Rattle.std.specs.Prelude.{Some};
ghost use Rattle.c_parse_words.specs.Seen.{names_of, Reads};
ghost use Rattle.c_parse_words.specs.Tests as tests;
ghost use Rattle.c_expr_parse.specs.ExprRules as spec;
ghost use Rattle.c_expr_parse.specs.Rules.{rules};
ghost use Rattle.c_expr_parse.specs.Nests.{Nests, IsMeasured};

use crate::boxing::boxed;
use crate::grammar::Grammar;
use c_parse_words::begins::Naming;
use c_parse_words::cursor::Cursor;
use c_parse_words::lookahead::{binary_operator, binds};
use c_parse_words::measured::Measured;
use c_parse_words::operators::precedence;
use c_parse_words::stop::Stop;
use c_parse_words::words::Scope;
use c_tree::{Binary, Declarator, Expr, Specifiers};
use cc_base::Place;
use indexmap::IndexSet;
use std::alloc::Global;

impl<
    'a,
    E: Fn(Global, &IndexSet<Vec<u8>>, &mut Cursor<'_>, u16, u8) -> Result<Measured<Expr>, Stop>,
    S: Fn(
        Global,
        &IndexSet<Vec<u8>>,
        &mut Cursor<'_>,
        u16,
        Scope,
    ) -> Result<Measured<Specifiers>, Stop>,
    D: Fn(
        Global,
        &IndexSet<Vec<u8>>,
        &mut Cursor<'_>,
        u16,
        Naming,
    ) -> Result<Measured<Declarator>, Stop>,
> Grammar<'a, E, S, D> {
    #[tactic(auto, using(c_tree::proofs::ViewLaws::expr_views), unfolding(crate::specs::ExprRules::with_operator))]
    fn with_operator(
        &self,
        cursor: &mut Cursor<'_>,
        left: Measured<Expr>,
        op: Binary,
        at: Place,
    ) -> Result<Measured<Expr>, Stop>
        requires nests { Nests self.now.names.now self.now.depth (E.pre self.now.read_expr)
            (E.post self.now.read_expr) (S.pre self.now.read_specifiers)
            (S.post self.now.read_specifiers) (D.pre self.now.read_declarator)
            (D.post self.now.read_declarator) }
        requires measured { IsMeasured (suc self.now.depth)
            (expr_height (expr_view left.tree)) left.height }
        ensures reads { Reads (λ m. expr_view m.tree) (spec.with_operator self.now.depth
            (rules (names_of self.now.names.now) self.now.depth) (expr_view left.tree)
            (Some (tests.At op at)) cursor.old) result cursor.new }
        ensures height { IfOk result (λ m. IsMeasured (suc self.now.depth)
            (expr_height (expr_view m.tree)) m.height) }
    {
        let left = boxed(self.alloc, left)?;
        cursor.take_above(self.depth, left.height)?;
        let right = boxed(self.alloc, self.expr(cursor, precedence(op) + 1)?)?;
        Ok(Measured {
            height: 1 + left.height.max(right.height),
            tree: Expr::Infix(op, left.tree, at, right.tree),
        })
    }

    #[tactic(auto, unfolding(crate::specs::ExprRules::infix_step, crate::specs::ExprRules::with_operator))]
    fn infix_step(
        &self,
        cursor: &mut Cursor<'_>,
        left: Measured<Expr>,
    ) -> Result<Measured<Expr>, Stop>
        requires nests { Nests self.now.names.now self.now.depth (E.pre self.now.read_expr)
            (E.post self.now.read_expr) (S.pre self.now.read_specifiers)
            (S.post self.now.read_specifiers) (D.pre self.now.read_declarator)
            (D.post self.now.read_declarator) }
        requires measured { IsMeasured (suc self.now.depth)
            (expr_height (expr_view left.tree)) left.height }
        ensures reads { Reads (λ m. expr_view m.tree) (spec.infix_step self.now.depth
            (rules (names_of self.now.names.now) self.now.depth) (expr_view left.tree) cursor.old)
            result cursor.new }
        ensures height { IfOk result (λ m. IsMeasured (suc self.now.depth)
            (expr_height (expr_view m.tree)) m.height) }
    {
        match binary_operator(cursor.peek()) {
            Some(operator) => self.with_operator(cursor, left, operator.what, operator.place),
            None => Err(Stop::Syntax),
        }
    }

    /// The operators of at least a level that go on from an operand.
    pub fn infix(
        &self,
        cursor: &mut Cursor<'_>,
        least: u8,
        first: Measured<Expr>,
    ) -> Result<Measured<Expr>, Stop>
        requires nests { Nests self.now.names.now self.now.depth (E.pre self.now.read_expr)
            (E.post self.now.read_expr) (S.pre self.now.read_specifiers)
            (S.post self.now.read_specifiers) (D.pre self.now.read_declarator)
            (D.post self.now.read_declarator) }
        requires measured { IsMeasured (suc self.now.depth)
            (expr_height (expr_view first.tree)) first.height }
        ensures reads { Reads (λ m. expr_view m.tree) (loop (λ _. tests.binds least)
            (spec.infix_step self.now.depth (rules (names_of self.now.names.now) self.now.depth))
            (expr_view first.tree) cursor.old) result cursor.new }
        ensures height { IfOk result (λ m. IsMeasured (suc self.now.depth)
            (expr_height (expr_view m.tree)) m.height) }
    {
        let mut e = first;
        for _turn in 0..cursor.left() {
            if !binds(least, cursor.peek()) {
                return Ok(e);
            }
            e = self.infix_step(cursor, e)?;
        }
        Ok(e)
    }
}
