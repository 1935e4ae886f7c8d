//! Conditionals, assignments and commas (C99 6.5.15 to 6.5.17).
ghost use Rattle.std.specs.Prelude.{◌≡◌, ◌&&◌, ◌==◌, suc, Some, IfOk};
ghost use Rattle.parse_rules.specs.Parsers.{by_first, loop};
ghost use Rattle.c_tree.specs.Depth.{expr_height};
ghost use Rattle.c_tree.specs.Tree as tree;
ghost use Rattle.c_tree.specs.Views.{expr_view};
ghost use Rattle.c_parse_words.specs.Levels as levels;
ghost use Rattle.c_parse_words.specs.Seen.{names_of, Reads};
ghost use Rattle.c_parse_words.specs.Tests as tests;
ghost use Rattle.c_expr_parse.specs.ExprRules as spec;
ghost use Rattle.c_expr_parse.specs.Rules.{rules};
ghost use Rattle.c_expr_parse.specs.Nests.{Nests, IsMeasured};

use crate::boxing::boxed;
use crate::grammar::Grammar;
use c_parse_words::begins::Naming;
use c_parse_words::cursor::Cursor;
use c_parse_words::levels::{assignment_after, comma_goes_on, question_after};
use c_parse_words::lookahead::is_colon;
use c_parse_words::measured::Measured;
use c_parse_words::stop::Stop;
use c_parse_words::words::Scope;
use c_tree::{Assignment, Declarator, Expr, Specifiers};
use cc_base::Place;
use indexmap::IndexSet;
use std::alloc::Global;

impl<
    'a,
    E: Fn(Global, &IndexSet<Vec<u8>>, &mut Cursor<'_>, u16, u8) -> Result<Measured<Expr>, Stop>,
    S: Fn(
        Global,
        &IndexSet<Vec<u8>>,
        &mut Cursor<'_>,
        u16,
        Scope,
    ) -> Result<Measured<Specifiers>, Stop>,
    D: Fn(
        Global,
        &IndexSet<Vec<u8>>,
        &mut Cursor<'_>,
        u16,
        Naming,
    ) -> Result<Measured<Declarator>, Stop>,
> Grammar<'a, E, S, D> {
    #[tactic(auto, using(c_tree::proofs::ViewLaws::expr_views), unfolding(crate::specs::ExprRules::with_question))]
    fn with_question(
        &self,
        cursor: &mut Cursor<'_>,
        test: Measured<Expr>,
        at: Place,
    ) -> Result<Measured<Expr>, Stop>
        requires nests { Nests self.now.names.now self.now.depth (E.pre self.now.read_expr)
            (E.post self.now.read_expr) (S.pre self.now.read_specifiers)
            (S.post self.now.read_specifiers) (D.pre self.now.read_declarator)
            (D.post self.now.read_declarator) }
        requires measured { IsMeasured (suc self.now.depth)
            (expr_height (expr_view test.tree)) test.height }
        ensures reads { Reads (λ m. expr_view m.tree) (spec.with_question self.now.depth
            (rules (names_of self.now.names.now) self.now.depth) (expr_view test.tree)
            (Some at) cursor.old) result cursor.new }
        ensures height { IfOk result (λ m. IsMeasured (suc self.now.depth)
            (expr_height (expr_view m.tree)) m.height) }
    {
        let test = boxed(self.alloc, test)?;
        cursor.take_above(self.depth, test.height)?;
        let holds = boxed(self.alloc, self.expr(cursor, 0)?)?;
        let colon = is_colon(cursor.peek());
        cursor.expect(colon)?;
        let fails = boxed(self.alloc, self.expr(cursor, 2)?)?;
        Ok(Measured {
            height: 1 + test.height.max(holds.height.max(fails.height)),
            tree: Expr::Conditional(test.tree, at, holds.tree, fails.tree),
        })
    }

    /// The conditional that goes on from its condition.
    #[tactic(auto, unfolding(crate::specs::ExprRules::with_question))]
    pub fn conditional(
        &self,
        cursor: &mut Cursor<'_>,
        least: u8,
        test: Measured<Expr>,
    ) -> Result<Measured<Expr>, Stop>
        requires nests { Nests self.now.names.now self.now.depth (E.pre self.now.read_expr)
            (E.post self.now.read_expr) (S.pre self.now.read_specifiers)
            (S.post self.now.read_specifiers) (D.pre self.now.read_declarator)
            (D.post self.now.read_declarator) }
        requires measured { IsMeasured (suc self.now.depth)
            (expr_height (expr_view test.tree)) test.height }
        ensures reads { Reads (λ m. expr_view m.tree) (by_first (levels.question_after least)
            (spec.with_question self.now.depth (rules (names_of self.now.names.now) self.now.depth)
            (expr_view test.tree)) cursor.old) result cursor.new }
        ensures height { IfOk result (λ m. IsMeasured (suc self.now.depth)
            (expr_height (expr_view m.tree)) m.height) }
    {
        match question_after(least, cursor.peek()) {
            Some(at) => self.with_question(cursor, test, at),
            None => Ok(test),
        }
    }

    #[tactic(auto, using(c_tree::proofs::ViewLaws::expr_views), unfolding(crate::specs::ExprRules::with_assignment))]
    fn with_assignment(
        &self,
        cursor: &mut Cursor<'_>,
        left: Measured<Expr>,
        op: Assignment,
        at: Place,
    ) -> Result<Measured<Expr>, Stop>
        requires nests { Nests self.now.names.now self.now.depth (E.pre self.now.read_expr)
            (E.post self.now.read_expr) (S.pre self.now.read_specifiers)
            (S.post self.now.read_specifiers) (D.pre self.now.read_declarator)
            (D.post self.now.read_declarator) }
        requires measured { IsMeasured (suc self.now.depth)
            (expr_height (expr_view left.tree)) left.height }
        ensures reads { Reads (λ m. expr_view m.tree) (spec.with_assignment self.now.depth
            (rules (names_of self.now.names.now) self.now.depth) (expr_view left.tree)
            (Some (tests.At op at)) cursor.old) result cursor.new }
        ensures height { IfOk result (λ m. IsMeasured (suc self.now.depth)
            (expr_height (expr_view m.tree)) m.height) }
    {
        let left = boxed(self.alloc, left)?;
        cursor.take_above(self.depth, left.height)?;
        let right = boxed(self.alloc, self.expr(cursor, 1)?)?;
        Ok(Measured {
            height: 1 + left.height.max(right.height),
            tree: Expr::Assign(op, left.tree, at, right.tree),
        })
    }

    /// The assignment that goes on from its left side.
    #[tactic(auto, unfolding(crate::specs::ExprRules::with_assignment))]
    pub fn assignment(
        &self,
        cursor: &mut Cursor<'_>,
        least: u8,
        left: Measured<Expr>,
    ) -> Result<Measured<Expr>, Stop>
        requires nests { Nests self.now.names.now self.now.depth (E.pre self.now.read_expr)
            (E.post self.now.read_expr) (S.pre self.now.read_specifiers)
            (S.post self.now.read_specifiers) (D.pre self.now.read_declarator)
            (D.post self.now.read_declarator) }
        requires measured { IsMeasured (suc self.now.depth)
            (expr_height (expr_view left.tree)) left.height }
        ensures reads { Reads (λ m. expr_view m.tree) (by_first
            (levels.assignment_after least (expr_view left.tree))
            (spec.with_assignment self.now.depth (rules (names_of self.now.names.now)
            self.now.depth) (expr_view left.tree)) cursor.old) result cursor.new }
        ensures height { IfOk result (λ m. IsMeasured (suc self.now.depth)
            (expr_height (expr_view m.tree)) m.height) }
    {
        match assignment_after(least, &left.tree, cursor.peek()) {
            Some(operator) => self.with_assignment(cursor, left, operator.what, operator.place),
            None => Ok(left),
        }
    }

    #[tactic(auto, using(c_tree::proofs::ViewLaws::expr_views), unfolding(crate::specs::ExprRules::comma_step))]
    fn comma_step(
        &self,
        cursor: &mut Cursor<'_>,
        left: Measured<Expr>,
    ) -> Result<Measured<Expr>, Stop>
        requires nests { Nests self.now.names.now self.now.depth (E.pre self.now.read_expr)
            (E.post self.now.read_expr) (S.pre self.now.read_specifiers)
            (S.post self.now.read_specifiers) (D.pre self.now.read_declarator)
            (D.post self.now.read_declarator) }
        requires measured { IsMeasured (suc self.now.depth)
            (expr_height (expr_view left.tree)) left.height }
        ensures reads { Reads (λ m. expr_view m.tree) (spec.comma_step self.now.depth
            (rules (names_of self.now.names.now) self.now.depth) (expr_view left.tree) cursor.old)
            result cursor.new }
        ensures height { IfOk result (λ m. IsMeasured (suc self.now.depth)
            (expr_height (expr_view m.tree)) m.height) }
    {
        let left = boxed(self.alloc, left)?;
        cursor.take_above(self.depth, left.height)?;
        let right = boxed(self.alloc, self.expr(cursor, 1)?)?;
        Ok(Measured {
            height: 1 + left.height.max(right.height),
            tree: Expr::Comma(left.tree, right.tree),
        })
    }

    /// The commas that go on from an expression.
    pub fn commas(
        &self,
        cursor: &mut Cursor<'_>,
        least: u8,
        first: Measured<Expr>,
    ) -> Result<Measured<Expr>, Stop>
        requires nests { Nests self.now.names.now self.now.depth (E.pre self.now.read_expr)
            (E.post self.now.read_expr) (S.pre self.now.read_specifiers)
            (S.post self.now.read_specifiers) (D.pre self.now.read_declarator)
            (D.post self.now.read_declarator) }
        requires measured { IsMeasured (suc self.now.depth)
            (expr_height (expr_view first.tree)) first.height }
        ensures reads { Reads (λ m. expr_view m.tree) (loop (λ _ next. least == 0 && tests.is_comma
            next) (spec.comma_step self.now.depth (rules
            (names_of self.now.names.now) self.now.depth)) (expr_view first.tree) cursor.old) result
            cursor.new }
        ensures height { IfOk result (λ m. IsMeasured (suc self.now.depth)
            (expr_height (expr_view m.tree)) m.height) }
    {
        let mut e = first;
        for _turn in 0..cursor.left() {
            if !comma_goes_on(least, cursor.peek()) {
                return Ok(e);
            }
            e = self.comma_step(cursor, e)?;
        }
        Ok(e)
    }
}
