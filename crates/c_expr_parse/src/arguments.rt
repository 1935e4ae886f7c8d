//! Arguments of a call (C99 6.5.2).
ghost use Rattle.std.specs.Prelude.{IfOk, map};
ghost use Rattle.parse_rules.specs.Parsers.{loop};
ghost use Rattle.c_tree.specs.Depth.{arguments_height};
ghost use Rattle.c_tree.specs.Views.{arguments_of, expr_view};
ghost use Rattle.c_parse_words.specs.Seen.{names_of, after_skip, Reads};
ghost use Rattle.c_parse_words.specs.Tests as tests;
ghost use Rattle.c_expr_parse.specs.ExprRules as spec;
ghost use Rattle.c_expr_parse.specs.Rules.{rules};
ghost use Rattle.c_expr_parse.specs.Nests.{Nests, IsMeasured};

use crate::grammar::Grammar;
use c_parse_words::begins::{Naming, begins_expr};
use c_parse_words::cursor::Cursor;
use c_parse_words::lookahead::is_comma;
use c_parse_words::measured::Measured;
use c_parse_words::stop::Stop;
use c_parse_words::words::Scope;
use c_tree::{Declarator, Expr, Items, Specifiers};
use indexmap::IndexSet;
use std::alloc::Global;

impl<
    'a,
    E: Fn(Global, &IndexSet<Vec<u8>>, &mut Cursor<'_>, u16, u8) -> Result<Measured<Expr>, Stop>,
    S: Fn(
        Global,
        &IndexSet<Vec<u8>>,
        &mut Cursor<'_>,
        u16,
        Scope,
    ) -> Result<Measured<Specifiers>, Stop>,
    D: Fn(
        Global,
        &IndexSet<Vec<u8>>,
        &mut Cursor<'_>,
        u16,
        Naming,
    ) -> Result<Measured<Declarator>, Stop>,
> Grammar<'a, E, S, D> {
    #[tactic(auto, using(c_tree::proofs::PushLaws::pushes), unfolding(crate::specs::ExprRules::next_argument))]
    fn next_argument(
        &self,
        cursor: &mut Cursor<'_>,
        mut before: Measured<Items<Expr>>,
    ) -> Result<Measured<Items<Expr>>, Stop>
        requires nests { Nests self.now.names.now self.now.depth (E.pre self.now.read_expr)
            (E.post self.now.read_expr) (S.pre self.now.read_specifiers)
            (S.post self.now.read_specifiers) (D.pre self.now.read_declarator)
            (D.post self.now.read_declarator) }
        requires measured { IsMeasured self.now.depth (arguments_height
            (arguments_of (map expr_view before.tree))) before.height }
        ensures reads { Reads (λ m. arguments_of (map expr_view m.tree))
            (spec.next_argument (rules (names_of self.now.names.now) self.now.depth)
            (arguments_of (map expr_view before.tree)) cursor.old) result cursor.new }
        ensures height { IfOk result (λ m. IsMeasured self.now.depth
            (arguments_height (arguments_of (map expr_view m.tree))) m.height) }
    {
        let Measured { tree, height } = self.expr(cursor, 1)?;
        before.tree.push(tree)?;
        before.height = before.height.max(height);
        Ok(before)
    }

    fn argument_after_comma(
        &self,
        cursor: &mut Cursor<'_>,
        before: Measured<Items<Expr>>,
    ) -> Result<Measured<Items<Expr>>, Stop>
        requires nests { Nests self.now.names.now self.now.depth (E.pre self.now.read_expr)
            (E.post self.now.read_expr) (S.pre self.now.read_specifiers)
            (S.post self.now.read_specifiers) (D.pre self.now.read_declarator)
            (D.post self.now.read_declarator) }
        requires measured { IsMeasured self.now.depth (arguments_height
            (arguments_of (map expr_view before.tree))) before.height }
        ensures reads { Reads (λ m. arguments_of (map expr_view m.tree))
            (after_skip (spec.next_argument (rules (names_of self.now.names.now) self.now.depth)
            (arguments_of (map expr_view before.tree))) cursor.old) result cursor.new }
        ensures height { IfOk result (λ m. IsMeasured self.now.depth
            (arguments_height (arguments_of (map expr_view m.tree))) m.height) }
    {
        cursor.skip()?;
        self.next_argument(cursor, before)
    }

    fn more_arguments(
        &self,
        cursor: &mut Cursor<'_>,
        first: Measured<Items<Expr>>,
    ) -> Result<Measured<Items<Expr>>, Stop>
        requires nests { Nests self.now.names.now self.now.depth (E.pre self.now.read_expr)
            (E.post self.now.read_expr) (S.pre self.now.read_specifiers)
            (S.post self.now.read_specifiers) (D.pre self.now.read_declarator)
            (D.post self.now.read_declarator) }
        requires measured { IsMeasured self.now.depth (arguments_height
            (arguments_of (map expr_view first.tree))) first.height }
        ensures reads { Reads (λ m. arguments_of (map expr_view m.tree))
            (loop (λ _. tests.is_comma) (λ before. after_skip
            (spec.next_argument (rules (names_of self.now.names.now) self.now.depth) before))
            (arguments_of (map expr_view first.tree)) cursor.old) result cursor.new }
        ensures height { IfOk result (λ m. IsMeasured self.now.depth
            (arguments_height (arguments_of (map expr_view m.tree))) m.height) }
    {
        let mut list = first;
        for _turn in 0..cursor.left() {
            if !is_comma(cursor.peek()) {
                return Ok(list);
            }
            list = self.argument_after_comma(cursor, list)?;
        }
        Ok(list)
    }

    /// Arguments, up to the `)`.
    #[tactic(auto, unfolding(crate::specs::ExprRules::arguments))]
    pub fn arguments(&self, cursor: &mut Cursor<'_>) -> Result<Measured<Items<Expr>>, Stop>
        requires nests { Nests self.now.names.now self.now.depth (E.pre self.now.read_expr)
            (E.post self.now.read_expr) (S.pre self.now.read_specifiers)
            (S.post self.now.read_specifiers) (D.pre self.now.read_declarator)
            (D.post self.now.read_declarator) }
        ensures reads { Reads (λ m. arguments_of (map expr_view m.tree))
            (spec.arguments (names_of self.now.names.now)
            (rules (names_of self.now.names.now) self.now.depth) cursor.old) result cursor.new }
        ensures height { IfOk result (λ m. IsMeasured self.now.depth
            (arguments_height (arguments_of (map expr_view m.tree))) m.height) }
    {
        let none = Measured {
            tree: Items::new(self.alloc),
            height: 0,
        };
        if !begins_expr(self.names, cursor.peek()) {
            return Ok(none);
        }
        let first = self.next_argument(cursor, none)?;
        self.more_arguments(cursor, first)
    }
}
