//! Expressions of at least a level (C99 6.5).
ghost use Rattle.std.specs.Prelude.{suc, IfOk};
ghost use Rattle.c_tree.specs.Depth.{expr_height};
ghost use Rattle.c_tree.specs.Views.{expr_view};
ghost use Rattle.c_parse_words.specs.Seen.{names_of, Reads};
ghost use Rattle.c_expr_parse.specs.ExprRules as spec;
ghost use Rattle.c_expr_parse.specs.Rules.{rules};
ghost use Rattle.c_expr_parse.specs.Nests.{Nests, IsMeasured};

use crate::grammar::Grammar;
use c_parse_words::begins::Naming;
use c_parse_words::cursor::Cursor;
use c_parse_words::measured::Measured;
use c_parse_words::stop::Stop;
use c_parse_words::words::Scope;
use c_tree::{Declarator, Expr, Specifiers};
use indexmap::IndexSet;
use std::alloc::Global;

impl<
    'a,
    E: Fn(Global, &IndexSet<Vec<u8>>, &mut Cursor<'_>, u16, u8) -> Result<Measured<Expr>, Stop>
        + Copy,
    S: Fn(
        Global,
        &IndexSet<Vec<u8>>,
        &mut Cursor<'_>,
        u16,
        Scope,
    ) -> Result<Measured<Specifiers>, Stop>
        + Copy,
    D: Fn(
        Global,
        &IndexSet<Vec<u8>>,
        &mut Cursor<'_>,
        u16,
        Naming,
    ) -> Result<Measured<Declarator>, Stop>
        + Copy,
> Grammar<'a, E, S, D> {
    /// An expression of at least a level.
    #[tactic(auto, unfolding(crate::specs::ExprRules::expr_layer))]
    pub fn expression(&self, cursor: &mut Cursor<'_>, least: u8) -> Result<Measured<Expr>, Stop>
        requires nests { Nests self.now.names.now self.now.depth (E.pre self.now.read_expr)
            (E.post self.now.read_expr) (S.pre self.now.read_specifiers)
            (S.post self.now.read_specifiers) (D.pre self.now.read_declarator)
            (D.post self.now.read_declarator) }
        ensures reads { Reads (λ m. expr_view m.tree) (spec.expr_layer
            (names_of self.now.names.now) self.now.depth
            (rules (names_of self.now.names.now) self.now.depth) least cursor.old) result
            cursor.new }
        ensures height { IfOk result (λ m. IsMeasured (suc self.now.depth)
            (expr_height (expr_view m.tree)) m.height) }
    {
        let first = self.operand(cursor, least)?;
        let test = self.infix(cursor, least, first)?;
        let left = self.conditional(cursor, least, test)?;
        let e = self.assignment(cursor, least, left)?;
        self.commas(cursor, least, e)
    }
}
