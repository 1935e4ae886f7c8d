//! The rules take those for the parts inside as parameters, so that each is proved by itself.
ghost use Rattle.std.specs.Prelude.{IfOk, suc};
ghost use Rattle.c_tree.specs.Depth.{expr_height, specifiers_height, declarator_height};
ghost use Rattle.c_tree.specs.Views.{expr_view, specifiers_view, declarator_view};
ghost use Rattle.c_parse_words.specs.Seen.{names_of, scope_view, naming_view, Reads};
ghost use Rattle.c_expr_parse.specs.Rules.{rules};
ghost use Rattle.c_expr_parse.specs.Nests.{Nests, IsMeasured};

use c_parse_words::begins::Naming;
use c_parse_words::cursor::Cursor;
use c_parse_words::measured::Measured;
use c_parse_words::stop::Stop;
use c_parse_words::words::Scope;
use c_tree::{Declarator, Expr, Specifiers};
use indexmap::IndexSet;
use std::alloc::Global;

/// What the rules of a part stand on.
#[derive(Clone, Copy)]
pub struct Grammar<'a, E, S, D> {
    pub alloc: Global,
    /// The typedef names in force.
    pub names: &'a IndexSet<Vec<u8>>,
    /// How many nodes may lie below that of the part.
    pub depth: u16,
    /// Reads an expression of at least a level.
    pub read_expr: E,
    /// Reads specifiers for where they stand.
    pub read_specifiers: S,
    /// Reads a declarator that is named or not.
    pub read_declarator: D,
}

impl<
    'a,
    E: Fn(Global, &IndexSet<Vec<u8>>, &mut Cursor<'_>, u16, u8) -> Result<Measured<Expr>, Stop>,
    S: Fn(
        Global,
        &IndexSet<Vec<u8>>,
        &mut Cursor<'_>,
        u16,
        Scope,
    ) -> Result<Measured<Specifiers>, Stop>,
    D: Fn(
        Global,
        &IndexSet<Vec<u8>>,
        &mut Cursor<'_>,
        u16,
        Naming,
    ) -> Result<Measured<Declarator>, Stop>,
> Grammar<'a, E, S, D> {
    pub fn expr(&self, cursor: &mut Cursor<'_>, least: u8) -> Result<Measured<Expr>, Stop>
        requires nests { Nests self.now.names.now self.now.depth (E.pre self.now.read_expr)
            (E.post self.now.read_expr) (S.pre self.now.read_specifiers)
            (S.post self.now.read_specifiers) (D.pre self.now.read_declarator)
            (D.post self.now.read_declarator) }
        ensures reads { Reads (λ m. expr_view m.tree) ((rules (names_of self.now.names.now)
            self.now.depth).expr least cursor.old) result cursor.new }
        ensures height { IfOk result (λ m. IsMeasured self.now.depth
            (expr_height (expr_view m.tree)) m.height) }
    {
        (self.read_expr)(self.alloc, self.names, cursor, self.depth, least)
    }

    pub fn specifiers(
        &self,
        cursor: &mut Cursor<'_>,
        scope: Scope,
    ) -> Result<Measured<Specifiers>, Stop>
        requires nests { Nests self.now.names.now self.now.depth (E.pre self.now.read_expr)
            (E.post self.now.read_expr) (S.pre self.now.read_specifiers)
            (S.post self.now.read_specifiers) (D.pre self.now.read_declarator)
            (D.post self.now.read_declarator) }
        ensures reads { Reads (λ m. specifiers_view m.tree) ((rules
            (names_of self.now.names.now) self.now.depth).specifiers (scope_view scope) cursor.old)
            result cursor.new }
        ensures height { IfOk result (λ m. IsMeasured self.now.depth
            (suc (specifiers_height (specifiers_view m.tree))) m.height) }
    {
        (self.read_specifiers)(self.alloc, self.names, cursor, self.depth, scope)
    }

    pub fn declarator(
        &self,
        cursor: &mut Cursor<'_>,
        naming: Naming,
    ) -> Result<Measured<Declarator>, Stop>
        requires nests { Nests self.now.names.now self.now.depth (E.pre self.now.read_expr)
            (E.post self.now.read_expr) (S.pre self.now.read_specifiers)
            (S.post self.now.read_specifiers) (D.pre self.now.read_declarator)
            (D.post self.now.read_declarator) }
        ensures reads { Reads (λ m. declarator_view m.tree) ((rules
            (names_of self.now.names.now) self.now.depth).declarator
            (naming_view naming) cursor.old) result cursor.new }
        ensures height { IfOk result (λ m. IsMeasured self.now.depth
            (declarator_height (declarator_view m.tree)) m.height) }
    {
        (self.read_declarator)(self.alloc, self.names, cursor, self.depth, naming)
    }
}
