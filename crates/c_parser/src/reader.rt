//! Expressions and declarators inside statements and declarations.
ghost use Rattle.std.specs.Prelude.{◌≡◌, option_map};
ghost use Rattle.c_tree.specs.StatementViews.{initialiser_view};
ghost use Rattle.c_tree.specs.Views.{declarator_view, expr_view, specifiers_view};
ghost use Rattle.c_parse_words.specs.Seen.{names_of, naming_view, scope_view, Reads};
ghost use Rattle.c_parse_words.specs.Tests.{is_close_paren, is_semicolon};
ghost use Rattle.c_expr_parse.specs.Rules.{rules, initialiser};
ghost use Rattle.c_parser.specs.StatementRules as spec;

use crate::tokens::{expect_close_paren, expect_semicolon};
use c_expr_parse::{read_declarator, read_expr, read_initialiser, read_specifiers};
use c_parse_words::begins::{Naming, begins_expr};
use c_parse_words::cursor::Cursor;
use c_parse_words::stop::Stop;
use c_parse_words::words::Scope;
use c_tree::{Boxed, Declarator, Expr, Initialiser, Specifiers};
use indexmap::IndexSet;
use std::alloc::Global;

/// Reads what stands where these typedef names are in force and so many nodes are allowed.
#[derive(Clone, Copy)]
pub struct Reader<'a> {
    pub alloc: Global,
    pub names: &'a IndexSet<Vec<u8>>,
    pub depth: u16,
}

impl<'a> Reader<'a> {
    /// An expression of at least a level.
    pub fn expr(&self, cursor: &mut Cursor<'_>, least: u8) -> Result<Expr, Stop>
        ensures { Reads expr_view ((rules (names_of self.now.names.now) self.now.depth).expr least
            cursor.old) result cursor.new }
    {
        let part = read_expr(self.alloc, self.names, cursor, self.depth, least)?;
        Ok(part.tree)
    }

    pub fn specifiers(&self, cursor: &mut Cursor<'_>, scope: Scope) -> Result<Specifiers, Stop>
        ensures { Reads specifiers_view ((rules (names_of self.now.names.now)
            self.now.depth).specifiers (scope_view scope) cursor.old) result cursor.new }
    {
        let part = read_specifiers(self.alloc, self.names, cursor, self.depth, scope)?;
        Ok(part.tree)
    }

    /// A declarator with a name.
    pub fn declarator(&self, cursor: &mut Cursor<'_>) -> Result<Declarator, Stop>
        ensures { Reads declarator_view ((rules (names_of self.now.names.now)
            self.now.depth).declarator (naming_view Naming.WithName) cursor.old) result cursor.new }
    {
        let part = read_declarator(self.alloc, self.names, cursor, self.depth, Naming::WithName)?;
        Ok(part.tree)
    }

    pub fn initialiser(&self, cursor: &mut Cursor<'_>) -> Result<Initialiser, Stop>
        ensures { Reads initialiser_view (initialiser (names_of self.now.names.now) self.now.depth
            cursor.old) result cursor.new }
    {
        let part = read_initialiser(self.alloc, self.names, cursor, self.depth)?;
        Ok(part.tree)
    }

    /// An expression that may be left out.
    #[tactic(auto, unfolding(crate::specs::StatementRules::optional))]
    pub fn optional(&self, cursor: &mut Cursor<'_>) -> Result<Option<Boxed<Expr>>, Stop>
        ensures { Reads (λ e. option_map expr_view e) (spec.optional
            (names_of self.now.names.now) self.now.depth cursor.old) result cursor.new }
    {
        if !begins_expr(self.names, cursor.peek()) {
            return Ok(None);
        }
        let e = Boxed::new(self.alloc, self.expr(cursor, 0)?)?;
        Ok(Some(e))
    }

    /// An expression that may be left out, and the `;` after it.
    #[tactic(auto, unfolding(crate::specs::StatementRules::optional_then))]
    pub fn optional_semicolon(&self, cursor: &mut Cursor<'_>) -> Result<Option<Boxed<Expr>>, Stop>
        ensures { Reads (λ e. option_map expr_view e) (spec.optional_then
            (names_of self.now.names.now) self.now.depth is_semicolon cursor.old) result
            cursor.new }
    {
        let e = self.optional(cursor)?;
        expect_semicolon(cursor)?;
        Ok(e)
    }

    /// An expression that may be left out, and the `)` after it.
    #[tactic(auto, unfolding(crate::specs::StatementRules::optional_then))]
    pub fn optional_close_paren(&self, cursor: &mut Cursor<'_>) -> Result<Option<Boxed<Expr>>, Stop>
        ensures { Reads (λ e. option_map expr_view e) (spec.optional_then
            (names_of self.now.names.now) self.now.depth is_close_paren cursor.old) result
            cursor.new }
    {
        let e = self.optional(cursor)?;
        expect_close_paren(cursor)?;
        Ok(e)
    }

    /// An expression in parentheses, after the `(`.
    #[tactic(auto, unfolding(crate::specs::StatementRules::condition))]
    pub fn condition(&self, cursor: &mut Cursor<'_>) -> Result<Boxed<Expr>, Stop>
        ensures { Reads expr_view (spec.condition (names_of self.now.names.now) self.now.depth
            cursor.old) result cursor.new }
    {
        let e = Boxed::new(self.alloc, self.expr(cursor, 0)?)?;
        expect_close_paren(cursor)?;
        Ok(e)
    }
}
