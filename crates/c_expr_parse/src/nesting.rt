//! Expressions, specifiers and declarators in one another, as deep as is allowed.
ghost use Rattle.std.specs.Prelude.{suc, IfOk};
ghost use Rattle.c_tree.specs.Depth.{expr_height, specifiers_height, declarator_height};
ghost use Rattle.c_tree.specs.Views.{expr_view, specifiers_view, declarator_view};
ghost use Rattle.c_parse_words.specs.Seen.{names_of, scope_view, naming_view, Reads};
ghost use Rattle.c_expr_parse.specs.Rules.{rules};
ghost use Rattle.c_expr_parse.specs.Nests.{IsMeasured};

use crate::grammar::Grammar;
use c_parse_words::begins::{Naming, begins_declarator, begins_expr, begins_specifier};
use c_parse_words::cursor::Cursor;
use c_parse_words::measured::Measured;
use c_parse_words::stop::{Stop, too_deep};
use c_parse_words::words::Scope;
use c_tree::{Declarator, Expr, Specifiers};
use indexmap::IndexSet;
use std::alloc::Global;

/// An expression of at least a level. `depth` is the number of nodes that are allowed on a path.
#[cycle(parts)]
pub fn read_expr(
    alloc: Global,
    names: &IndexSet<Vec<u8>>,
    cursor: &mut Cursor<'_>,
    depth: u16,
    least: u8,
) -> Result<Measured<Expr>, Stop>
    ensures reads { Reads (λ m. expr_view m.tree) ((rules (names_of names.now) depth).expr least
        cursor.old) result cursor.new }
    ensures height { IfOk result (λ m. IsMeasured depth (expr_height (expr_view m.tree)) m.height) }
{
    if depth == 0 {
        return Err(too_deep(begins_expr(names, cursor.peek())));
    }
    Grammar {
        alloc,
        names,
        depth: depth - 1,
        read_expr,
        read_specifiers,
        read_declarator,
    }
    .expression(cursor, least)
}

/// Specifiers for where they stand. `depth` is the number of nodes that are allowed on a path.
#[cycle(parts)]
pub fn read_specifiers(
    alloc: Global,
    names: &IndexSet<Vec<u8>>,
    cursor: &mut Cursor<'_>,
    depth: u16,
    scope: Scope,
) -> Result<Measured<Specifiers>, Stop>
    ensures reads { Reads (λ m. specifiers_view m.tree) ((rules
        (names_of names.now) depth).specifiers (scope_view scope) cursor.old) result cursor.new }
    ensures height { IfOk result (λ m. IsMeasured depth
        (suc (specifiers_height (specifiers_view m.tree))) m.height) }
{
    if depth == 0 {
        return Err(too_deep(begins_specifier(names, scope, cursor.peek())));
    }
    Grammar {
        alloc,
        names,
        depth: depth - 1,
        read_expr,
        read_specifiers,
        read_declarator,
    }
    .specifier_list(cursor, scope)
}

/// A declarator that is named or not. `depth` is the number of nodes that are allowed on a path.
#[cycle(parts)]
pub fn read_declarator(
    alloc: Global,
    names: &IndexSet<Vec<u8>>,
    cursor: &mut Cursor<'_>,
    depth: u16,
    naming: Naming,
) -> Result<Measured<Declarator>, Stop>
    ensures reads { Reads (λ m. declarator_view m.tree) ((rules
        (names_of names.now) depth).declarator (naming_view naming) cursor.old) result cursor.new }
    ensures height { IfOk result (λ m. IsMeasured depth
        (declarator_height (declarator_view m.tree)) m.height) }
{
    if depth == 0 {
        return Err(too_deep(begins_declarator(names, naming, cursor.peek())));
    }
    Grammar {
        alloc,
        names,
        depth: depth - 1,
        read_expr,
        read_specifiers,
        read_declarator,
    }
    .stars_and_core(cursor, naming)
}
