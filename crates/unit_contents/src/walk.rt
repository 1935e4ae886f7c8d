//! What initialisers, declarations, statements and units make and ask.
ghost use Rattle.std.specs.Prelude.{◌≡◌, map, option_map};
ghost use Rattle.c_tree.specs.Views.{added};
ghost use Rattle.c_tree.specs.TypedTree as typed;
ghost use Rattle.c_tree.specs.TypedParts.{made_by_block_items, made_by_declaration, made_by_init_declarators, made_by_initialiser, made_by_items, made_by_optional, made_by_statement, made_by_unit};
ghost use Rattle.c_tree.specs.TypedViews.{typed_expr_view};
ghost use Rattle.c_tree.specs.TypedStatementViews.{typed_block_item_view, typed_block_view, typed_declaration_view, typed_external_view, typed_init_declarator_view, typed_initialiser_view, typed_item_view, typed_statement_view, typed_unit_view};
ghost use Rattle.src_machine.specs.Pieces.{pieces_of_block_items, pieces_of_declaration, pieces_of_init_declarators, pieces_of_initialiser, pieces_of_items, pieces_of_optional, pieces_of_statement, pieces_of_unit};
ghost use Rattle.unit_parts.specs.declared.collected.Collected.{Collected as Seen};
ghost use Rattle.unit_parts.specs.Collecting.{Collects};

use crate::copies::ask_copies;
use c_tree::{
    Boxed, TypedBlockItem, TypedDeclaration, TypedExpr, TypedExternal, TypedInitDeclarator,
    TypedInitialiser, TypedItem, TypedStatement, TypedUnit,
};
use unit_parts::{Collected, Scope, declarator, expr, keep, place, specifiers};

/// An initialiser.
#[cycle(initialisers)]
fn initialiser(out: &mut Collected, k: &Scope<'_>, one: &TypedInitialiser)
    ensures { Collects k.now.types.now (made_by_initialiser (typed_initialiser_view one.now))
        (pieces_of_initialiser (typed_initialiser_view one.now)) out.old out.new }
{
    match one {
        TypedInitialiser::Value(e) => expr(out, k, e),
        TypedInitialiser::Copied(p, _) => place(out, k, p),
        TypedInitialiser::Text(_, _) => keep(out, k),
        TypedInitialiser::Listed(_, all, _, _) => items(out, k, all.as_slice()),
    }
}

#[cycle(initialisers)]
fn items(out: &mut Collected, k: &Scope<'_>, all: &[TypedItem])
    ensures { Collects k.now.types.now (made_by_items (added typed.NoItem
        (map typed_item_view all.now))) (pieces_of_items
        (added typed.NoItem (map typed_item_view all.now))) out.old out.new }
{
    for one in all {
        item(out, k, one)
    }
}

/// An item behind others.
#[cycle(initialisers)]
fn item(out: &mut Collected, k: &Scope<'_>, one: &TypedItem)
    ensures { (all : typed.TypedItems) (start : Seen) → Collects k.now.types.now (made_by_items all)
        (pieces_of_items all) start out.old → Collects k.now.types.now
        (made_by_items (typed_item_view one.now all))
        (pieces_of_items (typed_item_view one.now all)) start out.new }
{
    initialiser(out, k, &one.initialiser)
}

/// A declarator with or without an initialiser, behind others.
fn init_declarator(out: &mut Collected, k: &Scope<'_>, one: &TypedInitDeclarator)
    ensures { (all : typed.TypedInitDeclarators) (start : Seen)
        → Collects k.now.types.now (made_by_init_declarators all)
        (pieces_of_init_declarators all) start out.old
        → Collects k.now.types.now (made_by_init_declarators
        (typed_init_declarator_view one.now all))
        (pieces_of_init_declarators (typed_init_declarator_view one.now all)) start out.new }
{
    match one {
        TypedInitDeclarator::Plain(d) => declarator(out, k, d),
        TypedInitDeclarator::Initialised(d, _, i) => {
            declarator(out, k, d);
            initialiser(out, k, i);
            ask_copies(out, k, d, i)
        }
    }
}

fn init_declarators(out: &mut Collected, k: &Scope<'_>, all: &[TypedInitDeclarator])
    ensures { Collects k.now.types.now (made_by_init_declarators
        (added typed.NoInitDeclarator (map typed_init_declarator_view all.now)))
        (pieces_of_init_declarators (added typed.NoInitDeclarator
        (map typed_init_declarator_view all.now))) out.old out.new }
{
    for one in all {
        init_declarator(out, k, one)
    }
}

/// A declaration.
fn declaration(out: &mut Collected, k: &Scope<'_>, one: &TypedDeclaration)
    ensures { Collects k.now.types.now (made_by_declaration (typed_declaration_view one.now))
        (pieces_of_declaration (typed_declaration_view one.now)) out.old out.new }
{
    specifiers(out, k, &one.specifiers);
    init_declarators(out, k, one.declarators.as_slice())
}

/// An expression that may be left out.
fn optional(out: &mut Collected, k: &Scope<'_>, one: &Option<Boxed<TypedExpr>>)
    ensures { Collects k.now.types.now (made_by_optional (option_map typed_expr_view one.now))
        (pieces_of_optional (option_map typed_expr_view one.now)) out.old out.new }
{
    match one {
        Some(e) => expr(out, k, e.get()),
        None => keep(out, k),
    }
}

/// A statement.
#[cycle(statements)]
fn statement(out: &mut Collected, k: &Scope<'_>, one: &TypedStatement)
    ensures { Collects k.now.types.now (made_by_statement (typed_statement_view one.now))
        (pieces_of_statement (typed_statement_view one.now)) out.old out.new }
{
    match one {
        TypedStatement::Block(_, items) => block(out, k, items.as_slice()),
        TypedStatement::Express(e) => expr(out, k, e),
        TypedStatement::Empty => keep(out, k),
        TypedStatement::If(_, _, c, s) => {
            expr(out, k, c.get());
            statement(out, k, s.get())
        }
        TypedStatement::IfElse(_, _, c, s, other) => {
            expr(out, k, c.get());
            statement(out, k, s.get());
            statement(out, k, other.get())
        }
        TypedStatement::Switch(_, _, e, _, items) => {
            expr(out, k, e.get());
            block(out, k, items.as_slice())
        }
        TypedStatement::While(_, _, c, s) => {
            expr(out, k, c.get());
            statement(out, k, s.get())
        }
        TypedStatement::DoWhile(s, _, _, c) => {
            statement(out, k, s.get());
            expr(out, k, c.get())
        }
        TypedStatement::For(_, _, first, test, step, s) => {
            optional(out, k, first);
            optional(out, k, test);
            optional(out, k, step);
            statement(out, k, s.get())
        }
        TypedStatement::ForDeclaration(_, _, first, test, step, s) => {
            declaration(out, k, first.get());
            optional(out, k, test);
            optional(out, k, step);
            statement(out, k, s.get())
        }
        TypedStatement::Break(_) => keep(out, k),
        TypedStatement::Continue(_) => keep(out, k),
        TypedStatement::Return(_, e) => optional(out, k, e),
    }
}

/// What a block holds.
#[cycle(statements)]
pub fn block(out: &mut Collected, k: &Scope<'_>, all: &[TypedBlockItem])
    ensures { Collects k.now.types.now (made_by_block_items (typed_block_view all.now))
        (pieces_of_block_items (typed_block_view all.now)) out.old out.new }
{
    for one in all {
        block_item(out, k, one)
    }
}

/// An item of a block behind others.
#[cycle(statements)]
fn block_item(out: &mut Collected, k: &Scope<'_>, one: &TypedBlockItem)
    ensures { (all : typed.TypedBlockItems) (start : Seen)
        → Collects k.now.types.now (made_by_block_items all)
        (pieces_of_block_items all) start out.old → Collects k.now.types.now
        (made_by_block_items (typed_block_item_view one.now all))
        (pieces_of_block_items (typed_block_item_view one.now all)) start out.new }
{
    match one {
        TypedBlockItem::Statement(s) => statement(out, k, s),
        TypedBlockItem::Declaration(d) => declaration(out, k, d),
        TypedBlockItem::Case(_, e, _) => expr(out, k, e),
        TypedBlockItem::Default(_) => keep(out, k),
    }
}

/// A declaration or a function, behind what comes before it.
fn external(out: &mut Collected, k: &Scope<'_>, one: &TypedExternal)
    ensures { (all : typed.TypedTranslationUnit) (start : Seen)
        → Collects k.now.types.now (made_by_unit all) (pieces_of_unit all) start out.old
        → Collects k.now.types.now (made_by_unit (typed_external_view one.now all))
        (pieces_of_unit (typed_external_view one.now all)) start out.new }
{
    match one {
        TypedExternal::Declaration(d) => declaration(out, k, d),
        TypedExternal::Function(f) => {
            specifiers(out, k, &f.specifiers);
            declarator(out, k, &f.declarator);
            block(out, k, f.body.as_slice())
        }
    }
}

fn externals(out: &mut Collected, k: &Scope<'_>, all: &[TypedExternal])
    ensures { Collects k.now.types.now (made_by_unit (added typed.NoExternal
        (map typed_external_view all.now))) (pieces_of_unit
        (added typed.NoExternal (map typed_external_view all.now))) out.old out.new }
{
    for one in all {
        external(out, k, one)
    }
}

/// A unit.
pub fn unit(out: &mut Collected, k: &Scope<'_>, one: &TypedUnit)
    ensures { Collects k.now.types.now (made_by_unit (typed_unit_view one.now))
        (pieces_of_unit (typed_unit_view one.now)) out.old out.new }
{
    externals(out, k, one.externals.as_slice())
}
