//! What declarations, statements and units have of nodes that are printed.
#![tactic(auto)]

ghost use Rattle.std.specs.Prelude.{map, option_map};
ghost use Rattle.c_tree.specs.Views.{added};
ghost use Rattle.c_tree.specs.TypedTree as typed;
ghost use Rattle.c_tree.specs.TypedParts.{made_by_block_items, made_by_declaration, made_by_init_declarators, made_by_initialiser, made_by_items, made_by_optional, made_by_statement, made_by_unit};
ghost use Rattle.c_tree.specs.TypedViews.{typed_expr_view};
ghost use Rattle.c_tree.specs.TypedStatementViews.{typed_block_item_view, typed_block_view, typed_declaration_view, typed_external_view, typed_init_declarator_view, typed_initialiser_view, typed_item_view, typed_statement_view, typed_unit_view};
ghost use Rattle.c_printed.specs.declared.found.Found.{Found as Seen};
ghost use Rattle.c_printed.specs.Printing.{Prints};

use crate::found::Found;
use crate::printing::{declarator, expr, place, specifiers};
use c_tree::{
    Boxed, TypedBlockItem, TypedDeclaration, TypedExpr, TypedExternal, TypedInitDeclarator,
    TypedInitialiser, TypedItem, TypedStatement, TypedUnit,
};

/// An initialiser.
#[cycle(initialisers)]
fn initialiser(out: &mut Found, one: &TypedInitialiser)
    ensures { Prints (made_by_initialiser (typed_initialiser_view one.now)) out.old out.new }
{
    match one {
        TypedInitialiser::Value(e) => expr(out, e),
        TypedInitialiser::Copied(p, _) => place(out, p),
        TypedInitialiser::Text(_, _) => {}
        TypedInitialiser::Listed(_, all, _, _) => items(out, all.as_slice()),
    }
}

#[cycle(initialisers)]
fn items(out: &mut Found, all: &[TypedItem])
    ensures { Prints (made_by_items (added typed.NoItem (map typed_item_view all.now))) out.old
        out.new }
{
    for one in all {
        item(out, one)
    }
}

/// An item behind others.
#[cycle(initialisers)]
fn item(out: &mut Found, one: &TypedItem)
    ensures { (all : typed.TypedItems) (start : Seen) → Prints (made_by_items all) start out.old
        → Prints (made_by_items (typed_item_view one.now all)) start out.new }
{
    initialiser(out, &one.initialiser)
}

/// A declarator with or without an initialiser, behind others.
fn init_declarator(out: &mut Found, one: &TypedInitDeclarator)
    ensures { (all : typed.TypedInitDeclarators) (start : Seen)
        → Prints (made_by_init_declarators all) start out.old
        → Prints (made_by_init_declarators (typed_init_declarator_view one.now all)) start out.new }
{
    match one {
        TypedInitDeclarator::Plain(d) => declarator(out, d),
        TypedInitDeclarator::Initialised(d, _, i) => {
            declarator(out, d);
            initialiser(out, i)
        }
    }
}

fn init_declarators(out: &mut Found, all: &[TypedInitDeclarator])
    ensures { Prints (made_by_init_declarators (added typed.NoInitDeclarator
        (map typed_init_declarator_view all.now))) out.old out.new }
{
    for one in all {
        init_declarator(out, one)
    }
}

/// A declaration.
fn declaration(out: &mut Found, one: &TypedDeclaration)
    ensures { Prints (made_by_declaration (typed_declaration_view one.now)) out.old out.new }
{
    specifiers(out, &one.specifiers);
    init_declarators(out, one.declarators.as_slice())
}

/// An expression that may be left out.
fn optional(out: &mut Found, one: &Option<Boxed<TypedExpr>>)
    ensures { Prints (made_by_optional (option_map typed_expr_view one.now)) out.old out.new }
{
    match one {
        Some(e) => expr(out, e.get()),
        None => {}
    }
}

/// A statement.
#[cycle(statements)]
fn statement(out: &mut Found, one: &TypedStatement)
    ensures { Prints (made_by_statement (typed_statement_view one.now)) out.old out.new }
{
    match one {
        TypedStatement::Block(_, items) => block(out, items.as_slice()),
        TypedStatement::Express(e) => expr(out, e),
        TypedStatement::Empty => {}
        TypedStatement::If(_, _, c, s) => {
            expr(out, c.get());
            statement(out, s.get())
        }
        TypedStatement::IfElse(_, _, c, s, other) => {
            expr(out, c.get());
            statement(out, s.get());
            statement(out, other.get())
        }
        TypedStatement::Switch(_, _, e, _, items) => {
            expr(out, e.get());
            block(out, items.as_slice())
        }
        TypedStatement::While(_, _, c, s) => {
            expr(out, c.get());
            statement(out, s.get())
        }
        TypedStatement::DoWhile(s, _, _, c) => {
            statement(out, s.get());
            expr(out, c.get())
        }
        TypedStatement::For(_, _, first, test, step, s) => {
            optional(out, first);
            optional(out, test);
            optional(out, step);
            statement(out, s.get())
        }
        TypedStatement::ForDeclaration(_, _, first, test, step, s) => {
            declaration(out, first.get());
            optional(out, test);
            optional(out, step);
            statement(out, s.get())
        }
        TypedStatement::Break(_) => {}
        TypedStatement::Continue(_) => {}
        TypedStatement::Return(_, e) => optional(out, e),
    }
}

/// What a block holds.
#[cycle(statements)]
fn block(out: &mut Found, all: &[TypedBlockItem])
    ensures { Prints (made_by_block_items (typed_block_view all.now)) out.old out.new }
{
    for one in all {
        block_item(out, one)
    }
}

/// An item of a block behind others.
#[cycle(statements)]
fn block_item(out: &mut Found, one: &TypedBlockItem)
    ensures { (all : typed.TypedBlockItems) (start : Seen)
        → Prints (made_by_block_items all) start out.old
        → Prints (made_by_block_items (typed_block_item_view one.now all)) start out.new }
{
    match one {
        TypedBlockItem::Statement(s) => statement(out, s),
        TypedBlockItem::Declaration(d) => declaration(out, d),
        TypedBlockItem::Case(_, e, _) => expr(out, e),
        TypedBlockItem::Default(_) => {}
    }
}

/// A declaration or a function, behind what comes before it.
fn external(out: &mut Found, one: &TypedExternal)
    ensures { (all : typed.TypedTranslationUnit) (start : Seen)
        → Prints (made_by_unit all) start out.old
        → Prints (made_by_unit (typed_external_view one.now all)) start out.new }
{
    match one {
        TypedExternal::Declaration(d) => declaration(out, d),
        TypedExternal::Function(f) => {
            specifiers(out, &f.specifiers);
            declarator(out, &f.declarator);
            block(out, f.body.as_slice())
        }
    }
}

fn externals(out: &mut Found, all: &[TypedExternal])
    ensures { Prints (made_by_unit (added typed.NoExternal (map typed_external_view all.now)))
        out.old out.new }
{
    for one in all {
        external(out, one)
    }
}

/// A unit.
pub(crate) fn unit(out: &mut Found, one: &TypedUnit)
    ensures { Prints (made_by_unit (typed_unit_view one.now)) out.old out.new }
{
    externals(out, one.externals.as_slice())
}
