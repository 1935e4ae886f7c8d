//! The declarators of a unit, in the order of the text.
ghost use Rattle.std.specs.Prelude.{◌≡◌, [], map, true, if◌then◌else◌};
ghost use Rattle.c_tree.specs.Views.{added};
ghost use Rattle.c_tree.specs.TypedTree as typed;
ghost use Rattle.c_tree.specs.TypedViews.{typed_specifiers_of, typed_specifier_view, typed_specifiers_view};
ghost use Rattle.c_tree.specs.TypedStatementViews.{typed_block_item_view, typed_block_view, typed_declaration_view, typed_external_view, typed_init_declarator_view, typed_statement_view};
ghost use Rattle.src_machine.specs.Names.{declarators_in, declarators_in_declaration, declarators_in_items, declarators_in_statement, declarators_of, is_typedef, is_typedef_list};
ghost use Rattle.lower_sites.specs.declared.names.Names.{Names as Seen};
ghost use Rattle.lower_sites.specs.Telling.{Tells, named_by_all};

use crate::names::{Names, Scope, skip, tell};
use c_lexer::Keyword;
use c_tree::{
    TypedBlockItem, TypedDeclaration, TypedExternal, TypedInitDeclarator, TypedSpecifier,
    TypedSpecifiers, TypedStatement,
};

/// Whether a specifier is the word `typedef`.
fn is_typedef_word(one: &TypedSpecifier) -> bool
    ensures { (all : typed.TypedSpecifierList) → is_typedef_list
        (typed.AndSpecifier all (typed_specifier_view one.now))
        ≡ (if result then true else is_typedef_list all) }
{
    match one {
        TypedSpecifier::Keyword(word) => word.keyword == Keyword::Typedef,
        TypedSpecifier::Typedef(_, _) => false,
        TypedSpecifier::Tagged(_, _, _, _) => false,
        TypedSpecifier::Aggregate(_, _, _, _, _, _) => false,
        TypedSpecifier::Enum(_, _) => false,
        TypedSpecifier::Enumeration(_, _, _, _, _) => false,
    }
}

/// Whether specifiers say `typedef`.
fn is_typedef(one: &TypedSpecifiers) -> bool
    ensures { result ≡ is_typedef (typed_specifiers_view one.now) }
{
    is_typedef_list(one.list.as_slice())
}

fn is_typedef_list(all: &[TypedSpecifier]) -> bool
    ensures { result ≡ is_typedef_list (typed_specifiers_of (map typed_specifier_view all.now)) }
{
    let mut found = false;
    for one in all {
        found |= is_typedef_word(one);
    }
    found
}

/// A declarator behind others.
fn declarator(out: &mut Names, k: &Scope<'_>, one: &TypedInitDeclarator)
    ensures { (all : typed.TypedInitDeclarators) (start : Seen)
        → Tells (named_by_all k.now.types.now (declarators_of all)) start out.old
        → Tells (named_by_all k.now.types.now
        (declarators_of (typed_init_declarator_view one.now all))) start out.new }
{
    match one {
        TypedInitDeclarator::Plain(d) => tell(out, k, d),
        TypedInitDeclarator::Initialised(d, _, _) => tell(out, k, d),
    }
}

fn declarators(out: &mut Names, k: &Scope<'_>, all: &[TypedInitDeclarator])
    ensures { Tells (named_by_all k.now.types.now (declarators_of
        (added typed.NoInitDeclarator (map typed_init_declarator_view all.now)))) out.old out.new }
{
    for one in all {
        declarator(out, k, one)
    }
}

/// A declaration. A typedef declares no object and no function (C99 6.7.7).
fn declaration(out: &mut Names, k: &Scope<'_>, one: &TypedDeclaration)
    ensures { Tells (named_by_all k.now.types.now (declarators_in_declaration
        (typed_declaration_view one.now))) out.old out.new }
{
    if is_typedef(&one.specifiers) {
        skip(out)
    } else {
        declarators(out, k, one.declarators.as_slice())
    }
}

/// A statement.
#[cycle(telling)]
fn statement(out: &mut Names, k: &Scope<'_>, one: &TypedStatement)
    ensures { Tells (named_by_all k.now.types.now (declarators_in_statement
        (typed_statement_view one.now))) out.old out.new }
{
    match one {
        TypedStatement::Block(_, items) => block(out, k, items.as_slice()),
        TypedStatement::Express(_) => skip(out),
        TypedStatement::Empty => skip(out),
        TypedStatement::If(_, _, _, s) => statement(out, k, s.get()),
        TypedStatement::IfElse(_, _, _, s, other) => {
            statement(out, k, s.get());
            statement(out, k, other.get())
        }
        TypedStatement::Switch(_, _, _, _, items) => block(out, k, items.as_slice()),
        TypedStatement::While(_, _, _, s) => statement(out, k, s.get()),
        TypedStatement::DoWhile(s, _, _, _) => statement(out, k, s.get()),
        TypedStatement::For(_, _, _, _, _, s) => statement(out, k, s.get()),
        TypedStatement::ForDeclaration(_, _, d, _, _, s) => {
            declaration(out, k, d.get());
            statement(out, k, s.get())
        }
        TypedStatement::Break(_) => skip(out),
        TypedStatement::Continue(_) => skip(out),
        TypedStatement::Return(_, _) => skip(out),
    }
}

/// What a block holds.
#[cycle(telling)]
fn block(out: &mut Names, k: &Scope<'_>, all: &[TypedBlockItem])
    ensures { Tells (named_by_all k.now.types.now (declarators_in_items (typed_block_view all.now)))
        out.old out.new }
{
    for one in all {
        block_item(out, k, one)
    }
}

/// An item of a block behind others.
#[cycle(telling)]
fn block_item(out: &mut Names, k: &Scope<'_>, one: &TypedBlockItem)
    ensures { (all : typed.TypedBlockItems) (start : Seen)
        → Tells (named_by_all k.now.types.now (declarators_in_items all)) start out.old
        → Tells (named_by_all k.now.types.now
        (declarators_in_items (typed_block_item_view one.now all))) start out.new }
{
    match one {
        TypedBlockItem::Statement(s) => statement(out, k, s),
        TypedBlockItem::Declaration(d) => declaration(out, k, d),
        TypedBlockItem::Case(_, _, _) => skip(out),
        TypedBlockItem::Default(_) => skip(out),
    }
}

/// A declaration or a function, behind what comes before it.
fn external(out: &mut Names, k: &Scope<'_>, one: &TypedExternal)
    ensures { (all : typed.TypedTranslationUnit) (start : Seen)
        → Tells (named_by_all k.now.types.now (declarators_in all)) start out.old
        → Tells (named_by_all k.now.types.now (declarators_in (typed_external_view one.now all)))
        start out.new }
{
    match one {
        TypedExternal::Declaration(d) => declaration(out, k, d),
        TypedExternal::Function(f) => {
            tell(out, k, &f.declarator);
            block(out, k, f.body.as_slice())
        }
    }
}

/// The declarators of a unit.
pub(crate) fn externals(out: &mut Names, k: &Scope<'_>, all: &[TypedExternal])
    ensures { Tells (named_by_all k.now.types.now (declarators_in
        (added typed.NoExternal (map typed_external_view all.now)))) out.old out.new }
{
    for one in all {
        external(out, k, one)
    }
}
