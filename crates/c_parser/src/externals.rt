//! Declarations and functions at file scope, where the names of types are declared (C99 6.9).
ghost use Rattle.std.specs.Prelude.{◌≡◌, [], IfOk, None, OnOk};
ghost use Rattle.std.specs.List.{list_any};
ghost use Rattle.parse_rules.specs.Parsers.{by_first, loop};
ghost use Rattle.c_tree.specs.Grammar as grammar;
ghost use Rattle.c_tree.specs.Grammar.{declared_name, names_after, names_after_all, type_names};
ghost use Rattle.c_tree.specs.Tree as tree;
ghost use Rattle.c_tree.specs.Views.{declarator_view, specifier_view, specifiers_view};
ghost use Rattle.c_tree.specs.Words as words;
ghost use Rattle.c_tree.specs.Words.{TypeNames};
ghost use Rattle.c_parse_words.specs.Seen.{after_skip, names_of, Reads};
ghost use Rattle.c_parse_words.specs.Tests as tests;
ghost use Rattle.c_expr_parse.specs.Rules.{rules};
ghost use Rattle.c_parser.specs.DeclarationRules as declarations;
ghost use Rattle.c_parser.specs.Names.{IsNew};
ghost use Rattle.c_parser.specs.Seen.{init_declarators_seen, unit_seen};
ghost use Rattle.c_parser.specs.UnitRules as spec;

use crate::reader::Reader;
use crate::statements::{Statements, read_statement};
use crate::tokens::{expect_close_brace, expect_semicolon, take_open_brace};
use c_lexer::Keyword;
use c_parse_words::begins::{Naming, begins_declarator, begins_specifier};
use c_parse_words::cursor::Cursor;
use c_parse_words::lookahead::{is_comma, open_brace};
use c_parse_words::stop::{Stop, too_deep};
use c_parse_words::words::Scope;
use c_tree::{
    Declaration, Declarator, External, FunctionDefinition, InitDeclarator, Items, Specifier,
    Specifiers,
};
use cc_base::NoMemory;
use indexmap::IndexSet;
use std::alloc::Global;

#[tactic(auto, using(c_tree::proofs::ViewLaws::expr_views))]
fn is_typedef(specifier: &Specifier) -> bool
    ensures { result ≡ words.is_typedef (specifier_view specifier.now) }
{
    match specifier {
        Specifier::Keyword(word) => matches!(word.keyword, Keyword::Typedef),
        _ => false,
    }
}

fn any_typedef(list: &[Specifier]) -> bool
    ensures { result ≡ list_any (λ specifier. words.is_typedef (specifier_view specifier))
        list.now }
{
    list.iter().any(|specifier| is_typedef(specifier))
}

/// Whether the declaration declares types.
fn has_typedef(specifiers: &Specifiers) -> bool
    ensures { result ≡ words.has_typedef (specifiers_view specifiers.now) }
{
    any_typedef(specifiers.list.as_slice())
}

/// Puts the name of a typedef's declarator in force.
fn declare(
    alloc: Global,
    names: &mut IndexSet<Vec<u8>>,
    is_typedef: bool,
    declarator: &Declarator,
) -> Result<(), NoMemory>
    requires { IsNew (names_of names.old) (declared_name (declarator_view declarator.now)) }
    ensures { OnOk result (names_of names.new ≡ names_after is_typedef (names_of names.old)
        (declarator_view declarator.now)) }
{
    if !is_typedef {
        return Ok(());
    }
    let Some(name) = declarator.name() else {
        return Ok(());
    };
    let bytes = Vec::from_slice(alloc, name.bytes.as_slice())?;
    names.insert(bytes)?;
    Ok(())
}

/// A declarator with a name, which is no typedef name that is in force.
fn new_declarator(
    alloc: Global,
    names: &IndexSet<Vec<u8>>,
    depth: u16,
    cursor: &mut Cursor<'_>,
) -> Result<Declarator, Stop>
    ensures reads { Reads declarator_view ((rules (names_of names.now) depth).declarator
        grammar.WithName cursor.old) result cursor.new }
    ensures new { IfOk result (λ x. IsNew (names_of names.now)
        (declared_name (declarator_view x))) }
{
    Reader {
        alloc,
        names,
        depth,
    }
    .declarator(cursor)
}

/// What stands after a declarator, whose name is in force there.
fn with_initialiser(
    alloc: Global,
    names: &mut IndexSet<Vec<u8>>,
    depth: u16,
    is_typedef: bool,
    cursor: &mut Cursor<'_>,
    before: Items<InitDeclarator>,
    declarator: Declarator,
) -> Result<Items<InitDeclarator>, Stop>
    requires { IsNew (names_of names.old) (declared_name (declarator_view declarator)) }
    ensures reads { Reads init_declarators_seen (by_first tests.equals_sign
        (declarations.with_initialiser (names_after is_typedef (names_of names.old)
        (declarator_view declarator)) depth (init_declarators_seen before)
        (declarator_view declarator)) cursor.old) result cursor.new }
    ensures names { IfOk result (λ list. (base : TypeNames) → names_of names.old
        ≡ names_after_all is_typedef base (init_declarators_seen before) → names_of names.new
        ≡ names_after_all is_typedef base (init_declarators_seen list)) }
{
    if declare(alloc, names, is_typedef, &declarator).is_err() {
        return Err(Stop::NoMemory);
    }
    let reader = Reader {
        alloc,
        names: &*names,
        depth,
    };
    let list = reader.with_initialiser(cursor, before, declarator)?;
    Ok(list)
}

/// One declarator more, after a comma.
#[tactic(auto, unfolding(crate::specs::DeclarationRules::next_declarator))]
fn declarator_after_comma(
    alloc: Global,
    names: &mut IndexSet<Vec<u8>>,
    depth: u16,
    is_typedef: bool,
    cursor: &mut Cursor<'_>,
    before: Items<InitDeclarator>,
) -> Result<Items<InitDeclarator>, Stop>
    ensures reads { Reads init_declarators_seen (after_skip (declarations.next_declarator
        (names_of names.old) is_typedef depth (init_declarators_seen before)) cursor.old) result
        cursor.new }
    ensures names { IfOk result (λ list. (base : TypeNames) → names_of names.old
        ≡ names_after_all is_typedef base (init_declarators_seen before) → names_of names.new
        ≡ names_after_all is_typedef base (init_declarators_seen list)) }
{
    cursor.skip()?;
    let declarator = new_declarator(alloc, &*names, depth, cursor)?;
    let list = with_initialiser(alloc, names, depth, is_typedef, cursor, before, declarator)?;
    Ok(list)
}

/// The declarators of a declaration, of which the first was read.
#[tactic(auto, unfolding(crate::specs::UnitRules::declarators_after, crate::specs::DeclarationRules::declarators_from))]
fn declarators(
    alloc: Global,
    names: &mut IndexSet<Vec<u8>>,
    depth: u16,
    is_typedef: bool,
    cursor: &mut Cursor<'_>,
    declarator: Declarator,
) -> Result<Items<InitDeclarator>, Stop>
    requires { IsNew (names_of names.old) (declared_name (declarator_view declarator)) }
    ensures reads { Reads init_declarators_seen (spec.declarators_after
        (names_of names.old) is_typedef depth (declarator_view declarator) cursor.old) result
        cursor.new }
    ensures names { IfOk result (λ list. names_of names.new
        ≡ names_after_all is_typedef (names_of names.old) (init_declarators_seen list)) }
{
    let none = Items::new(alloc);
    let first = with_initialiser(alloc, names, depth, is_typedef, cursor, none, declarator)?;
    let mut list = first;
    for _turn in 0..cursor.left() {
        if !is_comma(cursor.peek()) {
            return Ok(list);
        }
        list = declarator_after_comma(alloc, names, depth, is_typedef, cursor, list)?;
    }
    Ok(list)
}

/// The body of a function, which is a node. The function's name is declared before it.
#[tactic(auto, using(c_tree::proofs::PushLaws::pushes, crate::proofs::StatementNodes::body_deeper, crate::proofs::StatementNodes::body_too_deep))]
fn function_body(
    reader: &Reader<'_>,
    cursor: &mut Cursor<'_>,
    mut unit: Items<External>,
    specifiers: Specifiers,
    declarator: Declarator,
) -> Result<Items<External>, Stop>
    requires { names_of reader.now.names.now ≡ names_after
        (words.has_typedef (specifiers_view specifiers)) (type_names (unit_seen unit))
        (declarator_view declarator) }
    ensures reads { Reads unit_seen (spec.function_body (unit_seen unit)
        (specifiers_view specifiers) (declarator_view declarator) reader.now.depth cursor.old)
        result cursor.new }
    ensures names { IfOk result (λ u. names_of reader.now.names.now ≡ type_names (unit_seen u)) }
{
    if reader.depth == 0 {
        return Err(too_deep(open_brace(cursor.peek()).is_some()));
    }
    let brace = take_open_brace(cursor)?;
    let statements = Statements {
        reader: Reader {
            alloc: reader.alloc,
            names: reader.names,
            depth: reader.depth - 1,
        },
        read_inner: read_statement,
    };
    let body = statements.block_items(cursor, false)?;
    expect_close_brace(cursor)?;
    unit.push(External::Function(FunctionDefinition {
        specifiers,
        declarator,
        brace,
        body,
    }))?;
    Ok(unit)
}

/// A function from its body on. Its name is declared before the body.
fn function(
    alloc: Global,
    names: &mut IndexSet<Vec<u8>>,
    depth: u16,
    cursor: &mut Cursor<'_>,
    unit: Items<External>,
    specifiers: Specifiers,
    declarator: Declarator,
) -> Result<Items<External>, Stop>
    requires names { names_of names.old ≡ type_names (unit_seen unit) }
    requires new { IsNew (names_of names.old) (declared_name (declarator_view declarator)) }
    ensures reads { Reads unit_seen (spec.function_body (unit_seen unit)
        (specifiers_view specifiers) (declarator_view declarator) depth cursor.old) result
        cursor.new }
    ensures names { IfOk result (λ u. names_of names.new ≡ type_names (unit_seen u)) }
{
    if declare(alloc, names, has_typedef(&specifiers), &declarator).is_err() {
        return Err(Stop::NoMemory);
    }
    let reader = Reader {
        alloc,
        names: &*names,
        depth,
    };
    function_body(&reader, cursor, unit, specifiers, declarator)
}

/// A declaration from what follows its first declarator on.
#[tactic(auto, using(c_tree::proofs::PushLaws::pushes, crate::proofs::DeclarationRest::plain_declaration))]
fn rest_of_declaration(
    alloc: Global,
    names: &mut IndexSet<Vec<u8>>,
    depth: u16,
    cursor: &mut Cursor<'_>,
    mut unit: Items<External>,
    specifiers: Specifiers,
    declarator: Declarator,
) -> Result<Items<External>, Stop>
    requires names { names_of names.old ≡ type_names (unit_seen unit) }
    requires new { IsNew (names_of names.old) (declared_name (declarator_view declarator)) }
    ensures reads { Reads unit_seen (spec.after_declarator depth (unit_seen unit)
        (specifiers_view specifiers) (declarator_view declarator) None cursor.old) result
        cursor.new }
    ensures names { IfOk result (λ u. names_of names.new ≡ type_names (unit_seen u)) }
{
    let is_typedef = has_typedef(&specifiers);
    let declarators = declarators(alloc, names, depth, is_typedef, cursor, declarator)?;
    expect_semicolon(cursor)?;
    unit.push(External::Declaration(Declaration {
        specifiers,
        declarators,
    }))?;
    Ok(unit)
}

/// What stands after specifiers and a declarator: the body of a function, or the rest of a declaration.
#[tactic(auto, unfolding(crate::specs::UnitRules::after_declarator))]
fn after_declarator(
    alloc: Global,
    names: &mut IndexSet<Vec<u8>>,
    depth: u16,
    cursor: &mut Cursor<'_>,
    unit: Items<External>,
    specifiers: Specifiers,
    declarator: Declarator,
) -> Result<Items<External>, Stop>
    requires names { names_of names.old ≡ type_names (unit_seen unit) }
    requires new { IsNew (names_of names.old) (declared_name (declarator_view declarator)) }
    ensures reads { Reads unit_seen (by_first tests.open_brace
        (spec.after_declarator depth (unit_seen unit) (specifiers_view specifiers)
        (declarator_view declarator)) cursor.old) result cursor.new }
    ensures names { IfOk result (λ u. names_of names.new ≡ type_names (unit_seen u)) }
{
    match open_brace(cursor.peek()) {
        Some(_) => function(alloc, names, depth, cursor, unit, specifiers, declarator),
        None => rest_of_declaration(alloc, names, depth, cursor, unit, specifiers, declarator),
    }
}

/// A declaration or a function.
#[tactic(auto, using(c_tree::proofs::PushLaws::pushes), unfolding(crate::specs::UnitRules::external))]
fn external(
    alloc: Global,
    names: &mut IndexSet<Vec<u8>>,
    depth: u16,
    cursor: &mut Cursor<'_>,
    mut unit: Items<External>,
) -> Result<Items<External>, Stop>
    requires { names_of names.old ≡ type_names (unit_seen unit) }
    ensures reads { Reads unit_seen (spec.external depth (unit_seen unit) cursor.old) result
        cursor.new }
    ensures names { IfOk result (λ u. names_of names.new ≡ type_names (unit_seen u)) }
{
    let reader = Reader {
        alloc,
        names: &*names,
        depth,
    };
    let specifiers = reader.specifiers(cursor, Scope::AtFile)?;
    if begins_declarator(&*names, Naming::WithName, cursor.peek()) {
        let declarator = new_declarator(alloc, &*names, depth, cursor)?;
        return after_declarator(alloc, names, depth, cursor, unit, specifiers, declarator);
    }
    expect_semicolon(cursor)?;
    unit.push(External::Declaration(Declaration {
        specifiers,
        declarators: Items::new(alloc),
    }))?;
    Ok(unit)
}

/// Declarations and functions, as many as there are.
pub fn externals(
    alloc: Global,
    names: &mut IndexSet<Vec<u8>>,
    depth: u16,
    cursor: &mut Cursor<'_>,
) -> Result<Items<External>, Stop>
    requires { names_of names.old ≡ [] }
    ensures { Reads unit_seen (loop (λ unit. tests.begins_specifier (type_names unit) words.AtFile)
        (spec.external depth) tree.NoExternal cursor.old) result cursor.new }
{
    let mut unit = Items::new(alloc);
    for _turn in 0..cursor.left() {
        if !begins_specifier(&*names, Scope::AtFile, cursor.peek()) {
            return Ok(unit);
        }
        unit = external(alloc, names, depth, cursor, unit)?;
    }
    Ok(unit)
}
