//! What the parser answers.
ghost use Rattle.std.specs.Prelude.{◌≤◌, length};

use crate::front::shape::{Piece, shape};
use c_expr_parse::{Level, parse_declarator, parse_expr, parse_specifiers};
use c_lexer::tokens;
use c_parser::parse_unit;
use c_tree::{Declarator, Expr};
use cc_base::Fault;
use indexmap::IndexSet;
use std::alloc::Global;

/// The typedef names in force: `T`.
fn names(alloc: Global) -> Result<IndexSet<Vec<u8>>, Fault> {
    let mut names = IndexSet::new(alloc);
    match names.insert(Vec::from_slice(alloc, b"T")?) {
        Ok(_) => Ok(names),
        Err(_) => Err(Fault::NoMemory),
    }
}

/// The shape of a part, and how many tokens it has.
fn shown(alloc: Global, piece: Piece<'_>, used: usize) -> Result<String, Fault> {
    let shape = shape(alloc, piece)?;
    Ok(format!(in alloc; "{shape}; tokens: {used}")?)
}

/// The shape of an expression, how many tokens it has, and where it begins.
fn placed(alloc: Global, e: &Expr, used: usize) -> Result<String, Fault> {
    let shape = shown(alloc, Piece::Expr(e), used)?;
    let place = e.place();
    Ok(format!(in alloc; "{shape}; from {place}")?)
}

/// The expression that a text begins with.
pub(crate) fn expression(alloc: Global, text: &[u8], level: Level) -> Result<String, Fault>
    requires { length text.now ≤ 1048576 }
{
    let list = tokens(alloc, text)?;
    let names = names(alloc)?;
    match parse_expr(alloc, text, &list, 0, 0, &names, level) {
        Ok((e, used)) => placed(alloc, &e, used),
        Err(fault) => Err(fault),
    }
}

/// The specifiers that a text begins with.
pub(crate) fn specifiers(alloc: Global, text: &[u8], at_file: bool) -> Result<String, Fault>
    requires { length text.now ≤ 1048576 }
{
    let list = tokens(alloc, text)?;
    let names = names(alloc)?;
    match parse_specifiers(alloc, text, &list, 0, 0, &names, at_file) {
        Ok((s, used)) => shown(alloc, Piece::Specifiers(s.list.as_slice()), used),
        Err(fault) => Err(fault),
    }
}

/// The shape of a declarator, how many tokens it has, and the name that it declares.
fn named(alloc: Global, d: &Declarator, used: usize) -> Result<String, Fault> {
    let shape = shown(alloc, Piece::Declarator(d), used)?;
    let name = match d.name() {
        Some(name) => str::from_utf8(name.bytes.as_slice()).unwrap_or(""),
        None => "nothing",
    };
    Ok(format!(in alloc; "{shape}; declares {name}")?)
}

/// The declarator that a text begins with.
pub(crate) fn declarator(alloc: Global, text: &[u8]) -> Result<String, Fault>
    requires { length text.now ≤ 1048576 }
{
    let list = tokens(alloc, text)?;
    let names = names(alloc)?;
    match parse_declarator(alloc, text, &list, 0, 0, &names) {
        Ok((d, used)) => named(alloc, &d, used),
        Err(fault) => Err(fault),
    }
}

/// How many declarations and functions the unit has that a text is.
pub(crate) fn unit(alloc: Global, text: &[u8]) -> Result<String, Fault>
    requires { length text.now ≤ 1048576 }
{
    let list = tokens(alloc, text)?;
    let count = match parse_unit(alloc, text, &list) {
        Ok(unit) => unit.externals.len(),
        Err(fault) => return Err(fault),
    };
    Ok(format!(in alloc; "externals: {count}")?)
}
