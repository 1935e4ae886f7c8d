//! What a row asks, by its word.
ghost use Rattle.std.specs.Prelude.{◌≤◌, length};

use crate::front::objects::{Wanted, declared, layout, typed_expression};
use crate::front::parts::{declarator, expression, specifiers, unit};
use c_expr_parse::Level;
use c_front::typed;
use c_lexer::{Token, literal_bytes, tokens};
use c_typing::{Naming, Scope};
use cc_base::{Fault, NodeId};
use indexmap::IndexSet;
use runtime_calls::{name_of, parameters_of, result_of, runtime};
use std::alloc::{AllocError, Global};

/// What is answered to a text: how many tokens it has, or which; the bytes that a string literal holds; the shape of the part that
/// it begins with, and how many tokens that has; how many declarations and functions the unit has; or whether it is accepted.
pub(crate) fn answered(alloc: Global, word: &str, text: &[u8]) -> Result<String, Fault>
    requires { length text.now ≤ 1048576 }
{
    match word {
        "count" => counted(alloc, text),
        "tokens" => listed(alloc, text),
        "literal" => literal(alloc, text),
        "expression" => expression(alloc, text, Level::Comma),
        "assignment" => expression(alloc, text, Level::Assign),
        "conditional" => expression(alloc, text, Level::Conditional),
        "specifiers" => specifiers(alloc, text, true),
        "specifiers-in-block" => specifiers(alloc, text, false),
        "declarator" => declarator(alloc, text),
        "unit" => unit(alloc, text),
        "check" => checked(alloc, text),
        _ => known(alloc, word, text),
    }
}

/// What is answered of types: that of an expression, also as the value of a `char` or of a constant; the layout of an object, or
/// the type and the home of what is declared; the prototype of a function of the C library; and which objects have room.
fn known(alloc: Global, word: &str, text: &[u8]) -> Result<String, Fault>
    requires { length text.now ≤ 1048576 }
{
    match word {
        "value" => typed_expression(alloc, text, Wanted::Value),
        "char" => typed_expression(alloc, text, Wanted::Char),
        "constant" => typed_expression(alloc, text, Wanted::Constant),
        "layout" => layout(alloc, text),
        "type" => declared(alloc, text, Naming::None),
        "static" => declared(alloc, text, Naming::Static),
        "local" => declared(alloc, text, Naming::Local),
        "known" => declared(alloc, text, Naming::Known(NodeId(1))),
        "library" => Ok(library(alloc, text)?),
        "globals" => Ok(globals(alloc, str::from_utf8(text).unwrap_or(""))?),
        _ => Ok(String::from_str(alloc, "no such word")?),
    }
}

/// How many tokens a text has.
fn counted(alloc: Global, text: &[u8]) -> Result<String, Fault>
    requires { length text.now ≤ 1048576 }
{
    let list = tokens(alloc, text)?;
    Ok(format!(in alloc; "tokens: {}", list.len())?)
}

/// Adds a token: its place, the bytes of the text that it is, and what it means.
fn add_token(out: &mut String, token: &Token<'_>) -> Result<(), AllocError> {
    let start = token.start();
    let end = start.saturating_add(token.bytes().len());
    write!(
        out,
        "\n        {} {start}..{end} {:?}",
        token.place(),
        token.kind()
    )
}

/// The tokens of a text.
fn listed(alloc: Global, text: &[u8]) -> Result<String, Fault>
    requires { length text.now ≤ 1048576 }
{
    let list = tokens(alloc, text)?;
    let mut out = format!(in alloc; "tokens: {}", list.len())?;
    for token in &list {
        add_token(&mut out, token)?;
    }
    Ok(out)
}

/// The bytes that a string literal holds.
fn literal(alloc: Global, text: &[u8]) -> Result<String, Fault> {
    if text.len() < 2 {
        return Ok(String::new(alloc));
    }
    let bytes = literal_bytes(alloc, text)?;
    Ok(format!(in alloc; "{:?}", bytes)?)
}

/// Whether a text is accepted.
fn checked(alloc: Global, text: &[u8]) -> Result<String, Fault>
    requires { length text.now ≤ 1048576 }
{
    match typed(alloc, text) {
        Ok(_) => Ok(String::from_str(alloc, "accepted")?),
        Err(fault) => Err(fault),
    }
}

/// The prototype of the function of the C library that has a name.
fn library(alloc: Global, name: &[u8]) -> Result<String, AllocError> {
    match runtime(name) {
        Some(one) => {
            let name = str::from_utf8(name_of(one)).unwrap_or("");
            let parameters = parameters_of(one);
            let result = result_of(one);
            format!(in alloc; "{name} {parameters:?} {result:?}")
        }
        None => String::from_str(alloc, "none"),
    }
}

/// Adds for each object of so many bytes whether there is room for it.
fn add_rooms(out: &mut String, scope: &mut Scope, sizes: &str) -> Result<(), AllocError> {
    for size in sizes.split(' ') {
        let has_room = scope.add_global(size.parse::<u64>().unwrap_or(0));
        out.push_str(if has_room { " yes" } else { " no" })?;
    }
    Ok(())
}

/// Whether there is room for objects of so many bytes, one after another.
fn globals(alloc: Global, sizes: &str) -> Result<String, AllocError> {
    let mut out = String::from_str(alloc, "room:")?;
    let mut scope = Scope::new(alloc, IndexSet::new(alloc));
    match add_rooms(&mut out, &mut scope, sizes) {
        Ok(()) => Ok(out),
        Err(error) => Err(error),
    }
}
