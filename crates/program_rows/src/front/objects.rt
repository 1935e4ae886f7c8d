//! What the checker answers of expressions and of single declarations, before any other text.
ghost use Rattle.std.specs.Prelude.{◌≤◌, length};

use c_check_expr::{
    Naming, Scope, check_constant, check_declarator, check_expr, check_specifiers, check_value,
};
use c_expr_parse::{Level, parse_declarator, parse_expr, parse_specifiers};
use c_lexer::tokens;
use c_tree::{Declarator, Expr, Specifiers};
use c_types::{TypeShape, Types};
use cc_base::{Fault, NodeId, Place, TypeId};
use indexmap::IndexSet;
use std::alloc::{AllocError, Global};

/// `char` of every table.
const CHAR: TypeId = TypeId(1);

/// Before any text.
fn before(alloc: Global) -> Result<(Scope, Types), Fault> {
    let types = Types::new(alloc)?;
    Ok((Scope::new(alloc, IndexSet::new(alloc)), types))
}

/// What a type is made of.
fn made_of(alloc: Global, types: &Types, ty: TypeId) -> Result<String, Fault> {
    if ty.0 >= types.count() {
        return Ok(String::new(alloc));
    }
    Ok(format!(in alloc; "{:?}", types.shape(ty))?)
}

fn read_expression(alloc: Global, text: &[u8]) -> Result<Expr, Fault>
    requires { length text.now ≤ 1048576 }
{
    let list = tokens(alloc, text)?;
    let names = IndexSet::new(alloc);
    match parse_expr(alloc, text, &list, 0, 0, &names, Level::Comma) {
        Ok((e, _)) => Ok(e),
        Err(fault) => Err(fault),
    }
}

/// What an expression is judged as.
#[derive(Clone, Copy)]
pub(crate) enum Wanted {
    Value,
    /// What initialises a `char` at 7:3.
    Char,
    Constant,
}

/// The type of an expression.
fn value(alloc: Global, scope: &mut Scope, types: &mut Types, e: &Expr) -> Result<String, Fault> {
    match check_expr(scope, types, e) {
        Ok(made) => made_of(alloc, types, made.ty()),
        Err(fault) => Err(fault),
    }
}

/// The type of an expression that initialises a `char`.
fn for_char(
    alloc: Global,
    scope: &mut Scope,
    types: &mut Types,
    e: &Expr,
) -> Result<String, Fault> {
    let at = Place { line: 7, col: 3 };
    match check_value(scope, types, CHAR, at, true, e) {
        Ok(made) => made_of(alloc, types, made.ty()),
        Err(fault) => Err(fault),
    }
}

/// A type and a value of it.
fn with_value(alloc: Global, types: &Types, ty: TypeId, value: i128) -> Result<String, Fault> {
    let shape = made_of(alloc, types, ty)?;
    Ok(format!(in alloc; "{shape} {value}")?)
}

/// The type and the value of a constant expression.
fn constant(
    alloc: Global,
    scope: &mut Scope,
    types: &mut Types,
    e: &Expr,
) -> Result<String, Fault> {
    match check_constant(scope, types, e) {
        Ok((made, value)) => with_value(alloc, types, made.ty(), value),
        Err(fault) => Err(fault),
    }
}

/// What is judged of an expression before any other text.
fn judged(alloc: Global, e: &Expr, wanted: Wanted) -> Result<String, Fault> {
    let (mut scope, mut types) = before(alloc)?;
    match wanted {
        Wanted::Value => value(alloc, &mut scope, &mut types, e),
        Wanted::Char => for_char(alloc, &mut scope, &mut types, e),
        Wanted::Constant => constant(alloc, &mut scope, &mut types, e),
    }
}

/// What is judged of the expression that a text is.
pub(crate) fn typed_expression(alloc: Global, text: &[u8], wanted: Wanted) -> Result<String, Fault>
    requires { length text.now ≤ 1048576 }
{
    match read_expression(alloc, text) {
        Ok(e) => judged(alloc, &e, wanted),
        Err(fault) => Err(fault),
    }
}

/// Specifiers and the declarator behind them.
fn read_declaration(alloc: Global, text: &[u8]) -> Result<(Specifiers, Declarator), Fault>
    requires { length text.now ≤ 1048576 }
{
    let list = tokens(alloc, text)?;
    let names = IndexSet::new(alloc);
    let (specifiers, from) = parse_specifiers(alloc, text, &list, 0, 0, &names, false)?;
    match parse_declarator(alloc, text, &list, from, 0, &names) {
        Ok((declarator, _)) => Ok((specifiers, declarator)),
        Err(fault) => Err(fault),
    }
}

/// The type and the home of what a text declares.
fn object(
    alloc: Global,
    scope: &mut Scope,
    types: &mut Types,
    text: &[u8],
    naming: Naming,
) -> Result<(TypeId, Option<NodeId>), Fault>
    requires { length text.now ≤ 1048576 }
{
    let (specifiers, declarator) = read_declaration(alloc, text)?;
    let base = check_specifiers(scope, types, &specifiers, false)?;
    match check_declarator(scope, types, &base, &declarator, None, naming) {
        Ok(made) => Ok((made.ty, made.home)),
        Err(fault) => Err(fault),
    }
}

/// A type, the home of an object of it, and how many nodes there are.
fn with_home(
    alloc: Global,
    types: &Types,
    ty: TypeId,
    home: Option<NodeId>,
    nodes: u32,
) -> Result<String, Fault> {
    let mut out = made_of(alloc, types, ty)?;
    match home {
        Some(node) => write!(out, "; home {}", node.0)?,
        None => out.push_str("; no home")?,
    }
    write!(out, "; nodes: {nodes}")?;
    Ok(out)
}

/// The type of what a text declares, its home, and how many nodes there are then.
pub(crate) fn declared(alloc: Global, text: &[u8], naming: Naming) -> Result<String, Fault>
    requires { length text.now ≤ 1048576 }
{
    let (mut scope, mut types) = before(alloc)?;
    match object(alloc, &mut scope, &mut types, text, naming) {
        Ok((ty, home)) => with_home(alloc, &types, ty, home, scope.next_node()),
        Err(fault) => Err(fault),
    }
}

/// Adds the size and the alignment of a type in bytes.
fn add_layout(out: &mut String, types: &Types, ty: TypeId) -> Result<(), AllocError> {
    if ty.0 >= types.count() || !types.is_complete(ty) {
        return out.push_str("incomplete");
    }
    let size = types.size_of(ty);
    let align = types.align_of(ty);
    write!(out, "{size} bytes, aligned to {align}")
}

/// Adds where the members of a type are, if it has some.
fn add_members(out: &mut String, types: &Types, ty: TypeId) -> Result<(), AllocError> {
    if ty.0 >= types.count() {
        return Ok(());
    }
    match types.shape(ty) {
        TypeShape::Struct(_) | TypeShape::Union(_) => out.push_str("; members at")?,
        _ => return Ok(()),
    }
    for i in 0..types.fields(ty) {
        let offset = types.field(ty, i).offset;
        write!(out, " {offset}")?;
    }
    Ok(())
}

/// The size and the alignment of a type, and where its members are.
fn laid_out(alloc: Global, types: &Types, ty: TypeId) -> Result<String, Fault> {
    let mut out = String::new(alloc);
    add_layout(&mut out, types, ty)?;
    add_members(&mut out, types, ty)?;
    Ok(out)
}

/// The size and the alignment of what a text declares, and where its members are.
pub(crate) fn layout(alloc: Global, text: &[u8]) -> Result<String, Fault>
    requires { length text.now ≤ 1048576 }
{
    let (mut scope, mut types) = before(alloc)?;
    match object(alloc, &mut scope, &mut types, text, Naming::Static) {
        Ok((ty, _)) => laid_out(alloc, &types, ty),
        Err(fault) => Err(fault),
    }
}
