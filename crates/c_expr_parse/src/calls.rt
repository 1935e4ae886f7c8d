//! The calls that parse a part of a text from one of its tokens on.
ghost use Rattle.std.specs.Prelude.{◌≡◌, ◌≤◌, ◌-◌, IfOk, IfErr, length};
ghost use Rattle.c_tree.specs.Grammar.{WithName};
ghost use Rattle.c_tree.specs.Views.{expr_view, specifiers_view, declarator_view};
ghost use Rattle.c_parse_words.specs.Seen.{names_of, scope_view};
ghost use Rattle.c_expr_parse.specs.Answers.{ExprAnswered, SpecifiersAnswered, DeclaratorAnswered};
ghost use Rattle.c_expr_parse.specs.Calls as spec;
ghost use Rattle.c_expr_parse.specs.Calls.{symbols_from, IsReadTo, IsFault};

use crate::nesting::{read_declarator, read_expr, read_specifiers};
use c_lexer::Token;
use c_parse_words::begins::Naming;
use c_parse_words::cursor::Cursor;
use c_parse_words::fault::fault_of;
use c_parse_words::words::Scope;
use c_tree::{Declarator, Expr, Specifiers};
use cc_base::Fault;
use indexmap::IndexSet;
use std::alloc::Global;

/// Which of C99's expressions is read.
#[derive(Clone, Copy, Debug, PartialEq, Eq)]
pub enum Level {
    /// An expression, which may have commas (6.5.17).
    Comma,
    /// An assignment expression (6.5.16).
    Assign,
    /// A conditional expression (6.5.15).
    Conditional,
}

fn least_level(level: Level) -> u8
    ensures { result ≡ spec.least_level level }
{
    match level {
        Level::Comma => 0,
        Level::Assign => 1,
        Level::Conditional => 2,
    }
}

/// Where the specifiers of a declaration stand.
fn scope_of(at_file: bool) -> Scope
    ensures { scope_view result ≡ spec.scope_of at_file }
{
    if at_file {
        Scope::AtFile
    } else {
        Scope::InBlock
    }
}

/// How many nodes are allowed on a path below so many others.
fn nodes_below(depth: u32) -> u16
    requires { depth ≤ 256 }
    ensures { result ≡ 256 - depth }
{
    (256 - depth) as u16
}

/// Parses an expression of a level from the token with the number `from` on, and gives it with the
/// number of the first token after it.
///
/// `toks` are the tokens of the text, `names` the typedef names that are in force there, and `depth`
/// is the number of nodes above the expression in its tree.
///
/// The *run* is the longest row of tokens from there on with which some expression of the level
/// begins. The answer is `Unsupported` at the token after the run, if with it the run begins an
/// expression of C99 with a construct that is left out; else the expression that the run is; else
/// `Syntax` at the token after the run, or just after the text where there is none.
/// `TooLarge` with `Depth` is answered only at a token of the run such that each expression that
/// begins with the tokens through it has a path of more than 256 nodes, with those above it.
pub fn parse_expr(
    alloc: Global,
    text: &[u8],
    toks: &[Token<'_>],
    from: usize,
    depth: u32,
    names: &IndexSet<Vec<u8>>,
    level: Level,
) -> Result<(Expr, usize), Fault>
    requires text { length text.now ≤ 1048576 }
    requires from { from ≤ length toks.now }
    requires depth { depth ≤ 256 }
    ensures read { IfOk result (λ r. IsReadTo (ExprAnswered (names_of names.now)
        (spec.least_level level) (256 - depth) (symbols_from toks.now from)) toks.now from
        (expr_view r.0) r.1) }
    ensures refused { IfErr result (IsFault (ExprAnswered (names_of names.now)
        (spec.least_level level) (256 - depth) (symbols_from toks.now from)) text.now toks.now) }
{
    let mut cursor = Cursor::new(&toks[from..]);
    match read_expr(
        alloc,
        names,
        &mut cursor,
        nodes_below(depth),
        least_level(level),
    ) {
        Ok(e) => Ok((e.tree, toks.len() - cursor.left())),
        Err(stop) => Err(fault_of(text, toks, &cursor, stop)),
    }
}

/// Parses specifiers, at least one of which says a type, as `parse_expr` parses an expression. At file
/// scope `typedef` may stand among them.
pub fn parse_specifiers(
    alloc: Global,
    text: &[u8],
    toks: &[Token<'_>],
    from: usize,
    depth: u32,
    names: &IndexSet<Vec<u8>>,
    file: bool,
) -> Result<(Specifiers, usize), Fault>
    requires text { length text.now ≤ 1048576 }
    requires from { from ≤ length toks.now }
    requires depth { depth ≤ 256 }
    ensures read { IfOk result (λ r. IsReadTo (SpecifiersAnswered (names_of names.now)
        (spec.scope_of file) (256 - depth) (symbols_from toks.now from)) toks.now from
        (specifiers_view r.0) r.1) }
    ensures refused { IfErr result (IsFault (SpecifiersAnswered (names_of names.now)
        (spec.scope_of file) (256 - depth) (symbols_from toks.now from)) text.now toks.now) }
{
    let mut cursor = Cursor::new(&toks[from..]);
    match read_specifiers(
        alloc,
        names,
        &mut cursor,
        nodes_below(depth),
        scope_of(file),
    ) {
        Ok(specifiers) => Ok((specifiers.tree, toks.len() - cursor.left())),
        Err(stop) => Err(fault_of(text, toks, &cursor, stop)),
    }
}

/// Parses a declarator with a name, as `parse_expr` parses an expression.
pub fn parse_declarator(
    alloc: Global,
    text: &[u8],
    toks: &[Token<'_>],
    from: usize,
    depth: u32,
    names: &IndexSet<Vec<u8>>,
) -> Result<(Declarator, usize), Fault>
    requires text { length text.now ≤ 1048576 }
    requires from { from ≤ length toks.now }
    requires depth { depth ≤ 256 }
    ensures read { IfOk result (λ r. IsReadTo (DeclaratorAnswered (names_of names.now) WithName
        (256 - depth) (symbols_from toks.now from)) toks.now from (declarator_view r.0) r.1) }
    ensures refused { IfErr result (IsFault (DeclaratorAnswered (names_of names.now) WithName
        (256 - depth) (symbols_from toks.now from)) text.now toks.now) }
{
    let mut cursor = Cursor::new(&toks[from..]);
    match read_declarator(
        alloc,
        names,
        &mut cursor,
        nodes_below(depth),
        Naming::WithName,
    ) {
        Ok(declarator) => Ok((declarator.tree, toks.len() - cursor.left())),
        Err(stop) => Err(fault_of(text, toks, &cursor, stop)),
    }
}
