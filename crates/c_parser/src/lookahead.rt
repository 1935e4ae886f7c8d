//! What the next token says of statements (C99 6.8).
ghost use Rattle.std.specs.Prelude.{◌≡◌};
ghost use Rattle.c_parse_words.specs.Seen.{names_of, next_view};
ghost use Rattle.c_parser.specs.Seen.{label_view, start_view};
ghost use Rattle.c_parser.specs.Tests as spec;

use c_lexer::{Keyword, Punctuator};
use c_parse_words::begins::begins_expr;
use c_parse_words::next::Next;
use c_tree::Separator;
use cc_base::Place;
use indexmap::IndexSet;

pub fn is_else(next: Next<'_>) -> bool
    ensures { result ≡ spec.is_else (next_view next.entry) }
{
    matches!(next, Next::Bare(Separator::Else))
}

pub fn while_word(next: Next<'_>) -> Option<Place>
    ensures { result ≡ spec.while_word (next_view next.entry) }
{
    match next {
        Next::Word(Keyword::While, at) => Some(at),
        _ => None,
    }
}

/// How a statement begins that is no expression.
#[derive(Clone, Copy)]
pub enum StatementStart {
    Block(Place),
    Empty,
    If(Place),
    Switch(Place),
    While(Place),
    Do,
    For(Place),
    Break(Place),
    Continue(Place),
    Return(Place),
    None,
}

fn start_of_keyword(word: Keyword, at: Place) -> StatementStart
    ensures { start_view result ≡ spec.start_of_keyword word at }
{
    match word {
        Keyword::If => StatementStart::If(at),
        Keyword::Switch => StatementStart::Switch(at),
        Keyword::While => StatementStart::While(at),
        Keyword::For => StatementStart::For(at),
        Keyword::Break => StatementStart::Break(at),
        Keyword::Continue => StatementStart::Continue(at),
        Keyword::Return => StatementStart::Return(at),
        _ => StatementStart::None,
    }
}

pub fn statement_start(next: Next<'_>) -> StatementStart
    ensures { start_view result ≡ spec.statement_start (next_view next.entry) }
{
    match next {
        Next::Mark(Punctuator::OpenBrace, at) => StatementStart::Block(at),
        Next::Bare(Separator::Semicolon) => StatementStart::Empty,
        Next::Bare(Separator::Do) => StatementStart::Do,
        Next::Word(word, at) => start_of_keyword(word, at),
        _ => StatementStart::None,
    }
}

pub fn begins_statement(names: &IndexSet<Vec<u8>>, next: Next<'_>) -> bool
    ensures { result ≡ spec.begins_statement (names_of names.now) (next_view next.entry) }
{
    !matches!(statement_start(next), StatementStart::None) || begins_expr(names, next)
}

/// How a label begins.
#[derive(Clone, Copy)]
pub enum LabelStart {
    Case(Place),
    Default(Place),
    None,
}

fn label_of_keyword(word: Keyword, at: Place) -> LabelStart
    ensures { label_view result ≡ spec.label_of_keyword word at }
{
    match word {
        Keyword::Case => LabelStart::Case(at),
        Keyword::Default => LabelStart::Default(at),
        _ => LabelStart::None,
    }
}

pub fn label_start(next: Next<'_>) -> LabelStart
    ensures { label_view result ≡ spec.label_start (next_view next.entry) }
{
    match next {
        Next::Word(word, at) => label_of_keyword(word, at),
        _ => LabelStart::None,
    }
}

pub fn begins_label(next: Next<'_>) -> bool
    ensures { result ≡ spec.is_label_start (spec.label_start (next_view next.entry)) }
{
    !matches!(label_start(next), LabelStart::None)
}
