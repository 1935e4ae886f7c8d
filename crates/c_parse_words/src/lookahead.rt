//! What the next token says: closing and separating tokens, signs, operators.
ghost use Rattle.std.specs.Prelude.{◌≡◌};
ghost use Rattle.c_parse_words.specs.Seen.{next_view, suffix_view, placed_view};
ghost use Rattle.c_parse_words.specs.Tests as spec;

use crate::next::Next;
use crate::operators::{assignment_of, binary_of, precedence};
use c_lexer::{Keyword, Punctuator};
use c_tree::{Assignment, Binary, MemberOperator, Separator, Step};
use cc_base::Place;

/// Whether a `)` comes.
pub fn is_close_paren(next: Next<'_>) -> bool
    ensures { result ≡ spec.is_close_paren (next_view next.entry) }
{
    matches!(next, Next::Bare(Separator::CloseParen))
}

/// Whether a `]` comes.
pub fn is_close_bracket(next: Next<'_>) -> bool
    ensures { result ≡ spec.is_close_bracket (next_view next.entry) }
{
    matches!(next, Next::Bare(Separator::CloseBracket))
}

/// Whether a `}` comes.
pub fn is_close_brace(next: Next<'_>) -> bool
    ensures { result ≡ spec.is_close_brace (next_view next.entry) }
{
    matches!(next, Next::Bare(Separator::CloseBrace))
}

/// Whether a `;` comes.
pub fn is_semicolon(next: Next<'_>) -> bool
    ensures { result ≡ spec.is_semicolon (next_view next.entry) }
{
    matches!(next, Next::Bare(Separator::Semicolon))
}

/// Whether a `,` comes.
pub fn is_comma(next: Next<'_>) -> bool
    ensures { result ≡ spec.is_comma (next_view next.entry) }
{
    matches!(next, Next::Bare(Separator::Comma))
}

/// Whether a `:` comes.
pub fn is_colon(next: Next<'_>) -> bool
    ensures { result ≡ spec.is_colon (next_view next.entry) }
{
    matches!(next, Next::Bare(Separator::Colon))
}

/// The place of a `(` that comes.
pub fn open_paren(next: Next<'_>) -> Option<Place>
    ensures { result ≡ spec.open_paren (next_view next.entry) }
{
    match next {
        Next::Mark(Punctuator::OpenParen, at) => Some(at),
        _ => None,
    }
}

/// The place of a `[` that comes.
pub fn open_bracket(next: Next<'_>) -> Option<Place>
    ensures { result ≡ spec.open_bracket (next_view next.entry) }
{
    match next {
        Next::Mark(Punctuator::OpenBracket, at) => Some(at),
        _ => None,
    }
}

/// The place of a `{` that comes.
pub fn open_brace(next: Next<'_>) -> Option<Place>
    ensures { result ≡ spec.open_brace (next_view next.entry) }
{
    match next {
        Next::Mark(Punctuator::OpenBrace, at) => Some(at),
        _ => None,
    }
}

/// The place of a `=` that comes.
pub fn equals_sign(next: Next<'_>) -> Option<Place>
    ensures { result ≡ spec.equals_sign (next_view next.entry) }
{
    match next {
        Next::Mark(Punctuator::Equal, at) => Some(at),
        _ => None,
    }
}

/// The place of a `*` that comes.
pub fn star_sign(next: Next<'_>) -> Option<Place>
    ensures { result ≡ spec.star_sign (next_view next.entry) }
{
    match next {
        Next::Mark(Punctuator::Star, at) => Some(at),
        _ => None,
    }
}

/// The place of a `?` that comes.
pub fn question_mark(next: Next<'_>) -> Option<Place>
    ensures { result ≡ spec.question_mark (next_view next.entry) }
{
    match next {
        Next::Mark(Punctuator::Question, at) => Some(at),
        _ => None,
    }
}

/// An operator and its place.
#[derive(Clone, Copy)]
pub struct Placed<T> {
    pub what: T,
    pub place: Place,
}

fn at_place<T>(what: Option<T>, place: Place) -> Option<Placed<T>>
    ensures { placed_view result ≡ spec.placed what place }
{
    match what {
        Some(what) => Some(Placed { what, place }),
        None => None,
    }
}

/// The binary operator that comes.
pub fn binary_operator(next: Next<'_>) -> Option<Placed<Binary>>
    ensures { placed_view result ≡ spec.binary_operator (next_view next.entry) }
{
    match next {
        Next::Mark(punctuator, at) => at_place(binary_of(punctuator), at),
        _ => None,
    }
}

/// The assignment operator that comes.
pub fn assignment_operator(next: Next<'_>) -> Option<Placed<Assignment>>
    ensures { placed_view result ≡ spec.assignment_operator (next_view next.entry) }
{
    match next {
        Next::Mark(punctuator, at) => at_place(assignment_of(punctuator), at),
        _ => None,
    }
}

/// A binary operator comes that makes an expression of at least this level.
pub fn binds(least: u8, next: Next<'_>) -> bool
    ensures { result ≡ spec.binds least (next_view next.entry) }
{
    match binary_operator(next) {
        Some(operator) => least <= precedence(operator.what),
        None => false,
    }
}

/// What goes on after a postfix expression.
#[derive(Clone, Copy)]
pub enum Suffix {
    Index(Place),
    Call(Place),
    Member(MemberOperator, Place),
    Step(Step, Place),
    None,
}

fn suffix_of(punctuator: Punctuator, at: Place) -> Suffix
    ensures { suffix_view result ≡ spec.suffix_of punctuator at }
{
    match punctuator {
        Punctuator::OpenBracket => Suffix::Index(at),
        Punctuator::OpenParen => Suffix::Call(at),
        Punctuator::Dot => Suffix::Member(MemberOperator::Dot, at),
        Punctuator::Arrow => Suffix::Member(MemberOperator::Arrow, at),
        Punctuator::PlusPlus => Suffix::Step(Step::Increment, at),
        Punctuator::MinusMinus => Suffix::Step(Step::Decrement, at),
        _ => Suffix::None,
    }
}

/// How a postfix expression goes on.
pub fn next_suffix(next: Next<'_>) -> Suffix
    ensures { suffix_view result ≡ spec.suffix (next_view next.entry) }
{
    match next {
        Next::Mark(punctuator, at) => suffix_of(punctuator, at),
        _ => Suffix::None,
    }
}

/// Whether a postfix expression goes on.
pub fn has_suffix(next: Next<'_>) -> bool
    ensures { result ≡ spec.has_suffix (next_view next.entry) }
{
    !matches!(next_suffix(next), Suffix::None)
}

/// Whether `long` comes.
pub fn is_long_next(next: Next<'_>) -> bool
    ensures { result ≡ spec.is_long_next (next_view next.entry) }
{
    matches!(next, Next::Word(Keyword::Long, _))
}
