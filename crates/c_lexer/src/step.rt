//! The next piece of a text.
ghost use Rattle.std.specs.Prelude.{◌≡◌, ◌<◌, ◌≤◌, ◌+◌, ◌^◌, Ok, Bool, nat_eq, codes, length, take};
ghost use Rattle.std.specs.List.{starts_with, prefix_len};
ghost use Rattle.c_lexer.specs.Bytes.{is_word_byte};
ghost use Rattle.c_lexer.specs.Lexemes.{begins_wide_literal};
ghost use Rattle.c_lexer.specs.Numbers.{number_kind};
ghost use Rattle.c_lexer.specs.Words.{word_kind};
ghost use Rattle.c_lexer.specs.Reading.{gap_of, token_of, literal_step, literal_size, number_size, lexeme_at, step_at};

use crate::byte::{begins_with_blank, begins_with_byte, begins_with_letter, begins_with_quote};
use crate::gap::{comment_step, directive_step, line_of};
use crate::literal::{literal_kind, literal_size};
use crate::number::{begins_number, number_kind, number_size};
use crate::punctuator::punctuator_step;
use crate::token::TokenKind;
use crate::word::{word_kind, word_size};
use cc_base::Rule;

/// The piece that a text begins with: how many bytes it has, and what token it is, if it is one.
#[derive(Clone, Copy)]
pub(crate) struct Step {
    pub size: usize,
    pub kind: Option<TokenKind>,
}

/// A piece that is no token.
pub(crate) fn gap(size: usize) -> Step
    ensures { Ok result ≡ gap_of size }
{
    Step { size, kind: None }
}

/// A token of this size, where its bytes are one.
fn token(size: usize, kind: Result<TokenKind, Rule>) -> Result<Step, Rule>
    ensures { result ≡ token_of size kind }
{
    match kind {
        Ok(kind) => Ok(Step {
            size,
            kind: Some(kind),
        }),
        Err(rule) => Err(rule),
    }
}

fn word_step(text: &[u8]) -> Result<Step, Rule>
    ensures { result ≡ token_of (prefix_len is_word_byte text.now)
        (word_kind (take (prefix_len is_word_byte text.now) text.now)) }
{
    let size = word_size(text);
    let (word, _) = text.split_at(size);
    token(size, word_kind(word))
}

fn number_step(text: &[u8]) -> Result<Step, Rule>
    ensures { result ≡ token_of (number_size text.now)
        (number_kind (take (number_size text.now) text.now)) }
{
    let size = number_size(text);
    let (number, _) = text.split_at(size);
    token(size, number_kind(number))
}

fn literal_step(text: &[u8]) -> Result<Step, Rule>
    ensures { result ≡ literal_step text.now (literal_size text.now) }
{
    let Some(size) = literal_size(text) else {
        return Err(Rule::OpenText);
    };
    let (literal, _) = text.split_at(size);
    token(size, literal_kind(literal))
}

/// The lexeme that the text begins with.
fn lexeme_at(text: &[u8]) -> Result<Step, Rule>
    ensures { result ≡ lexeme_at text.now }
{
    if begins_with_letter(text) {
        word_step(text)
    } else if begins_number(text) {
        number_step(text)
    } else if begins_with_quote(text) {
        literal_step(text)
    } else if text.starts_with(b"...") {
        Err(Rule::Unsupported)
    } else {
        punctuator_step(text)
    }
}

/// An `L` right before a quote begins a wide literal.
fn begins_wide_literal(text: &[u8]) -> bool
    ensures { result ≡ begins_wide_literal text.now }
{
    text.starts_with(b"L'") || text.starts_with(b"L\"")
}

/// The piece that the text begins with, or the rule that refuses it. `starts_line` says that only
/// blanks stand before the text on its line.
pub(crate) fn step_at(text: &[u8], starts_line: bool) -> Result<Step, Rule>
    ensures { result ≡ step_at starts_line text.now }
{
    if begins_with_blank(text) {
        Ok(gap(1))
    } else if text.starts_with(b"/*") {
        let (_, rest) = text.split_at(2);
        comment_step(rest)
    } else if text.starts_with(b"//") {
        Ok(gap(line_of(text).len()))
    } else if starts_line && begins_with_byte(text, b'#') {
        directive_step(line_of(text))
    } else if begins_wide_literal(text) {
        Err(Rule::Unsupported)
    } else {
        lexeme_at(text)
    }
}
