//! Tokens.
ghost use Rattle.std.specs.Prelude.{◌≡◌};

use crate::number::IntegerType;
use crate::punctuator::Punctuator;
use crate::word::Keyword;
use cc_base::Place;
use std::marker::Model;

/// What a token is, and what it means (C99 6.4.1 to 6.4.6).
#[derive(Clone, Copy, Debug, PartialEq, Eq)]
pub enum TokenKind {
    Keyword(Keyword),
    /// Any other word, a type's name too.
    Identifier,
    /// An integer constant: its type and its value.
    Integer(IntegerType, u64),
    /// A character constant: its value as an int.
    Character(i32),
    /// A string literal; `literal_bytes` gives what it holds.
    StringLiteral,
    Punctuator(Punctuator),
}

/// A token of a text, from which it borrows its bytes.
#[derive(Debug, Drop)]
pub struct Token<'a> {
    kind: TokenKind,
    bytes: &'a [u8],
    start: usize,
    place: Place,
}

impl<'a> Model for Token<'a> {
    ghost use Rattle.c_lexer.specs.Tokens.{Token as SeenToken};

    ghost Value = { SeenToken };

    ghost view = { λ t. record { kind = t.kind; bytes = t.bytes.now; start = t.start; place = t.place } };
}

impl<'a> Token<'a> {
    pub(crate) fn new(kind: TokenKind, bytes: &'a [u8], start: usize, place: Place) -> Self
        ensures kind { result.kind ≡ kind }
        ensures bytes { result.bytes ≡ bytes.now }
        ensures start { result.start ≡ start }
        ensures place { result.place ≡ place }
    {
        Token {
            kind,
            bytes,
            start,
            place,
        }
    }

    /// What it is.
    pub fn kind(&self) -> TokenKind
        ensures { result ≡ self.now.kind }
    {
        self.kind
    }

    /// The bytes of the text that spell it.
    pub fn bytes(&self) -> &'a [u8]
        ensures { result.now ≡ self.now.bytes }
    {
        self.bytes
    }

    /// How many bytes of the text stand before it.
    pub fn start(&self) -> usize
        ensures { result ≡ self.now.start }
    {
        self.start
    }

    /// The place of its first byte.
    pub fn place(&self) -> Place
        ensures { result ≡ self.now.place }
    {
        self.place
    }
}
