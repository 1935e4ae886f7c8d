//! What the next token is, and what it says.
ghost use Rattle.std.specs.Prelude.{◌≡◌, Some};
ghost use Rattle.c_tree.specs.Symbols.{keyword_symbol, punctuator_symbol, symbol_of};
ghost use Rattle.c_parse_words.specs.Seen.{next_view};

use c_lexer::{IntegerType, Keyword, Punctuator, Token, TokenKind};
use c_tree::Separator;
use cc_base::Place;

/// The next token, as far as the tree keeps it, or the end.
#[derive(Clone, Copy)]
pub enum Next<'a> {
    End,
    Name(&'a [u8], Place),
    Integer(IntegerType, u64, Place),
    Character(i32, Place),
    Quoted(&'a [u8], Place),
    Word(Keyword, Place),
    Mark(Punctuator, Place),
    Bare(Separator),
}

fn word(keyword: Keyword, place: Place) -> Next<'static>
    ensures { next_view result ≡ Some (keyword_symbol keyword place) }
{
    match keyword {
        Keyword::Else => Next::Bare(Separator::Else),
        Keyword::Do => Next::Bare(Separator::Do),
        _ => Next::Word(keyword, place),
    }
}

fn mark(punctuator: Punctuator, place: Place) -> Next<'static>
    ensures { next_view result ≡ Some (punctuator_symbol punctuator place) }
{
    match punctuator {
        Punctuator::CloseParen => Next::Bare(Separator::CloseParen),
        Punctuator::CloseBracket => Next::Bare(Separator::CloseBracket),
        Punctuator::CloseBrace => Next::Bare(Separator::CloseBrace),
        Punctuator::Semicolon => Next::Bare(Separator::Semicolon),
        Punctuator::Comma => Next::Bare(Separator::Comma),
        Punctuator::Colon => Next::Bare(Separator::Colon),
        _ => Next::Mark(punctuator, place),
    }
}

/// What the tree keeps of a token.
pub fn next_of<'a>(token: &Token<'a>) -> Next<'a>
    ensures { next_view result ≡ Some (symbol_of token.now) }
{
    let place = token.place();
    match token.kind() {
        TokenKind::Keyword(keyword) => word(keyword, place),
        TokenKind::Identifier => Next::Name(token.bytes(), place),
        TokenKind::Integer(kind, value) => Next::Integer(kind, value, place),
        TokenKind::Character(value) => Next::Character(value, place),
        TokenKind::StringLiteral => Next::Quoted(token.bytes(), place),
        TokenKind::Punctuator(punctuator) => mark(punctuator, place),
    }
}
