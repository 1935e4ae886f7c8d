//! Punctuators.
ghost use Rattle.std.specs.Prelude.{◌≡◌};
ghost use Rattle.c_lexer.specs.Lexemes.{lexeme_kind};
ghost use Rattle.c_lexer.specs.Punctuators.{punctuator_spelling};
ghost use Rattle.c_lexer.specs.Reading.{punctuator_at, punctuator_step};

use crate::step::Step;
use crate::token::TokenKind;
use cc_base::Rule;

/// A punctuator of C99 (6.4.6), without digraphs and without `...`.
#[derive(Clone, Copy, Debug, PartialEq, Eq)]
pub enum Punctuator {
    ShiftLeftEqual,
    ShiftRightEqual,
    Arrow,
    PlusPlus,
    MinusMinus,
    ShiftLeft,
    ShiftRight,
    LessEqual,
    GreaterEqual,
    EqualEqual,
    NotEqual,
    AndAnd,
    OrOr,
    StarEqual,
    SlashEqual,
    PercentEqual,
    PlusEqual,
    MinusEqual,
    AndEqual,
    CaretEqual,
    OrEqual,
    HashHash,
    OpenBracket,
    CloseBracket,
    OpenParen,
    CloseParen,
    OpenBrace,
    CloseBrace,
    Dot,
    And,
    Star,
    Plus,
    Minus,
    Tilde,
    Not,
    Slash,
    Percent,
    Less,
    Greater,
    Caret,
    Or,
    Question,
    Colon,
    Semicolon,
    Equal,
    Comma,
    Hash,
}

/// Every punctuator, none before a longer one that begins with it.
pub(crate) const PUNCTUATORS: [Punctuator; 47] = [
    Punctuator::ShiftLeftEqual,
    Punctuator::ShiftRightEqual,
    Punctuator::Arrow,
    Punctuator::PlusPlus,
    Punctuator::MinusMinus,
    Punctuator::ShiftLeft,
    Punctuator::ShiftRight,
    Punctuator::LessEqual,
    Punctuator::GreaterEqual,
    Punctuator::EqualEqual,
    Punctuator::NotEqual,
    Punctuator::AndAnd,
    Punctuator::OrOr,
    Punctuator::StarEqual,
    Punctuator::SlashEqual,
    Punctuator::PercentEqual,
    Punctuator::PlusEqual,
    Punctuator::MinusEqual,
    Punctuator::AndEqual,
    Punctuator::CaretEqual,
    Punctuator::OrEqual,
    Punctuator::HashHash,
    Punctuator::OpenBracket,
    Punctuator::CloseBracket,
    Punctuator::OpenParen,
    Punctuator::CloseParen,
    Punctuator::OpenBrace,
    Punctuator::CloseBrace,
    Punctuator::Dot,
    Punctuator::And,
    Punctuator::Star,
    Punctuator::Plus,
    Punctuator::Minus,
    Punctuator::Tilde,
    Punctuator::Not,
    Punctuator::Slash,
    Punctuator::Percent,
    Punctuator::Less,
    Punctuator::Greater,
    Punctuator::Caret,
    Punctuator::Or,
    Punctuator::Question,
    Punctuator::Colon,
    Punctuator::Semicolon,
    Punctuator::Equal,
    Punctuator::Comma,
    Punctuator::Hash,
];

impl Punctuator {
    /// The bytes that spell it. As a token they are this punctuator: none is missing in the table.
    pub fn spelling(self) -> &'static [u8]
        ensures bytes { result.now ≡ punctuator_spelling self }
        ensures token { lexeme_kind result.now ≡ Ok (TokenKind.Punctuator self) }
    {
        match self {
            Punctuator::ShiftLeftEqual => b"<<=",
            Punctuator::ShiftRightEqual => b">>=",
            Punctuator::Arrow => b"->",
            Punctuator::PlusPlus => b"++",
            Punctuator::MinusMinus => b"--",
            Punctuator::ShiftLeft => b"<<",
            Punctuator::ShiftRight => b">>",
            Punctuator::LessEqual => b"<=",
            Punctuator::GreaterEqual => b">=",
            Punctuator::EqualEqual => b"==",
            Punctuator::NotEqual => b"!=",
            Punctuator::AndAnd => b"&&",
            Punctuator::OrOr => b"||",
            Punctuator::StarEqual => b"*=",
            Punctuator::SlashEqual => b"/=",
            Punctuator::PercentEqual => b"%=",
            Punctuator::PlusEqual => b"+=",
            Punctuator::MinusEqual => b"-=",
            Punctuator::AndEqual => b"&=",
            Punctuator::CaretEqual => b"^=",
            Punctuator::OrEqual => b"|=",
            Punctuator::HashHash => b"##",
            Punctuator::OpenBracket => b"[",
            Punctuator::CloseBracket => b"]",
            Punctuator::OpenParen => b"(",
            Punctuator::CloseParen => b")",
            Punctuator::OpenBrace => b"{",
            Punctuator::CloseBrace => b"}",
            Punctuator::Dot => b".",
            Punctuator::And => b"&",
            Punctuator::Star => b"*",
            Punctuator::Plus => b"+",
            Punctuator::Minus => b"-",
            Punctuator::Tilde => b"~",
            Punctuator::Not => b"!",
            Punctuator::Slash => b"/",
            Punctuator::Percent => b"%",
            Punctuator::Less => b"<",
            Punctuator::Greater => b">",
            Punctuator::Caret => b"^",
            Punctuator::Or => b"|",
            Punctuator::Question => b"?",
            Punctuator::Colon => b":",
            Punctuator::Semicolon => b";",
            Punctuator::Equal => b"=",
            Punctuator::Comma => b",",
            Punctuator::Hash => b"#",
        }
    }
}

/// The first of the punctuators that the text begins with, which is the longest.
fn punctuator_at(text: &[u8]) -> Option<Punctuator>
    ensures { result ≡ punctuator_at text.now }
{
    PUNCTUATORS
        .iter()
        .copied()
        .find(|each| text.starts_with(each.spelling()))
}

/// The punctuator that the text begins with, if it begins no other lexeme.
pub(crate) fn punctuator_step(text: &[u8]) -> Result<Step, Rule>
    ensures { result ≡ punctuator_step (punctuator_at text.now) }
{
    match punctuator_at(text) {
        Some(found) => Ok(Step {
            size: found.spelling().len(),
            kind: Some(TokenKind::Punctuator(found)),
        }),
        None => Err(Rule::BadByte),
    }
}
