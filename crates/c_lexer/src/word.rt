//! Words: keywords and names.
ghost use Rattle.std.specs.Prelude.{◌≡◌, ◌≤◌, length, bytes_eq};
ghost use Rattle.std.specs.List.{prefix_len, list_any};
ghost use Rattle.c_lexer.specs.Bytes.{is_word_byte};
ghost use Rattle.c_lexer.specs.Lexemes.{lexeme_kind};
ghost use Rattle.c_lexer.specs.Words.{keyword_spelling, keyword_of, is_left_out, word_kind};

use crate::byte::is_word_byte;
use crate::token::TokenKind;
use cc_base::Rule;

/// A keyword of C99 (6.4.1) that the language keeps.
#[derive(Clone, Copy, Debug, PartialEq, Eq)]
pub enum Keyword {
    Auto,
    Break,
    Case,
    Char,
    Const,
    Continue,
    Default,
    Do,
    Else,
    Enum,
    Extern,
    For,
    If,
    Inline,
    Int,
    Long,
    Register,
    Restrict,
    Return,
    Short,
    Signed,
    Sizeof,
    Static,
    Struct,
    Switch,
    Typedef,
    Union,
    Unsigned,
    Void,
    Volatile,
    While,
}

/// Every keyword.
pub(crate) const KEYWORDS: [Keyword; 31] = [
    Keyword::Auto,
    Keyword::Break,
    Keyword::Case,
    Keyword::Char,
    Keyword::Const,
    Keyword::Continue,
    Keyword::Default,
    Keyword::Do,
    Keyword::Else,
    Keyword::Enum,
    Keyword::Extern,
    Keyword::For,
    Keyword::If,
    Keyword::Inline,
    Keyword::Int,
    Keyword::Long,
    Keyword::Register,
    Keyword::Restrict,
    Keyword::Return,
    Keyword::Short,
    Keyword::Signed,
    Keyword::Sizeof,
    Keyword::Static,
    Keyword::Struct,
    Keyword::Switch,
    Keyword::Typedef,
    Keyword::Union,
    Keyword::Unsigned,
    Keyword::Void,
    Keyword::Volatile,
    Keyword::While,
];

impl Keyword {
    /// The bytes that spell it. As a token they are this keyword: no keyword is missing in the table.
    pub fn spelling(self) -> &'static [u8]
        ensures bytes { result.now ≡ keyword_spelling self }
        ensures token { lexeme_kind result.now ≡ Ok (TokenKind.Keyword self) }
    {
        match self {
            Keyword::Auto => b"auto",
            Keyword::Break => b"break",
            Keyword::Case => b"case",
            Keyword::Char => b"char",
            Keyword::Const => b"const",
            Keyword::Continue => b"continue",
            Keyword::Default => b"default",
            Keyword::Do => b"do",
            Keyword::Else => b"else",
            Keyword::Enum => b"enum",
            Keyword::Extern => b"extern",
            Keyword::For => b"for",
            Keyword::If => b"if",
            Keyword::Inline => b"inline",
            Keyword::Int => b"int",
            Keyword::Long => b"long",
            Keyword::Register => b"register",
            Keyword::Restrict => b"restrict",
            Keyword::Return => b"return",
            Keyword::Short => b"short",
            Keyword::Signed => b"signed",
            Keyword::Sizeof => b"sizeof",
            Keyword::Static => b"static",
            Keyword::Struct => b"struct",
            Keyword::Switch => b"switch",
            Keyword::Typedef => b"typedef",
            Keyword::Union => b"union",
            Keyword::Unsigned => b"unsigned",
            Keyword::Void => b"void",
            Keyword::Volatile => b"volatile",
            Keyword::While => b"while",
        }
    }
}

/// The keywords of C99 that the language leaves out.
const LEFT_OUT: [&[u8]; 6] = [
    b"double",
    b"float",
    b"goto",
    b"_Bool",
    b"_Complex",
    b"_Imaginary",
];

/// How many bytes at the front are letters, digits or `_`.
pub(crate) fn word_size(text: &[u8]) -> usize
    ensures value { result ≡ prefix_len is_word_byte text.now }
    ensures fits { result ≤ length text.now }
{
    text.iter().take_while(|byte| is_word_byte(**byte)).count()
}

fn keyword_of(word: &[u8]) -> Option<Keyword>
    ensures { result ≡ keyword_of word.now }
{
    KEYWORDS
        .iter()
        .copied()
        .find(|each| each.spelling() == word)
}

fn is_among(words: &[&[u8]], word: &[u8]) -> bool
    ensures { result ≡ list_any (λ each. bytes_eq each.now word.now) words.now }
{
    words.iter().any(|each| *each == word)
}

fn is_left_out(word: &[u8]) -> bool
    ensures { result ≡ is_left_out word.now }
{
    is_among(&LEFT_OUT, word)
}

/// What a word is: a keyword, an identifier, or left out.
pub(crate) fn word_kind(word: &[u8]) -> Result<TokenKind, Rule>
    ensures { result ≡ word_kind word.now }
{
    if is_left_out(word) {
        return Err(Rule::Unsupported);
    }
    match keyword_of(word) {
        Some(keyword) => Ok(TokenKind::Keyword(keyword)),
        None => Ok(TokenKind::Identifier),
    }
}
