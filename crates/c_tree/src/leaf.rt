//! Words with their places: the leaves of the tree.
use crate::items::Items;
use c_lexer::Keyword;
use cc_base::Place;

/// An identifier.
#[derive(Debug)]
pub struct Identifier {
    pub bytes: Items<u8>,
    pub place: Place,
}

impl Drop for Identifier {
    fn drop(self) {
        let Self { bytes: _, place: _ } = self;
    }
}

/// A keyword.
#[derive(Clone, Copy, Debug, PartialEq, Eq)]
pub struct Word {
    pub keyword: Keyword,
    pub place: Place,
}

/// One string literal as it is written, its quotes included.
#[derive(Debug)]
pub struct StringPiece {
    pub bytes: Items<u8>,
    pub place: Place,
}

impl Drop for StringPiece {
    fn drop(self) {
        let Self { bytes: _, place: _ } = self;
    }
}

/// A `*` of a declarator, with the qualifiers after it.
#[derive(Debug)]
pub struct Star {
    pub place: Place,
    pub qualifiers: Items<Word>,
}

impl Drop for Star {
    fn drop(self) {
        let Self {
            place: _,
            qualifiers: _,
        } = self;
    }
}

/// A punctuator or keyword that closes or separates parts. The tree does not keep its place.
#[derive(Clone, Copy, Debug, PartialEq, Eq)]
pub enum Separator {
    CloseParen,
    CloseBracket,
    CloseBrace,
    Semicolon,
    Comma,
    Colon,
    Else,
    Do,
}
