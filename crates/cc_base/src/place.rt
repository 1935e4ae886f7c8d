//! Places in a text.
#![tactic(auto)]

ghost use Rattle.std.specs.Prelude.{Some, IsTrue, ◌↔◌};
ghost use Rattle.cc_base.specs.Places.{place_text, IsBefore};

use std::fmt;

/// A place in a text: its line and its column, both counted from 1, the column in bytes.
///
/// Places are ordered as they follow one another in the text: by line, then by column.
#[derive(Clone, Copy, Debug, PartialEq, Eq, PartialOrd, Ord, Hash)]
pub struct Place {
    pub line: u32,
    pub col: u32,
}

impl Place {
    /// Whether this place comes before the other one in the text.
    pub fn is_before(self, other: Place) -> bool
        ensures { IsTrue result ↔ IsBefore self other }
    {
        self.line < other.line || (self.line == other.line && self.col < other.col)
    }
}

impl fmt::Display for Place {
    ghost output = { λ place. Some (place_text place) };

    fn fmt<W: fmt::Write>(&self, f: &mut fmt::Formatter<W>) -> fmt::Result {
        let line = self.line;
        let col = self.col;
        write!(f, "{line}:{col}")
    }
}
