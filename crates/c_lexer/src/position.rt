//! Where reading stands in a text.
ghost use Rattle.std.specs.Prelude.{◌≡◌, ◌<◌, ◌≤◌, ◌+◌, ◌^◌, length, fold};
ghost use Rattle.c_lexer.specs.Cut.{place_after};
ghost use Rattle.c_lexer.specs.Reading.{next_position};

use crate::byte::is_blank;
use cc_base::Place;

/// A place in a text, and whether only blanks stand before it on its line.
#[derive(Clone, Copy)]
pub(crate) struct Position {
    pub place: Place,
    pub starts_line: bool,
}

impl Position {
    /// After one more byte.
    fn next(self, byte: u8) -> Position
        requires line { self.place.line + 1 < 2 ^ 32 }
        requires column { self.place.col + 1 < 2 ^ 32 }
        ensures { result ≡ next_position self byte }
    {
        if byte == b'\n' {
            Position {
                place: Place {
                    line: self.place.line + 1,
                    col: 1,
                },
                starts_line: true,
            }
        } else {
            Position {
                place: Place {
                    line: self.place.line,
                    col: self.place.col + 1,
                },
                starts_line: self.starts_line && is_blank(byte),
            }
        }
    }

    /// After some more bytes.
    pub(crate) fn after(self, bytes: &[u8]) -> Position
        requires line { self.place.line + length bytes.now < 2 ^ 32 }
        requires column { self.place.col + length bytes.now + 1 < 2 ^ 32 }
        ensures { result ≡ fold next_position self bytes.now }
    {
        let mut position = self;
        for byte in bytes {
            position = position.next(*byte);
        }
        position
    }
}

/// The place just after the last byte of a text.
#[tactic(auto, using(crate::proofs::ReachedLaws::end_place))]
pub fn end_of(text: &[u8]) -> Place
    requires { length text.now ≤ 1048576 }
    ensures { result ≡ place_after text.now }
{
    let start = Position {
        place: Place { line: 1, col: 1 },
        starts_line: true,
    };
    start.after(text).place
}
