//! What a stop says of the text.
ghost use Rattle.std.specs.Prelude.{◌≡◌, ◌≤◌, ◌-◌, length, drop};
ghost use Rattle.c_parse_words.specs.Faults as spec;

use crate::cursor::Cursor;
use crate::stop::Stop;
use c_lexer::{Token, end_of};
use cc_base::{Fault, Limit, Place, Rule};

/// The place of the first of the tokens that are left, or just after the last byte of the text.
fn place_of_first(text: &[u8], left: &[Token<'_>]) -> Place
    requires { length text.now ≤ 1048576 }
    ensures { result ≡ spec.place_of_first text.now left.now }
{
    match left.first() {
        Some(token) => token.place(),
        None => end_of(text),
    }
}

/// The fault for a stop where the cursor stands in the tokens of a text.
pub fn fault_of(text: &[u8], tokens: &[Token<'_>], cursor: &Cursor<'_>, stop: Stop) -> Fault
    requires { length text.now ≤ 1048576 }
    ensures { result ≡ spec.fault_of stop (spec.place_of_first text.now
        (drop (length tokens.now - length cursor.now) tokens.now)) }
{
    let gone = tokens.len().saturating_sub(cursor.left());
    let place = place_of_first(text, &tokens[gone..]);
    match stop {
        Stop::Syntax => Fault::Refused {
            place,
            rule: Rule::Syntax,
        },
        Stop::Unsupported => Fault::Refused {
            place,
            rule: Rule::Unsupported,
        },
        Stop::Deep => Fault::TooLarge {
            place,
            limit: Limit::Depth,
        },
        Stop::NoMemory => Fault::NoMemory,
    }
}
