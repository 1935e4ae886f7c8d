//! Adjacent string literals (C99 6.5.1).
ghost use Rattle.std.specs.Prelude.{◌≡◌};
ghost use Rattle.std.specs.Option.{is_some};
ghost use Rattle.parse_rules.specs.Parsers.{loop};
ghost use Rattle.c_parse_words.specs.WordRules as spec;
ghost use Rattle.c_parse_words.specs.Seen.{next_view, Reads};
ghost use Rattle.c_parse_words.specs.Tests as tests;

use crate::cursor::Cursor;
use crate::next::Next;
use crate::stop::Stop;
use c_tree::{Items, StringPiece};
use std::alloc::Global;

fn is_quoted(next: Next<'_>) -> bool
    ensures { result ≡ is_some (tests.string_piece (next_view next.entry)) }
{
    matches!(next, Next::Quoted(..))
}

#[tactic(auto, unfolding(crate::specs::WordRules::next_piece, crate::specs::WordRules::take))]
fn next_piece(
    alloc: Global,
    cursor: &mut Cursor<'_>,
    mut pieces: Items<StringPiece>,
) -> Result<Items<StringPiece>, Stop>
    ensures { Reads (λ list. list) (spec.next_piece pieces cursor.old) result cursor.new }
{
    let Next::Quoted(bytes, place) = cursor.peek() else {
        return Err(Stop::Syntax);
    };
    cursor.skip()?;
    pieces.push(StringPiece {
        bytes: Items::from_slice(alloc, bytes)?,
        place,
    })?;
    Ok(pieces)
}

/// The literals that go on from the first.
pub fn more_pieces(
    alloc: Global,
    cursor: &mut Cursor<'_>,
    first: Items<StringPiece>,
) -> Result<Items<StringPiece>, Stop>
    ensures { Reads (λ list. list) (loop (λ _ next. is_some (tests.string_piece next))
        spec.next_piece first cursor.old) result cursor.new }
{
    let mut pieces = first;
    for _turn in 0..cursor.left() {
        if !is_quoted(cursor.peek()) {
            return Ok(pieces);
        }
        pieces = next_piece(alloc, cursor, pieces)?;
    }
    Ok(pieces)
}
