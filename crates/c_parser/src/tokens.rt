//! Single tokens that a rule asks for.
ghost use Rattle.std.specs.Prelude.{◌≡◌, Bool};
ghost use Rattle.parse_rules.specs.Parsers.{expect};
ghost use Rattle.c_parse_words.specs.WordRules as parts;
ghost use Rattle.c_parse_words.specs.Seen.{head, Reads};
ghost use Rattle.c_parse_words.specs.Tests as tests;

use c_parse_words::cursor::Cursor;
use c_parse_words::lookahead::{
    is_close_brace, is_close_paren, is_colon, is_semicolon, open_brace, open_paren,
};
use c_parse_words::stop::Stop;
use cc_base::Place;

/// Goes past the token that was found to be the one wanted, and gives its place; refuses any other.
#[tactic(auto, unfolding(c_parse_words::specs::WordRules::take))]
pub fn take(cursor: &mut Cursor<'_>, found: Option<Place>) -> Result<Place, Stop>
    ensures { Reads (λ at. at) (parts.take (λ _. found) cursor.old) result cursor.new }
{
    let Some(at) = found else {
        return Err(Stop::Syntax);
    };
    cursor.skip()?;
    Ok(at)
}

#[tactic(auto, unfolding(c_parse_words::specs::WordRules::take))]
pub fn take_open_paren(cursor: &mut Cursor<'_>) -> Result<Place, Stop>
    ensures { Reads (λ at. at) (parts.take tests.open_paren cursor.old) result cursor.new }
{
    let found = open_paren(cursor.peek());
    take(cursor, found)
}

#[tactic(auto, unfolding(c_parse_words::specs::WordRules::take))]
pub fn take_open_brace(cursor: &mut Cursor<'_>) -> Result<Place, Stop>
    ensures { Reads (λ at. at) (parts.take tests.open_brace cursor.old) result cursor.new }
{
    let found = open_brace(cursor.peek());
    take(cursor, found)
}

pub fn expect_semicolon(cursor: &mut Cursor<'_>) -> Result<(), Stop>
    ensures { Reads (λ _. head cursor.old)
        (expect tests.is_semicolon cursor.old) result cursor.new }
{
    let found = is_semicolon(cursor.peek());
    cursor.expect(found)
}

pub fn expect_colon(cursor: &mut Cursor<'_>) -> Result<(), Stop>
    ensures { Reads (λ _. head cursor.old) (expect tests.is_colon cursor.old) result cursor.new }
{
    let found = is_colon(cursor.peek());
    cursor.expect(found)
}

pub fn expect_close_paren(cursor: &mut Cursor<'_>) -> Result<(), Stop>
    ensures { Reads (λ _. head cursor.old) (expect tests.is_close_paren cursor.old) result
        cursor.new }
{
    let found = is_close_paren(cursor.peek());
    cursor.expect(found)
}

pub fn expect_close_brace(cursor: &mut Cursor<'_>) -> Result<(), Stop>
    ensures { Reads (λ _. head cursor.old) (expect tests.is_close_brace cursor.old) result
        cursor.new }
{
    let found = is_close_brace(cursor.peek());
    cursor.expect(found)
}
