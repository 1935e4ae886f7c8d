//! The stars of a declarator, each with the qualifiers after it (C99 6.7.5.1).
ghost use Rattle.std.specs.Prelude.{◌≡◌, []};
ghost use Rattle.std.specs.Option.{is_some};
ghost use Rattle.parse_rules.specs.Parsers.{loop};
ghost use Rattle.c_parse_words.specs.WordRules as spec;
ghost use Rattle.c_parse_words.specs.Seen.{next_view, Reads};
ghost use Rattle.c_parse_words.specs.Tests as tests;

use crate::cursor::Cursor;
use crate::lookahead::star_sign;
use crate::next::Next;
use crate::stop::Stop;
use crate::words::is_qualifier;
use c_tree::{Items, Star, Word};
use std::alloc::Global;

fn qualifier_word(next: Next<'_>) -> Option<Word>
    ensures { result ≡ tests.qualifier_word (next_view next.entry) }
{
    match next {
        Next::Word(keyword, place) => {
            if is_qualifier(keyword) {
                Some(Word { keyword, place })
            } else {
                None
            }
        }
        _ => None,
    }
}

fn is_qualifier_word(next: Next<'_>) -> bool
    ensures { result ≡ is_some (tests.qualifier_word (next_view next.entry)) }
{
    qualifier_word(next).is_some()
}

fn is_star(next: Next<'_>) -> bool
    ensures { result ≡ is_some (tests.star_sign (next_view next.entry)) }
{
    star_sign(next).is_some()
}

#[tactic(auto, unfolding(crate::specs::WordRules::next_qualifier, crate::specs::WordRules::take))]
fn next_qualifier(cursor: &mut Cursor<'_>, mut before: Items<Word>) -> Result<Items<Word>, Stop>
    ensures { Reads (λ words. words) (spec.next_qualifier before cursor.old) result cursor.new }
{
    let Some(word) = qualifier_word(cursor.peek()) else {
        return Err(Stop::Syntax);
    };
    cursor.skip()?;
    before.push(word)?;
    Ok(before)
}

/// The qualifiers that come.
fn qualifiers(alloc: Global, cursor: &mut Cursor<'_>) -> Result<Items<Word>, Stop>
    ensures { Reads (λ words. words) (loop (λ _ next. is_some (tests.qualifier_word next))
        spec.next_qualifier [] cursor.old) result cursor.new }
{
    let mut words = Items::new(alloc);
    for _turn in 0..cursor.left() {
        if !is_qualifier_word(cursor.peek()) {
            return Ok(words);
        }
        words = next_qualifier(cursor, words)?;
    }
    Ok(words)
}

#[tactic(auto, unfolding(crate::specs::WordRules::star_step, crate::specs::WordRules::take))]
fn next_star(
    alloc: Global,
    cursor: &mut Cursor<'_>,
    mut before: Items<Star>,
) -> Result<Items<Star>, Stop>
    ensures { Reads (λ stars. stars) (spec.star_step before cursor.old) result cursor.new }
{
    let Some(place) = star_sign(cursor.peek()) else {
        return Err(Stop::Syntax);
    };
    cursor.skip()?;
    let qualifiers = qualifiers(alloc, cursor)?;
    before.push(Star { place, qualifiers })?;
    Ok(before)
}

/// The stars that come, none or more.
pub fn stars(alloc: Global, cursor: &mut Cursor<'_>) -> Result<Items<Star>, Stop>
    ensures { Reads (λ stars. stars) (loop (λ _ next. is_some (tests.star_sign next)) spec.star_step
        [] cursor.old) result cursor.new }
{
    let mut list = Items::new(alloc);
    for _turn in 0..cursor.left() {
        if !is_star(cursor.peek()) {
            return Ok(list);
        }
        list = next_star(alloc, cursor, list)?;
    }
    Ok(list)
}
