//! The words of an array part: qualifiers, with at most one `static`, before or after them all (C99 6.7.5.2).
ghost use Rattle.std.specs.Prelude.{◌≡◌, ◌++◌, ◌∷◌, [], IfOk, IfSome, true};
ghost use Rattle.std.specs.Option.{is_some};
ghost use Rattle.parse_rules.specs.Parsers.{loop};
ghost use Rattle.c_tree.specs.Words.{are_array_words};
ghost use Rattle.c_parse_words.specs.WordRules as spec;
ghost use Rattle.c_parse_words.specs.Lists.{AreArrayWords, starts_with_static};
ghost use Rattle.c_parse_words.specs.Seen.{next_view, Reads};
ghost use Rattle.c_parse_words.specs.Tests as tests;

use crate::cursor::Cursor;
use crate::next::Next;
use crate::stop::Stop;
use crate::words::{is_qualifier, is_static_word};
use c_tree::{Items, Word};
use std::alloc::Global;

/// The words of an array part, and whether `static` is one of them.
#[derive(Drop)]
pub struct ArrayWords {
    pub list: Items<Word>,
    pub has_static: bool,
}

fn starts_with_static(words: &[Word]) -> bool
    ensures { result ≡ starts_with_static words.now }
{
    match words.first() {
        Some(word) => is_static_word(word.keyword),
        None => false,
    }
}

/// Whether the word may stand after those.
#[tactic(auto, using(crate::proofs::ArrayWordLaws::qualifier_follows, crate::proofs::ArrayWordLaws::other_follows))]
fn may_follow(words: &ArrayWords, word: Word) -> bool
    requires { AreArrayWords words.now.list words.now.has_static }
    ensures { result ≡ are_array_words (words.now.list ++ word ∷ []) }
{
    if is_qualifier(word.keyword) {
        return !words.has_static || starts_with_static(words.list.as_slice());
    }
    !words.has_static && is_static_word(word.keyword)
}

fn array_word(words: &ArrayWords, next: Next<'_>) -> Option<Word>
    requires { AreArrayWords words.now.list words.now.has_static }
    ensures word { result ≡ tests.array_word words.now.list (next_view next.entry) }
    ensures fits { IfSome result (λ word. are_array_words (words.now.list ++ word ∷ []) ≡ true) }
{
    let Next::Word(keyword, place) = next else {
        return None;
    };
    let word = Word { keyword, place };
    if may_follow(words, word) {
        Some(word)
    } else {
        None
    }
}

fn is_array_word(words: &ArrayWords, next: Next<'_>) -> bool
    requires { AreArrayWords words.now.list words.now.has_static }
    ensures { result ≡ is_some (tests.array_word words.now.list (next_view next.entry)) }
{
    array_word(words, next).is_some()
}

#[tactic(auto, using(crate::proofs::ArrayWordLaws::one_more), unfolding(crate::specs::WordRules::next_array_word, crate::specs::WordRules::take))]
fn next_array_word(cursor: &mut Cursor<'_>, mut before: ArrayWords) -> Result<ArrayWords, Stop>
    requires { AreArrayWords before.list before.has_static }
    ensures reads { Reads (λ words. words.list) (spec.next_array_word before.list cursor.old) result
        cursor.new }
    ensures fit { IfOk result (λ words. AreArrayWords words.list words.has_static) }
{
    let Some(word) = array_word(&before, cursor.peek()) else {
        return Err(Stop::Syntax);
    };
    cursor.skip()?;
    before.has_static |= is_static_word(word.keyword);
    before.list.push(word)?;
    Ok(before)
}

/// The words that come, none or more.
pub fn array_words(alloc: Global, cursor: &mut Cursor<'_>) -> Result<ArrayWords, Stop>
    ensures reads { Reads (λ words. words.list) (loop (λ words next. is_some
        (tests.array_word words next)) spec.next_array_word [] cursor.old) result cursor.new }
    ensures fit { IfOk result (λ words. AreArrayWords words.list words.has_static) }
{
    let mut words = ArrayWords {
        list: Items::new(alloc),
        has_static: false,
    };
    for _turn in 0..cursor.left() {
        if !is_array_word(&words, cursor.peek()) {
            return Ok(words);
        }
        words = next_array_word(cursor, words)?;
    }
    Ok(words)
}
