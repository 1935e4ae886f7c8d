//! What the specifiers of a list say: `long`, or a type (C99 6.7.2).
ghost use Rattle.std.specs.Prelude.{◌≡◌, ◌&&◌};
ghost use Rattle.std.specs.List.{list_any};
ghost use Rattle.c_tree.specs.Views.{specifier_view};
ghost use Rattle.c_tree.specs.Words as words;
ghost use Rattle.c_parse_words.specs.Lists.{specifiers_seen};
ghost use Rattle.c_parse_words.specs.Seen.{next_view};
ghost use Rattle.c_parse_words.specs.Tests as tests;

use crate::lookahead::is_long_next;
use crate::next::Next;
use crate::words::{is_long_word, is_type_word};
use c_tree::Specifier;

#[tactic(auto, using(c_tree::proofs::ViewLaws::expr_views))]
fn is_long(specifier: &Specifier) -> bool
    ensures { result ≡ words.is_long (specifier_view specifier.now) }
{
    match specifier {
        Specifier::Keyword(word) => is_long_word(word.keyword),
        _ => false,
    }
}

#[tactic(auto, using(c_tree::proofs::ViewLaws::expr_views))]
fn names_type(specifier: &Specifier) -> bool
    ensures { result ≡ words.names_type (specifier_view specifier.now) }
{
    match specifier {
        Specifier::Keyword(word) => is_type_word(word.keyword),
        _ => true,
    }
}

fn has_long(list: &[Specifier]) -> bool
    ensures { result ≡ list_any (λ specifier. words.is_long (specifier_view specifier)) list.now }
{
    list.iter().any(|specifier| is_long(specifier))
}

/// Whether some specifier says a type.
pub fn has_type(list: &[Specifier]) -> bool
    ensures { result ≡ list_any (λ specifier. words.names_type (specifier_view specifier))
        list.now }
{
    list.iter().any(|specifier| names_type(specifier))
}

/// Whether `long` comes and stands in the list already.
#[tactic(auto, using(crate::proofs::SpecifierFlags::any_long, crate::proofs::SpecifierFlags::no_long, crate::proofs::SpecifierFlags::long_too))]
pub fn is_further_long(list: &[Specifier], next: Next<'_>) -> bool
    ensures { result ≡ (words.has_long (specifiers_seen list.now) && tests.is_long_next
        (next_view next.entry)) }
{
    if !is_long_next(next) {
        return false;
    }
    has_long(list)
}
