//! Lists with commas between their elements.
ghost use Rattle.std.specs.Prelude.{◌≡◌};
ghost use Rattle.c_parse_words.specs.Lists.{series_goes_on};
ghost use Rattle.c_parse_words.specs.Seen.{next_view};

use crate::lookahead::is_comma;
use crate::measured::Measured;
use crate::next::Next;
use c_tree::Items;

/// A list, and whether a comma stands after its last element.
#[derive(Drop)]
pub struct Series<T> {
    pub list: Measured<Items<T>>,
    pub comma: bool,
}

/// Whether a comma comes after the last element.
pub fn series_goes_on(comma: bool, next: Next<'_>) -> bool
    ensures { result ≡ series_goes_on comma (next_view next.entry) }
{
    !comma && is_comma(next)
}
