//! Whether a call lies in the byte list.
// Where the calls may be made: all that they read and write lies in the byte list.

ghost use Rattle.std.specs.Prelude.{◌≡◌};
ghost use Rattle.wild_tags.specs.Inside.{has_length, allows_plain, allows_untag, allows_depth, allows_zero, allows_side, allows_move, allows_word, allows_tagged, allows_base, allows_mark};

use crate::area::{TaggedArea, end_of, word_of};
use flat_mem::Flat;

// The length of the area at `b` lies in the list.
fn has_length(flat: &Flat, b: u64) -> bool
    ensures { result ≡ has_length flat.now.bytes b }
{
    b >= 8 && flat.in_flat(b - 8, 8)
}

/// Whether `plain` may be called: `a` is not below `b`, and where `n` is not 0, the area's length and the tags of the
/// touched words lie in the list.
pub fn allows_plain(flat: &Flat, a: u64, b: u64, n: u64) -> bool
    ensures { result ≡ allows_plain flat.now.bytes a b n }
{
    if a < b {
        return false;
    }
    if n == 0 {
        return true;
    }
    has_length(flat, b) && end_of(a, b, n) <= TaggedArea::of(flat, b).tag_limit(flat)
}

/// Whether `untag` may be called: as for `plain`, and the data words of those that are tagged lie in the list.
pub fn allows_untag(flat: &Flat, a: u64, b: u64, n: u64) -> bool
    ensures { result ≡ allows_untag flat.now.bytes a b n }
{
    if !allows_plain(flat, a, b, n) {
        return false;
    }
    if n == 0 {
        return true;
    }
    let area = TaggedArea::of(flat, b);
    area.tagged_below(flat, word_of(a, b), end_of(a, b, n), area.data_limit(flat))
}

/// Whether `tdepth` may be called: as for `plain`, and the base words of those that are tagged lie in the list.
pub fn allows_depth(flat: &Flat, a: u64, b: u64, n: u64) -> bool
    ensures { result ≡ allows_depth flat.now.bytes a b n }
{
    if !allows_plain(flat, a, b, n) {
        return false;
    }
    if n == 0 {
        return true;
    }
    let area = TaggedArea::of(flat, b);
    area.tagged_below(flat, word_of(a, b), end_of(a, b, n), area.base_limit(flat))
}

/// Whether `tzero` may be called: as for `plain`, and the `n` bytes lie in the list.
pub fn allows_zero(flat: &Flat, a: u64, b: u64, n: u64) -> bool
    ensures { result ≡ allows_zero flat.now.bytes a b n }
{
    allows_plain(flat, a, b, n) && flat.in_flat(a, n)
}

fn allows_side(flat: &Flat, a: u64, b: u64, n: u64) -> bool
    ensures { result ≡ allows_side flat.now.bytes a b n }
{
    if !allows_zero(flat, a, b, n) || (a - b) % 8 != 0 {
        return false;
    }
    if n == 0 {
        return true;
    }
    end_of(a, b, n) <= TaggedArea::of(flat, b).base_limit(flat)
}

/// Whether `tmove` may be called: `n` and the distances of `a` from `b` and of `c` from `d` are multiples of 8, and for
/// both sides the bytes, and the base words and tags of the touched words, lie in the list.
pub fn allows_move(flat: &Flat, a: u64, b: u64, c: u64, d: u64, n: u64) -> bool
    ensures { result ≡ allows_move flat.now.bytes a b c d n }
{
    n % 8 == 0 && allows_side(flat, c, d, n) && allows_side(flat, a, b, n)
}

// The word at `a` is a word of the area at `b`, whose length lies in the list.
fn allows_word(flat: &Flat, a: u64, b: u64) -> bool
    ensures { result ≡ allows_word flat.now.bytes a b }
{
    b <= a && (a - b) % 8 == 0 && has_length(flat, b)
}

/// Whether `tagged` may be called: `a` is a multiple of 8 after `b`, and the area's length and the word's tag lie in the
/// list.
pub fn allows_tagged(flat: &Flat, a: u64, b: u64) -> bool
    ensures { result ≡ allows_tagged flat.now.bytes a b }
{
    allows_word(flat, a, b) && word_of(a, b) < TaggedArea::of(flat, b).tag_limit(flat)
}

/// Whether `base` may be called: as for `tagged`, with the base word in place of the tag.
pub fn allows_base(flat: &Flat, a: u64, b: u64) -> bool
    ensures { result ≡ allows_base flat.now.bytes a b }
{
    allows_word(flat, a, b) && word_of(a, b) < TaggedArea::of(flat, b).base_limit(flat)
}

/// Whether `mark` may be called: where `tagged` and `base` may.
pub fn allows_mark(flat: &Flat, a: u64, b: u64) -> bool
    ensures { result ≡ allows_mark flat.now.bytes a b }
{
    allows_tagged(flat, a, b) && allows_base(flat, a, b)
}
