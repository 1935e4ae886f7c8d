//! Tagged areas: areas of the byte list that have, beside each word of data, a base word and a tag. In each call `b`
//! is the address of such an area, and `a` that of bytes in it.
#![tactic(auto)]

ghost use Rattle.std.specs.Prelude.{◌≡◌, IsTrue};
ghost use Rattle.flat_mem.specs.Memory.{with_bytes};
ghost use Rattle.flat_mem.specs.Placement.{word_count};
ghost use Rattle.wild_tags.specs.Calls.{base_of, greatest_depth, is_plain, is_tagged, marked, range_zeroed, untagged, words_moved};
ghost use Rattle.wild_tags.specs.Inside.{allows_base, allows_depth, allows_mark, allows_move, allows_plain, allows_tagged, allows_untag, allows_zero};

mod area;
mod inside;

use area::{TaggedArea, end_of, word_of};
use flat_mem::Flat;
pub use inside::{
    allows_base, allows_depth, allows_mark, allows_move, allows_plain, allows_tagged, allows_untag,
    allows_zero,
};

/// The number of data words of a tagged area of `length` bytes.
pub fn words(length: u64) -> u64
    ensures { result ≡ word_count length }
{
    length.div_ceil(8)
}

/// Whether none of the words that the `n` bytes at `a` touch is tagged.
pub fn plain(flat: &Flat, a: u64, b: u64, n: u64) -> bool
    requires { IsTrue (allows_plain flat.now.bytes a b n) }
    ensures { result ≡ is_plain flat.now.bytes a b n }
{
    if n == 0 {
        return true;
    }
    let area = TaggedArea::of(flat, b);
    let first = word_of(a, b);
    let end = end_of(a, b, n);
    for i in first..end {
        if area.is_tagged(flat, i) {
            return false;
        }
    }
    true
}

/// Zeroes and untags each word that the `n` bytes at `a` touch and that is tagged.
pub fn untag(flat: &mut Flat, a: u64, b: u64, n: u64)
    requires { IsTrue (allows_untag flat.old.bytes a b n) }
    ensures { flat.new ≡ with_bytes flat.old (untagged flat.old.bytes a b n) }
{
    if n == 0 {
        return;
    }
    let area = TaggedArea::of(flat, b);
    let first = word_of(a, b);
    let end = end_of(a, b, n);
    let turn = area.turn().min(end).max(first);
    area.zero_tagged_up(flat, first, turn);
    area.zero_tagged_down(flat, turn, end);
    area.clear_tags(flat, first, end);
}

/// The tag of the word at `a`.
pub fn tagged(flat: &Flat, a: u64, b: u64) -> bool
    requires { IsTrue (allows_tagged flat.now.bytes a b) }
    ensures { result ≡ is_tagged flat.now.bytes a b }
{
    TaggedArea::of(flat, b).is_tagged(flat, word_of(a, b))
}

/// The base word of the word at `a`.
pub fn base(flat: &Flat, a: u64, b: u64) -> u64
    requires { IsTrue (allows_base flat.now.bytes a b) }
    ensures { result ≡ base_of flat.now.bytes a b }
{
    flat.load(TaggedArea::of(flat, b).base(word_of(a, b)), 8)
}

/// Tags the word at `a`, and makes `w` its base word.
pub fn mark(flat: &mut Flat, a: u64, b: u64, w: u64)
    requires { IsTrue (allows_mark flat.old.bytes a b) }
    ensures { flat.new ≡ with_bytes flat.old (marked flat.old.bytes a b w) }
{
    let area = TaggedArea::of(flat, b);
    let word = word_of(a, b);
    area.set_tag(flat, word, true);
    flat.store(area.base(word), 8, w);
}

/// Copies the words that the `n` bytes at `c` touch in the area at `d`, with their base words and tags, to `a` in the
/// area at `b`, as if all were read before the first is written.
pub fn tmove(flat: &mut Flat, a: u64, b: u64, c: u64, d: u64, n: u64)
    requires { IsTrue (allows_move flat.old.bytes a b c d n) }
    ensures { flat.new ≡ with_bytes flat.old (words_moved flat.old.bytes a b c d n) }
{
    if n == 0 {
        return;
    }
    let to = TaggedArea::of(flat, b).row(word_of(a, b));
    let from = TaggedArea::of(flat, d).row(word_of(c, d));
    flat.move_words(to, from, n / 8);
}

/// Zeroes the `n` bytes at `a`, and untags the words that they touch.
pub fn tzero(flat: &mut Flat, a: u64, b: u64, n: u64)
    requires { IsTrue (allows_zero flat.old.bytes a b n) }
    ensures { flat.new ≡ with_bytes flat.old (range_zeroed flat.old.bytes a b n) }
{
    if n == 0 {
        return;
    }
    let area = TaggedArea::of(flat, b);
    flat.zero(a, n);
    area.clear_tags(flat, word_of(a, b), end_of(a, b, n));
}

/// The greatest depth of the base words of the tagged words that the `n` bytes at `a` touch, or 0 where there are none.
pub fn tdepth(flat: &Flat, a: u64, b: u64, n: u64) -> u64
    requires { IsTrue (allows_depth flat.now.bytes a b n) }
    ensures { result ≡ greatest_depth flat.now a b n }
{
    if n == 0 {
        return 0;
    }
    let area = TaggedArea::of(flat, b);
    let first = word_of(a, b);
    let end = end_of(a, b, n);
    let mut depth = 0;
    for i in first..end {
        if area.is_tagged(flat, i) {
            depth = flat.depth_of(flat.load(area.base(i), 8)).max(depth);
        }
    }
    depth
}
