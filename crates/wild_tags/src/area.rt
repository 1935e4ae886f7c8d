//! The base words and tags of one area.
// One tagged area: where its words, base words and tags stand, and its tags.

ghost use Rattle.std.specs.Prelude.{◌≡◌, ◌+◌, ◌-◌, ◌*◌, ◌≤◌, ◌<◌, ◌^◌, List, [], ◌∷◌, IsTrue, length, filter, min, max, nat_lt};
ghost use Rattle.std.specs.List.{list_all};
ghost use Rattle.flat_mem.specs.Bytes.{AreBytes};
ghost use Rattle.flat_mem.specs.Memory.{in_flat, with_bytes};
ghost use Rattle.flat_mem.specs.Placement.{word_count, data_word, base_word, tag_byte};
ghost use Rattle.wild_tags.specs.Inside.{has_length, have_data, have_tags, IsLimit};
ghost use Rattle.wild_tags.specs.Words.{length_at, word_at, touched_count, counted, tag_at, with_tag, tags_cleared, words_zeroed};
ghost use Rattle.wild_tags.specs.Order.{turn_of};

use crate::words;
use flat_mem::{Flat, WordRow};

// A tagged area by its address, and its length in bytes.
#[derive(Clone, Copy)]
pub(crate) struct TaggedArea {
    at: u64,
    length: u64,
}

impl TaggedArea {
    // The tagged area at `b`.
    pub(crate) fn of(flat: &Flat, b: u64) -> TaggedArea
        requires { IsTrue (has_length flat.now.bytes b) }
        ensures at { result.at ≡ b }
        ensures length { result.length ≡ length_at flat.now.bytes b }
        ensures small { length flat.now.bytes < 2 ^ 32 }
        ensures bytes { AreBytes flat.now.bytes }
    {
        // Every address in the list fits a word.
        let _size = flat.size();
        TaggedArea {
            at: b,
            length: flat.load(b - 8, 8),
        }
    }

    // The address of data word `i`.
    pub(crate) fn data(self, i: u64) -> u64
        requires { data_word self.at i < 2 ^ 64 }
        ensures { result ≡ data_word self.at i }
    {
        self.at + 8 * i
    }

    // The address of the base word of word `i`.
    pub(crate) fn base(self, i: u64) -> u64
        requires { base_word self.at self.length i < 2 ^ 64 }
        ensures { result ≡ base_word self.at self.length i }
    {
        self.at + 8 * words(self.length) + 8 * i
    }

    // How many data words from the first on would lie in the list.
    pub(crate) fn data_limit(self, flat: &Flat) -> u64
        requires { self.at ≤ length flat.now.bytes }
        ensures { IsLimit (λ i. in_flat flat.now.bytes (data_word self.at i) 8) result }
    {
        (flat.size() - self.at) / 8
    }

    // How many base words from the first on would lie in the list.
    pub(crate) fn base_limit(self, flat: &Flat) -> u64
        requires { self.at ≤ length flat.now.bytes }
        ensures { IsLimit (λ i. in_flat flat.now.bytes (base_word self.at self.length i) 8) result }
    {
        ((flat.size() - self.at) / 8).saturating_sub(words(self.length))
    }

    // How many tags from the first on would lie in the list.
    pub(crate) fn tag_limit(self, flat: &Flat) -> u64
        requires { self.at ≤ length flat.now.bytes }
        ensures { IsLimit (λ i. in_flat flat.now.bytes (tag_byte self.at self.length i) 1) result }
    {
        let room = flat.size() - self.at;
        if words(self.length) > room / 16 {
            return 0;
        }
        8 * (room - 16 * words(self.length))
    }

    // Whether each tagged word from `first` up to `end` is below `limit`.
    pub(crate) fn tagged_below(self, flat: &Flat, first: u64, end: u64, limit: u64) -> bool
        requires order { first ≤ end }
        requires tags { IsTrue (have_tags flat.now.bytes self.at self.length
            (counted first (end - first))) }
        requires small { length flat.now.bytes < 2 ^ 32 }
        ensures { result ≡ list_all (λ i. nat_lt i limit) (filter
            (tag_at flat.now.bytes self.at self.length) (counted first (end - first))) }
    {
        let start = limit.max(first).min(end);
        for i in start..end {
            if self.is_tagged(flat, i) {
                return false;
            }
        }
        true
    }

    // The place of the tag of word `i`, in bits.
    fn place_of_tag(self, i: u64) -> u64
        requires { tag_byte self.at self.length i < 2 ^ 32 }
        ensures { result ≡ 8 * (self.at + 16 * word_count self.length) + i }
    {
        8 * (self.at + 16 * words(self.length)) + i
    }

    // Where the row of words from word `i` on stands.
    pub(crate) fn row(self, i: u64) -> WordRow
        requires words { data_word self.at i < 2 ^ 64 }
        requires bases { base_word self.at self.length i < 2 ^ 64 }
        requires tags { tag_byte self.at self.length i < 2 ^ 32 }
        ensures words { result.words ≡ data_word self.at i }
        ensures bases { result.bases ≡ base_word self.at self.length i }
        ensures tags { result.tags ≡ 8 * (self.at + 16 * word_count self.length) + i }
    {
        WordRow {
            words: self.data(i),
            bases: self.base(i),
            tags: self.place_of_tag(i),
        }
    }

    // The tag of word `i`.
    pub(crate) fn is_tagged(self, flat: &Flat, i: u64) -> bool
        requires inside { IsTrue (in_flat flat.now.bytes (tag_byte self.at self.length i) 1) }
        requires small { length flat.now.bytes < 2 ^ 32 }
        ensures { result ≡ tag_at flat.now.bytes self.at self.length i }
    {
        flat.tag(self.place_of_tag(i))
    }

    // Sets or clears the tag of word `i`.
    pub(crate) fn set_tag(self, flat: &mut Flat, i: u64, tag: bool)
        requires inside { IsTrue (in_flat flat.old.bytes (tag_byte self.at self.length i) 1) }
        requires small { length flat.old.bytes < 2 ^ 32 }
        ensures { flat.new ≡ with_bytes flat.old
            (with_tag tag flat.old.bytes self.at self.length i) }
    {
        flat.set_tag(self.place_of_tag(i), tag);
    }

    // Zeroes data word `i` where it is tagged.
    fn zero_if_tagged(self, flat: &mut Flat, i: u64)
        requires tag { IsTrue (in_flat flat.old.bytes (tag_byte self.at self.length i) 1) }
        requires data { IsTrue (have_data flat.old.bytes self.at
            (filter (tag_at flat.old.bytes self.at self.length) (i ∷ []))) }
        requires small { length flat.old.bytes < 2 ^ 32 }
        ensures { flat.new ≡ with_bytes flat.old (words_zeroed
            (filter (tag_at flat.old.bytes self.at self.length) (i ∷ [])) flat.old.bytes self.at) }
    {
        if self.is_tagged(flat, i) {
            flat.zero(self.data(i), 8);
        }
    }

    // The first word whose tag doesn't stand in a later data word.
    //
    // The tags of 64 words are the 8 bytes of one word: those of word i stand where data word 2w + i / 64 would, for w
    // words in the area. That is an own word of the area for no i, but a word past the area's own may be touched.
    pub(crate) fn turn(self) -> u64
        ensures { result ≡ turn_of self.length }
    {
        let before_tags = 2 * words(self.length);
        before_tags + before_tags / 63
    }

    // Zeroes the tagged words from `first` up to `end`, upwards.
    pub(crate) fn zero_tagged_up(self, flat: &mut Flat, first: u64, end: u64)
        requires order { first ≤ end }
        requires turn { end ≤ max (turn_of self.length) first }
        requires tags { IsTrue (have_tags flat.old.bytes self.at self.length
            (counted first (end - first))) }
        requires data { IsTrue (have_data flat.old.bytes self.at
            (filter (tag_at flat.old.bytes self.at self.length) (counted first (end - first)))) }
        requires small { length flat.old.bytes < 2 ^ 32 }
        ensures { flat.new ≡ with_bytes flat.old (words_zeroed
            (filter (tag_at flat.old.bytes self.at self.length) (counted first (end - first)))
            flat.old.bytes self.at) }
    {
        for i in first..end {
            self.zero_if_tagged(flat, i);
        }
    }

    // Zeroes the tagged words from `first` up to `end`, downwards.
    pub(crate) fn zero_tagged_down(self, flat: &mut Flat, first: u64, end: u64)
        requires order { first ≤ end }
        requires turn { min (turn_of self.length) end ≤ first }
        requires tags { IsTrue (have_tags flat.old.bytes self.at self.length
            (counted first (end - first))) }
        requires data { IsTrue (have_data flat.old.bytes self.at
            (filter (tag_at flat.old.bytes self.at self.length) (counted first (end - first)))) }
        requires small { length flat.old.bytes < 2 ^ 32 }
        ensures { flat.new ≡ with_bytes flat.old (words_zeroed
            (filter (tag_at flat.old.bytes self.at self.length) (counted first (end - first)))
            flat.old.bytes self.at) }
    {
        for i in (first..end).rev() {
            self.zero_if_tagged(flat, i);
        }
    }

    // Clears the tags of the words from `first` up to `end`.
    pub(crate) fn clear_tags(self, flat: &mut Flat, first: u64, end: u64)
        requires order { first ≤ end }
        requires inside { IsTrue (have_tags flat.old.bytes self.at self.length
            (counted first (end - first))) }
        requires small { length flat.old.bytes < 2 ^ 32 }
        ensures { flat.new ≡ with_bytes flat.old (tags_cleared
            (counted first (end - first)) flat.old.bytes self.at self.length) }
    {
        for i in first..end {
            self.set_tag(flat, i, false);
        }
    }
}

// The word of the area at `b` that the byte at `a` belongs to.
pub(crate) fn word_of(a: u64, b: u64) -> u64
    requires { b ≤ a }
    ensures { result ≡ word_at b a }
{
    (a - b) / 8
}

// The word after the last one that the `n` bytes at `a` touch in the area at `b`, or the first where `n` is 0.
pub(crate) fn end_of(a: u64, b: u64, n: u64) -> u64
    requires { b ≤ a }
    ensures { result ≡ word_at b a + touched_count b a n }
{
    if n == 0 {
        return word_of(a, b);
    }
    // (a - b + n - 1) / 8 + 1, though that sum may pass the greatest word
    let (before, more) = (a - b, n - 1);
    before / 8 + more / 8 + (before % 8 + more % 8) / 8 + 1
}
