//! Bits of a list of bytes: the tags of words.
// Tags in a slice of bytes: bits whose place is how many bits stand before them.

ghost use Rattle.std.specs.Prelude.{◌≡◌, ◌+◌, ◌*◌, ◌<◌, ◌≤◌, ◌^◌, length, vec_capacity};
ghost use Rattle.flat_mem.specs.Tags.{with_bit, tag_in, tag_written, tags_in, tags_written, row_moved, IsRowInside};

use crate::WordRow;
use crate::rows::{Shift, move_both};

// The byte with bit `k` set or cleared.
fn with_bit(byte: u8, k: u64, bit: bool) -> u8
    requires { k < 8 }
    ensures { result ≡ with_bit bit k byte }
{
    if bit {
        byte | (1 << k)
    } else {
        byte & !(1 << k)
    }
}

pub(crate) fn tag_at(bytes: &[u8], t: u64) -> bool
    requires { t < 8 * length bytes.now }
    ensures { result ≡ tag_in bytes.now t }
{
    (bytes[(t / 8) as usize] >> (t % 8)) & 1 == 1
}

pub(crate) fn write_tag(bytes: &mut [u8], t: u64, tag: bool)
    requires { t < 8 * length bytes.old }
    ensures { bytes.new ≡ tag_written tag bytes.old t }
{
    let at = (t / 8) as usize;
    bytes[at] = with_bit(bytes[at], t % 8, tag);
}

// Makes `list` the `count` tags from `t` on.
pub(crate) fn keep_tags(list: &mut Vec<bool>, bytes: &[u8], t: u64, count: u64)
    requires room { count ≤ vec_capacity list.old }
    requires inside { t + count ≤ 8 * length bytes.now }
    requires small { length bytes.now < 2 ^ 32 }
    ensures tags { list.new.items ≡ tags_in count bytes.now t }
    ensures capacity { vec_capacity list.new ≡ vec_capacity list.old }
{
    list.clear();
    for i in 0..count {
        list.push_reserved(tag_at(bytes, t + i));
    }
}

// Writes the tags from `t` on.
pub(crate) fn write_tags(bytes: &mut [u8], t: u64, tags: &[bool])
    requires inside { t + length tags.now ≤ 8 * length bytes.old }
    requires small { length bytes.old < 2 ^ 32 }
    ensures { bytes.new ≡ tags_written tags.now bytes.old t }
{
    let mut at = t;
    for tag in tags {
        write_tag(bytes, at, *tag);
        at += 1;
    }
}

// Copies `count` words with their base words and tags, as if all were read before the first is written. `tags` is room to
// keep the tags that are read: words and base words need none.
pub(crate) fn move_row(
    bytes: &mut [u8],
    tags: &mut Vec<bool>,
    to: WordRow,
    from: WordRow,
    count: u64,
)
    requires target { IsRowInside bytes.old to count }
    requires source { IsRowInside bytes.old from count }
    requires tag_room { count ≤ vec_capacity tags.old }
    requires small { length bytes.old < 2 ^ 32 }
    ensures moved { bytes.new ≡ row_moved count bytes.old to from }
    ensures tags { vec_capacity tags.old ≤ vec_capacity tags.new }
{
    let count_bytes = (8 * count) as usize;
    let words = Shift {
        to: to.words as usize,
        from: from.words as usize,
        count: count_bytes,
    };
    let bases = Shift {
        to: to.bases as usize,
        from: from.bases as usize,
        count: count_bytes,
    };
    keep_tags(tags, bytes, from.tags, count);
    move_both(bytes, words, bases);
    write_tags(bytes, to.tags, tags);
}
