//! Sizes of areas, and making them.
// The sizes of areas, and making them in the bytes.

ghost use Rattle.std.specs.Prelude.{◌≡◌, ◌+◌, ◌<◌, ◌≤◌, ◌^◌, ◌++◌, false, All, Some, None, length, map, nat_le, vec_capacity, vec_len, if◌then◌else◌};
ghost use Rattle.flat_mem.specs.Placement.{area_size, areas_size, addresses, first_word, area_made, areas_made};
ghost use Rattle.flat_mem.specs.Plans.{AreTyped, first_word_written, first_words_written};

use crate::{Area, numbers};

/// The size of the area with its first word, in bytes.
pub fn size_of(area: Area) -> u64
    requires { area.bytes < 2 ^ 32 }
    ensures { result ≡ area_size area }
{
    let words = area.bytes.div_ceil(8);
    if area.tagged {
        8 + 16 * words + 8 * words.div_ceil(64)
    } else {
        8 + 8 * words
    }
}

// The size of the area where it is at most `room`.
pub(crate) fn size_within(area: Area, room: u64) -> Option<u64>
    requires { room < 2 ^ 32 }
    ensures { result ≡ (if nat_le (area_size area) room then Some (area_size area) else None) }
{
    if area.bytes > room {
        return None;
    }
    let size = size_of(area);
    if size <= room { Some(size) } else { None }
}

// Whether the areas fit into `room` bytes, one after another.
pub(crate) fn all_fit(areas: &[Area], room: u64) -> bool
    requires { room < 2 ^ 32 }
    ensures { result ≡ nat_le (areas_size areas.now) room }
{
    let mut left = room;
    for area in areas {
        match size_within(*area, left) {
            Some(size) => left -= size,
            None => return false,
        }
    }
    true
}

// The size of the areas, one after another.
pub(crate) fn sizes_of(areas: &[Area]) -> u64
    requires { areas_size areas.now < 2 ^ 32 }
    ensures { result ≡ areas_size areas.now }
{
    let mut size = 0;
    for area in areas {
        size += size_of(*area);
    }
    size
}

// The area's first word.
fn first_word_of(area: Area) -> u64
    ensures { result ≡ first_word area }
{
    if area.tagged { area.bytes } else { 0 }
}

// Makes the area at `start`.
pub(crate) fn make_area(bytes: &mut [u8], area: Area, start: u64)
    requires room { start + area_size area ≤ length bytes.old }
    requires small { length bytes.old < 2 ^ 32 }
    ensures { bytes.new ≡ area_made area bytes.old start }
{
    let start = start as usize;
    numbers::zero_at(bytes, start, size_of(area) as usize);
    numbers::store_at(bytes, start, 8, first_word_of(area));
}

// Makes the areas one after another from `start` on, and gives their end. A frame without areas takes no call.
#[inline(always)]
pub(crate) fn make_areas(bytes: &mut [u8], areas: &[Area], start: u64) -> u64
    requires room { start + areas_size areas.now ≤ length bytes.old }
    requires small { length bytes.old < 2 ^ 32 }
    ensures made { bytes.new ≡ areas_made areas.now bytes.old start }
    ensures end { result ≡ start + areas_size areas.now }
{
    if areas.is_empty() {
        start
    } else {
        make_each(bytes, areas, start)
    }
}

#[inline(never)]
fn make_each(bytes: &mut [u8], areas: &[Area], start: u64) -> u64
    requires room { start + areas_size areas.now ≤ length bytes.old }
    requires small { length bytes.old < 2 ^ 32 }
    ensures made { bytes.new ≡ areas_made areas.now bytes.old start }
    ensures end { result ≡ start + areas_size areas.now }
{
    let mut at = start;
    for area in areas {
        make_area(bytes, *area, at);
        at += size_of(*area);
    }
    at
}

// Writes the first words of tagged areas that lie one after another from `start` on.
#[inline(never)]
pub(crate) fn write_first_words(bytes: &mut [u8], areas: &[Area], start: u64)
    requires room { start + areas_size areas.now ≤ length bytes.old }
    requires small { length bytes.old < 2 ^ 32 }
    ensures { bytes.new ≡ first_words_written areas.now bytes.old start }
{
    let mut at = start;
    for area in areas {
        write_first_word(bytes, *area, at);
        at += size_of(*area);
    }
}

// Writes the first word of the area at `at`, where it is tagged.
fn write_first_word(bytes: &mut [u8], area: Area, at: u64)
    requires room { at + 8 ≤ length bytes.old }
    requires small { length bytes.old < 2 ^ 32 }
    ensures { bytes.new ≡ first_word_written area bytes.old at }
{
    if area.tagged {
        numbers::store_at(bytes, at as usize, 8, area.bytes);
    }
}

// Whether one of the areas is tagged.
pub(crate) fn has_tagged(areas: &[Area]) -> bool
    ensures { result ≡ false → AreTyped areas.now }
{
    areas.iter().any(|area| area.tagged)
}

// Writes down the addresses of the areas that lie one after another from `start` on.
#[inline(always)]
pub(crate) fn list_addresses(list: &mut Vec<u64>, areas: &[Area], start: u64)
    requires room { vec_len list.old + length areas.now ≤ vec_capacity list.old }
    requires small { start + areas_size areas.now < 2 ^ 32 }
    ensures added { list.new.items ≡ list.old.items ++ addresses areas.now start }
    ensures capacity { vec_capacity list.new ≡ vec_capacity list.old }
{
    if !areas.is_empty() {
        list_each(list, areas, start);
    }
}

#[inline(never)]
fn list_each(list: &mut Vec<u64>, areas: &[Area], start: u64)
    requires room { vec_len list.old + length areas.now ≤ vec_capacity list.old }
    requires small { start + areas_size areas.now < 2 ^ 32 }
    ensures added { list.new.items ≡ list.old.items ++ addresses areas.now start }
    ensures capacity { vec_capacity list.new ≡ vec_capacity list.old }
{
    let mut at = start;
    for area in areas {
        list.push_reserved(at + 8);
        at += size_of(*area);
    }
}

// Writes down the addresses of areas that stand so far behind `start`.
#[inline(always)]
pub(crate) fn list_shifted(list: &mut Vec<u64>, offsets: &[u64], start: u64)
    requires room { vec_len list.old + length offsets.now ≤ vec_capacity list.old }
    requires small { All (λ o. start + o < 2 ^ 64) offsets.now }
    ensures added { list.new.items ≡ list.old.items ++ map (λ o. start + o) offsets.now }
    ensures capacity { vec_capacity list.new ≡ vec_capacity list.old }
{
    for offset in offsets {
        list.push_reserved(start + *offset);
    }
}
