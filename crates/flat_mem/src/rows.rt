//! Two ranges of bytes that are copied as if both were read before the first is written, with no room beside the bytes.

ghost use Rattle.std.specs.Prelude.{◌≡◌, ◌+◌, ◌≤◌, length};
ghost use Rattle.flat_mem.specs.Rows.{both_moved};

use crate::numbers::move_within;

// `count` bytes at `from`, which are to be copied to `to`.
#[derive(Clone, Copy)]
pub(crate) struct Shift {
    pub(crate) to: usize,
    pub(crate) from: usize,
    pub(crate) count: usize,
}

// Copies two ranges of one length, of which the first begins no later than the second, before it and after. Where they
// overlap after it, the second is what stands there.
//
// Where the second goes down, the first is written below all that the second is read from. Where it goes up, its end is
// out of the first's way, and what is in both ranges is read where the first has been written.
pub(crate) fn move_both(bytes: &mut [u8], first: Shift, second: Shift)
    requires lengths { first.count ≡ second.count }
    requires sources { first.from ≤ second.from }
    requires targets { first.to ≤ second.to }
    requires source { second.from + second.count ≤ length bytes.old }
    requires target { second.to + second.count ≤ length bytes.old }
    ensures { bytes.new ≡ both_moved bytes.old first second }
{
    let seen = first.count.min(second.to - first.to);
    if second.to < second.from {
        move_within(bytes, first.to, first.from, seen);
        move_within(bytes, second.to, second.from, second.count);
    } else {
        let shared = (first.from + seen).saturating_sub(second.from);
        move_within(
            bytes,
            second.to + shared,
            second.from + shared,
            second.count - shared,
        );
        move_within(bytes, first.to, first.from, seen);
        move_within(bytes, second.to, first.to + (seen - shared), shared);
    }
}
