//! Sizes and alignments.
#![tactic(auto)]

ghost use Rattle.std.specs.Prelude.{◌≡◌, ◌≤◌, ◌<◌};
ghost use Rattle.c_types.specs.Layouts.{rounded, no_layout};

/// The size and the alignment of a type, in bytes (C99 6.2.5, 6.5.3.4).
#[derive(Clone, Copy, Debug, PartialEq, Eq)]
pub struct Layout {
    /// The number of bytes.
    pub size: u64,
    /// The number that each address of such an object is a multiple of.
    pub align: u64,
}

impl Layout {
    /// The layout of what has no size, as `void`.
    pub(crate) fn none() -> Layout
        ensures { result ≡ no_layout }
    {
        Layout { size: 0, align: 1 }
    }

    /// The layout of a number of this many bytes.
    pub(crate) fn of_bytes(bytes: u64) -> Layout
        ensures { result ≡ record { size = bytes; align = bytes } }
    {
        Layout {
            size: bytes,
            align: bytes,
        }
    }
}

/// The least multiple of `align` that is no less than `n`.
pub(crate) fn round_up(n: u64, align: u64) -> u64
    requires small { n ≤ 1048576 }
    requires positive { 0 < align }
    requires aligned { align ≤ 8 }
    ensures { result ≡ rounded n align }
{
    n + (align - n % align) % align
}
