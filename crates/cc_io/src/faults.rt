//! How a call of the outside fails, and how failures are counted.
ghost use Rattle.std.specs.Prelude.{◌≡◌, ◌≤◌, IsTrue, if◌then◌else◌};
ghost use Rattle.cc_io.specs.Faults.{counted_up, greatest_count, Rose};

use thiserror::Error;

/// A read or a write failed.
#[derive(Clone, Copy, Debug, PartialEq, Eq, Error)]
#[error("input or output failed")]
pub struct Failed;

/// Why a file could not be read.
#[derive(Clone, Copy, Debug, PartialEq, Eq, Error)]
pub enum FileFault {
    /// The file could not be opened or read.
    #[error("the file could not be read")]
    Failed,
    /// The file has more bytes than the limit allows.
    #[error("the file is too large")]
    TooLarge,
    /// There was no memory for the name or for the bytes.
    #[error("out of memory")]
    NoMemory,
}

/// The count of faults after a call: one more where the call failed, up to the greatest count.
pub(crate) fn count_after(faults: u64, failed: bool) -> u64
    ensures value { result ≡ (if failed then counted_up faults else faults) }
    ensures rose { IsTrue failed → Rose faults result }
    ensures never_falls { faults ≤ result }
    ensures in_range { result ≤ greatest_count }
{
    if failed {
        faults.saturating_add(1)
    } else {
        faults
    }
}
