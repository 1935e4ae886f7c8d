//! How a run of the machine ends.
use cc_base::{Check, FnId, Place};

/// How a run ends.
#[derive(Clone, Copy, Debug, PartialEq, Eq)]
pub enum Ending {
    /// With this status.
    Exited(u8),
    /// A check stopped it, at its place in the source.
    Stopped(Check, Place),
    /// No turn was left for a further round or call.
    Turns,
    /// In this function an instruction has no meaning on its words, or a call doesn't fit.
    Trap(FnId),
    /// A read of the input failed.
    ReadFault,
    /// A write of the output failed.
    WriteFault,
}
