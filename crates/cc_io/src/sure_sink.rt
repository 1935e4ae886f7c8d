//! A sink that takes all that is written to it.
ghost use Rattle.std.specs.Prelude.{◌≡◌, ◌≤◌, IsOk, OnErr, OnOk, None};
ghost use Rattle.cc_io.specs.Faults.{greatest_count, Rose};
ghost use Rattle.cc_io.specs.Bytes.{Gains, GainsFront};

use crate::faults::Failed;
use crate::traits::Sink;

/// A sink that takes every piece and keeps nothing. No write fails, and its count of faults is 0. It tells nothing of
/// what was written.
#[derive(Clone, Copy, Debug, PartialEq, Eq)]
pub struct SureSink;

impl SureSink {
    pub fn new() -> SureSink {
        SureSink
    }
}

impl Sink for SureSink {
    ghost written = { λ _. None };

    ghost faults = { λ _. 0 };

    fn write(&mut self, _bytes: &[u8]) -> Result<(), Failed>
        ensures failed { OnErr result (Rose 0 0) }
        ensures never_falls { 0 ≤ 0 }
        ensures in_range { 0 ≤ greatest_count }

        // It never fails.
        ensures sure { IsOk result }
    {
        Ok(())
    }
}

#[cfg(test)]
mod tests {
    use super::*;
    use crate::testing::put;

    #[test]
    fn takes_every_piece(rt: HostRuntime) {
        let mut sink = SureSink::new();
        assert_eq!(rt; put(&mut sink, b""), Ok(()));
        assert_eq!(rt; put(&mut sink, b"piece"), Ok(()));
    }
}
