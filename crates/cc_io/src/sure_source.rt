//! A source in memory that never fails.
ghost use Rattle.std.specs.Prelude.{◌≡◌, ℕ, ◌<◌, ◌≤◌, min, length, take, drop, IfOk, IsOk, OnErr, Some};
ghost use Rattle.cc_io.specs.Faults.{greatest_count, Rose};
ghost use Rattle.cc_io.specs.Bytes.{Takes, Keeps, IsSpent};

use crate::faults::Failed;
use crate::pieces::Pieces;
use crate::traits::Source;
use std::marker::Model;

/// A source that gives the bytes of a vector, in reads of a greatest length. No read fails, and its count of faults is
/// 0.
#[derive(Drop)]
pub struct SureSource {
    pieces: Pieces,
}

impl Model for SureSource {
    ghost use Rattle.cc_io.specs.Outside.{PiecesState};

    ghost Value = { PiecesState };

    ghost view = { λ s. s.pieces };
}

impl SureSource {
    /// Keeps what it is given: the bytes, and the greatest length of one read.
    pub fn new(bytes: Vec<u8>, most: usize) -> SureSource
        requires { 0 < most }
        ensures { result ≡ record { held = bytes.items; most = most } }
    {
        SureSource {
            pieces: Pieces::new(bytes, most),
        }
    }
}

impl Source for SureSource {
    ghost held = { λ s. Some s.held };

    ghost faults = { λ _. 0 };

    fn read(&mut self, into: &mut [u8]) -> Result<usize, Failed>
        ensures within { IfOk result (λ count. count ≤ length into.old) }
        ensures takes { IfOk result (λ count. Takes (Some self.old.held) (Some self.new.held)
            (take count into.new)) }
        ensures end { IfOk result (λ count. count ≡ 0 → 0 < length into.old
            → IsSpent (Some self.new.held)) }
        ensures failed { OnErr result (Rose 0 0) }
        ensures untaken { OnErr result (Keeps (Some self.old.held) (Some self.new.held)) }
        ensures never_falls { 0 ≤ 0 }
        ensures in_range { 0 ≤ greatest_count }

        // It never fails, and gives as many bytes as one read may.
        ensures sure { IsOk result }
        ensures amount { IfOk result (λ count. count ≡ min self.old.most
            (min (length self.old.held) (length into.old))) }
        ensures beyond { IfOk result (λ count. drop count into.new ≡ drop count into.old) }

        ensures same_most { self.new.most ≡ self.old.most }
    {
        let count = self.pieces.give(into);
        Ok(count)
    }
}

#[cfg(test)]
mod tests {
    use super::*;
    use crate::testing::read_four;
    use std::test::Fail;

    #[test]
    fn gives_three_bytes_a_read_up_to_the_end(rt: HostRuntime) -> Result<(), Fail> {
        let mut source = SureSource::new(b"abcd".to_vec(rt.alloc())?, 3);
        assert_eq!(rt; read_four(&mut source), (Ok(3), [b'a', b'b', b'c', 0]));
        assert_eq!(rt; read_four(&mut source), (Ok(1), [b'd', 0, 0, 0]));
        assert_eq!(rt; read_four(&mut source), (Ok(0), [0, 0, 0, 0]));
        Ok(())
    }
}
