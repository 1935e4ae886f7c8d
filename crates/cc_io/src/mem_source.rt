//! A source in memory.
ghost use Rattle.std.specs.Prelude.{◌≡◌, ℕ, ◌<◌, ◌≤◌, ◌↔◌, min, length, take, drop, Contains, IfOk, OnOk, OnErr, IsErr, is_ok, if◌then◌else◌, Some};
ghost use Rattle.cc_io.specs.Faults.{counted_up, greatest_count, Rose};
ghost use Rattle.cc_io.specs.Bytes.{Takes, Keeps, IsSpent};

use crate::calls::Calls;
use crate::faults::Failed;
use crate::pieces::Pieces;
use crate::traits::Source;
use std::marker::Model;

/// A source that gives the bytes of a vector, in reads of a greatest length, and fails at chosen calls.
#[derive(Drop)]
pub struct MemSource {
    pieces: Pieces,
    calls: Calls,
}

impl Model for MemSource {
    ghost use Rattle.cc_io.specs.Outside.{MemSourceState};

    ghost Value = { MemSourceState };

    ghost view = { λ s. record {
      held = s.pieces.held;
      most = s.pieces.most;
      fails = s.calls.fails.items;
      calls = s.calls.made;
      faults = s.calls.faults;
    } };
}

impl MemSource {
    /// Keeps what it is given: the bytes, the greatest length of one read, and the numbers of the calls
    /// that fail, counted from 1.
    pub fn new(bytes: Vec<u8>, most: usize, fails: Vec<u64>) -> MemSource
        requires { 0 < most }
        ensures { result ≡ record {
          held = bytes.items;
          most = most;
          fails = fails.items;
          calls = 0;
          faults = 0;
        } }
    {
        MemSource {
            pieces: Pieces::new(bytes, most),
            calls: Calls::new(fails),
        }
    }
}

impl Source for MemSource {
    ghost held = { λ s. Some s.held };

    ghost faults = { λ s. s.faults };

    fn read(&mut self, into: &mut [u8]) -> Result<usize, Failed>
        ensures within { IfOk result (λ count. count ≤ length into.old) }
        ensures takes { IfOk result (λ count. Takes (Some self.old.held) (Some self.new.held)
            (take count into.new)) }
        ensures end { IfOk result (λ count. count ≡ 0 → 0 < length into.old
            → IsSpent (Some self.new.held)) }
        ensures failed { OnErr result (Rose self.old.faults self.new.faults) }
        ensures untaken { OnErr result (Keeps (Some self.old.held) (Some self.new.held)) }
        ensures never_falls { self.old.faults ≤ self.new.faults }
        ensures in_range { self.new.faults ≤ greatest_count }

        // It fails at the listed calls and no others, and gives as many bytes as one read may.
        ensures fails_exactly { IsErr result ↔ Contains self.old.fails (counted_up self.old.calls) }
        ensures amount { IfOk result (λ count. count ≡ min self.old.most
            (min (length self.old.held) (length into.old))) }
        ensures beyond { IfOk result (λ count. drop count into.new ≡ drop count into.old) }
        ensures unfilled { OnErr result (into.new ≡ into.old) }

        ensures call { self.new.calls ≡ counted_up self.old.calls }
        ensures fault { self.new.faults ≡ (if is_ok result then self.old.faults else counted_up
            self.old.faults) }
        ensures same_most { self.new.most ≡ self.old.most }
        ensures same_fails { self.new.fails ≡ self.old.fails }
    {
        if self.calls.begin() {
            self.calls.fault();
            return Err(Failed);
        }
        let count = self.pieces.give(into);
        Ok(count)
    }
}

#[cfg(test)]
mod tests {
    use super::*;
    use crate::testing::read_four;
    use std::test::Fail;

    #[test]
    fn gives_two_bytes_a_read_and_fails_at_the_second_call(rt: HostRuntime) -> Result<(), Fail> {
        let bytes = b"abcde".to_vec(rt.alloc())?;
        let fails = [2].to_vec(rt.alloc())?;
        let mut source = MemSource::new(bytes, 2, fails);
        assert_eq!(rt; read_four(&mut source), (Ok(2), [b'a', b'b', 0, 0]));
        assert_eq!(rt; read_four(&mut source), (Err(Failed), [0, 0, 0, 0]));
        assert_eq!(rt; read_four(&mut source), (Ok(2), [b'c', b'd', 0, 0]));
        assert_eq!(rt; read_four(&mut source), (Ok(1), [b'e', 0, 0, 0]));
        assert_eq!(rt; read_four(&mut source), (Ok(0), [0, 0, 0, 0]));
        Ok(())
    }
}
