//! A source over a reader of std.
ghost use Rattle.std.specs.Prelude.{◌≡◌, ◌<◌, ◌≤◌, length, take, IfOk, OnErr, is_ok, if◌then◌else◌};
ghost use Rattle.cc_io.specs.Faults.{counted_up, greatest_count, Rose};
ghost use Rattle.cc_io.specs.Bytes.{Takes, Keeps, IsSpent};

use crate::faults::{Failed, count_after};
use crate::traits::Source;
use std::io::Read;
use std::marker::Model;

/// A source that reads from a reader of std, such as standard input, and counts its errors.
#[derive(Drop)]
pub struct StdSource<R: Read> {
    input: R,
    faults: u64,
}

impl<R: Read> Model for StdSource<R> {
    ghost use Rattle.cc_io.specs.Outside.{Counted};

    ghost Value = { Counted R };

    ghost view = { λ s. record { inner = s.input; faults = s.faults } };
}

impl<R: Read> StdSource<R> {
    pub fn new(input: R) -> StdSource<R>
        ensures { result ≡ record { inner = input; faults = 0 } }
    {
        StdSource { input, faults: 0 }
    }
}

// Where the reader tells what it will give, this source tells it; standard input tells nothing.
impl<R: Read> Source for StdSource<R> {
    ghost held = { λ s. R.remaining s.inner };

    ghost faults = { λ s. s.faults };

    fn read(&mut self, into: &mut [u8]) -> Result<usize, Failed>
        ensures within { IfOk result (λ count. count ≤ length into.old) }
        ensures takes { IfOk result (λ count. Takes (R.remaining self.old.inner)
            (R.remaining self.new.inner) (take count into.new)) }
        ensures end { IfOk result (λ count. count ≡ 0 → 0 < length into.old
            → IsSpent (R.remaining self.new.inner)) }
        ensures failed { OnErr result (Rose self.old.faults self.new.faults) }
        ensures untaken { OnErr result (Keeps (R.remaining self.old.inner)
            (R.remaining self.new.inner)) }
        ensures never_falls { self.old.faults ≤ self.new.faults }
        ensures in_range { self.new.faults ≤ greatest_count }
        ensures fault { self.new.faults ≡ (if is_ok result then self.old.faults else counted_up
            self.old.faults) }
    {
        let outcome = self.input.read(into);
        self.faults = count_after(self.faults, outcome.is_err());
        outcome.map_err(|_| Failed)
    }
}

#[cfg(test)]
mod tests {
    use super::*;
    use std::io;
    use std::io::Write;
    use std::test::Fail;

    /// A reader that always fails.
    #[derive(Drop)]
    struct Broken;

    impl Read for Broken {
        fn read(&mut self, _buf: &mut [u8]) -> io::Result<usize> {
            Err(io::Error::from(io::ErrorKind::BrokenPipe))
        }
    }

    #[test]
    fn reads_what_was_written_to_a_pipe_and_then_nothing(rt: HostRuntime) -> Result<(), Fail> {
        let (reader, mut writer) = io::pipe(&rt)?;
        writer.write_all(b"abc")?;
        drop(writer);
        let mut source = StdSource::new(reader);
        let mut into = [0; 4];
        assert_eq!(rt; source.read(&mut into), Ok(3));
        assert_eq!(rt; into, [b'a', b'b', b'c', 0]);
        assert_eq!(rt; source.read(&mut into), Ok(0));
        Ok(())
    }

    #[test]
    fn a_reader_that_fails_is_a_failed_read(rt: HostRuntime) {
        let mut source = StdSource::new(Broken);
        assert_eq!(rt; source.read(&mut [0; 4]), Err(Failed));
        assert_eq!(rt; source.faults, 1);
    }
}
