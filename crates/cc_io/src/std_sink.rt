//! A sink over a writer of std.
ghost use Rattle.std.specs.Prelude.{◌≡◌, ◌≤◌, OnOk, OnErr, is_ok, if◌then◌else◌};
ghost use Rattle.cc_io.specs.Faults.{counted_up, greatest_count, Rose};
ghost use Rattle.cc_io.specs.Bytes.{Gains, GainsFront};

use crate::faults::{Failed, count_after};
use crate::traits::Sink;
use std::io::Write;
use std::marker::Model;

/// A sink that writes to a writer of std, such as standard output, and counts its errors.
#[derive(Drop)]
pub struct StdSink<W: Write> {
    output: W,
    faults: u64,
}

impl<W: Write> Model for StdSink<W> {
    ghost use Rattle.cc_io.specs.Outside.{Counted};

    ghost Value = { Counted W };

    ghost view = { λ s. record { inner = s.output; faults = s.faults } };
}

impl<W: Write> StdSink<W> {
    pub fn new(output: W) -> StdSink<W>
        ensures { result ≡ record { inner = output; faults = 0 } }
    {
        StdSink { output, faults: 0 }
    }
}

// Where the writer tells what it holds, this sink tells it; standard output tells nothing.
impl<W: Write> Sink for StdSink<W> {
    ghost written = { λ s. W.contents s.inner };

    ghost faults = { λ s. s.faults };

    fn write(&mut self, bytes: &[u8]) -> Result<(), Failed>
        ensures appended { OnOk result (Gains (W.contents self.old.inner)
            (W.contents self.new.inner) bytes.now) }
        ensures failed { OnErr result (Rose self.old.faults self.new.faults) }
        ensures front { OnErr result (GainsFront (W.contents self.old.inner)
            (W.contents self.new.inner) bytes.now) }
        ensures never_falls { self.old.faults ≤ self.new.faults }
        ensures in_range { self.new.faults ≤ greatest_count }
        ensures fault { self.new.faults ≡ (if is_ok result then self.old.faults else counted_up
            self.old.faults) }
    {
        let outcome = write_whole(&mut self.output, bytes);
        self.faults = count_after(self.faults, outcome.is_err());
        outcome
    }
}

/// Writes all the bytes. It fails at an error, and where the writer takes nothing of a piece that is not empty.
fn write_whole<W: Write>(output: &mut W, bytes: &[u8]) -> Result<(), Failed>
    ensures appended { OnOk result (Gains (W.contents output.old)
        (W.contents output.new) bytes.now) }
    ensures front { OnErr result (GainsFront (W.contents output.old)
        (W.contents output.new) bytes.now) }
{
    let mut rest = bytes;
    while !rest.is_empty() {
        let taken = output.write(rest).unwrap_or(0);
        if taken == 0 {
            return Err(Failed);
        }
        rest = &rest[taken..];
    }
    Ok(())
}

#[cfg(test)]
mod tests {
    use super::*;
    use std::io;
    use std::io::Read;
    use std::test::Fail;

    /// A writer that takes this many bytes in all, and then none.
    #[derive(Drop)]
    struct Slow(usize);

    impl Write for Slow {
        fn write(&mut self, buf: &[u8]) -> io::Result<usize> {
            let taken = self.0.min(buf.len());
            self.0 -= taken;
            Ok(taken)
        }

        fn flush(&mut self) -> io::Result<()> {
            Ok(())
        }
    }

    #[test]
    fn writes_to_a_pipe(rt: HostRuntime) -> Result<(), Fail> {
        let (mut reader, writer) = io::pipe(&rt)?;
        let mut sink = StdSink::new(writer);
        assert_eq!(rt; sink.write(b"abc"), Ok(()));
        drop(sink);
        let mut written = Vec::new(rt.alloc());
        reader.read_to_end(&mut written)?;
        assert_eq!(rt; written.as_slice(), b"abc".as_slice());
        Ok(())
    }

    #[test]
    fn a_writer_that_takes_nothing_is_a_failed_write(rt: HostRuntime) {
        let mut sink = StdSink::new(Slow(3));
        assert_eq!(rt; sink.write(b"ab"), Ok(()));
        assert_eq!(rt; sink.write(b"cd"), Err(Failed));
        assert_eq!(rt; sink.faults, 1);
    }
}
