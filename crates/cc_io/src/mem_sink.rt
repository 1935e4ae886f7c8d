//! A sink in memory.
ghost use Rattle.std.specs.Prelude.{◌≡◌, ◌+◌, ◌-◌, ◌<◌, ◌≤◌, ◌↔◌, ◌⊎◌, length, Contains, OnOk, OnErr, IsErr, is_ok, if◌then◌else◌, Some, vec_len, vec_capacity};
ghost use Rattle.cc_io.specs.Faults.{counted_up, greatest_count, Rose};
ghost use Rattle.cc_io.specs.Bytes.{Gains, GainsFront};

use crate::calls::Calls;
use crate::faults::Failed;
use crate::traits::Sink;
use std::marker::Model;

/// A sink that keeps what is written to it, as long as there is room, and fails at chosen calls.
#[derive(Drop)]
pub struct MemSink {
    kept: Vec<u8>,
    // how many bytes more are taken; the vector has at least this room
    room: usize,
    calls: Calls,
}

impl Model for MemSink {
    ghost use Rattle.std.specs.Prelude.{◌+◌, ◌≤◌, vec_len, vec_capacity};
    ghost use Rattle.cc_io.specs.Outside.{MemSinkState};

    ghost Value = { MemSinkState };

    ghost view = { λ s. record {
      written = s.kept.items;
      room = s.room;
      fails = s.calls.fails.items;
      calls = s.calls.made;
      faults = s.calls.faults;
    } };

    ghost invariant = { λ s. vec_len s.kept + s.room ≤ vec_capacity s.kept };
}

impl MemSink {
    /// Keeps what it is given: the vector, whose spare room is all that will be written to, and the
    /// numbers of the calls that fail, counted from 1.
    pub fn new(room: Vec<u8>, fails: Vec<u64>) -> MemSink
        ensures { result ≡ record {
          written = room.items;
          room = vec_capacity room - vec_len room;
          fails = fails.items;
          calls = 0;
          faults = 0;
        } }
    {
        let spare = room.capacity() - room.len();
        MemSink {
            kept: room,
            room: spare,
            calls: Calls::new(fails),
        }
    }

    /// The bytes that were written, after those that the vector held at first.
    pub fn written(&self) -> &[u8]
        ensures { result.now ≡ self.now.written }
    {
        self.kept.as_slice()
    }
}

impl Sink for MemSink {
    ghost written = { λ s. Some s.written };

    ghost faults = { λ s. s.faults };

    fn write(&mut self, bytes: &[u8]) -> Result<(), Failed>
        ensures appended { OnOk result (Gains (Some self.old.written)
            (Some self.new.written) bytes.now) }
        ensures failed { OnErr result (Rose self.old.faults self.new.faults) }
        ensures front { OnErr result (GainsFront (Some self.old.written)
            (Some self.new.written) bytes.now) }
        ensures never_falls { self.old.faults ≤ self.new.faults }
        ensures in_range { self.new.faults ≤ greatest_count }

        // It fails at the listed calls and for want of room alone, and then takes nothing.
        ensures fails_exactly { IsErr result ↔ (Contains self.old.fails (counted_up self.old.calls)
            ⊎ (self.old.room < length bytes.now)) }
        ensures room_taken { OnOk result (self.new.room + length bytes.now ≡ self.old.room) }
        ensures nothing_taken { OnErr result (self.new.written ≡ self.old.written) }
        ensures room_left { OnErr result (self.new.room ≡ self.old.room) }

        ensures call { self.new.calls ≡ counted_up self.old.calls }
        ensures fault { self.new.faults ≡ (if is_ok result then self.old.faults else counted_up
            self.old.faults) }
        ensures same_fails { self.new.fails ≡ self.old.fails }
    {
        if self.calls.begin() || self.room < bytes.len() {
            self.calls.fault();
            return Err(Failed);
        }
        self.room -= bytes.len();
        self.kept.extend_from_slice(bytes).unwrap();
        Ok(())
    }
}

#[cfg(test)]
mod tests {
    use super::*;
    use crate::testing::put;
    use std::test::Fail;

    #[test]
    fn takes_what_fits_and_fails_at_the_second_call(rt: HostRuntime) -> Result<(), Fail> {
        let mut room = Vec::with_capacity(rt.alloc(), 5)?;
        room.extend_from_slice(b">")?;
        let mut sink = MemSink::new(room, [2].to_vec(rt.alloc())?);
        assert_eq!(rt; put(&mut sink, b"ab"), Ok(()));
        assert_eq!(rt; put(&mut sink, b"x"), Err(Failed));
        assert_eq!(rt;
            put(&mut sink, b"cde"),
            Err(Failed),
            "there is room for two bytes"
        );
        assert_eq!(rt; put(&mut sink, b"cd"), Ok(()));
        assert_eq!(rt; sink.written(), b">abcd".as_slice());
        Ok(())
    }
}
