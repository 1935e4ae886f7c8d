//! Bytes in memory that are given in pieces.
ghost use Rattle.std.specs.Prelude.{◌≡◌, ◌<◌, ◌≤◌, min, length, take, drop, Some};
ghost use Rattle.cc_io.specs.Bytes.{Takes, IsSpent};

use std::marker::Model;

/// The bytes of a vector from a place on, which are given in pieces of a greatest length.
#[derive(Drop)]
pub(crate) struct Pieces {
    bytes: Vec<u8>,
    taken: usize,
    most: usize,
}

impl Model for Pieces {
    ghost use Rattle.std.specs.Prelude.{◌≤◌, ◌<◌, drop, vec_len};
    ghost use Rattle.cc_io.specs.Outside.{PiecesState};

    ghost Value = { PiecesState };

    ghost view = { λ s. record { held = drop s.taken s.bytes.items; most = s.most } };

    ghost invariant = { λ s. (s.taken ≤ vec_len s.bytes) × (0 < s.most) };
}

impl Pieces {
    pub(crate) fn new(bytes: Vec<u8>, most: usize) -> Pieces
        requires { 0 < most }
        ensures { result ≡ record { held = bytes.items; most = most } }
    {
        Pieces {
            bytes,
            taken: 0,
            most,
        }
    }

    /// Fills the first places of `into` with the next bytes, as many as one piece may have, and answers how many they
    /// are.
    pub(crate) fn give(&mut self, into: &mut [u8]) -> usize
        ensures amount { result ≡ min self.old.most (min (length self.old.held) (length into.old)) }
        ensures takes { Takes (Some self.old.held) (Some self.new.held) (take result into.new) }
        ensures end { result ≡ 0 → 0 < length into.old → IsSpent (Some self.new.held) }
        ensures beyond { drop result into.new ≡ drop result into.old }
        ensures same_most { self.new.most ≡ self.old.most }
    {
        let (_, left) = self.bytes.split_at(self.taken);
        let count = self.most.min(left.len().min(into.len()));
        into[..count].copy_from_slice(&left[..count]);
        self.taken += count;
        count
    }
}
