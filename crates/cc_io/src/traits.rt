//! Where bytes come from, where they go, and files by name.
ghost use Rattle.std.specs.Prelude.{◌≡◌, ℕ, ◌<◌, ◌≤◌, List, [], Option, length, take, IfOk, OnOk, OnErr, IfSome, IsErrOf, vec_len};
ghost use Rattle.cc_io.specs.Faults.{greatest_count, Rose, last_after};
ghost use Rattle.cc_io.specs.Bytes.{Takes, Keeps, IsSpent, Gains, GainsFront};

use crate::faults::{Failed, FileFault};

/// Where bytes come from. A read may give fewer bytes than there is room for.
pub trait Source {
    // the bytes that are left, where the source tells them
    ghost held: { Self → Option (List ℕ) };

    // how many faults were counted
    ghost faults: { Self → ℕ };

    /// Fills the first places of `into` with the next bytes, and answers how many they are.
    fn read(&mut self, into: &mut [u8]) -> Result<usize, Failed>
        ensures within { IfOk result (λ count. count ≤ length into.old) }
        ensures takes { IfOk result (λ count. Takes (held self.old) (held self.new)
            (take count into.new)) }
        ensures end { IfOk result (λ count. count ≡ 0 → 0 < length into.old
            → IsSpent (held self.new)) }

        // A failure has a cause that was counted, and takes nothing.
        ensures failed { OnErr result (Rose (faults self.old) (faults self.new)) }
        ensures untaken { OnErr result (Keeps (held self.old) (held self.new)) }
        ensures never_falls { faults self.old ≤ faults self.new }
        ensures in_range { faults self.new ≤ greatest_count };
}

/// Where bytes go.
pub trait Sink {
    // the bytes that were written, where the sink tells them
    ghost written: { Self → Option (List ℕ) };

    // how many faults were counted
    ghost faults: { Self → ℕ };

    /// Appends all the bytes. Where it fails, it has appended a front of them.
    fn write(&mut self, bytes: &[u8]) -> Result<(), Failed>
        ensures appended { OnOk result (Gains (written self.old) (written self.new) bytes.now) }

        // A failure has a cause that was counted.
        ensures failed { OnErr result (Rose (faults self.old) (faults self.new)) }
        ensures front { OnErr result (GainsFront (written self.old) (written self.new) bytes.now) }
        ensures never_falls { faults self.old ≤ faults self.new }
        ensures in_range { faults self.new ≤ greatest_count };
}

/// Files by name.
pub trait Files {
    // the bytes of the file of a name, where they are told
    ghost holds: { Self → List ℕ → Option (List ℕ) };

    // how many faults were counted
    ghost faults: { Self → ℕ };

    // the name in the last call that failed, if there was one
    ghost last: { Self → Option (List ℕ) };

    /// Reads the whole file into `into`, which is empty. A file of more than `limit` bytes is too large.
    fn read_file(&mut self, name: &str, limit: u64, into: &mut Vec<u8>) -> Result<(), FileFault>
        requires { into.old.items ≡ [] }
        ensures whole { OnOk result (IfSome (holds self.old name.now)
            (λ bytes. into.new.items ≡ bytes)) }
        ensures within_limit { OnOk result (vec_len into.new ≤ limit) }
        ensures too_large { IsErrOf result FileFault.TooLarge
            → IfSome (holds self.old name.now) (λ bytes. limit < length bytes) }
        ensures emptied { OnErr result (into.new.items ≡ []) }

        // A failure has a cause that was counted, and its name is kept.
        ensures failed { IsErrOf result FileFault.Failed
            → Rose (faults self.old) (faults self.new) }
        ensures last { last self.new ≡ last_after result name.now (last self.old) }
        ensures never_falls { faults self.old ≤ faults self.new }
        ensures in_range { faults self.new ≤ greatest_count };
}
