//! The files of the system.
ghost use Rattle.std.specs.Prelude.{◌≡◌, ◌<◌, ◌≤◌, [], length, None, OnOk, OnErr, IfSome, IsErrOf, vec_len};
ghost use Rattle.cc_io.specs.Faults.{greatest_count, Rose, faults_after, last_after};

use crate::faults::{FileFault, count_after};
use crate::traits::Files;
use std::alloc::Global;
use std::io::Read;
use std::marker::Model;
use std::{fs, rt};

/// The files of the system, by their paths, with a count of the errors.
#[derive(Drop)]
pub struct DiskFiles<R: rt::Files> {
    alloc: Global,
    system: R,
    faults: u64,
    last: Option<String>,
}

impl<R: rt::Files> Model for DiskFiles<R> {
    ghost use Rattle.std.specs.Prelude.{◌≤◌};
    ghost use Rattle.std.specs.String.{string_bytes};
    ghost use Rattle.std.specs.Option.{option_map};
    ghost use Rattle.cc_io.specs.Faults.{greatest_count};
    ghost use Rattle.cc_io.specs.Outside.{DiskState};

    ghost Value = { DiskState };

    ghost view = { λ s. record { faults = s.faults; last = option_map string_bytes s.last } };

    ghost invariant = { λ s. s.faults ≤ greatest_count };
}

impl<R: rt::Files> DiskFiles<R> {
    /// The allocator is for the name in the last call that failed.
    pub fn new(alloc: Global, system: R) -> DiskFiles<R>
        ensures { result ≡ record { faults = 0; last = None } }
    {
        DiskFiles {
            alloc,
            system,
            faults: 0,
            last: None,
        }
    }
}

impl<R: rt::Files> Files for DiskFiles<R> {
    ghost holds = { λ _ _. None };

    ghost faults = { λ s. s.faults };

    ghost last = { λ s. s.last };

    fn read_file(&mut self, name: &str, limit: u64, into: &mut Vec<u8>) -> Result<(), FileFault>
        requires { into.old.items ≡ [] }
        ensures within_limit { OnOk result (vec_len into.new ≤ limit) }
        ensures emptied { OnErr result (into.new.items ≡ []) }
        ensures failed { IsErrOf result FileFault.Failed → Rose self.old.faults self.new.faults }
        ensures last { self.new.last ≡ last_after result name.now self.old.last }
        ensures never_falls { self.old.faults ≤ self.new.faults }
        ensures in_range { self.new.faults ≤ greatest_count }

        // The count rises at `Failed` alone, so not for want of memory.
        ensures fault { self.new.faults ≡ faults_after result self.old.faults }
    {
        let Ok(asked) = String::from_str(self.alloc, name) else {
            return Err(FileFault::NoMemory);
        };
        let outcome = match fs::open(&self.system, name) {
            Ok(mut file) => read_whole(&mut file, limit, into),
            Err(_) => Err(FileFault::Failed),
        };
        let failed = outcome == Err(FileFault::Failed);
        self.faults = count_after(self.faults, failed);
        if failed {
            self.last = Some(asked);
        }
        if outcome.is_err() {
            into.clear();
        }
        outcome
    }
}

/// The bytes of one read.
const PIECE: usize = 4096;

/// Appends all that the reader gives, unless `into` then has more than `limit` bytes.
fn read_whole<F: Read>(file: &mut F, limit: u64, into: &mut Vec<u8>) -> Result<(), FileFault>
    requires { into.old.items ≡ [] }
    ensures whole { OnOk result (IfSome (F.remaining file.old) (λ bytes. into.new.items ≡ bytes)) }
    ensures within_limit { OnOk result (vec_len into.new ≤ limit) }
    ensures too_large { IsErrOf result FileFault.TooLarge
        → IfSome (F.remaining file.old) (λ bytes. limit < length bytes) }
{
    let mut piece = [0; PIECE];
    loop {
        let Ok(count) = file.read(&mut piece) else {
            return Err(FileFault::Failed);
        };
        if count == 0 {
            return Ok(());
        }
        if (limit - into.len() as u64) < count as u64 {
            return Err(FileFault::TooLarge);
        }
        if into.extend_from_slice(&piece[..count]).is_err() {
            return Err(FileFault::NoMemory);
        }
    }
}

#[cfg(test)]
mod tests {
    use super::*;
    use crate::testing::load;
    use std::test::Fail;

    #[test]
    fn reads_a_file_of_two_pieces_up_to_the_limit(rt: HostRuntime) -> Result<(), Fail> {
        let alloc = rt.alloc();
        let name = "cc_io_two_pieces";
        let text = vec![in alloc; b'x'; 5000]?;
        fs::write(&rt, name, text.as_slice())?;
        let mut files = DiskFiles::new(alloc, rt);
        assert_eq!(rt;
            load(&mut files, alloc, name, 4999),
            Err(FileFault::TooLarge)
        );
        assert_eq!(rt; load(&mut files, alloc, name, 5000), Ok(text));
        fs::remove_file(&rt, name)?;
        assert_eq!(rt; load(&mut files, alloc, name, 5000), Err(FileFault::Failed));
        assert_eq!(rt; files.faults, 1);
        Ok(())
    }
}
