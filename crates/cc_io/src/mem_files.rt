//! Files in memory.
ghost use Rattle.std.specs.Prelude.{◌≡◌, ◌≢◌, ◌<◌, ◌≤◌, ◌↔◌, ◌⊎◌, [], length, Contains, OnOk, OnErr, IfSome, IsNone, IsErrOf, vec_len, None};
ghost use Rattle.std.specs.Option.{option_copied};
ghost use Rattle.cc_io.specs.Faults.{counted_up, greatest_count, Rose, faults_after, last_after};
ghost use Rattle.cc_io.specs.Outside.{file_of, named_files};

use crate::calls::Calls;
use crate::faults::FileFault;
use crate::traits::Files;
use std::alloc::Global;
use std::collections::BTreeMap;
use std::marker::Model;

/// Files that a map holds by their names, which fail at chosen calls.
#[derive(Drop)]
pub struct MemFiles {
    alloc: Global,
    map: BTreeMap<String, Vec<u8>>,
    calls: Calls,
    last: Option<String>,
}

impl Model for MemFiles {
    ghost use Rattle.std.specs.String.{string_bytes};
    ghost use Rattle.std.specs.Option.{option_map};
    ghost use Rattle.cc_io.specs.Outside.{MemFilesState, named_files};

    ghost Value = { MemFilesState };

    ghost view = { λ s. record {
      files = named_files s.map;
      fails = s.calls.fails.items;
      calls = s.calls.made;
      faults = s.calls.faults;
      last = option_map string_bytes s.last;
    } };
}

impl MemFiles {
    /// Keeps what it is given: the files by their names, and the numbers of the calls that fail, counted
    /// from 1. The allocator is for the name in the last call that failed.
    pub fn new(alloc: Global, map: BTreeMap<String, Vec<u8>>, fails: Vec<u64>) -> MemFiles
        ensures { result ≡ record {
          files = named_files map;
          fails = fails.items;
          calls = 0;
          faults = 0;
          last = None;
        } }
    {
        MemFiles {
            alloc,
            map,
            calls: Calls::new(fails),
            last: None,
        }
    }
}

impl Files for MemFiles {
    ghost holds = { λ s. file_of s.files };

    ghost faults = { λ s. s.faults };

    ghost last = { λ s. s.last };

    fn read_file(&mut self, name: &str, limit: u64, into: &mut Vec<u8>) -> Result<(), FileFault>
        requires { into.old.items ≡ [] }
        ensures whole { OnOk result (IfSome (file_of self.old.files name.now)
            (λ bytes. into.new.items ≡ bytes)) }
        ensures within_limit { OnOk result (vec_len into.new ≤ limit) }
        ensures too_large { IsErrOf result FileFault.TooLarge → IfSome
            (file_of self.old.files name.now) (λ bytes. limit < length bytes) }
        ensures emptied { OnErr result (into.new.items ≡ []) }
        ensures failed { IsErrOf result FileFault.Failed → Rose self.old.faults self.new.faults }
        ensures last { self.new.last ≡ last_after result name.now self.old.last }
        ensures never_falls { self.old.faults ≤ self.new.faults }
        ensures in_range { self.new.faults ≤ greatest_count }

        // Where there is memory, it fails at the listed calls and at unknown names alone.
        ensures fails_exactly { result ≢ Err FileFault.NoMemory →
            (IsErrOf result FileFault.Failed ↔
            (Contains self.old.fails (counted_up self.old.calls)
            ⊎ IsNone (file_of self.old.files name.now))) }

        ensures call { self.new.calls ≡ counted_up self.old.calls }
        ensures fault { self.new.faults ≡ faults_after result self.old.faults }
        ensures same_files { self.new.files ≡ self.old.files }
        ensures same_fails { self.new.fails ≡ self.old.fails }
    {
        let fails = self.calls.begin();
        let Ok(asked) = String::from_str(self.alloc, name) else {
            return Err(FileFault::NoMemory);
        };
        if fails {
            self.calls.fault();
            self.last = Some(asked);
            return Err(FileFault::Failed);
        }
        let Some(bytes) = find(&self.map, name) else {
            self.calls.fault();
            self.last = Some(asked);
            return Err(FileFault::Failed);
        };
        copy_whole(bytes, limit, into)
    }
}

/// Puts the bytes of a file into `into`, which is empty, where they are at most `limit`.
pub(crate) fn copy_whole(bytes: &[u8], limit: u64, into: &mut Vec<u8>) -> Result<(), FileFault>
    requires { into.old.items ≡ [] }
    ensures whole { OnOk result (into.new.items ≡ bytes.now) }
    ensures within_limit { OnOk result (length bytes.now ≤ limit) }
    ensures emptied { OnErr result (into.new.items ≡ []) }
    ensures too_large { IsErrOf result FileFault.TooLarge ↔ (limit < length bytes.now) }
    ensures not_failed { result ≢ Err FileFault.Failed }
{
    if bytes.len() as u64 > limit {
        return Err(FileFault::TooLarge);
    }
    if into.extend_from_slice(bytes).is_err() {
        return Err(FileFault::NoMemory);
    }
    Ok(())
}

/// The bytes of the file of a name, if there is one.
pub(crate) fn find<'a>(map: &'a BTreeMap<String, Vec<u8>>, name: &str) -> Option<&'a [u8]>
    ensures { option_copied result ≡ file_of (named_files map.now) name.now }
{
    match map.get(name) {
        Some(bytes) => Some(bytes.as_slice()),
        None => None,
    }
}

#[cfg(test)]
mod tests {
    use super::*;
    use crate::testing::load;
    use std::test::Fail;

    #[test]
    fn reads_a_file_up_to_the_limit_and_fails_at_the_fourth_call(
        rt: HostRuntime,
    ) -> Result<(), Fail> {
        let alloc = rt.alloc();
        let mut map = BTreeMap::new(alloc);
        map.insert(String::from_str(alloc, "four")?, b"1234".to_vec(alloc)?)?;
        map.insert(String::from_str(alloc, "five")?, b"12345".to_vec(alloc)?)?;
        let mut files = MemFiles::new(alloc, map, [4].to_vec(alloc)?);
        let four = b"1234".to_vec(alloc)?;
        assert_eq!(rt; load(&mut files, alloc, "four", 4), Ok(four));
        assert_eq!(rt;
            load(&mut files, alloc, "five", 4),
            Err(FileFault::TooLarge)
        );
        assert_eq!(rt; load(&mut files, alloc, "six", 4), Err(FileFault::Failed));
        assert_eq!(rt; load(&mut files, alloc, "four", 4), Err(FileFault::Failed));
        Ok(())
    }
}
