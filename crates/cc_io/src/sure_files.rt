//! Files in memory that can always be read.
ghost use Rattle.std.specs.Prelude.{◌≡◌, ◌≢◌, ◌<◌, ◌≤◌, ◌↔◌, [], length, OnOk, OnErr, IfSome, IsErrOf, vec_len, None, Some};
ghost use Rattle.cc_io.specs.Faults.{greatest_count, Rose, last_after};
ghost use Rattle.cc_io.specs.Outside.{named_files, sure_file_of};

use crate::faults::FileFault;
use crate::mem_files::{copy_whole, find};
use crate::traits::Files;
use std::collections::BTreeMap;
use std::marker::Model;

/// Files that a map holds by their names; each other name is that of an empty file. No call fails, and the count of
/// faults is 0.
#[derive(Drop)]
pub struct SureFiles {
    map: BTreeMap<String, Vec<u8>>,
}

impl Model for SureFiles {
    ghost use Rattle.cc_io.specs.Outside.{SureFilesState, named_files};

    ghost Value = { SureFilesState };

    ghost view = { λ s. record { files = named_files s.map } };
}

impl SureFiles {
    /// Keeps what it is given: the files by their names.
    pub fn new(map: BTreeMap<String, Vec<u8>>) -> SureFiles
        ensures { result ≡ record { files = named_files map } }
    {
        SureFiles { map }
    }
}

impl Files for SureFiles {
    ghost holds = { λ s name. Some (sure_file_of s.files name) };

    ghost faults = { λ _. 0 };

    ghost last = { λ _. None };

    fn read_file(&mut self, name: &str, limit: u64, into: &mut Vec<u8>) -> Result<(), FileFault>
        requires { into.old.items ≡ [] }
        ensures whole { OnOk result (into.new.items ≡ sure_file_of self.old.files name.now) }
        ensures within_limit { OnOk result (vec_len into.new ≤ limit) }
        ensures too_large { IsErrOf result FileFault.TooLarge ↔
            (limit < length (sure_file_of self.old.files name.now)) }
        ensures emptied { OnErr result (into.new.items ≡ []) }
        ensures failed { IsErrOf result FileFault.Failed → Rose 0 0 }
        ensures last { None ≡ last_after result name.now None }
        ensures never_falls { 0 ≤ 0 }
        ensures in_range { 0 ≤ greatest_count }

        // It never fails, but for want of memory.
        ensures sure { result ≢ Err FileFault.Failed }
        ensures same { self.new ≡ self.old }
    {
        match find(&self.map, name) {
            Some(bytes) => copy_whole(bytes, limit, into),
            None => Ok(()),
        }
    }
}

#[cfg(test)]
mod tests {
    use super::*;
    use crate::testing::load;
    use std::test::Fail;

    #[test]
    fn an_unknown_name_is_an_empty_file(rt: HostRuntime) -> Result<(), Fail> {
        let alloc = rt.alloc();
        let mut map = BTreeMap::new(alloc);
        map.insert(String::from_str(alloc, "four")?, b"1234".to_vec(alloc)?)?;
        let mut files = SureFiles::new(map);
        let four = b"1234".to_vec(alloc)?;
        assert_eq!(rt; load(&mut files, alloc, "four", 4), Ok(four));
        assert_eq!(rt;
            load(&mut files, alloc, "four", 3),
            Err(FileFault::TooLarge)
        );
        assert_eq!(rt; load(&mut files, alloc, "five", 0), Ok(Vec::new(alloc)));
        Ok(())
    }
}
