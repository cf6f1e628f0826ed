//! Files in memory of which every read succeeds.
ghost use Rattle.std.specs.Prelude.{◌≡◌, ◌≤◌, [], Some, IfOk, IsErrOf, length};
ghost use Rattle.iolb_host.specs.Faults.{absences, after_read, failure_count};
ghost use Rattle.iolb_host.specs.Files.{content_of, Answers};
ghost use Rattle.iolb_host.specs.MemFiles.{files_of, SureStore};

use crate::fault_list::noted;
use crate::held::copy_of;
use crate::{FileFault, Files};
use std::alloc::Global;
use std::collections::BTreeMap;
use std::marker::Model;

/// Files in memory. A read fails only for want of memory.
#[derive(Drop)]
pub struct SureFiles {
    alloc: Global,
    files: BTreeMap<String, Vec<u8>>,
    faults: Vec<(String, FileFault)>,
}

impl Model for SureFiles {
    ghost use Rattle.iolb_host.specs.Faults.{faults_in};
    ghost use Rattle.iolb_host.specs.MemFiles.{files_of, SureStore};

    ghost Value = { SureStore };

    ghost view = { λ store. record {
      files = files_of store.files;
      faults = faults_in store.faults.items;
    } };
}

impl SureFiles {
    /// The files of this map, by their names. Reads take the memory for their copies, and for the names of their faults, from
    /// `alloc`.
    pub fn new(alloc: Global, files: BTreeMap<String, Vec<u8>>) -> Self
        ensures told { ⟦<SureFiles as Files>⟧.told result ≡ Some (files_of files) }
        ensures faults { ⟦<SureFiles as Files>⟧.faults result ≡ [] }
    {
        SureFiles {
            alloc,
            files,
            faults: Vec::new(alloc),
        }
    }
}

/// Whatever was read of them, such files tell no failure among their faults.
pub fn sure_files_never_fail()
    ensures { (store : SureStore) → failure_count (⟦<SureFiles as Files>⟧.faults store) ≡ 0 }
{}

impl Files for SureFiles {
    ghost told = { λ store. Some store.files };

    // Only those that are no failures: a read that fails could not tell its fault.
    ghost faults = { λ store. absences store.faults };

    fn read(&mut self, name: &str, most: u64) -> Result<Vec<u8>, FileFault>
        ensures told_stays { self.new.files ≡ self.old.files }
        ensures faults { absences self.new.faults ≡ after_read (absences self.old.faults) name.now result }
        ensures within { IfOk result (λ bytes. length bytes.items ≤ most) }
        ensures answers { Answers (content_of self.old.files name.now) most result }
        ensures never_fails { ¬ IsErrOf result FileFault.Failed }
    {
        let outcome = copy_of(self.alloc, &self.files, name, most);
        noted(self.alloc, &mut self.faults, name, outcome)
    }
}
