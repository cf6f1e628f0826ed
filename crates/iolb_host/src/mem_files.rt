//! Files in memory of which some reads fail.
ghost use Rattle.std.specs.Prelude.{◌≡◌, ◌≤◌, ◌⊎◌, ◌↔◌, [], Some, IfOk, IsErrOf, Contains, length};
ghost use Rattle.iolb_host.specs.Faults.{after_read};
ghost use Rattle.iolb_host.specs.Files.{content_of, Answers};
ghost use Rattle.iolb_host.specs.MemFiles.{files_of, after_call};

use crate::count::raise;
use crate::failing::is_listed;
use crate::fault_list::noted;
use crate::held::copy_of;
use crate::{FileFault, Files};
use std::alloc::Global;
use std::collections::BTreeMap;
use std::marker::Model;

/// Files in memory. The reads with the listed numbers fail, where the first read has the number 0.
#[derive(Drop)]
pub struct MemFiles {
    alloc: Global,
    files: BTreeMap<String, Vec<u8>>,
    failing: Vec<u32>,
    calls: u64,
    faults: Vec<(String, FileFault)>,
}

impl Model for MemFiles {
    ghost use Rattle.iolb_host.specs.Faults.{faults_in};
    ghost use Rattle.iolb_host.specs.MemFiles.{files_of, FailingStore};

    ghost Value = { FailingStore };

    ghost view = { λ store. record {
      files = files_of store.files;
      failing = store.failing.items;
      calls = store.calls;
      faults = faults_in store.faults.items;
    } };
}

impl MemFiles {
    /// The files of this map, by their names, and the numbers of the reads that fail. Reads take the memory for their
    /// copies, and for the names of their faults, from `alloc`.
    pub fn new(alloc: Global, files: BTreeMap<String, Vec<u8>>, failing: Vec<u32>) -> Self
        ensures told { ⟦<MemFiles as Files>⟧.told result ≡ Some (files_of files) }
        ensures faults { ⟦<MemFiles as Files>⟧.faults result ≡ [] }
        ensures failing { result.failing ≡ failing.items }
        ensures calls { result.calls ≡ 0 }
    {
        MemFiles {
            alloc,
            files,
            failing,
            calls: 0,
            faults: Vec::new(alloc),
        }
    }

    /// What the next read of the file of this name comes to.
    fn outcome(&self, name: &str, most: u64) -> Result<Vec<u8>, FileFault>
        ensures answers { Answers (content_of self.now.files name.now) most result }
        ensures failed { IsErrOf result FileFault.Failed ↔ Contains self.now.failing self.now.calls }
    {
        if is_listed(&self.failing, self.calls) {
            return Err(FileFault::Failed);
        }
        copy_of(self.alloc, &self.files, name, most)
    }
}

impl Files for MemFiles {
    ghost told = { λ store. Some store.files };

    ghost faults = { λ store. store.faults };

    fn read(&mut self, name: &str, most: u64) -> Result<Vec<u8>, FileFault>
        ensures told_stays { self.new.files ≡ self.old.files }
        ensures faults { self.new.faults ≡ after_read self.old.faults name.now result }
        ensures within { IfOk result (λ bytes. length bytes.items ≤ most) }
        ensures answers { Answers (content_of self.old.files name.now) most result }

        // It fails exactly at the listed reads, unless memory is wanted for the name, and nothing but the number of reads
        // and the faults changes.
        ensures failed { IsErrOf result FileFault.Failed → Contains self.old.failing self.old.calls }
        ensures listed { Contains self.old.failing self.old.calls →
            (IsErrOf result FileFault.Failed) ⊎ (IsErrOf result FileFault.Memory) }
        ensures counted { self.new ≡ after_call self.old name.now result }
    {
        let outcome = self.outcome(name, most);
        raise(&mut self.calls);
        noted(self.alloc, &mut self.faults, name, outcome)
    }
}
