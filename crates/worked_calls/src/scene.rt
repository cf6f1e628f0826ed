//! What a script has made and arranged.

use iolb_host::Files;
use std::alloc::{AllocError, Global};
use std::collections::BTreeMap;

/// The most bytes that are read from a file of the folder.
const MOST: u64 = 1 << 27;

/// The read of a file, or the write to the output or the standard error, that fails, by its number.
#[derive(Clone, Copy)]
pub(crate) enum Failing {
    Read(u32),
    Output(u32),
    Error(u32),
}

/// The files that a script made, and what it arranged for the next call: files as they are edited, the read or the write
/// that fails, the file that is cut after each of its bytes, how many lines of the output are printed, and the file that gets
/// the output; and the status of the last call.
#[derive(Drop)]
pub(crate) struct Scene {
    alloc: Global,
    made: BTreeMap<String, Vec<u8>>,
    edited: BTreeMap<String, Vec<u8>>,
    pub(crate) failing: Option<Failing>,
    pub(crate) cuts: Option<String>,
    pub(crate) last: Option<usize>,
    pub(crate) kept: Option<String>,
    pub(crate) status: u8,
}

impl Scene {
    /// Nothing made, and nothing arranged.
    pub(crate) fn new(alloc: Global) -> Self {
        Scene {
            alloc,
            made: BTreeMap::new(alloc),
            edited: BTreeMap::new(alloc),
            failing: None,
            cuts: None,
            last: None,
            kept: None,
            status: 0,
        }
    }

    /// Makes a file.
    pub(crate) fn make(&mut self, name: &str, bytes: Vec<u8>) -> Result<(), AllocError> {
        self.made.insert(name.to_string(self.alloc)?, bytes)?;
        Ok(())
    }

    /// Lets the next call have a file with other bytes.
    pub(crate) fn edit(&mut self, name: &str, bytes: Vec<u8>) -> Result<(), AllocError> {
        self.edited.insert(name.to_string(self.alloc)?, bytes)?;
        Ok(())
    }

    /// Makes the file that gets the output of a call, where one does.
    pub(crate) fn keep(&mut self, output: Vec<u8>) -> Result<(), AllocError> {
        match self.kept.take() {
            Some(name) => {
                self.made.insert(name, output)?;
                Ok(())
            }
            None => Ok(()),
        }
    }

    /// Lets what was arranged for a call go.
    pub(crate) fn clear(&mut self) {
        self.edited = BTreeMap::new(self.alloc);
        self.failing = None;
        self.cuts = None;
        self.last = None;
        self.kept = None;
    }

    /// The bytes of a file, where there is one: as it is edited for the next call, as the script made it, or as it lies in
    /// the folder.
    pub(crate) fn content<F: Files>(
        &self,
        folder: &mut F,
        name: &str,
    ) -> Result<Option<Vec<u8>>, AllocError> {
        if let Some(bytes) = self.edited.get(name) {
            return Ok(Some(Vec::from_slice(self.alloc, bytes)?));
        }
        if let Some(bytes) = self.made.get(name) {
            return Ok(Some(Vec::from_slice(self.alloc, bytes)?));
        }
        Ok(folder.read(name, MOST).ok())
    }

    /// The files that are there, of those that words name.
    pub(crate) fn files<F: Files>(
        &self,
        folder: &mut F,
        words: &[String],
    ) -> Result<BTreeMap<String, Vec<u8>>, AllocError> {
        let mut files = BTreeMap::new(self.alloc);
        for word in words {
            if let Some(bytes) = self.content(folder, word.as_str())? {
                files.insert(word.as_str().to_string(self.alloc)?, bytes)?;
            }
        }
        Ok(files)
    }
}
