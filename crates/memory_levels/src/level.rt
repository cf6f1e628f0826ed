//! One level of a memory.

ghost use Rattle.std.specs.Prelude.{◌≡◌, ◌<◌, length, false, true, slice_set, replicate, ◌++◌, IfOk};
ghost use Rattle.iolb_model.specs.Game.{marked, mark_count};

use std::alloc::{AllocError, Global};
use std::marker::Model;

/// Which words stand at a level, and how many.
#[derive(Debug, Drop)]
pub(crate) struct Level {
    marks: Vec<bool>,
    count: u64,
}

impl Model for Level {
    ghost use Rattle.std.specs.Prelude.{◌≡◌, List, Bool};
    ghost use Rattle.iolb_model.specs.Game.{mark_count};

    ghost Value = { List Bool };

    ghost view = { λ level. level.marks.items };

    ghost invariant = { λ level. level.count ≡ mark_count level.marks.items };
}

impl Level {
    /// A level where none of so many words stands, and behind them so many that do.
    pub(crate) fn new(alloc: Global, absent: u32, present: u32) -> Result<Level, AllocError>
        ensures { IfOk result (λ level. level ≡ replicate absent false ++ replicate present true) }
    {
        let mut marks = vec![in alloc; false; absent as usize]?;
        marks.resize(absent as usize + present as usize, true)?;
        Ok(Level {
            marks,
            count: u64::from(present),
        })
    }

    /// Whether a word stands there.
    pub(crate) fn has(&self, v: u32) -> bool
        requires { v < length self.now }
        ensures { result ≡ marked self.now v }
    {
        self.marks[v as usize]
    }

    /// How many do.
    pub(crate) fn count(&self) -> u64
        ensures { result ≡ mark_count self.now }
    {
        self.count
    }

    /// A word comes there, if it isn't there.
    pub(crate) fn put(&mut self, v: u32)
        requires { v < length self.old }
        ensures { self.new ≡ slice_set self.old v true }
    {
        if !self.marks[v as usize] {
            self.marks[v as usize] = true;
            self.count += 1;
        }
    }

    /// A word goes, if it is there.
    pub(crate) fn take(&mut self, v: u32)
        requires { v < length self.old }
        ensures { self.new ≡ slice_set self.old v false }
    {
        if self.marks[v as usize] {
            self.marks[v as usize] = false;
            self.count -= 1;
        }
    }
}
