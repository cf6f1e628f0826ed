//! The names that were seen, numbered in the order of first sight.

ghost use Rattle.std.specs.Prelude.{◌≡◌, ◌∷◌, ◌++◌, [], ◌≤◌, length, position, bytes_eq, OnOk, IfErr};
ghost use Rattle.iolb_model.specs.declared.limits.TheConstants.{NAME_BYTES};

use crate::error::ReadError;
use affine_form::Name;
use std::alloc::Global;
use std::collections::BTreeMap;
use std::marker::Model;

/// Names, and the number of each by its bytes. The map is ordered: no choice of names makes it slow, as names against a known
/// hash would.
#[derive(Drop)]
pub(crate) struct Names<'a> {
    alloc: Global,
    list: Vec<Name>,
    numbers: BTreeMap<&'a [u8], usize>,
}

impl<'a> Model for Names<'a> {
    ghost use Rattle.std.specs.Prelude.{◌≡◌, ℕ, List, position, bytes_eq};
    ghost use Rattle.std.specs.Ordering.{nat_cmp};
    ghost use Rattle.std.specs.Cmp.Lexicographic.{slice_cmp};
    ghost use Rattle.std.specs.BTreeMap.{get_by};

    ghost Value = { List (List ℕ) };

    ghost view = { λ n. n.list.items };

    ghost invariant = { λ n. (name : List ℕ) → get_by (λ key. slice_cmp nat_cmp name key.now) n.numbers ≡ position (bytes_eq name) n.list.items };
}

impl<'a> Names<'a> {
    /// No names.
    pub fn new(alloc: Global) -> Names<'a>
        ensures { result ≡ [] }
    {
        Names {
            alloc,
            list: Vec::new(alloc),
            numbers: BTreeMap::new(alloc),
        }
    }

    /// How many names there are.
    pub fn len(&self) -> usize
        ensures { result ≡ length self.now }
    {
        self.list.len()
    }

    /// The number of a name among these.
    pub fn number_of(&self, name: &[u8]) -> Option<usize>
        ensures { result ≡ position (bytes_eq name.now) self.now }
    {
        self.numbers.get(name).copied()
    }

    /// One name more. One that was seen before keeps its first number.
    pub fn push(&mut self, name: &'a [u8]) -> Result<(), ReadError>
        requires some { 1 ≤ length name.now }
        requires few { length name.now ≤ NAME_BYTES }
        ensures added { OnOk result (self.new ≡ self.old ++ name.now ∷ []) }
        ensures memory { IfErr result (λ e. e ≡ ReadError.Memory) }
    {
        let owned = Name::new(Vec::from_slice(self.alloc, name)?);
        let at = self.list.len();
        let seen = self.number_of(name).is_some();
        self.list.push(owned)?;
        if seen {
            return Ok(());
        }
        if self.numbers.insert(name, at).is_err() {
            self.list.pop();
            return Err(ReadError::Memory);
        }
        Ok(())
    }

    /// The names alone.
    pub fn into_list(self) -> Vec<Name>
        ensures { result.items ≡ self.entry }
    {
        self.list
    }
}
