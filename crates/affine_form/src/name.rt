//! Names of variables.

ghost use Rattle.std.specs.Prelude.{◌≡◌, ◌≤◌, length, IfOk};
ghost use Rattle.iolb_model.specs.declared.limits.TheConstants.{NAME_BYTES};

use crate::memory::Memory;
use std::alloc::Global;
use std::marker::Model;

/// The name of a variable: 1 to 64 bytes.
#[derive(Debug, Drop)]
pub struct Name {
    bytes: Vec<u8>,
}

impl Model for Name {
    ghost use Rattle.std.specs.Prelude.{ℕ, List, length, ◌≤◌};
    ghost use Rattle.iolb_model.specs.declared.limits.TheConstants.{NAME_BYTES};

    ghost Value = { List ℕ };

    ghost view = { λ name. name.bytes.items };

    ghost invariant = { λ name. (1 ≤ length name.bytes.items) × (length name.bytes.items ≤ NAME_BYTES) };
}

impl Name {
    /// The name with these bytes.
    pub fn new(bytes: Vec<u8>) -> Name
        requires some { 1 ≤ length bytes.items }
        requires few { length bytes.items ≤ NAME_BYTES }
        ensures { result ≡ bytes.items }
    {
        Name { bytes }
    }

    /// The bytes, 1 to 64 of them.
    pub fn bytes(&self) -> &[u8]
        ensures bytes { result.now ≡ self.now }
        ensures some { 1 ≤ length self.now }
        ensures few { length self.now ≤ NAME_BYTES }
    {
        self.bytes.as_slice()
    }

    /// A copy of the name.
    pub fn try_clone(&self, alloc: Global) -> Result<Name, Memory>
        ensures { IfOk result (λ name. name ≡ self.now) }
    {
        let bytes = Vec::from_slice(alloc, self.bytes.as_slice())?;
        Ok(Name { bytes })
    }
}
