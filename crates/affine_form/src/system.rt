//! Systems of affine rows.

ghost use Rattle.std.specs.Prelude.{◌≡◌, ◌≤◌, ◌<◌, [], ◌∷◌, ◌++◌, length, IfOk, OnOk, OnErr};
ghost use Rattle.affine_form.specs.Form.{variables};
ghost use Rattle.affine_form.specs.System.{AllOver};
ghost use Rattle.iolb_model.specs.declared.limits.TheConstants.{ROWS, VARIABLES};

use crate::form::Form;
use crate::memory::Memory;
use std::alloc::Global;
use std::marker::Model;

/// A system: at most 128 forms over the same variables, its rows, each to be at least 0.
#[derive(Debug, Drop)]
pub struct System {
    vars: usize,
    rows: Vec<Form>,
}

impl Model for System {
    ghost use Rattle.std.specs.Prelude.{◌≤◌, length};
    ghost use Rattle.affine_form.specs.System.{AffineSystem, AllOver};
    ghost use Rattle.iolb_model.specs.declared.limits.TheConstants.{ROWS, VARIABLES};

    ghost Value = { AffineSystem };

    ghost view = { λ system. record { vars = system.vars; rows = system.rows.items } };

    ghost invariant = { λ system. (system.vars ≤ VARIABLES) × (length system.rows.items ≤ ROWS)
        × AllOver system.vars system.rows.items };
}

impl System {
    /// The system over so many variables, at most 24, without rows.
    pub fn new(alloc: Global, vars: usize) -> System
        requires { vars ≤ VARIABLES }
        ensures { result ≡ record { vars = vars; rows = [] } }
    {
        System {
            vars,
            rows: Vec::new(alloc),
        }
    }

    /// How many variables the rows have.
    pub fn vars(&self) -> usize
        ensures vars { result ≡ self.now.vars }
        ensures few { self.now.vars ≤ VARIABLES }
        ensures over { AllOver self.now.vars self.now.rows }
    {
        self.vars
    }

    /// The rows, at most 128, each over the system's variables.
    pub fn rows(&self) -> &[Form]
        ensures rows { result.now ≡ self.now.rows }
        ensures few { length self.now.rows ≤ ROWS }
        ensures over { AllOver self.now.vars self.now.rows }
    {
        self.rows.as_slice()
    }

    /// Puts a row at the end. Want of memory leaves the system as it was.
    pub fn push(&mut self, row: Form) -> Result<(), Memory>
        requires over { variables row ≡ self.old.vars }
        requires room { length self.old.rows < ROWS }
        ensures ok { OnOk result (self.new ≡ record self.old { rows = self.old.rows ++ row ∷ [] }) }
        ensures err { OnErr result (self.new ≡ self.old) }
    {
        self.rows.push(row)?;
        Ok(())
    }

    /// A copy of the system.
    pub fn try_clone(&self, alloc: Global) -> Result<System, Memory>
        ensures { IfOk result (λ system. system ≡ self.now) }
    {
        let mut rows = Vec::new(alloc);
        for row in &self.rows {
            rows.push(row.try_clone(alloc)?)?;
        }
        Ok(System {
            vars: self.vars,
            rows,
        })
    }
}
