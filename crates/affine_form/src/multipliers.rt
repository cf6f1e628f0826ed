//! Farkas multipliers.

ghost use Rattle.std.specs.Prelude.{◌≡◌, ◌≤◌, ◌<◌, IfOk};
ghost use Rattle.std.specs.List.{AllByRecursion};
ghost use Rattle.affine_form.specs.Multipliers.{IsWeight, RowsRise};
ghost use Rattle.iolb_model.specs.declared.limits.TheConstants.{MULTIPLIER_SIZE};

use crate::memory::Memory;
use std::alloc::Global;
use std::marker::Model;

/// Farkas multipliers: `c` times a goal is to be `m0` plus each named row times its multiplier. `c` is at least 1,
/// the rows rise, their multipliers are at least 1, and all are below 2^48.
#[derive(Debug, Drop)]
pub struct Multipliers {
    c: u64,
    m0: u64,
    m: Vec<(u8, u64)>,
}

impl Model for Multipliers {
    ghost use Rattle.std.specs.Prelude.{◌≤◌, ◌<◌};
    ghost use Rattle.std.specs.List.{AllByRecursion};
    ghost use Rattle.affine_form.specs.Multipliers.{FarkasMultipliers, IsWeight, RowsRise};
    ghost use Rattle.iolb_model.specs.declared.limits.TheConstants.{MULTIPLIER_SIZE};

    ghost Value = { FarkasMultipliers };

    ghost view = { λ shown. record { scale = shown.c; rest = shown.m0; weights = shown.m.items } };

    ghost invariant = { λ shown. (1 ≤ shown.c) × (shown.c < MULTIPLIER_SIZE) × (shown.m0 < MULTIPLIER_SIZE)
        × AllByRecursion IsWeight shown.m.items × RowsRise shown.m.items };
}

impl Multipliers {
    /// The multipliers with this scale, this number beside the rows, and these rows with a multiplier each.
    pub fn new(c: u64, m0: u64, m: Vec<(u8, u64)>) -> Multipliers
        requires some { 1 ≤ c }
        requires small_scale { c < MULTIPLIER_SIZE }
        requires small_rest { m0 < MULTIPLIER_SIZE }
        requires small { AllByRecursion IsWeight m.items }
        requires rising { RowsRise m.items }
        ensures { result ≡ record { scale = c; rest = m0; weights = m.items } }
    {
        Multipliers { c, m0, m }
    }

    /// What the goal is multiplied by.
    pub fn c(&self) -> u64
        ensures scale { result ≡ self.now.scale }
        ensures some { 1 ≤ self.now.scale }
        ensures small { self.now.scale < MULTIPLIER_SIZE }
    {
        self.c
    }

    /// The number beside the rows.
    pub fn m0(&self) -> u64
        ensures rest { result ≡ self.now.rest }
        ensures small { self.now.rest < MULTIPLIER_SIZE }
    {
        self.m0
    }

    /// The rows that are named, rising, each with its multiplier.
    pub fn m(&self) -> &[(u8, u64)]
        ensures weights { result.now ≡ self.now.weights }
        ensures small { AllByRecursion IsWeight self.now.weights }
        ensures rising { RowsRise self.now.weights }
    {
        self.m.as_slice()
    }

    /// A copy of the multipliers.
    pub fn try_clone(&self, alloc: Global) -> Result<Multipliers, Memory>
        ensures { IfOk result (λ shown. shown ≡ self.now) }
    {
        let m = Vec::from_slice(alloc, self.m.as_slice())?;
        Ok(Multipliers {
            c: self.c,
            m0: self.m0,
            m,
        })
    }
}
