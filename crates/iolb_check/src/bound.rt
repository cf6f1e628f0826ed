//! Bounds on loads.

ghost use Rattle.std.specs.Prelude.{◌≡◌, ◌<◌, length, map, Some, slice_get};
ghost use Rattle.std.specs.List.{AllByRecursion};
ghost use Rattle.iolb_check.specs.Bounds.{IsBound, IsTermValue, lists};

use affine_form::System;
use k_partition::PartitionBound;
use poly_tree::Poly;
use std::marker::Model;

/// The value of a term of a bound.
#[derive(Debug, Drop)]
pub enum Value {
    /// Of a cold term: how many input cells it names.
    Cold(Poly),
    /// Of a partition term: how many instances it has and how many are credited, and the numbers of its stretches.
    Partition(PartitionBound),
    /// Of a wavefront term: how many words it names, and for how many vertices.
    Wavefront { pairs: Poly, outer: Poly },
    /// Of a joint term: how many images it has and how many instances are credited, and the numbers of its stretches.
    Joint(PartitionBound),
}

/// A bound on the loads of a program: the assumptions about its parameters, and branches, each with its terms' values.
/// The value of a branch is the sum of its terms' values, and that of a bound the greatest of its branches. The checker
/// alone makes bounds; their polynomials use only the program's parameters, and at all parameter values that meet the
/// assumptions their values are whole numbers of at least 0.
#[derive(Debug, Drop)]
pub struct Bound {
    assumed: System,
    branches: Vec<Vec<Value>>,
}

impl Model for Bound {
    ghost use Rattle.std.specs.Prelude.{List, map};
    ghost use Rattle.std.specs.Coded.{codes};
    ghost use Rattle.poly_tree.specs.Stored.{quotient_code};
    ghost use Rattle.iolb_check.specs.Bounds.{BoundParts, IsBound};

    ghost Value = { BoundParts };

    ghost coded = { Prim.hlevel (codes, quotient_code) };

    ghost view = { λ bound. record { assumed = bound.assumed; branches = map (λ terms. terms.items) bound.branches.items } };

    ghost invariant = { λ bound. IsBound (record { assumed = bound.assumed; branches = map (λ terms. terms.items) bound.branches.items }) };
}

impl Bound {
    pub(crate) fn new(assumed: System, branches: Vec<Vec<Value>>) -> Bound
        requires { IsBound (record { assumed = assumed; branches = map (λ terms. terms.items) branches.items }) }
        ensures { result ≡ record { assumed = assumed; branches = map (λ terms. terms.items) branches.items } }
    {
        Bound { assumed, branches }
    }

    /// The assumptions, each a form of the parameters that is at least 0.
    pub fn assumed(&self) -> &System
        ensures assumed { result.now ≡ self.now.assumed }
        ensures legal { IsBound self.now }
    {
        &self.assumed
    }

    /// The values of each branch's terms.
    pub fn branch_lists(&self) -> &[Vec<Value>]
        ensures branches { lists result.now ≡ self.now.branches }
        ensures legal { IsBound self.now }
    {
        self.branches.as_slice()
    }

    /// How many branches there are.
    pub fn branches(&self) -> usize
        ensures { result ≡ length self.now.branches }
    {
        self.branches.len()
    }

    /// The values of a branch's terms, in order.
    pub fn terms(&self, branch: usize) -> &[Value]
        requires { branch < length self.now.branches }
        ensures terms { slice_get self.now.branches branch ≡ Some result.now }
        ensures legal { AllByRecursion (IsTermValue self.now.assumed) result.now }
    {
        self.branches[branch].as_slice()
    }
}
