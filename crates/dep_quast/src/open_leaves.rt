//! The leaves of a source tree to which points may come.

ghost use Rattle.std.specs.Prelude.{◌≡◌, ◌≤◌, ◌++◌, ◌∷◌, [], length, OnOk, IfOk};
ghost use Rattle.std.specs.List.{AllByRecursion};
ghost use Rattle.affine_form.specs.Form.{variables, IsSmallForm};
ghost use Rattle.affine_form.specs.Rows.{IsSmallOver};
ghost use Rattle.dep_quast.specs.Context.{no_row};
ghost use Rattle.dep_quast.specs.Tree.{tree_of};
ghost use Rattle.dep_quast.specs.OpenLeaves.{open_leaves, is_input, origin_of, TestsFit};
ghost use Rattle.iolb_model.specs.declared.limits.TheConstants.{PUT_SIZE, VARIABLES};

use crate::Quast;
use affine_form::{Form, Memory, difference, put, widened};
use claims::lists::{followed_by, with_form};
use std::alloc::Global;
use std::marker::Model;

/// Where a leaf says that a word comes from.
#[derive(Debug, Drop)]
pub enum Origin {
    /// The instance of this statement with these loop values, as forms over the parameters and the reader's loop values.
    Written { statement: u16, point: Vec<Form> },
    /// No instance wrote it before.
    Input,
    /// The leaf doesn't say.
    Unknown,
}

/// A leaf to which points may come: the tests on the way to it, at the reading instance, and where the word comes from.
#[derive(Debug, Drop)]
pub struct OpenLeaf {
    pub tests: Vec<Form>,
    pub origin: Origin,
}

impl Model for OpenLeaf {
    ghost use Rattle.dep_quast.specs.OpenLeaves.{OpenLeaf, origin_of};

    ghost Value = { OpenLeaf };

    ghost view = { λ leaf. record { tests = leaf.tests.items; origin = origin_of leaf.origin } };
}

impl OpenLeaf {
    /// Whether the leaf says that no instance wrote the word before.
    pub fn is_input(&self) -> bool
        ensures { result ≡ is_input self.now.origin }
    {
        matches!(self.origin, Origin::Input)
    }
}

/// The leaves of a tree that aren't empty, `yes` before `no`, appended; the tests are at a point, which has a form over so
/// many variables for each parameter and each loop value of the reader.
///
/// # Errors
///
/// Want of memory alone.
pub fn push_open_leaves(
    alloc: Global,
    leaves: &mut Vec<OpenLeaf>,
    vars: usize,
    point: &[Form],
    tests: &[Form],
    quast: &Quast,
) -> Result<(), Memory>
    requires few { vars ≤ VARIABLES }
    requires few_forms { length point.now ≤ VARIABLES }
    requires fit { TestsFit (length point.now) (tree_of quast.now) }
    requires point_over { AllByRecursion (IsSmallOver vars) point.now }
    ensures { OnOk result (leaves.new.items ≡ leaves.old.items ++ open_leaves vars point.now tests.now (tree_of quast.now)) }
{
    match quast {
        Quast::Test { form, yes, no } => {
            let at = put(alloc, vars, form, point)?;
            let above = with_form(alloc, tests, widened(alloc, vars, &at)?)?;
            push_open_leaves(alloc, leaves, vars, point, above.as_slice(), yes)?;
            let below = with_form(alloc, tests, opposite(alloc, vars, &at)?)?;
            push_open_leaves(alloc, leaves, vars, point, below.as_slice(), no)
        }
        Quast::Source {
            statement,
            point,
            ..
        } => {
            let point = followed_by(alloc, Vec::new(alloc), point.as_slice())?;
            let origin = Origin::Written {
                statement: *statement,
                point,
            };
            push_leaf(alloc, leaves, tests, origin)
        }
        Quast::Blank => push_leaf(alloc, leaves, tests, Origin::Unknown),
        Quast::Input { .. } => push_leaf(alloc, leaves, tests, Origin::Input),
        Quast::Empty { .. } => Ok(()),
    }
}

/// A leaf under these tests, appended.
fn push_leaf(
    alloc: Global,
    leaves: &mut Vec<OpenLeaf>,
    tests: &[Form],
    origin: Origin,
) -> Result<(), Memory>
    ensures { OnOk result (leaves.new.items ≡ leaves.old.items ++ record { tests = tests.now; origin = origin_of origin } ∷ []) }
{
    let tests = followed_by(alloc, Vec::new(alloc), tests)?;
    leaves.push(OpenLeaf { tests, origin })?;
    Ok(())
}

/// The row that a form is at most -1.
pub fn opposite(alloc: Global, vars: usize, form: &Form) -> Result<Form, Memory>
    requires few { vars ≤ VARIABLES }
    requires within { variables form.now ≤ vars }
    requires small { IsSmallForm PUT_SIZE form.now }
    ensures { IfOk result (λ row. row ≡ no_row vars form.now) }
{
    let zero = Form::new(Vec::new(alloc), 0);
    Ok(difference(alloc, vars, &zero, form, -1)?)
}
