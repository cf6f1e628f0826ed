//! Whether source trees are within their limits.

ghost use Rattle.std.specs.Prelude.{◌↔◌, IsTrue};
ghost use Rattle.std.specs.List.{AllByRecursion};
ghost use Rattle.dep_quast.specs.Tree.{tree_of};
ghost use Rattle.certificate_fit.specs.Limits.{IsNestedTree, IsSmallTree};

use crate::part_limits::{are_small, name_rows, names_rows};
use affine_program::is_small_form;
use dep_quast::{Quast, leaf_count};
use iolb_model::limits;

/// Whether at most so many tests of a tree are nested, and its forms and leaves are within their limits.
fn is_nested(quast: &Quast, left: u8) -> bool
    ensures { IsTrue result ↔ IsNestedTree left (tree_of quast.now) }
{
    match quast {
        Quast::Test { form, yes, no } => {
            left > 0 && is_small_form(form) && is_nested(yes, left - 1) && is_nested(no, left - 1)
        }
        Quast::Source {
            point,
            domain,
            cell,
            before,
            between,
            ..
        } => {
            are_small(point.as_slice())
                && name_rows(domain.as_slice())
                && name_rows(cell.as_slice())
                && name_rows(before.as_slice())
                && name_rows(between.as_slice())
        }
        Quast::Input { earlier } => name_rows(earlier.as_slice()),
        Quast::Empty { shown } => names_rows(shown),
        Quast::Blank => true,
    }
}

/// Whether a tree is within its limits.
fn is_small_tree(quast: &Quast) -> bool
    ensures { IsTrue result ↔ IsSmallTree (tree_of quast.now) }
{
    is_nested(quast, limits::TREE_TESTS) && leaf_count(quast) <= limits::TREE_LEAVES
}

/// Whether the trees of a statement's reads are within their limits.
fn are_small_trees(row: &[Quast]) -> bool
    ensures { IsTrue result ↔ AllByRecursion (λ quast. IsSmallTree (tree_of quast)) row.now }
{
    for quast in row {
        if !is_small_tree(quast) {
            return false;
        }
    }
    true
}

/// Whether the trees of all statements' reads are within their limits.
pub fn rows_are_small(rows: &[Vec<Quast>]) -> bool
    ensures { IsTrue result ↔ AllByRecursion (λ row. AllByRecursion (λ quast. IsSmallTree (tree_of quast)) row.items) rows.now }
{
    for row in rows {
        if !are_small_trees(row.as_slice()) {
            return false;
        }
    }
    true
}
