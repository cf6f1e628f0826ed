//! Whether the matrix of coordinates has the inverse that stands beside it.
#![tactic(auto, using(claims::proofs::Found::in_a_row))]

ghost use Rattle.std.specs.Prelude.{◌≡◌, ◌<◌, ◌++◌, ◌∷◌, [], ◌+◌, length, IfOk, IsTrue, ◌↔◌, codes};
ghost use Rattle.execution_laws.specs.Inverse.{product_entry, scaled_entry};
ghost use Rattle.reuse_paths.specs.MatrixRows.{matrix_rows};
ghost use Rattle.claims.specs.Claims.{Decides, counted};
ghost use Rattle.claims.specs.declared.place.Step.TheVariants.{Index, Key};
ghost use Rattle.k_partition.specs.PartitionClaims.{unit_claim, unit_claims};
ghost use Rattle.k_partition.specs.View.{partition_of, FitsMatrices};
ghost use Rattle.iolb_model.specs.declared.limits.TheConstants.{NUMBER_SIZE};

use crate::term::Partition;
use affine_form::{Matrix, Memory, add_entry};
use claims::{ObjectKey, Place, Refused, Step, refusal};
use std::alloc::Global;

/// Whether the product of the inverse with the matrix is 1 on the diagonal and else 0.
pub(crate) fn unit_shown(alloc: Global, term: &Partition, place: &Place) -> Result<(), Refused>
    requires { FitsMatrices term.now }
    ensures { Decides (unit_claims place.now (partition_of term.now)) result }
{
    for row in 0..term.nest.bounds().len() {
        row_shown(alloc, term, row, place)?;
    }
    Ok(())
}

/// Whether a row of the product is so.
fn row_shown(alloc: Global, term: &Partition, row: usize, place: &Place) -> Result<(), Refused>
    requires fits { FitsMatrices term.now }
    requires there { row < length term.now.nest }
    ensures { Decides (counted (unit_claim place.now (partition_of term.now) row) 0 (length term.now.nest)) result }
{
    for col in 0..term.nest.bounds().len() {
        if !is_unit_entry(term, row, col) {
            let entry = entry_place(alloc, place, row, col)?;
            return Err(refusal(alloc, 16, &entry));
        }
    }
    Ok(())
}

/// Whether an entry of the product is 1 on the diagonal and else 0.
fn is_unit_entry(term: &Partition, row: usize, col: usize) -> bool
    requires fits { FitsMatrices term.now }
    requires row_in { row < length term.now.nest }
    requires col_in { col < length term.now.nest }
    ensures { IsTrue result ↔ (product_entry (matrix_rows term.now.inverse) (matrix_rows term.now.matrix) row col ≡ scaled_entry 1 row col) }
{
    let identity = if row == col { 1 } else { 0 };
    product_entry(&term.inverse, &term.matrix, row, col) == identity
}

/// An entry of the product of two square matrices of one size.
fn product_entry(first: &Matrix, second: &Matrix, row: usize, col: usize) -> i128
    requires row_in { row < first.now.rows }
    requires col_in { col < second.now.columns }
    requires one_size { first.now.columns ≡ second.now.rows }
    ensures { result ≡ product_entry (matrix_rows first.now) (matrix_rows second.now) row col }
{
    let _first = first.cells();
    let _second = second.cells();
    let mut sum = 0;
    for k in 0..first.cols() {
        sum = add_entry(sum, first.entry(row, k), i128::from(second.entry(k, col)));
    }
    sum
}

/// The place of an entry of the product.
fn entry_place(alloc: Global, place: &Place, row: usize, col: usize) -> Result<Place, Memory>
    ensures { IfOk result (λ entry. entry ≡ place.now ++ Key (codes "inverse") ∷ Index row ∷ Index col ∷ []) }
{
    let inverse = place.within(alloc, Step::Key(ObjectKey("inverse")))?;
    let row = inverse.within(alloc, Step::Index(row as u64))?;
    row.within(alloc, Step::Index(col as u64))
}
