//! A matrix and its inverse, both of whole numbers.

ghost use Rattle.std.specs.Prelude.{◌≡◌, ◌≢◌, ◌<◌, ◌↔◌, IsOk, IfOk, IfErr, IfNone, IfSome};
ghost use Rattle.affine_form.specs.UniPair.{AgreesBelow, IsInverse, IsFirstDifference, IsSquare, product_entry, identity_entry};

use crate::matrix::Matrix;
use crate::wide::add_product;
use std::marker::Model;

/// A matrix and its inverse, both of whole numbers: `inverse * matrix` is the identity.
#[derive(Debug, Drop)]
pub struct UniPair {
    matrix: Matrix,
    inverse: Matrix,
}

impl Model for UniPair {
    ghost use Rattle.affine_form.specs.UniPair.{InversePair, IsInverse};

    ghost Value = { InversePair };

    ghost view = { λ pair. record { matrix = pair.matrix; inverse = pair.inverse } };

    ghost invariant = { λ pair. IsInverse pair.inverse pair.matrix };
}

/// The first entry by rows at which a product of matrices isn't the identity's.
#[derive(Clone, Copy, Debug, PartialEq, Eq)]
pub struct NotInverse {
    /// The entry's row, from 0.
    pub row: u8,
    /// The entry's column, from 0.
    pub col: u8,
}

impl UniPair {
    /// The pair of a square matrix and its inverse, of the same size.
    ///
    /// # Errors
    ///
    /// `NotInverse` exactly where `inverse * matrix` isn't the identity, with the first entry that differs.
    pub fn of(matrix: Matrix, inverse: Matrix) -> Result<UniPair, NotInverse>
        requires square { IsSquare matrix.rows matrix }
        requires same_size { IsSquare matrix.rows inverse }
        ensures ok { IfOk result (λ pair. pair ≡ record { matrix = matrix; inverse = inverse }) }
        ensures exact { IsOk result ↔ IsInverse inverse matrix }
        ensures first { IfErr result (λ e. IsFirstDifference inverse matrix e.row e.col) }
    {
        for row in 0..inverse.rows() {
            if let Some(col) = first_difference(&inverse, &matrix, row) {
                return Err(NotInverse {
                    row: row as u8,
                    col: col as u8,
                });
            }
        }
        Ok(UniPair { matrix, inverse })
    }

    /// The matrix.
    pub fn matrix(&self) -> &Matrix
        ensures matrix { result.now ≡ self.now.matrix }
        ensures inverse { IsInverse self.now.inverse self.now.matrix }
    {
        &self.matrix
    }

    /// The inverse.
    pub fn inverse(&self) -> &Matrix
        ensures matrix { result.now ≡ self.now.inverse }
        ensures inverse { IsInverse self.now.inverse self.now.matrix }
    {
        &self.inverse
    }
}

/// The first column in which the row of the product isn't the identity's.
fn first_difference(left: &Matrix, right: &Matrix, row: usize) -> Option<usize>
    requires row_in { row < left.now.rows }
    requires inner { left.now.columns ≡ right.now.rows }
    ensures none { IfNone result (AgreesBelow left.now right.now row right.now.columns) }
    ensures inside { IfSome result (λ col. col < right.now.columns) }
    ensures before { IfSome result (λ col. AgreesBelow left.now right.now row col) }
    ensures differs { IfSome result (λ col. product_entry left.now right.now row col ≢ identity_entry row col) }
{
    for col in 0..right.cols() {
        if product(left, right, row, col) != i128::from(row == col) {
            return Some(col);
        }
    }
    None
}

/// The entry of the product of two matrices.
fn product(left: &Matrix, right: &Matrix, row: usize, col: usize) -> i128
    requires row_in { row < left.now.rows }
    requires col_in { col < right.now.columns }
    requires inner { left.now.columns ≡ right.now.rows }
    ensures { result ≡ product_entry left.now right.now row col }
{
    let mut sum = 0;
    for k in 0..left.cols() {
        sum = add_product(
            sum,
            i128::from(left.entry(row, k)),
            i128::from(right.entry(k, col)),
        );
    }
    sum
}
