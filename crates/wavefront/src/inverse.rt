//! Whether a matrix undoes the order of subscripts.

ghost use Rattle.std.specs.Prelude.{◌≡◌, ◌≢◌, ◌+◌, ◌*◌, ◌<◌, ◌≤◌, length, take, drop, IfSome, IfNone};
ghost use Rattle.std.specs.List.{AllByRecursion};
ghost use Rattle.iolb_model.specs.Form.{dot};
ghost use Rattle.execution_laws.specs.Inverse.{scaled_entry, IsScaledInverse, IsFirstDifference};
ghost use Rattle.affine_form.specs.Form.{IsSmall};
ghost use Rattle.wavefront.specs.Inverse.{coefficients_past};
ghost use Rattle.reuse_paths.specs.MatrixRows.{matrix_rows};
ghost use Rattle.wavefront.specs.Columns.{coefficients_at, AgreesBelow};
ghost use Rattle.iolb_model.specs.declared.limits.TheConstants.{NUMBER_SIZE, VARIABLES, NEST_VARIABLES};

use affine_form::{Form, Matrix, add_entry};

/// The first entry, by rows, in which a matrix times the forms' coefficients past so many, of so many columns, isn't
/// `scale` times the identity: its row and its column.
pub fn first_difference(
    matrix: &Matrix,
    forms: &[Form],
    parameters: usize,
    scale: u32,
    size: usize,
) -> Option<(usize, usize)>
    requires few { parameters + size ≤ VARIABLES }
    requires rows { matrix.now.rows ≡ size }
    requires columns { (1 ≤ matrix.now.rows) → matrix.now.columns ≡ length forms.now }
    ensures none { IfNone result (IsScaledInverse scale size (matrix_rows matrix.now) (coefficients_past parameters forms.now)) }
    ensures some { IfSome result (λ place. IsFirstDifference scale size (matrix_rows matrix.now) (coefficients_past parameters forms.now) place.0 place.1) }
{
    for row in 0..matrix.rows() {
        let entries = entries_of(matrix, row);
        if let Some(col) = first_in_row(entries, forms, parameters, scale, row, size) {
            return Some((row, col));
        }
    }
    None
}

/// The entries of a row of the matrix.
fn entries_of(matrix: &Matrix, row: usize) -> &[i32]
    requires { row < matrix.now.rows }
    ensures entries { result.now ≡ take matrix.now.columns (drop (row * matrix.now.columns) matrix.now.cells) }
    ensures len { length result.now ≡ matrix.now.columns }
    ensures few { length result.now ≤ NEST_VARIABLES }
    ensures small { AllByRecursion (IsSmall NUMBER_SIZE) result.now }
{
    let size = matrix.cols();
    let start = row * size;
    &matrix.cells()[start..start + size]
}

/// The first column of so many in which a matrix's row of this number, times the coefficients of the forms past so
/// many, isn't the row of `scale` times the identity.
fn first_in_row(
    row: &[i32],
    forms: &[Form],
    parameters: usize,
    scale: u32,
    number: usize,
    size: usize,
) -> Option<usize>
    requires few { length row.now ≤ NEST_VARIABLES }
    requires few_columns { parameters + size ≤ VARIABLES }
    requires as_many { length row.now ≡ length forms.now }
    requires small { AllByRecursion (IsSmall NUMBER_SIZE) row.now }
    ensures none { IfNone result (AgreesBelow scale row.now forms.now parameters number size) }
    ensures inside { IfSome result (λ col. col < size) }
    ensures before { IfSome result (λ col. AgreesBelow scale row.now forms.now parameters number col) }
    ensures differs { IfSome result (λ col. dot row.now (coefficients_at (parameters + col) forms.now) ≢ scaled_entry scale number col) }
{
    for col in 0..size {
        let identity = if number == col { i128::from(scale) } else { 0 };
        if combination(row, forms, parameters + col) != identity {
            return Some(col);
        }
    }
    None
}

/// A row of a matrix times the forms' coefficients at this place.
fn combination(row: &[i32], forms: &[Form], place: usize) -> i128
    requires few { length row.now ≤ NEST_VARIABLES }
    requires as_many { length row.now ≡ length forms.now }
    requires small { AllByRecursion (IsSmall NUMBER_SIZE) row.now }
    ensures { result ≡ dot row.now (coefficients_at place forms.now) }
{
    let mut sum = 0;
    for (i, entry) in row.iter().enumerate() {
        sum = add_entry(sum, *entry, forms[i].coefficient(place));
    }
    sum
}
