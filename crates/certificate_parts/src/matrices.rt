//! Matrices.

ghost use Rattle.std.specs.Prelude.{◌≡◌, ◌*◌, ◌<◌, length, map, IfOk};
ghost use Rattle.std.specs.List.{AllByRecursion};
ghost use Rattle.iolb_model.specs.declared.limits.TheConstants.{NUMBER_SIZE};
ghost use Rattle.affine_form.specs.Form.{IsSmall};
ghost use Rattle.affine_form.specs.Matrix.{IntegerMatrix};
ghost use Rattle.json_values.specs.View.{json_data};
ghost use Rattle.serde_json.specs.View.{view};
ghost use Rattle.json_parts.specs.Json.{each, reads_integer};
ghost use Rattle.json_parts.specs.Outcome.{Gives};
ghost use Rattle.json_parts.specs.Related.{same_link};
ghost use Rattle.json_parts.specs.Written.{list};
ghost use Rattle.certificate_parts.specs.Matrices.{reads_row, columns_of as first_count, all_entries, rows_of, row_data, matrix_shape, IsRow, row_items};

use affine_form::{Matrix, Memory};
use claims::Step;
use iolb_model::limits;
use json_parts::{CertError, Part, elements, fault, integer, short_list, under};
use json_values::Json;
use serde_json::Value;
use std::alloc::Global;

/// The entries of a row.
fn entries(alloc: Global, values: &[Json]) -> Result<Vec<i32>, CertError>
    ensures read { Gives (λ entries. entries.items) result (each (reads_integer NUMBER_SIZE) 0 (map json_data values.now)) }
    ensures small { IfOk result (λ entries. AllByRecursion (IsSmall NUMBER_SIZE) entries.items) }
    ensures all { IfOk result (λ entries. length entries.items ≡ length values.now) }
{
    let mut entries = Vec::new(alloc);
    for (i, value) in values.iter().enumerate() {
        match integer(alloc, value, limits::NUMBER_SIZE) {
            Ok(entry) => entries.push(entry as i32)?,
            Err(error) => return Err(under(alloc, Step::Index(i as u64), error)),
        }
    }
    Ok(entries)
}

/// A row of so many columns.
#[tactic(auto, unfolding(crate::specs::Matrices::reads_row))]
fn row(alloc: Global, value: &Json, columns: usize) -> Result<Vec<i32>, CertError>
    ensures read { Gives row_items result (reads_row columns (json_data value.now)) }
    ensures shape { IfOk result (IsRow columns) }
{
    let values = short_list(alloc, value, 6)?;
    let entries = entries(alloc, values)?;
    if entries.len() == columns {
        Ok(entries)
    } else {
        Err(fault(alloc, 2))
    }
}

/// The rows of a matrix of so many columns.
fn rows(alloc: Global, values: &[Json], columns: usize) -> Result<Vec<Vec<i32>>, CertError>
    ensures read { Gives (λ rows. map row_items rows.items) result (each (reads_row columns) 0 (map json_data values.now)) }
    ensures shape { IfOk result (λ rows. AllByRecursion (IsRow columns) rows.items) }
{
    let mut rows = Vec::new(alloc);
    for (i, value) in values.iter().enumerate() {
        match row(alloc, value, columns) {
            Ok(row) => rows.push(row)?,
            Err(error) => return Err(under(alloc, Step::Index(i as u64), error)),
        }
    }
    Ok(rows)
}

/// The entries of rows, one after the other.
fn joined(alloc: Global, rows: &[Vec<i32>]) -> Result<Vec<i32>, Memory>
    ensures { IfOk result (λ cells. cells.items ≡ all_entries (map row_items rows.now)) }
{
    let mut cells = Vec::new(alloc);
    for row in rows {
        cells.extend_from_slice(row.as_slice())?;
    }
    Ok(cells)
}

/// How many members the first array has.
fn columns_of(values: &[Json]) -> usize
    ensures { result ≡ first_count (map json_data values.now) }
{
    if values.is_empty() {
        return 0;
    }
    match elements(&values[0]) {
        Some(members) => members.len(),
        None => 0,
    }
}

/// A row of a matrix.
fn write_row(alloc: Global, entries: &[i32]) -> Result<Value, Memory>
    ensures { IfOk result (λ value. view value ≡ row_data entries.now) }
{
    let mut items = Vec::new(alloc);
    for entry in entries {
        items.push(Value::from(*entry))?;
    }
    Ok(Value::Array(items))
}

/// So many rows of this length.
fn write_rows(alloc: Global, count: usize, columns: usize, cells: &[i32]) -> Result<Value, Memory>
    requires { length cells.now ≡ count * columns }
    ensures { IfOk result (λ value. view value ≡ list (map row_data (rows_of count columns cells.now))) }
{
    let mut items = Vec::new(alloc);
    let mut rest = cells;
    for _ in 0..count {
        let (first, more) = rest.split_at(columns);
        items.push(write_row(alloc, first)?)?;
        rest = more;
    }
    Ok(Value::Array(items))
}

/// A matrix: at most six rows of as many columns.
pub struct OfMatrix {}

impl Part for OfMatrix {
    type Value = Matrix;

    ghost Said = { IntegerMatrix };

    ghost shape = { matrix_shape };

    ghost link = { same_link };

    ghost Fits = { λ _. Unit {0} };

    #[tactic(auto, unfolding(crate::specs::Matrices::reads_matrix))]
    fn read(alloc: Global, value: &Json) -> Result<Matrix, CertError> {
        let values = short_list(alloc, value, 6)?;
        let columns = columns_of(values);
        let rows = rows(alloc, values, columns)?;
        let cells = joined(alloc, rows.as_slice())?;
        Ok(Matrix::new(rows.len(), columns, cells))
    }

    fn write(alloc: Global, part: &Matrix) -> Result<Value, Memory> {
        let cells = part.cells();
        let value = write_rows(alloc, part.rows(), part.cols(), cells)?;
        Ok(value)
    }
}
