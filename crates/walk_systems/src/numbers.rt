//! Numbers of a term beside those that are called for.

use crate::pieces::{cold_word, front_word};
use affine_form::{Form, Matrix, Memory};
use affine_program::Program;
use asked_systems::Sum;
use cover_lp::CoordSet;
use joint_partition::{Joint, Part};
use k_partition::Partition;
use plain_pages::Page;
use reuse_paths::Family;
use std::alloc::Global;
use wavefront::{Cold, Inverse, Wavefront};

/// The entry of a matrix in a row and a column; 0 for one that isn't there.
fn entry_of(matrix: &Matrix, row: usize, column: usize) -> i128 {
    let place = row.saturating_mul(matrix.cols()).saturating_add(column);
    match matrix.cells().get(place) {
        Some(entry) => i128::from(*entry),
        None => 0,
    }
}

/// Writes a number of a product beside the one that is called for, which is a scale on the diagonal, and else 0.
fn write_entry(
    page: &mut Page,
    row: usize,
    column: usize,
    here: i128,
    scale: u32,
) -> Result<(), Memory> {
    let called = if row == column { scale } else { 0 };
    let alloc = page.alloc();
    let words = format!(in alloc;
        "row {row}, column {column} of the product: {here} here, {called} called for"
    )?;
    page.line(words.as_str())?;
    Ok(())
}

/// Writes the entry of the product of a matrix with the coefficients of a nest's variables in a word.
fn write_word_entry(
    page: &mut Page,
    program: &Program,
    inverse: &Inverse,
    word: &[Sum],
    row: usize,
    column: usize,
) -> Result<(), Memory> {
    let place = program.params().len().saturating_add(column);
    let mut sum: i128 = 0;
    for (number, coordinate) in word.iter().enumerate() {
        let entry = entry_of(&inverse.matrix, row, number);
        sum = sum.saturating_add(entry.saturating_mul(coordinate.coefficient(place)));
    }
    write_entry(page, row, column, sum, inverse.scale)
}

/// Writes an entry of the product of a cold term's matrix with the coefficients in the cell.
pub fn write_cold_inverse(
    page: &mut Page,
    program: &Program,
    term: &Cold,
    row: usize,
    column: usize,
) -> Result<(), Memory> {
    let word = cold_word(page.alloc(), program, term)?;
    write_word_entry(page, program, &term.inverse, word.as_slice(), row, column)
}

/// Writes an entry of the product of a wavefront term's matrix with the coefficients in the word.
pub fn write_front_inverse(
    page: &mut Page,
    program: &Program,
    term: &Wavefront,
    row: usize,
    column: usize,
) -> Result<(), Memory> {
    let word = front_word(page.alloc(), program, term)?;
    write_word_entry(page, program, &term.inverse, word.as_slice(), row, column)
}

/// Writes an entry of the product of a part's matrix with the coefficients of the loop values in its map.
pub fn write_image_inverse(
    page: &mut Page,
    program: &Program,
    part: &Part,
    row: usize,
    column: usize,
) -> Result<(), Memory> {
    let vars = program
        .params()
        .len()
        .saturating_add(part.nest.bounds().len());
    let mut image = Vec::new(page.alloc());
    for form in part.image.as_slice() {
        image.push(Sum::of(page.alloc(), vars, form)?)?;
    }
    write_word_entry(page, program, &part.inverse, image.as_slice(), row, column)
}

/// Writes an entry of the product of a partition term's inverse with its matrix.
pub fn write_unit(
    page: &mut Page,
    term: &Partition,
    row: usize,
    column: usize,
) -> Result<(), Memory> {
    let mut sum: i128 = 0;
    for number in 0..term.inverse.cols() {
        let entry = entry_of(&term.inverse, row, number);
        sum = sum.saturating_add(entry.saturating_mul(entry_of(&term.matrix, number, column)));
    }
    write_entry(page, row, column, sum, 1)
}

/// The weight of a set, where it has a coordinate, and else 0.
fn weight_at(set: &CoordSet, weight: u8, coordinate: usize) -> u32 {
    match u8::try_from(coordinate) {
        Ok(number) if set.coords().contains(&number) => u32::from(weight),
        _ => 0,
    }
}

/// Writes how great the weights of the sets with a coordinate are together, and have to be.
fn write_weights(page: &mut Page, coordinate: usize, sum: u32, q: u8) -> Result<(), Memory> {
    let alloc = page.alloc();
    let words = format!(in alloc;
        "weights of the sets with coordinate {coordinate}: {sum} here, {q} or more called for"
    )?;
    page.line(words.as_str())?;
    Ok(())
}

/// Writes how great the weights of a partition term's sets with a coordinate are together, and have to be.
pub fn write_cover(page: &mut Page, term: &Partition, coordinate: usize) -> Result<(), Memory> {
    let mut sum: u32 = 0;
    for family in term.families.as_slice() {
        sum = sum.saturating_add(weight_at(&family.set, family.weight, coordinate));
    }
    write_weights(page, coordinate, sum, term.q)
}

/// Writes how great the weights of a joint term's sets with a coordinate are together, and have to be.
pub fn write_joint_cover(page: &mut Page, term: &Joint, coordinate: usize) -> Result<(), Memory> {
    let mut sum: u32 = 0;
    for family in term.families.as_slice() {
        sum = sum.saturating_add(weight_at(&family.set, family.weight, coordinate));
    }
    write_weights(page, coordinate, sum, term.q)
}

/// Writes numbers, each behind a blank.
fn write_numbers(page: &mut Page, numbers: &[i128]) -> Result<(), Memory> {
    let alloc = page.alloc();
    for number in numbers {
        page.text(format!(in alloc; " {number}")?.as_str())?;
    }
    Ok(())
}

/// The coefficients of a form at so many places from one on.
fn coefficients(
    alloc: Global,
    form: &Form,
    first: usize,
    count: usize,
) -> Result<Vec<i128>, Memory> {
    let mut all = Vec::new(alloc);
    for number in 0..count {
        all.push(form.coefficient(first.saturating_add(number)))?;
    }
    Ok(all)
}

/// A matrix's row, so many times.
fn scaled_row(alloc: Global, matrix: &Matrix, row: usize, scale: u32) -> Result<Vec<i128>, Memory> {
    let mut all = Vec::new(alloc);
    for column in 0..matrix.cols() {
        all.push(entry_of(matrix, row, column).saturating_mul(i128::from(scale)))?;
    }
    Ok(all)
}

/// Writes the coefficients of the loops in the form of this number of a family's start label, and those that are called
/// for.
pub(crate) fn write_scaled(
    page: &mut Page,
    program: &Program,
    term: &Partition,
    family: &Family,
    number: usize,
) -> Result<(), Memory> {
    let alloc = page.alloc();
    let (Some(form), Some(row)) = (
        family.start_label.get(number),
        family.set.coords().get(number),
    ) else {
        return Ok(());
    };
    let matrix = &term.matrix;
    let here = coefficients(alloc, form, program.params().len(), matrix.cols())?;
    let called = scaled_row(alloc, matrix, usize::from(*row), family.scale)?;
    page.text("coefficients of the loops:")?;
    write_numbers(page, here.as_slice())?;
    page.text(" here,")?;
    write_numbers(page, called.as_slice())?;
    page.line(" called for")?;
    Ok(())
}

/// Writes the coefficients of the variables past the outer ones in the form of this number of a wavefront term's
/// vertex.
pub fn write_vertex(
    page: &mut Page,
    program: &Program,
    term: &Wavefront,
    number: usize,
) -> Result<(), Memory> {
    let outer = usize::from(term.outer);
    let count = term.nest.bounds().len().saturating_sub(outer);
    let Some(form) = term.vertex.point.get(number) else {
        return Ok(());
    };
    let first = program.params().len().saturating_add(outer);
    let here = coefficients(page.alloc(), form, first, count)?;
    page.text("coefficients of the variables past the outer ones:")?;
    write_numbers(page, here.as_slice())?;
    page.line(" here, 0 called for")?;
    Ok(())
}
