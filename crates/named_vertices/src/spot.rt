//! Words that say which vertex is meant.

use crate::vertices::Named;
use affine_form::Memory;
use affine_program::Program;
use std::alloc::Global;

/// A vertex, by its number or by what it is.
#[derive(Debug, Drop)]
pub enum Spot {
    Number(usize),
    Named(Named),
}

/// The numbers in a word that has commas between them; none where it is empty.
fn numbers_in(alloc: Global, word: &str) -> Result<Option<Vec<i128>>, Memory> {
    let mut numbers = Vec::new(alloc);
    if word.is_empty() {
        return Ok(Some(numbers));
    }
    for part in word.split(',') {
        match part.parse::<i64>() {
            Ok(number) => numbers.push(i128::from(number))?,
            Err(_) => return Ok(None),
        }
    }
    Ok(Some(numbers))
}

/// The number of the array of this name.
fn array_named(program: &Program, name: &str) -> Option<u16> {
    for (number, (array, _)) in program.arrays().iter().enumerate() {
        if array.bytes() == name.as_bytes() {
            return u16::try_from(number).ok();
        }
    }
    None
}

/// The vertex that a word means: a number; `STATEMENT:VALUE,VALUE,..`; or `ARRAY:VALUE,VALUE,..`.
pub fn spot_of(alloc: Global, program: &Program, word: &str) -> Result<Option<Spot>, Memory> {
    let Some((head, rest)) = word.split_once(':') else {
        return Ok(word.parse::<usize>().ok().map(Spot::Number));
    };
    let Some(numbers) = numbers_in(alloc, rest)? else {
        return Ok(None);
    };
    if let Ok(statement) = head.parse::<u16>() {
        return Ok(Some(Spot::Named(Named::Instance {
            statement,
            loops: numbers,
        })));
    }
    match array_named(program, head) {
        Some(array) => Ok(Some(Spot::Named(Named::Input {
            array,
            subscripts: numbers,
        }))),
        None => Ok(None),
    }
}
