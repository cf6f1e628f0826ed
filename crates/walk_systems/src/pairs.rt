//! Systems of pairs of pieces.

use crate::pieces::{Piece, PieceList};
use crate::points::equal_rows;
use crate::walks::write_pointless;
use affine_form::{Memory, Multipliers};
use affine_program::Program;
use asked_systems::{Says, Sum, System};
use plain_pages::Page;
use std::alloc::Global;

/// Two pieces that have words of one array or of one statement.
type Pair<'a> = (&'a Piece, &'a Piece);

/// Puts the pairs of a piece with others behind those that are there.
fn push_with<'a>(
    pairs: &mut Vec<Pair<'a>>,
    piece: &'a Piece,
    others: &'a [Piece],
) -> Result<(), Memory> {
    for other in others {
        if piece.words == other.words {
            pairs.push((piece, other))?;
        }
    }
    Ok(())
}

/// Puts the pairs of pieces of two lists behind those that are there.
fn push_between<'a>(
    pairs: &mut Vec<Pair<'a>>,
    pieces: &'a [Piece],
    others: &'a [Piece],
) -> Result<(), Memory> {
    for piece in pieces {
        push_with(pairs, piece, others)?;
    }
    Ok(())
}

/// Puts the pairs of pieces of a list and of each of later lists of another group behind those that are there.
fn push_later<'a>(
    pairs: &mut Vec<Pair<'a>>,
    list: &'a PieceList,
    later: &'a [PieceList],
) -> Result<(), Memory> {
    for others in later {
        if list.group != others.group {
            push_between(pairs, list.pieces.as_slice(), others.pieces.as_slice())?;
        }
    }
    Ok(())
}

/// The pairs of pieces of each two of these lists of different groups that have words of one array or statement, in their order.
fn pairs_of<'a>(alloc: Global, lists: &'a [PieceList]) -> Result<Vec<Pair<'a>>, Memory> {
    let mut pairs = Vec::new(alloc);
    for (number, list) in lists.iter().enumerate() {
        let later = lists.get(number.saturating_add(1)..).unwrap_or(&[]);
        push_later(&mut pairs, list, later)?;
    }
    Ok(pairs)
}

/// How many pairs of pieces of each two of these lists of different groups have words of one array or statement.
pub fn pair_count(alloc: Global, lists: &[PieceList]) -> Result<usize, Memory> {
    Ok(pairs_of(alloc, lists)?.len())
}

/// Sums, each with so many variables more in front of those from a place on.
fn all_moved(alloc: Global, sums: &[Sum], place: usize, more: usize) -> Result<Vec<Sum>, Memory> {
    let mut all = Vec::new(alloc);
    for sum in sums {
        all.push(sum.moved(alloc, place, more)?)?;
    }
    Ok(all)
}

/// The names of two pieces' variables: the second's own with a `'` behind.
fn names_of(
    alloc: Global,
    first: &System,
    second: &System,
    params: usize,
) -> Result<Vec<Vec<u8>>, Memory> {
    let mut all = Vec::new(alloc);
    for name in first.names() {
        all.push(Vec::from_slice(alloc, name.as_slice())?)?;
    }
    for name in second.names().get(params..).unwrap_or(&[]) {
        let mut bytes = Vec::from_slice(alloc, name.as_slice())?;
        bytes.extend_from_slice(b"'")?;
        all.push(bytes)?;
    }
    Ok(all)
}

/// Puts the rows of a piece into a system of two, with so many variables more in front of those from a place on;
/// without the assumptions, where they are there already.
fn push_rows(
    alloc: Global,
    system: &mut System,
    rows: &[(Sum, Says)],
    place: usize,
    more: usize,
    assumed: bool,
) -> Result<(), Memory> {
    for (row, says) in rows {
        if assumed || *says != Says::Assumed {
            system.push(row.moved(alloc, place, more)?, *says)?;
        }
    }
    Ok(())
}

/// The system of the points at which two pieces have one word.
fn system_of(
    alloc: Global,
    program: &Program,
    first: &Piece,
    second: &Piece,
) -> Result<System, Memory> {
    let params = program.params().len();
    let behind = first.system.vars();
    let own = behind.saturating_sub(params);
    let other = second.system.vars().saturating_sub(params);
    let names = names_of(alloc, &first.system, &second.system, params)?;
    let mut system = System::new(alloc, names);
    push_rows(alloc, &mut system, first.system.rows(), behind, other, true)?;
    push_rows(alloc, &mut system, second.system.rows(), params, own, false)?;
    let one = all_moved(alloc, first.point.as_slice(), behind, other)?;
    let two = all_moved(alloc, second.point.as_slice(), params, own)?;
    let rows = equal_rows(alloc, one.as_slice(), two.as_slice())?;
    system.push_all(alloc, rows.as_slice(), Says::Same)?;
    Ok(system)
}

/// Writes the system of the pair of this number of pieces of each two of these lists of different groups, which multipliers are to
/// show to have no word in common.
pub fn write_pair(
    page: &mut Page,
    program: &Program,
    lists: &[PieceList],
    number: usize,
    shown: &Multipliers,
) -> Result<(), Memory> {
    let alloc = page.alloc();
    let pairs = pairs_of(alloc, lists)?;
    match pairs.get(number) {
        Some((first, second)) => {
            let system = system_of(alloc, program, first, second)?;
            write_pointless(page, &system, shown)
        }
        None => Ok(()),
    }
}
