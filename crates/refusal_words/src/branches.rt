//! The pieces of branches.

use affine_form::Memory;
use affine_program::Program;
use dep_quast::Quasts;
use iolb_check::{Branch, Term};
use std::alloc::Global;
use walk_systems::{Piece, PieceList, cold_pieces, front_pieces, joint_pieces, partition_pieces};

/// The pieces of a term.
fn pieces_of(
    alloc: Global,
    program: &Program,
    quasts: &Quasts,
    term: &Term,
) -> Result<Vec<Piece>, Memory> {
    match term {
        Term::Cold(cold) => cold_pieces(alloc, program, quasts, cold),
        Term::Wavefront(front) => front_pieces(alloc, program, front),
        Term::Partition(partition) => {
            joined(alloc, partition_pieces(alloc, program, quasts, partition)?)
        }
        Term::Joint(joint) => joined(alloc, joint_pieces(alloc, program, quasts, joint)?),
    }
}

/// The pieces of lists, one behind another.
fn joined(alloc: Global, lists: Vec<PieceList>) -> Result<Vec<Piece>, Memory> {
    let mut all = Vec::new(alloc);
    for list in lists {
        let mut list = list;
        all.append(&mut list.pieces)?;
    }
    Ok(all)
}

/// The pieces of a branch's terms, term by term, each a group of its own.
pub(crate) fn branch_pieces(
    alloc: Global,
    program: &Program,
    quasts: &Quasts,
    branch: &Branch,
) -> Result<Vec<PieceList>, Memory> {
    let mut lists = Vec::new(alloc);
    for (group, term) in branch.terms.as_slice().iter().enumerate() {
        let pieces = pieces_of(alloc, program, quasts, term)?;
        lists.push(PieceList { group, pieces })?;
    }
    Ok(lists)
}
