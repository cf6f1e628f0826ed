//! The pieces of terms: rows, and the point of a word at each point that meets them.

use crate::families::{start_system, walking_from};
use crate::frames::{nest_point, nest_system, reference_at};
use crate::fronts::{instance_point, leaf_system};
use crate::leaves::{OpenLeaf, Source, open_leaves};
use crate::points::put_all;
use crate::walks::{frame_of, region_system, with_test, word_point};
use affine_form::{Form, Memory};
use affine_program::Program;
use asked_systems::{Says, Sum, System};
use dep_quast::Quasts;
use dep_quast::reader::Reader;
use domain_count::Nest;
use k_partition::Partition;
use reuse_paths::{Family, FamilyNode, Leaf, Walk, Walking};
use std::alloc::Global;
use wavefront::{Cold, Wavefront};

/// Whose vertices words are: cells of an array, or instances of a statement, by number.
#[derive(Clone, Copy, Debug, PartialEq, Eq)]
pub(crate) enum Words {
    Cells(u16),
    Instances(u16),
}

/// Words, one for each point that meets a system's rows: that of these subscripts or loop values.
#[derive(Drop)]
pub struct Piece {
    pub(crate) words: Words,
    pub(crate) system: System,
    pub(crate) point: Vec<Sum>,
}

/// The pieces of a family or of a term. Lists of one group may have words in common.
#[derive(Drop)]
pub struct PieceList {
    pub group: usize,
    pub pieces: Vec<Piece>,
}

/// The subscripts of a read at an instance with these loop values, forms over a nest's variables.
fn cell_word(
    alloc: Global,
    program: &Program,
    bounds: &[(Form, Form)],
    reader: Reader,
    values: &[Form],
) -> Result<Vec<Sum>, Memory> {
    let vars = program.params().len().saturating_add(bounds.len());
    let here = instance_point(alloc, program, bounds, vars, values)?;
    match reference_at(program, reader) {
        Some(reference) => put_all(alloc, vars, reference.subs.as_slice(), here.as_slice()),
        None => Ok(Vec::new(alloc)),
    }
}

/// The read of a cold term.
fn cold_reader(term: &Cold) -> Reader {
    Reader {
        statement: term.statement,
        read: term.read,
    }
}

/// The read of a wavefront term's user.
fn front_reader(term: &Wavefront) -> Reader {
    Reader {
        statement: term.user.statement,
        read: term.read,
    }
}

/// The subscripts of the cell that a cold term reads.
pub(crate) fn cold_word(alloc: Global, program: &Program, term: &Cold) -> Result<Vec<Sum>, Memory> {
    let bounds = term.nest.bounds();
    cell_word(
        alloc,
        program,
        bounds,
        cold_reader(term),
        term.point.as_slice(),
    )
}

/// The loop values of a wavefront term's word, or its subscripts where it is an input.
pub(crate) fn front_word(
    alloc: Global,
    program: &Program,
    term: &Wavefront,
) -> Result<Vec<Sum>, Memory> {
    let bounds = term.nest.bounds();
    match &term.source {
        Some(spot) => {
            let vars = program.params().len().saturating_add(bounds.len());
            let point = nest_point(alloc, program, bounds, vars)?;
            put_all(alloc, vars, spot.point.as_slice(), point.as_slice())
        }
        None => {
            let values = term.user.point.as_slice();
            cell_word(alloc, program, bounds, front_reader(term), values)
        }
    }
}

/// The leaves of a cold term's read that aren't empty.
fn cold_leaves<'a>(
    alloc: Global,
    program: &Program,
    quasts: &'a Quasts,
    term: &Cold,
) -> Result<Vec<OpenLeaf<'a>>, Memory> {
    let bounds = term.nest.bounds();
    let vars = program.params().len().saturating_add(bounds.len());
    let here = instance_point(alloc, program, bounds, vars, term.point.as_slice())?;
    open_leaves(alloc, quasts, cold_reader(term), vars, here.as_slice())
}

/// The array of a read, as a piece's words; none where it isn't there.
fn cells_of(program: &Program, reader: Reader) -> Option<Words> {
    let reference = reference_at(program, reader)?;
    Some(Words::Cells(reference.array))
}

/// The pieces of a cold term.
pub fn cold_pieces(
    alloc: Global,
    program: &Program,
    quasts: &Quasts,
    term: &Cold,
) -> Result<Vec<Piece>, Memory> {
    let mut pieces = Vec::new(alloc);
    let Some(words) = cells_of(program, cold_reader(term)) else {
        return Ok(pieces);
    };
    let leaves = cold_leaves(alloc, program, quasts, term)?;
    for (leaf, entry) in leaves.as_slice().iter().zip(term.leaves.as_slice()) {
        if entry.is_stop() {
            let system = leaf_system(alloc, program, term.nest.bounds(), leaf)?;
            let point = cold_word(alloc, program, term)?;
            pieces.push(Piece {
                words,
                system,
                point,
            })?;
        }
    }
    Ok(pieces)
}

/// The pieces of a wavefront term.
pub fn front_pieces(
    alloc: Global,
    program: &Program,
    term: &Wavefront,
) -> Result<Vec<Piece>, Memory> {
    let mut pieces = Vec::new(alloc);
    let words = match &term.source {
        Some(spot) => Some(Words::Instances(spot.statement)),
        None => cells_of(program, front_reader(term)),
    };
    if let Some(words) = words {
        let system = nest_system(alloc, program, term.nest.bounds())?;
        let point = front_word(alloc, program, term)?;
        pieces.push(Piece {
            words,
            system,
            point,
        })?;
    }
    Ok(pieces)
}

/// Puts the piece of a leaf's word behind others, of readers that meet a system's rows; none where the leaf doesn't
/// say.
fn push_word(
    alloc: Global,
    pieces: &mut Vec<Piece>,
    walking: &Walking<'_>,
    reader: Reader,
    system: &System,
    leaf: &OpenLeaf<'_>,
) -> Result<(), Memory> {
    let words = match leaf.source {
        Source::Written { statement, .. } => Some(Words::Instances(statement)),
        Source::Input => cells_of(walking.program, reader),
        Source::Unknown => None,
    };
    let Some(words) = words else {
        return Ok(());
    };
    let mut system = system.try_clone(alloc)?;
    system.push_all(alloc, leaf.tests.as_slice(), Says::Test)?;
    let point = word_point(
        alloc,
        frame_of(walking, reader.statement),
        reader,
        leaf.source,
    )?;
    pieces.push(Piece {
        words,
        system,
        point,
    })?;
    Ok(())
}

/// Puts the pieces at the leaves of a read's source tree behind others, but where an entry says that no point comes.
fn push_taken(
    alloc: Global,
    pieces: &mut Vec<Piece>,
    walking: &Walking<'_>,
    reader: Reader,
    system: &System,
    entries: &[Leaf],
) -> Result<(), Memory> {
    let frame = frame_of(walking, reader.statement);
    let here = frame.reading_point(alloc)?;
    let leaves = open_leaves(alloc, walking.quasts, reader, frame.vars(), here.as_slice())?;
    for (leaf, entry) in leaves.as_slice().iter().zip(entries) {
        if !matches!(entry, Leaf::Empty(_)) {
            push_word(alloc, pieces, walking, reader, system, leaf)?;
        }
    }
    Ok(())
}

/// Puts the pieces of a walk behind others, `yes` before `no`.
pub(crate) fn push_walk(
    alloc: Global,
    pieces: &mut Vec<Piece>,
    walking: &Walking<'_>,
    statement: u16,
    system: &System,
    walk: &Walk,
) -> Result<(), Memory> {
    match walk {
        Walk::Test { form, yes, no } => {
            let above = with_test(alloc, system, form, true, Says::Walk)?;
            push_walk(alloc, pieces, walking, statement, &above, yes)?;
            let below = with_test(alloc, system, form, false, Says::Walk)?;
            push_walk(alloc, pieces, walking, statement, &below, no)
        }
        Walk::Take { read, leaves } => {
            let reader = Reader {
                statement,
                read: *read,
            };
            push_taken(alloc, pieces, walking, reader, system, leaves.as_slice())
        }
    }
}

/// Puts the pieces of a node's region behind others, where there is one.
fn push_node(
    alloc: Global,
    pieces: &mut Vec<Piece>,
    walking: &Walking<'_>,
    number: usize,
    node: &Option<Box<FamilyNode>>,
) -> Result<(), Memory> {
    let (Some(node), Ok(statement)) = (node, u16::try_from(number)) else {
        return Ok(());
    };
    let Some(region) = &node.region else {
        return Ok(());
    };
    let system = region_system(alloc, walking, statement, region.rows.as_slice())?;
    push_walk(alloc, pieces, walking, statement, &system, &region.tree)
}

/// The pieces of a family: those of its start tree, and then of its regions.
fn family_pieces(
    alloc: Global,
    program: &Program,
    quasts: &Quasts,
    term: &Partition,
    family: &Family,
) -> Result<Vec<Piece>, Memory> {
    let none = Nest::new(Vec::new(alloc));
    let walking = walking_from(program, quasts, &none, &[], family, &[], 0);
    let system = start_system(alloc, &walking, term.statement, &term.nest)?;
    let mut pieces = Vec::new(alloc);
    push_walk(
        alloc,
        &mut pieces,
        &walking,
        term.statement,
        &system,
        &family.start,
    )?;
    for (number, node) in family.nodes.as_slice().iter().enumerate() {
        push_node(alloc, &mut pieces, &walking, number, node)?;
    }
    Ok(pieces)
}

/// The pieces of a partition term's families, family by family, each a group of its own.
pub fn partition_pieces(
    alloc: Global,
    program: &Program,
    quasts: &Quasts,
    term: &Partition,
) -> Result<Vec<PieceList>, Memory> {
    let mut lists = Vec::new(alloc);
    for (group, family) in term.families.as_slice().iter().enumerate() {
        let pieces = family_pieces(alloc, program, quasts, term, family)?;
        lists.push(PieceList { group, pieces })?;
    }
    Ok(lists)
}
