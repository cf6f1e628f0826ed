//! Leaves of source trees to which points may come.

use crate::points::followed;
use affine_form::{Form, Memory};
use asked_systems::Sum;
use dep_quast::reader::Reader;
use dep_quast::{Quast, Quasts};
use std::alloc::Global;

/// Where a word comes from, as a leaf says.
#[derive(Clone, Copy)]
pub(crate) enum Source<'a> {
    Written { statement: u16, point: &'a [Form] },
    Input,
    Unknown,
}

/// A leaf that isn't empty, with the tests on the way to it at the reading instance.
#[derive(Drop)]
pub(crate) struct OpenLeaf<'a> {
    pub(crate) tests: Vec<Sum>,
    pub(crate) source: Source<'a>,
}

/// Puts a leaf under these tests behind others.
fn push_leaf<'a>(
    alloc: Global,
    all: &mut Vec<OpenLeaf<'a>>,
    tests: &[Sum],
    source: Source<'a>,
) -> Result<(), Memory> {
    let tests = followed(alloc, Vec::new(alloc), tests)?;
    all.push(OpenLeaf { tests, source })?;
    Ok(())
}

/// Puts the leaves of a tree that aren't empty behind others, `yes` before `no`, with the tests at a point.
fn push_open<'a>(
    alloc: Global,
    all: &mut Vec<OpenLeaf<'a>>,
    vars: usize,
    point: &[Sum],
    tests: &[Sum],
    quast: &'a Quast,
) -> Result<(), Memory> {
    match quast {
        Quast::Test { form, yes, no } => {
            let at = Sum::put(alloc, vars, form, point)?;
            let mut side = followed(alloc, Vec::new(alloc), tests)?;
            side.push(at.times(alloc, 1)?)?;
            push_open(alloc, all, vars, point, side.as_slice(), yes)?;
            let mut side = followed(alloc, Vec::new(alloc), tests)?;
            side.push(at.opposite(alloc)?)?;
            push_open(alloc, all, vars, point, side.as_slice(), no)
        }
        Quast::Source {
            statement,
            point,
            ..
        } => {
            let source = Source::Written {
                statement: *statement,
                point: point.as_slice(),
            };
            push_leaf(alloc, all, tests, source)
        }
        Quast::Input { .. } => push_leaf(alloc, all, tests, Source::Input),
        Quast::Blank => push_leaf(alloc, all, tests, Source::Unknown),
        Quast::Empty { .. } => Ok(()),
    }
}

/// The leaves of a read's tree that aren't empty, with the tests at a point over so many variables.
pub(crate) fn open_leaves<'a>(
    alloc: Global,
    quasts: &'a Quasts,
    reader: Reader,
    vars: usize,
    point: &[Sum],
) -> Result<Vec<OpenLeaf<'a>>, Memory> {
    let mut all = Vec::new(alloc);
    if let Some(quast) = quasts.tree(reader.statement, reader.read) {
        push_open(alloc, &mut all, vars, point, &[], quast)?;
    }
    Ok(all)
}

/// How many leaves of a read's tree aren't empty.
pub fn open_count(alloc: Global, quasts: &Quasts, reader: Reader) -> Result<usize, Memory> {
    Ok(open_leaves(alloc, quasts, reader, 0, &[])?.len())
}
