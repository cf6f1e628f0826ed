//! What a program says of its statements, in affine forms.

use crate::affine::{Affine, copies};
use crate::fitted::fitted;
use crate::nests::copied_bounds;
use crate::numbers::short;
use crate::shown::{all_put, followed, within};
use affine_form::{Form, Memory};
use affine_program::{Program, Reference};
use dep_quast::Quast;
use reuse_paths::Quasts;
use std::alloc::Global;

/// Where the source of a read is under the tests of a leaf.
#[derive(Drop)]
pub enum Origin {
    Input,
    Instance { statement: u16, point: Vec<Affine> },
    Unknown,
}

/// A leaf of a source tree that isn't empty: the rows of its tests, and its source.
#[derive(Drop)]
pub struct TreeLeaf {
    pub tests: Vec<Affine>,
    pub origin: Origin,
}

/// A reference: the array, and the subscripts.
#[derive(Drop)]
pub struct Access {
    pub array: u16,
    pub subs: Vec<Affine>,
}

/// A read: the reference, and the leaves of its source tree.
#[derive(Drop)]
pub struct ReadFacts {
    pub access: Access,
    pub leaves: Vec<TreeLeaf>,
}

/// A statement: the bounds of its loops, the rows of the guards around it, the bounds of a nest of its instances, what it
/// writes, and its reads. The nest has the bounds of its loops, tightened by the guards where that can be had.
#[derive(Drop)]
pub struct StatementFacts {
    pub bounds: Vec<(Affine, Affine)>,
    pub guards: Vec<Affine>,
    pub nest: Vec<(Affine, Affine)>,
    pub writes: Access,
    pub reads: Vec<ReadFacts>,
}

/// A program.
#[derive(Drop)]
pub struct Facts {
    pub params: usize,
    pub arrays: Vec<u8>,
    pub assumed: Vec<Affine>,
    pub statements: Vec<StatementFacts>,
}

impl StatementFacts {
    /// How many loops are around it.
    pub fn depth(&self) -> usize {
        self.bounds.len()
    }

    /// The rows which say that loop values are in its domain: those of its loops, and those of its guards.
    pub fn domain(
        &self,
        alloc: Global,
        params: usize,
        values: &[Affine],
    ) -> Result<Vec<Affine>, Memory> {
        let rows = within(alloc, params, self.bounds.as_slice(), values)?;
        let guards = all_put(alloc, params, self.guards.as_slice(), values)?;
        followed(alloc, rows, guards.as_slice())
    }
}

impl Facts {
    /// A statement, where there is one.
    pub fn statement(&self, number: u16) -> Option<&StatementFacts> {
        self.statements.as_slice().get(usize::from(number))
    }

    /// How many subscripts an array has.
    pub fn subscripts(&self, array: usize) -> usize {
        match self.arrays.as_slice().get(array) {
            Some(subscripts) => usize::from(*subscripts),
            None => 0,
        }
    }

    /// A read of a statement, where there is one.
    pub fn read(&self, statement: u16, read: u16) -> Option<&ReadFacts> {
        self.statement(statement)?
            .reads
            .as_slice()
            .get(usize::from(read))
    }
}

/// Forms as affine forms.
fn all_of(alloc: Global, forms: &[Form]) -> Result<Vec<Affine>, Memory> {
    let mut all = Vec::new(alloc);
    for form in forms {
        all.push(Affine::of(alloc, form)?)?;
    }
    Ok(all)
}

fn access_of(alloc: Global, reference: &Reference) -> Result<Access, Memory> {
    Ok(Access {
        array: reference.array,
        subs: all_of(alloc, reference.subs.as_slice())?,
    })
}

/// Rows, and one more.
pub fn with_row(alloc: Global, rows: &[Affine], row: Affine) -> Result<Vec<Affine>, Memory> {
    let mut all = copies(alloc, rows)?;
    all.push(row)?;
    Ok(all)
}

/// Puts the leaves of a tree that aren't empty, under these tests, behind others.
fn put_leaves(
    alloc: Global,
    tree: &Quast,
    tests: &[Affine],
    mut leaves: Vec<TreeLeaf>,
) -> Result<Vec<TreeLeaf>, Memory> {
    let origin = match tree {
        Quast::Test { form, yes, no } => {
            let form = Affine::of(alloc, form)?;
            let opposite = form.negated(alloc)?;
            let on_yes = with_row(alloc, tests, form)?;
            let on_no = with_row(alloc, tests, opposite)?;
            let leaves = put_leaves(alloc, yes, on_yes.as_slice(), leaves)?;
            return put_leaves(alloc, no, on_no.as_slice(), leaves);
        }
        Quast::Empty { .. } => return Ok(leaves),
        Quast::Input { .. } => Origin::Input,
        Quast::Source {
            statement,
            point,
            ..
        } => Origin::Instance {
            statement: *statement,
            point: all_of(alloc, point.as_slice())?,
        },
        Quast::Blank => Origin::Unknown,
    };
    let tests = copies(alloc, tests)?;
    leaves.push(TreeLeaf { tests, origin })?;
    Ok(leaves)
}

fn bounds_of(alloc: Global, bounds: &[(Form, Form)]) -> Result<Vec<(Affine, Affine)>, Memory> {
    let mut all = Vec::new(alloc);
    for (lower, upper) in bounds {
        all.push((Affine::of(alloc, lower)?, Affine::of(alloc, upper)?))?;
    }
    Ok(all)
}

fn reads_of(
    alloc: Global,
    quasts: &Quasts,
    statement: u16,
    references: &[Reference],
) -> Result<Vec<ReadFacts>, Memory> {
    let mut all = Vec::new(alloc);
    for (read, reference) in references.iter().enumerate() {
        let access = access_of(alloc, reference)?;
        let none = Vec::new(alloc);
        let leaves = match quasts.tree(statement, short(read)) {
            Some(tree) => put_leaves(alloc, tree, &[], none)?,
            None => none,
        };
        all.push(ReadFacts { access, leaves })?;
    }
    Ok(all)
}

/// The statements of a program, each with the nest of its loops.
fn statements_of(
    alloc: Global,
    program: &Program,
    quasts: &Quasts,
) -> Result<Vec<StatementFacts>, Memory> {
    let mut statements = Vec::new(alloc);
    for (number, statement) in program.statements().iter().enumerate() {
        statements.push(StatementFacts {
            bounds: bounds_of(alloc, statement.bounds.as_slice())?,
            guards: all_of(alloc, statement.guards.as_slice())?,
            nest: bounds_of(alloc, statement.bounds.as_slice())?,
            writes: access_of(alloc, &statement.writes)?,
            reads: reads_of(alloc, quasts, short(number), statement.reads.as_slice())?,
        })?;
    }
    Ok(statements)
}

/// The nests of the statements, tightened by their guards where that can be had.
fn guarded_nests(alloc: Global, facts: &Facts) -> Result<Vec<Vec<(Affine, Affine)>>, Memory> {
    let mut all = Vec::new(alloc);
    for own in facts.statements.as_slice() {
        let nest = copied_bounds(alloc, own.nest.as_slice())?;
        if own.guards.is_empty() {
            all.push(nest)?;
        } else {
            let fewer = fitted(alloc, facts, copied_bounds(alloc, nest.as_slice())?, own)?;
            all.push(fewer.unwrap_or(nest))?;
        }
    }
    Ok(all)
}

/// The facts of a program with source trees of its reads.
pub fn facts_of(alloc: Global, program: &Program, quasts: &Quasts) -> Result<Facts, Memory> {
    let mut arrays = Vec::new(alloc);
    for (_, subscripts) in program.arrays() {
        arrays.push(*subscripts)?;
    }
    let mut facts = Facts {
        params: program.params().len(),
        arrays,
        assumed: all_of(alloc, program.assumed().rows())?,
        statements: statements_of(alloc, program, quasts)?,
    };
    let nests = guarded_nests(alloc, &facts)?;
    for (own, nest) in facts.statements.iter_mut().zip(nests) {
        own.nest = nest;
    }
    Ok(facts)
}
