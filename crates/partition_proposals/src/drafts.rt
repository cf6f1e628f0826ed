//! Families that are thought out without multipliers.

use affine_facts::affine::{Affine, copies};
use affine_facts::facts::Facts;
use affine_form::Memory;
use std::alloc::Global;

/// How far the walks of a family go.
#[derive(Clone, Copy, PartialEq, Eq)]
pub(crate) enum Way {
    /// As far as they can.
    Whole,
    /// To their first source.
    Short,
    /// As far as they can without an input cell.
    Dry,
}

/// How the reads by which a family's walks go on are chosen.
#[derive(Clone, Copy, PartialEq, Eq)]
pub(crate) enum Choice {
    /// From each statement the best, by which each source has the label.
    Strict,
    /// From each statement the best, also one that is left out at some leaves.
    Loose,
    /// Reads by which walks go on from each statement of as many loops as the start's, tried in turn.
    Tried,
}

/// What a family is asked to be: with words of a statement's read, with these coordinates and this label of a start, by walks that go so
/// far, and on by such reads.
#[derive(Clone, Copy)]
pub(crate) struct Request<'a> {
    pub(crate) statement: u16,
    pub(crate) read: u16,
    pub(crate) set: &'a [u8],
    pub(crate) label: &'a [Affine],
    pub(crate) way: Way,
    pub(crate) choice: Choice,
}

/// How a walk goes on from a statement: by a read, and from the instances that meet rows.
#[derive(Drop)]
pub(crate) struct Step {
    pub(crate) read: u16,
    pub(crate) rows: Vec<Affine>,
}

/// What is known of a statement in a family: the label of its instances, and how a walk goes on.
#[derive(Drop)]
pub(crate) struct Node {
    pub(crate) label: Vec<Affine>,
    pub(crate) step: Option<Step>,
}

/// A family that is thought out: the statement and the read from which its words come, the coordinates and the label of a start, the
/// node of each statement that it comes to, and the label of the cells of each array.
#[derive(Drop)]
pub(crate) struct Draft {
    pub(crate) way: Way,
    pub(crate) statement: u16,
    pub(crate) choice: Choice,
    pub(crate) read: u16,
    pub(crate) set: Vec<u8>,
    pub(crate) label: Vec<Affine>,
    /// The number of the part with whose draft it began, if it did with one.
    pub(crate) seed: Option<usize>,
    /// The rows that instances of the start's statement are to meet for walks to go on from them.
    pub(crate) within: Vec<Affine>,
    pub(crate) nodes: Vec<Option<Node>>,
    pub(crate) cells: Vec<Option<Vec<Affine>>>,
}

impl Draft {
    fn node(&self, statement: u16) -> Option<&Node> {
        match self.nodes.as_slice().get(usize::from(statement)) {
            Some(Some(node)) => Some(node),
            _ => None,
        }
    }

    /// What it was asked to be, but by walks that go so far.
    pub(crate) fn request(&self, way: Way) -> Request {
        Request {
            statement: self.statement,
            read: self.read,
            set: self.set.as_slice(),
            label: self.label.as_slice(),
            way,
            choice: self.choice,
        }
    }

    /// The label of a statement's instances, where there is one.
    pub(crate) fn label_of(&self, statement: u16) -> Option<&[Affine]> {
        Some(self.node(statement)?.label.as_slice())
    }

    /// How a walk goes on from a statement.
    pub(crate) fn step_of(&self, statement: u16) -> Option<&Step> {
        self.node(statement)?.step.as_ref()
    }

    /// The label of an array's cells, where there is one.
    pub(crate) fn cell_label(&self, array: u16) -> Option<&[Affine]> {
        match self.cells.as_slice().get(usize::from(array)) {
            Some(Some(label)) => Some(label.as_slice()),
            _ => None,
        }
    }

    /// Gives the instances of a statement a label.
    pub(crate) fn put_label(&mut self, statement: u16, label: Vec<Affine>) {
        if let Some(node) = self.nodes.get_mut(usize::from(statement)) {
            *node = Some(Node { label, step: None });
        }
    }

    /// Gives the cells of an array a label.
    pub(crate) fn put_cells(&mut self, array: u16, label: Vec<Affine>) {
        if let Some(cells) = self.cells.get_mut(usize::from(array)) {
            *cells = Some(label);
        }
    }

    /// Lets walks go on from a statement from those of its instances alone that meet a row too, where they do go on.
    pub(crate) fn restrict(&mut self, statement: u16, row: Affine) -> Result<bool, Memory> {
        if let Some(Some(node)) = self.nodes.get_mut(usize::from(statement)) {
            if let Some(step) = &mut node.step {
                step.rows.push(row)?;
                return Ok(true);
            }
        }
        Ok(false)
    }

    /// Lets walks go on from a statement by a read.
    pub(crate) fn put_step(&mut self, statement: u16, read: u16, rows: Vec<Affine>) {
        if let Some(Some(node)) = self.nodes.get_mut(usize::from(statement)) {
            node.step = Some(Step { read, rows });
        }
    }
}

/// A draft whose walks go on from those instances alone of the start's statement that meet rows.
pub(crate) fn kept_within(
    alloc: Global,
    mut draft: Draft,
    rows: &[Affine],
) -> Result<Draft, Memory> {
    let statement = draft.statement;
    for row in rows {
        draft.restrict(statement, row.copied(alloc)?)?;
    }
    draft.within = copies(alloc, rows)?;
    Ok(draft)
}

/// A family without nodes.
pub(crate) fn empty_draft(alloc: Global, facts: &Facts, request: Request) -> Result<Draft, Memory> {
    let mut nodes = Vec::new(alloc);
    for _statement in facts.statements.as_slice() {
        nodes.push(None)?;
    }
    let mut cells = Vec::new(alloc);
    for _array in facts.arrays.as_slice() {
        cells.push(None)?;
    }
    Ok(Draft {
        way: request.way,
        choice: request.choice,
        statement: request.statement,
        read: request.read,
        set: Vec::from_slice(alloc, request.set)?,
        label: copies(alloc, request.label)?,
        seed: None,
        within: Vec::new(alloc),
        nodes,
        cells,
    })
}

/// A family that begins with what another draft knows of words, if there is one.
pub(crate) fn seeded(
    alloc: Global,
    mut draft: Draft,
    seed: Option<&Draft>,
) -> Result<Draft, Memory> {
    if let Some(other) = seed {
        draft.nodes = copied_nodes(alloc, other.nodes.as_slice())?;
        draft.cells = copied_cells(alloc, other.cells.as_slice())?;
    }
    Ok(draft)
}

/// A copy of the label, where there is one.
pub(crate) fn copied_label(
    alloc: Global,
    label: Option<&[Affine]>,
) -> Result<Option<Vec<Affine>>, Memory> {
    match label {
        Some(label) => Ok(Some(copies(alloc, label)?)),
        None => Ok(None),
    }
}

fn copied_step(alloc: Global, step: &Step) -> Result<Step, Memory> {
    Ok(Step {
        read: step.read,
        rows: copies(alloc, step.rows.as_slice())?,
    })
}

/// A copy of what is known of a statement.
pub(crate) fn copied_node(alloc: Global, node: &Node) -> Result<Node, Memory> {
    let step = match &node.step {
        None => None,
        Some(step) => Some(copied_step(alloc, step)?),
    };
    Ok(Node {
        label: copies(alloc, node.label.as_slice())?,
        step,
    })
}

fn copied_nodes(alloc: Global, nodes: &[Option<Node>]) -> Result<Vec<Option<Node>>, Memory> {
    let mut all = Vec::new(alloc);
    for node in nodes {
        all.push(match node {
            None => None,
            Some(node) => Some(copied_node(alloc, node)?),
        })?;
    }
    Ok(all)
}

fn copied_cells(
    alloc: Global,
    cells: &[Option<Vec<Affine>>],
) -> Result<Vec<Option<Vec<Affine>>>, Memory> {
    let mut all = Vec::new(alloc);
    for label in cells {
        all.push(match label {
            None => None,
            Some(label) => Some(copies(alloc, label.as_slice())?),
        })?;
    }
    Ok(all)
}

/// A copy of the draft.
pub(crate) fn copied(alloc: Global, draft: &Draft) -> Result<Draft, Memory> {
    Ok(Draft {
        way: draft.way,
        choice: draft.choice,
        statement: draft.statement,
        read: draft.read,
        set: Vec::from_slice(alloc, draft.set.as_slice())?,
        label: copies(alloc, draft.label.as_slice())?,
        seed: draft.seed,
        within: copies(alloc, draft.within.as_slice())?,
        nodes: copied_nodes(alloc, draft.nodes.as_slice())?,
        cells: copied_cells(alloc, draft.cells.as_slice())?,
    })
}

/// Copies of drafts.
pub(crate) fn all_copied(alloc: Global, drafts: &[Draft]) -> Result<Vec<Draft>, Memory> {
    let mut all = Vec::new(alloc);
    for draft in drafts {
        all.push(copied(alloc, draft)?)?;
    }
    Ok(all)
}
