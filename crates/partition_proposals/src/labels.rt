//! Labels of words along walks back, thought out without multipliers.

use crate::drafts::{Choice, Draft, Request, Way, copied, copied_label, empty_draft, seeded};
use crate::searching::searched;
use affine_facts::affine::{Affine, copies};
use affine_facts::combined::all_combined;
use affine_facts::facts::{Access, Facts, Origin, ReadFacts, StatementFacts, TreeLeaf};
use affine_facts::numbers::short;
use affine_facts::shown::{all_put, are_same};
use affine_form::Memory;
use std::alloc::Global;

/// A label for the instances of a source's statement, which is the reader's label at the source: one of the cell that is
/// read, if there is one, else one of the source's loop values.
fn source_label(
    alloc: Global,
    facts: &Facts,
    label: &[Affine],
    read: &Access,
    statement: u16,
    point: &[Affine],
) -> Result<Option<Vec<Affine>>, Memory> {
    let params = facts.params;
    if let Some(of_cell) = all_combined(alloc, params, label, read.subs.as_slice(), None)? {
        if let Some(source) = facts.statement(statement) {
            let of_source = all_put(
                alloc,
                params,
                of_cell.as_slice(),
                source.writes.subs.as_slice(),
            )?;
            let at_source = all_put(alloc, params, of_source.as_slice(), point)?;
            if are_same(at_source.as_slice(), label) {
                return Ok(Some(of_source));
            }
        }
    }
    all_combined(alloc, params, label, point, None)
}

/// Who reads: the statement, its label, and a read.
#[derive(Clone, Copy)]
struct Reader<'a> {
    bounds: &'a [(Affine, Affine)],
    label: &'a [Affine],
    read: &'a ReadFacts,
}

/// What the source at a leaf needs to have the reader's label.
#[derive(Drop)]
enum Need {
    /// It can't have it.
    Impossible,
    /// It has it.
    Nothing,
    /// A label of an array's cells.
    Cells(u16, Vec<Affine>),
    /// A label of a statement's instances.
    Instances(u16, Vec<Affine>),
}

/// What an input cell needs to have the reader's label.
fn cell_need(
    alloc: Global,
    facts: &Facts,
    draft: &Draft,
    reader: Reader,
    leaf: &TreeLeaf,
) -> Result<Need, Memory> {
    let access = &reader.read.access;
    if draft.cell_label(access.array).is_some() {
        return Ok(Need::Nothing);
    }
    let bounds = if leaf.tests.is_empty() {
        None
    } else {
        Some(reader.bounds)
    };
    let subs = access.subs.as_slice();
    match all_combined(alloc, facts.params, reader.label, subs, bounds)? {
        Some(cells) => Ok(Need::Cells(access.array, cells)),
        None => Ok(Need::Impossible),
    }
}

/// What an instance needs to have the reader's label.
fn instance_need(
    alloc: Global,
    facts: &Facts,
    draft: &Draft,
    reader: Reader,
    statement: u16,
    point: &[Affine],
) -> Result<Need, Memory> {
    if let Some(known) = draft.label_of(statement) {
        let at_source = all_put(alloc, facts.params, known, point)?;
        if are_same(at_source.as_slice(), reader.label) {
            return Ok(Need::Nothing);
        }
        return Ok(Need::Impossible);
    }
    let access = &reader.read.access;
    match source_label(alloc, facts, reader.label, access, statement, point)? {
        Some(of_source) => Ok(Need::Instances(statement, of_source)),
        None => Ok(Need::Impossible),
    }
}

/// What the source at a leaf needs to have the reader's label.
fn need_at(
    alloc: Global,
    facts: &Facts,
    draft: &Draft,
    reader: Reader,
    leaf: &TreeLeaf,
) -> Result<Need, Memory> {
    match &leaf.origin {
        Origin::Unknown => Ok(Need::Impossible),
        Origin::Input => cell_need(alloc, facts, draft, reader, leaf),
        Origin::Instance { statement, point } => {
            instance_need(alloc, facts, draft, reader, *statement, point.as_slice())
        }
    }
}

/// Whether the first source of a read can have the reader's label.
fn may_begin(alloc: Global, facts: &Facts, draft: &Draft, reader: Reader) -> Result<bool, Memory> {
    match reader.read.leaves.as_slice().first() {
        Some(leaf) => {
            let need = need_at(alloc, facts, draft, reader, leaf)?;
            Ok(!matches!(need, Need::Impossible))
        }
        None => Ok(true),
    }
}

/// Labels of the sources of a read, by the reader's label: the draft with those that were missing, and the statements that
/// are new in it; nothing where a source can't have this label. Where leaves may be left out, the first source alone has to.
fn labelled(
    alloc: Global,
    facts: &Facts,
    draft: &mut Draft,
    reader: Reader,
    is_strict: bool,
) -> Result<Option<Vec<u16>>, Memory> {
    let mut fresh = Vec::new(alloc);
    let mut is_first = true;
    for leaf in reader.read.leaves.as_slice() {
        match need_at(alloc, facts, draft, reader, leaf)? {
            Need::Impossible if is_strict || is_first => return Ok(None),
            Need::Impossible | Need::Nothing => {}
            Need::Cells(array, label) => draft.put_cells(array, label),
            Need::Instances(statement, label) => {
                draft.put_label(statement, label);
                fresh.push(statement)?;
            }
        }
        is_first = false;
    }
    Ok(Some(fresh))
}

/// How well a read goes on the walk from a statement: by the word that the statement updates, by a word at the same
/// subscripts, or by another.
pub(crate) fn rank(facts: &Facts, statement: u16, read: &Access) -> u8 {
    let Some(source) = facts.statement(statement) else {
        return 2;
    };
    if !are_same(source.writes.subs.as_slice(), read.subs.as_slice()) {
        return 2;
    }
    if source.writes.array == read.array {
        0
    } else {
        1
    }
}

/// The draft with a step from a statement by a read, where its sources can have the label; and the statements that are new in
/// it.
pub(crate) fn stepped_by(
    alloc: Global,
    facts: &Facts,
    draft: &Draft,
    statement: u16,
    number: u16,
    is_strict: bool,
) -> Result<Option<(Draft, Vec<u16>)>, Memory> {
    let Some(label) = copied_label(alloc, draft.label_of(statement))? else {
        return Ok(None);
    };
    let Some(source) = facts.statement(statement) else {
        return Ok(None);
    };
    let Some(read) = facts.read(statement, number) else {
        return Ok(None);
    };
    let reader = Reader {
        bounds: source.nest.as_slice(),
        label: label.as_slice(),
        read,
    };
    if !may_begin(alloc, facts, draft, reader)? {
        return Ok(None);
    }
    let mut tried = copied(alloc, draft)?;
    match labelled(alloc, facts, &mut tried, reader, is_strict)? {
        Some(fresh) => {
            tried.put_step(statement, number, Vec::new(alloc));
            Ok(Some((tried, fresh)))
        }
        None => Ok(None),
    }
}

/// The draft with a step from a statement by its first read of a rank, whose sources can have the label; and the statements
/// that are new in it.
fn stepped(
    alloc: Global,
    facts: &Facts,
    draft: &Draft,
    statement: u16,
    wanted: u8,
    is_strict: bool,
) -> Result<Option<(Draft, Vec<u16>)>, Memory> {
    let Some(source) = facts.statement(statement) else {
        return Ok(None);
    };
    for (number, read) in source.reads.as_slice().iter().enumerate() {
        if rank(facts, statement, &read.access) == wanted {
            let found = stepped_by(alloc, facts, draft, statement, short(number), is_strict)?;
            if found.is_some() {
                return Ok(found);
            }
        }
    }
    Ok(None)
}

/// The draft with a step from a statement by the best of its reads.
fn best_step(
    alloc: Global,
    facts: &Facts,
    draft: &Draft,
    statement: u16,
) -> Result<Option<(Draft, Vec<u16>)>, Memory> {
    for turn in 0..6u8 {
        let found = stepped(alloc, facts, draft, statement, turn % 3, turn < 3)?;
        if found.is_some() {
            return Ok(found);
        }
    }
    Ok(None)
}

/// Whether a draft knows the label of a source of a read.
pub(crate) fn is_known(draft: &Draft, read: &ReadFacts) -> bool {
    read.leaves
        .as_slice()
        .iter()
        .any(|leaf| match &leaf.origin {
            Origin::Instance { statement, .. } => draft.label_of(*statement).is_some(),
            Origin::Input => draft.cell_label(read.access.array).is_some(),
            Origin::Unknown => false,
        })
}

/// Whether the cells of a read have the label of a start, where a draft knows theirs.
pub(crate) fn keeps_cells(
    alloc: Global,
    facts: &Facts,
    draft: &Draft,
    label: &[Affine],
    bounds: &[(Affine, Affine)],
    read: &ReadFacts,
) -> Result<bool, Memory> {
    let has_inputs = read
        .leaves
        .as_slice()
        .iter()
        .any(|leaf| matches!(leaf.origin, Origin::Input));
    let Some(known) = draft.cell_label(read.access.array) else {
        return Ok(true);
    };
    let subs = read.access.subs.as_slice();
    match all_combined(alloc, facts.params, label, subs, Some(bounds))? {
        Some(cells) => Ok(!has_inputs || are_same(cells.as_slice(), known)),
        None => Ok(!has_inputs),
    }
}

/// Whether an earlier read of a statement is of the same word.
pub(crate) fn is_repeated(own: &StatementFacts, number: usize) -> bool {
    let reads = own.reads.as_slice();
    let Some(read) = reads.get(number) else {
        return false;
    };
    let subs = read.access.subs.as_slice();
    reads.iter().take(number).any(|other| {
        other.access.array == read.access.array && are_same(other.access.subs.as_slice(), subs)
    })
}

/// A family that is asked for, which begins with what another one knows of words, if there is one. Where walks are to go on, they do so
/// from each statement that some read of it lets them.
pub(crate) fn drafted(
    alloc: Global,
    facts: &Facts,
    request: Request,
    seed: Option<&Draft>,
) -> Result<Option<Draft>, Memory> {
    let Some(own) = facts.statement(request.statement) else {
        return Ok(None);
    };
    let Some(start) = facts.read(request.statement, request.read) else {
        return Ok(None);
    };
    let reader = Reader {
        bounds: own.nest.as_slice(),
        label: request.label,
        read: start,
    };
    let empty = empty_draft(alloc, facts, request)?;
    let mut draft = seeded(alloc, empty, seed)?;
    let is_strict = request.choice == Choice::Strict;
    let Some(waiting) = labelled(alloc, facts, &mut draft, reader, is_strict)? else {
        return Ok(None);
    };
    match request.choice {
        _ if request.way == Way::Short => Ok(Some(draft)),
        Choice::Tried => searched(alloc, facts, own.depth(), draft, waiting),
        Choice::Strict | Choice::Loose => Ok(Some(with_steps(alloc, facts, draft, waiting)?)),
    }
}

/// The draft with steps from the statements that wait, and from those that these lead to.
fn with_steps(
    alloc: Global,
    facts: &Facts,
    mut draft: Draft,
    mut waiting: Vec<u16>,
) -> Result<Draft, Memory> {
    for _turn in 0..64 {
        let Some(next) = waiting.pop() else {
            return Ok(draft);
        };
        if let Some((with_step, fresh)) = best_step(alloc, facts, &draft, next)? {
            draft = with_step;
            for statement in fresh.as_slice() {
                waiting.push(*statement)?;
            }
        }
    }
    Ok(draft)
}
