//! Systems of walks.

use crate::frames::{Frame, nest_point, parameters, reference_at};
use crate::leaves::{Source, open_leaves};
use crate::points::{bound_rows, equal_rows, put_all};
use crate::said::{write_there, write_unlabelled};
use affine_form::{Form, Memory, Multipliers};
use asked_systems::{Says, Sum, System, behind, index_at, key_at};
use claims::Step;
use dep_quast::reader::Reader;
use plain_pages::Page;
use reuse_paths::{Aim, Kept, Leaf, Walk, Walking, instance_label, label_in, region_at};
use std::alloc::Global;

/// The instances of a statement at which a walk reads.
pub(crate) fn frame_of<'a>(walking: &Walking<'a>, statement: u16) -> Frame<'a> {
    Frame {
        program: walking.program,
        bounds: walking.nest.bounds(),
        statement,
    }
}

/// The label of a word: that of the statement that wrote it, with these loop values, or of the array that is read,
/// whose subscripts they are.
fn word_label<'a>(kept: Kept<'a>, source: Source<'_>, array: u16) -> Option<&'a [Form]> {
    match source {
        Source::Written { statement, .. } => instance_label(kept.nodes, statement),
        _ => label_in(kept.inputs, array),
    }
}

/// The goals of a word's label: that it is the reader's.
fn label_goals(
    alloc: Global,
    walking: &Walking<'_>,
    kept: Kept<'_>,
    reader: Reader,
    source: Source<'_>,
    values: &[Sum],
) -> Result<Vec<Sum>, Memory> {
    let frame = frame_of(walking, reader.statement);
    let Some(reference) = reference_at(walking.program, reader) else {
        return Ok(Vec::new(alloc));
    };
    let Some(label) = word_label(kept, source, reference.array) else {
        return Ok(Vec::new(alloc));
    };
    let point = frame.with_params(alloc, values)?;
    let word = put_all(alloc, frame.vars(), label, point.as_slice())?;
    let here = frame.reading_point(alloc)?;
    let own = put_all(alloc, frame.vars(), kept.reader, here.as_slice())?;
    equal_rows(alloc, word.as_slice(), own.as_slice())
}

/// The goals of an entry's rows: those of the region of the statement that wrote the word, at its loop values, or that
/// it is in a credited nest.
fn row_goals(
    alloc: Global,
    walking: &Walking<'_>,
    frame: Frame<'_>,
    entry: &Leaf,
    writer: u16,
    values: &[Sum],
) -> Result<Vec<Sum>, Memory> {
    let vars = frame.vars();
    if let (Leaf::Credit { credit, .. }, Aim::Keep(kept)) = (entry, walking.aim) {
        return match kept.credits.get(usize::from(*credit)) {
            Some(nest) => {
                let params = parameters(alloc, walking.program, vars)?;
                bound_rows(alloc, vars, nest.nest.bounds(), params.as_slice(), values)
            }
            None => Ok(Vec::new(alloc)),
        };
    }
    match region_at(walking, writer) {
        Some(region) => {
            let point = frame.with_nest(alloc, values)?;
            put_all(alloc, vars, region.rows.as_slice(), point.as_slice())
        }
        None => Ok(Vec::new(alloc)),
    }
}

/// The goals of an arrival: that these loop values are those of the spot at which a walk is to arrive.
fn arrival_goals(
    alloc: Global,
    walking: &Walking<'_>,
    frame: Frame<'_>,
    values: &[Sum],
) -> Result<Vec<Sum>, Memory> {
    let Aim::Arrive { target, .. } = walking.aim else {
        return Ok(Vec::new(alloc));
    };
    let vars = frame.vars();
    let outer = nest_point(alloc, walking.program, frame.bounds, vars)?;
    let there = put_all(alloc, vars, target.point.as_slice(), outer.as_slice())?;
    equal_rows(alloc, values, there.as_slice())
}

/// The loop values of the instance that wrote a word, or the subscripts of an input, at the reading instance.
pub(crate) fn word_point(
    alloc: Global,
    frame: Frame<'_>,
    reader: Reader,
    source: Source<'_>,
) -> Result<Vec<Sum>, Memory> {
    let here = frame.reading_point(alloc)?;
    let forms = match (source, reference_at(frame.program, reader)) {
        (Source::Written { point, .. }, _) => point,
        (Source::Input, Some(reference)) => reference.subs.as_slice(),
        _ => &[],
    };
    put_all(alloc, frame.vars(), forms, here.as_slice())
}

/// The goals of the list with this key of an entry, at a leaf whose word comes from this source.
fn goals_of(
    alloc: Global,
    walking: &Walking<'_>,
    reader: Reader,
    source: Source<'_>,
    entry: &Leaf,
    key: &str,
) -> Result<Vec<Sum>, Memory> {
    let frame = frame_of(walking, reader.statement);
    let values = word_point(alloc, frame, reader, source)?;
    match (key, source, walking.aim) {
        ("label" | "stop", _, Aim::Keep(kept)) => {
            label_goals(alloc, walking, kept, reader, source, values.as_slice())
        }
        ("rows", Source::Written { statement, .. }, _) => {
            row_goals(alloc, walking, frame, entry, statement, values.as_slice())
        }
        ("arrive", _, _) => arrival_goals(alloc, walking, frame, values.as_slice()),
        _ => Ok(Vec::new(alloc)),
    }
}

/// The multipliers of the list with this key of an entry.
fn shown_of<'a>(entry: &'a Leaf, key: &str) -> &'a [Multipliers] {
    match (entry, key) {
        (Leaf::Stop { label }, "stop") => label.as_slice(),
        (Leaf::Credit { rows, .. } | Leaf::Go { rows, .. }, "rows") => rows.as_slice(),
        (Leaf::Credit { label, .. } | Leaf::Go { label, .. }, "label") => label.as_slice(),
        (Leaf::Arrive { equal }, "arrive") => equal.as_slice(),
        _ => &[],
    }
}

/// Writes a system with the goal of this number and its multipliers, where both are there.
pub(crate) fn write_goal(
    page: &mut Page,
    system: &System,
    goals: &[Sum],
    shown: &[Multipliers],
    number: Option<usize>,
) -> Result<(), Memory> {
    let Some(number) = number else {
        return Ok(());
    };
    match (goals.get(number), shown.get(number)) {
        (Some(goal), Some(shown)) => system.write(page, goal, shown),
        _ => Ok(()),
    }
}

/// Writes a system in which multipliers are to show that there is no point.
pub(crate) fn write_pointless(
    page: &mut Page,
    system: &System,
    shown: &Multipliers,
) -> Result<(), Memory> {
    let goal = Sum::new(page.alloc(), system.vars(), -1)?;
    system.write(page, &goal, shown)
}

/// Writes what an entry at a leaf has against it as a whole: that its word has no label, or of which kind the word and
/// the entry are.
fn write_entry(
    page: &mut Page,
    walking: &Walking<'_>,
    reader: Reader,
    source: Source<'_>,
    entry: &Leaf,
) -> Result<(), Memory> {
    match reference_at(walking.program, reader) {
        Some(reference) if walking.condition == 14 => write_unlabelled(page, source, reference),
        _ => write_there(page, source, entry),
    }
}

/// Writes what is asked at a place of an entry at a leaf, in the system with the leaf's tests.
fn write_at_entry(
    page: &mut Page,
    walking: &Walking<'_>,
    reader: Reader,
    system: &System,
    source: Source<'_>,
    entry: &Leaf,
    steps: &[Step],
) -> Result<(), Memory> {
    let Some(key) = key_at(steps, 0) else {
        return write_entry(page, walking, reader, source, entry);
    };
    if let Leaf::Empty(shown) = entry {
        return write_pointless(page, system, shown);
    }
    let goals = goals_of(page.alloc(), walking, reader, source, entry, key)?;
    let number = index_at(steps, 1);
    write_goal(page, system, goals.as_slice(), shown_of(entry, key), number)
}

/// Writes what is asked at a place of the entries at the leaves of a read's source tree, from readers that meet a
/// system's rows.
fn write_taken(
    page: &mut Page,
    walking: &Walking<'_>,
    reader: Reader,
    system: &System,
    entries: &[Leaf],
    steps: &[Step],
) -> Result<(), Memory> {
    let alloc = page.alloc();
    let Some(number) = index_at(steps, 1) else {
        return Ok(());
    };
    let frame = frame_of(walking, reader.statement);
    let point = frame.reading_point(alloc)?;
    let leaves = open_leaves(
        alloc,
        walking.quasts,
        reader,
        frame.vars(),
        point.as_slice(),
    )?;
    let (Some(leaf), Some(entry)) = (leaves.get(number), entries.get(number)) else {
        return Ok(());
    };
    let mut inner = system.try_clone(alloc)?;
    inner.push_all(alloc, leaf.tests.as_slice(), Says::Test)?;
    let rest = behind(steps, 2);
    write_at_entry(page, walking, reader, &inner, leaf.source, entry, rest)
}

/// A system with one row more, that of a walk's or a split's test on the side of `yes`, or of `no`.
pub(crate) fn with_test(
    alloc: Global,
    system: &System,
    form: &Form,
    yes: bool,
    says: Says,
) -> Result<System, Memory> {
    let mut inner = system.try_clone(alloc)?;
    let at = Sum::of(alloc, system.vars(), form)?;
    let row = if yes { at } else { at.opposite(alloc)? };
    inner.push(row, says)?;
    Ok(inner)
}

/// Writes what is asked at a place of a walk, from instances of a statement that meet a system's rows.
pub(crate) fn write_walk(
    page: &mut Page,
    walking: &Walking<'_>,
    statement: u16,
    system: &System,
    walk: &Walk,
    steps: &[Step],
) -> Result<(), Memory> {
    match walk {
        Walk::Test { form, yes, no } => {
            let is_yes = key_at(steps, 0) == Some("yes");
            let inner = with_test(page.alloc(), system, form, is_yes, Says::Walk)?;
            let rest = behind(steps, 1);
            if is_yes {
                write_walk(page, walking, statement, &inner, yes, rest)
            } else {
                write_walk(page, walking, statement, &inner, no, rest)
            }
        }
        Walk::Take { read, leaves } => {
            let reader = Reader {
                statement,
                read: *read,
            };
            write_taken(page, walking, reader, system, leaves.as_slice(), steps)
        }
    }
}

/// The system of a region's instances: those of the readers, with these rows of its own.
pub(crate) fn region_system(
    alloc: Global,
    walking: &Walking<'_>,
    statement: u16,
    rows: &[Form],
) -> Result<System, Memory> {
    let frame = frame_of(walking, statement);
    let mut system = frame.system(alloc)?;
    for row in rows {
        system.push(Sum::of(alloc, frame.vars(), row)?, Says::Region)?;
    }
    Ok(system)
}
