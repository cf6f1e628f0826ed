//! Families with a start from each part: walks that give words one label are in one labeling, and those that go on alike in one way.

use crate::drafts::{Draft, Node, Step, copied, copied_node};
use affine_facts::affine::{Affine, copies};
use affine_facts::numbers::short;
use affine_facts::shown::are_same;
use affine_form::Memory;
use joint_partition::limits::{LABELINGS, WAYS};
use std::alloc::Global;

/// A way of a family's walks: what is known of words on it, and the number of its labeling.
#[derive(Drop)]
pub(crate) struct Course {
    pub(crate) labeling: usize,
    pub(crate) draft: Draft,
}

/// How walks start from a part: by a read at a label, and the number of the way that they enter.
#[derive(Drop)]
pub(crate) struct Opening {
    pub(crate) course: usize,
    pub(crate) read: u16,
    pub(crate) label: Vec<Affine>,
}

/// A family with a start from each part. The ways of one labeling have the same labels.
#[derive(Drop)]
pub(crate) struct Merged {
    pub(crate) set: Vec<u8>,
    pub(crate) openings: Vec<Opening>,
    pub(crate) courses: Vec<Course>,
}

impl Merged {
    /// How many labelings there are.
    pub(crate) fn labelings(&self) -> usize {
        let mut count: usize = 0;
        for course in self.courses.as_slice() {
            count = count.max(course.labeling.saturating_add(1));
        }
        count
    }
}

/// Whether two labels are one, where both are there.
fn agree(first: Option<&[Affine]>, second: Option<&[Affine]>) -> bool {
    match (first, second) {
        (Some(one), Some(other)) => are_same(one, other),
        _ => true,
    }
}

/// Whether two drafts give words the same labels, where both give one.
fn same_labels(first: &Draft, second: &Draft) -> bool {
    let same_instances = (0..first.nodes.len()).all(|number| {
        let statement = short(number);
        agree(first.label_of(statement), second.label_of(statement))
    });
    let same_cells = (0..first.cells.len()).all(|number| {
        let array = short(number);
        agree(first.cell_label(array), second.cell_label(array))
    });
    same_instances && same_cells
}

/// Whether walks go on by the same step from a statement.
fn same_step(first: Option<&Step>, second: Option<&Step>) -> bool {
    match (first, second) {
        (None, None) => true,
        (Some(one), Some(other)) => one.read == other.read
            && are_same(one.rows.as_slice(), other.rows.as_slice()),
        _ => false,
    }
}

/// Whether the walks of two drafts go on alike from each statement to which both come.
fn same_steps(first: &Draft, second: &Draft) -> bool {
    (0..first.nodes.len()).all(|number| {
        let statement = short(number);
        let both = first.label_of(statement).is_some() && second.label_of(statement).is_some();
        !both || same_step(first.step_of(statement), second.step_of(statement))
    })
}

/// A draft with the nodes of another where it has none; without their steps, where only labels are wanted.
fn with_nodes(
    alloc: Global,
    mut draft: Draft,
    other: &Draft,
    with_steps: bool,
) -> Result<Draft, Memory> {
    for (node, more) in draft.nodes.iter_mut().zip(other.nodes.as_slice().iter()) {
        if let (true, Some(more)) = (node.is_none(), more) {
            *node = Some(if with_steps {
                copied_node(alloc, more)?
            } else {
                Node {
                    label: copies(alloc, more.label.as_slice())?,
                    step: None,
                }
            });
        }
    }
    Ok(draft)
}

/// A draft with the labels of another's cells where it has none.
fn with_cells(alloc: Global, mut draft: Draft, other: &Draft) -> Result<Draft, Memory> {
    for (cells, more) in draft.cells.iter_mut().zip(other.cells.as_slice().iter()) {
        if let (true, Some(more)) = (cells.is_none(), more) {
            *cells = Some(copies(alloc, more.as_slice())?);
        }
    }
    Ok(draft)
}

/// The ways with the labels of a draft, in the labeling of this number; one of them with its steps too.
fn courses_with(
    alloc: Global,
    courses: Vec<Course>,
    draft: &Draft,
    labeling: usize,
    entered: usize,
) -> Result<Vec<Course>, Memory> {
    let mut all = Vec::new(alloc);
    for (number, course) in courses.into_iter().enumerate() {
        if course.labeling == labeling {
            let with = with_nodes(alloc, course.draft, draft, number == entered)?;
            all.push(Course {
                labeling,
                draft: with_cells(alloc, with, draft)?,
            })?;
        } else {
            all.push(course)?;
        }
    }
    Ok(all)
}

/// The labeling with which the labels of a draft agree, and the way in it whose walks go on alike.
struct Match {
    labeling: usize,
    course: Option<usize>,
}

/// Where a draft fits among ways.
fn matching(courses: &[Course], draft: &Draft) -> Option<Match> {
    let first = courses
        .iter()
        .find(|course| same_labels(&course.draft, draft))?;
    let labeling = first.labeling;
    let course = courses.iter().position(|course| course.labeling == labeling
        && same_steps(&course.draft, draft));
    Some(Match { labeling, course })
}

/// A way of its own for a draft, with the labels of those of its labeling.
fn course_of(
    alloc: Global,
    courses: &[Course],
    draft: &Draft,
    labeling: usize,
) -> Result<Course, Memory> {
    let mut own = copied(alloc, draft)?;
    if let Some(other) = courses.iter().find(|course| course.labeling == labeling) {
        let with = with_nodes(alloc, own, &other.draft, false)?;
        own = with_cells(alloc, with, &other.draft)?;
    }
    Ok(Course {
        labeling,
        draft: own,
    })
}

/// A family with a start more.
fn with_start(alloc: Global, merged: Merged, draft: &Draft) -> Result<Merged, Memory> {
    let labelings = merged.labelings();
    let Merged {
        set,
        mut openings,
        courses,
    } = merged;
    let (labeling, course) = match matching(courses.as_slice(), draft) {
        Some(Match { labeling, course }) => (labeling, course),
        None => (labelings, None),
    };
    let entered = course.unwrap_or(courses.len());
    let mut courses = courses_with(alloc, courses, draft, labeling, entered)?;
    if course.is_none() {
        let own = course_of(alloc, courses.as_slice(), draft, labeling)?;
        courses.push(own)?;
    }
    openings.push(Opening {
        course: entered,
        read: draft.read,
        label: copies(alloc, draft.label.as_slice())?,
    })?;
    Ok(Merged {
        set,
        openings,
        courses,
    })
}

/// The family of drafts, one for each part, where its labelings and ways are within the limits.
pub(crate) fn merge_drafts(alloc: Global, drafts: &[Draft]) -> Result<Option<Merged>, Memory> {
    let set = match drafts.first() {
        Some(draft) => Vec::from_slice(alloc, draft.set.as_slice())?,
        None => return Ok(None),
    };
    let mut all = Merged {
        set,
        openings: Vec::new(alloc),
        courses: Vec::new(alloc),
    };
    for draft in drafts {
        all = with_start(alloc, all, draft)?;
    }
    if all.labelings() > LABELINGS || all.courses.len() > WAYS {
        return Ok(None);
    }
    Ok(Some(all))
}
