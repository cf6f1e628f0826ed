//! Schedules, explained.

ghost use Rattle.std.specs.Prelude.{◌≡◌, length, IfOk};
ghost use Rattle.std.specs.List.{AllByRecursion};
ghost use Rattle.affine_form.specs.Form.{IsSmall};
ghost use Rattle.affine_program.specs.Parts.{meaning};
ghost use Rattle.tile_sched.specs.Schedules.{IsSchedule};
ghost use Rattle.iolb_model.specs.declared.limits.TheConstants.{VALUE_SIZE};

use crate::programs::program_in;
use crate::sizes::sizes_for;
use crate::stop::Stop;
use affine_form::Memory;
use affine_program::Program;
use comparisons::{Capacity, Played, play_schedule};
use loop_graph::{Run, values_of};
use named_vertices::{Unnamed, find_instances, named_at, write_named};
use plain_pages::Page;
use refusal_words::write_unscheduled;
use std::alloc::Global;
use tile_sched::{PlayFault, SchedError, SchedFault, Schedule, Unplayed, read_schedule};

/// So many words that no instance needs more.
const ENOUGH: Capacity = Capacity { words: 1 << 40 };

/// What is said of the fault of this number of a schedule's text.
fn fault_words(number: u8) -> &'static str {
    match number {
        1 => "the text isn't JSON",
        2 =>
            "the text has another shape than a schedule: `{\"keys\":[[[F, divisor], ..], ..]}`, a list for each statement",
        _ => "a limit is passed: 8 keys, divisors from 1 to 2^20, numbers of size below 2^20",
    }
}

/// The stop where the text of a schedule of a program, which the file of this name has, has a fault.
fn text_stop(
    alloc: Global,
    program: &Program,
    name: &str,
    text: &[u8],
    fault: &SchedFault,
) -> Stop {
    let mut page = Page::new(alloc);
    match write_unscheduled(
        &mut page,
        name,
        text,
        program,
        fault.number,
        fault_words(fault.number),
        &fault.place,
    ) {
        Ok(()) => Stop::Wrong(page),
        Err(_) => Stop::Memory,
    }
}

/// The schedule of a program that the file of this name has as its text.
pub(crate) fn schedule_in(
    alloc: Global,
    program: &Program,
    name: &str,
    text: &[u8],
) -> Result<Schedule, Stop>
    ensures { IfOk result (λ schedule. IsSchedule (meaning program.now) schedule) }
{
    match read_schedule(alloc, text, program) {
        Ok(schedule) => Ok(schedule),
        Err(SchedError::Fault(fault)) => Err(text_stop(alloc, program, name, text, &fault)),
        Err(SchedError::Memory) => Err(Stop::Memory),
    }
}

/// Writes a vertex by its number and its name.
fn write_vertex(
    alloc: Global,
    page: &mut Page,
    program: &Program,
    all: &[Run],
    vertex: u32,
) -> Result<(), Memory> {
    page.text(format!(in alloc; "vertex {vertex}, ")?.as_str())?;
    match named_at(alloc, program, all, vertex as usize) {
        Ok(named) => write_named(page, program, &named),
        Err(Unnamed::Memory) => Err(Memory),
        Err(_) => Ok(()),
    }
}

/// Writes that an instance comes before one whose value it reads, or that it needs more words than there are.
fn write_instances(
    alloc: Global,
    page: &mut Page,
    program: &Program,
    all: &[Run],
    unplayed: Unplayed,
) -> Result<(), Memory> {
    match unplayed {
        Unplayed::Assumption(number) => page.line(format!(in alloc;
            "assumption {number}, counted from 0, is false at these sizes"
        )?.as_str())?,
        Unplayed::TooMany => page.line("there are more than 2097152 vertices at these sizes")?,
        Unplayed::OutOfOrder { vertex, source } => {
            write_vertex(alloc, page, program, all, vertex)?;
            page.text(", comes before ")?;
            write_vertex(alloc, page, program, all, source)?;
            page.line(", whose value it reads")?;
        }
        Unplayed::TooSmall { vertex, need } => {
            write_vertex(alloc, page, program, all, vertex)?;
            page.line(format!(in alloc; ", needs {need} words at once")?.as_str())?;
        }
    }
    Ok(())
}

/// Writes why a schedule isn't played at these sizes.
pub(crate) fn write_unplayed(
    alloc: Global,
    page: &mut Page,
    program: &Program,
    sizes: &[i64],
    unplayed: Unplayed,
) -> Result<(), Memory>
    requires each { length sizes.now ≡ length program.now.params }
    requires small { AllByRecursion (IsSmall VALUE_SIZE) sizes.now }
{
    let values = values_of(alloc, sizes)?;
    match find_instances(alloc, program, values.as_slice()) {
        Ok(all) => write_instances(alloc, page, program, all.as_slice(), unplayed),
        Err(Unnamed::Memory) => Err(Memory),
        Err(_) => write_instances(alloc, page, program, &[], unplayed),
    }
}

/// The stop where a schedule isn't played at these sizes.
pub(crate) fn unplayed_stop(
    alloc: Global,
    program: &Program,
    sizes: &[i64],
    unplayed: Unplayed,
) -> Stop
    requires each { length sizes.now ≡ length program.now.params }
    requires small { AllByRecursion (IsSmall VALUE_SIZE) sizes.now }
{
    let mut page = Page::new(alloc);
    match write_unplayed(alloc, &mut page, program, sizes, unplayed) {
        Ok(()) => Stop::Wrong(page),
        Err(Memory) => Stop::Memory,
    }
}

/// The page of a schedule that loads and stores so many words with room for all.
fn totals_page(alloc: Global, loads: u64, stores: u64) -> Result<Page, Memory> {
    let mut page = Page::new(alloc);
    page.line("each instance comes after those whose values it reads")?;
    page.line(format!(in alloc;
        "with room for all words it loads {loads} and stores {stores}"
    )?.as_str())?;
    Ok(page)
}

/// The page about a schedule of a program at these sizes.
fn order_answer(
    alloc: Global,
    program: &Program,
    schedule: &Schedule,
    sizes: &[i64],
) -> Result<Page, Stop>
    requires each { length sizes.now ≡ length program.now.params }
    requires small { AllByRecursion (IsSmall VALUE_SIZE) sizes.now }
    requires schedule { IsSchedule (meaning program.now) schedule.now }
{
    let outcome = match play_schedule(alloc, program, schedule, sizes, &[ENOUGH]) {
        Ok(all) => all.as_slice().first().copied(),
        Err(PlayFault::Refused(unplayed)) => Some(Played::Refused(unplayed)),
        Err(PlayFault::Memory) => return Err(Stop::Memory),
    };
    match outcome {
        Some(Played::Refused(unplayed)) => Err(unplayed_stop(alloc, program, sizes, unplayed)),
        Some(Played::Totals { loads, stores }) => Ok(totals_page(alloc, loads, stores)?),
        None => Ok(Page::new(alloc)),
    }
}

/// The page about a schedule, by words: the names of the program's file and of the schedule's, and sizes.
pub(crate) fn schedule_answer(
    alloc: Global,
    words: &[String],
    text: &[u8],
    schedule: &[u8],
) -> Result<Page, Stop> {
    let [file, name, given @ ..] = words else {
        return Err(Stop::Words);
    };
    let program = program_in(alloc, file.as_str(), text)?;
    let sizes = sizes_for(alloc, program.params(), given)?;
    let schedule = schedule_in(alloc, &program, name.as_str(), schedule)?;
    order_answer(alloc, &program, &schedule, sizes.as_slice())
}
