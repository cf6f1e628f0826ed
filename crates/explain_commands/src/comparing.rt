//! Schedules beside a bound.

ghost use Rattle.std.specs.Prelude.{◌≡◌, length};
ghost use Rattle.std.specs.List.{AllByRecursion};
ghost use Rattle.affine_form.specs.Form.{IsSmall};
ghost use Rattle.iolb_model.specs.declared.limits.TheConstants.{VALUE_SIZE};

use crate::certificates::Given;
use crate::programs::program_in;
use crate::schedules::{schedule_in, unplayed_stop, write_unplayed};
use crate::sizes::sizes_for;
use crate::stop::{Stop, wrong};
use affine_form::Memory;
use affine_program::Program;
use comparisons::{
    Capacity, Played, Row, ScheduleText, Shape, play_schedule, put_choices, write_head, write_row,
};
use iolb_check::{Bound, ValueFault};
use plain_pages::Page;
use std::alloc::Global;
use tile_sched::PlayFault;

/// What is compared: schedules, with capacities of the fast memory, in a table of this shape.
#[derive(Clone, Copy)]
pub(crate) struct Compared<'a> {
    pub(crate) shape: Shape,
    pub(crate) schedules: &'a [ScheduleText],
    pub(crate) capacities: &'a [Capacity],
}

/// The schedules that texts have, each with the divisors that are chosen where it has lists of them.
pub(crate) fn schedules_in(
    alloc: Global,
    names: &[String],
    texts: &[Vec<u8>],
) -> Result<Vec<ScheduleText>, Stop> {
    let mut all = Vec::new(alloc);
    for (name, text) in names.iter().zip(texts) {
        if !put_choices(alloc, name.as_str(), text.as_slice(), &mut all)? {
            return Err(wrong(
                alloc,
                name.as_str(),
                ": error: the lists of divisors have more than 256 choices",
            ));
        }
    }
    Ok(all)
}

/// What comes of a schedule with each capacity.
fn plays_of(
    alloc: Global,
    program: &Program,
    capacities: &[Capacity],
    sizes: &[i64],
    text: &ScheduleText,
) -> Result<Vec<Played>, Stop>
    requires each { length sizes.now ≡ length program.now.params }
    requires small { AllByRecursion (IsSmall VALUE_SIZE) sizes.now }
{
    let schedule = schedule_in(alloc, program, text.name.as_str(), text.bytes.as_slice())?;
    match play_schedule(alloc, program, &schedule, sizes, capacities) {
        Ok(all) => Ok(all),
        Err(PlayFault::Refused(unplayed)) => Err(unplayed_stop(alloc, program, sizes, unplayed)),
        Err(PlayFault::Memory) => Err(Stop::Memory),
    }
}

/// What comes of each schedule with each capacity.
fn all_plays(
    alloc: Global,
    program: &Program,
    compared: Compared<'_>,
    sizes: &[i64],
) -> Result<Vec<Vec<Played>>, Stop>
    requires each { length sizes.now ≡ length program.now.params }
    requires small { AllByRecursion (IsSmall VALUE_SIZE) sizes.now }
{
    let mut all = Vec::new(alloc);
    for text in compared.schedules {
        all.push(plays_of(alloc, program, compared.capacities, sizes, text)?)?;
    }
    Ok(all)
}

/// Writes the rows of the capacity of this number, one for each schedule.
fn write_rows(
    page: &mut Page,
    compared: Compared<'_>,
    all: &[Vec<Played>],
    number: usize,
    capacity: Capacity,
    bound: u128,
) -> Result<(), Memory> {
    for (schedule, played) in compared.schedules.iter().zip(all) {
        if let Some(played) = played.as_slice().get(number) {
            let row = Row {
                s: capacity.words,
                bound,
                schedule: schedule.name.as_str(),
                played: *played,
            };
            write_row(page, compared.shape, row)?;
        }
    }
    Ok(())
}

/// The table of plays beside a bound.
fn table(
    alloc: Global,
    compared: Compared<'_>,
    bound: &Bound,
    sizes: &[i64],
    all: &[Vec<Played>],
) -> Result<Page, Stop>
    requires each { length sizes.now ≡ bound.now.assumed.vars }
    requires small { AllByRecursion (IsSmall VALUE_SIZE) sizes.now }
{
    let mut page = Page::new(alloc);
    write_head(&mut page, compared.shape)?;
    for (number, capacity) in compared.capacities.iter().enumerate() {
        let capacity = *capacity;
        match bound.value(sizes, capacity.words) {
            Ok(value) => write_rows(&mut page, compared, all, number, capacity, value)?,
            Err(ValueFault::OutsideAssumption(_) | ValueFault::Wide) => {
                return Err(wrong(
                    alloc,
                    "the bound has no value below 2^128 at these sizes",
                    "",
                ));
            }
        }
    }
    Ok(page)
}

/// Writes why a schedule isn't played with each of its capacities with which it isn't; one reason in a row stands once.
fn write_reasons_of(
    alloc: Global,
    page: &mut Page,
    program: &Program,
    capacities: &[Capacity],
    sizes: &[i64],
    name: &str,
    played: &[Played],
) -> Result<(), Memory>
    requires each { length sizes.now ≡ length program.now.params }
    requires small { AllByRecursion (IsSmall VALUE_SIZE) sizes.now }
{
    let mut last = None;
    for (capacity, outcome) in capacities.iter().zip(played) {
        if let Played::Refused(unplayed) = outcome {
            if last != Some(*unplayed) {
                let words = capacity.words;
                page.text(name)?;
                page.text(format!(in alloc; ": with S = {words} ")?.as_str())?;
                write_unplayed(alloc, page, program, sizes, *unplayed)?;
            }
            last = Some(*unplayed);
        }
    }
    Ok(())
}

/// Writes of each schedule that isn't played with some capacities why it isn't.
fn write_reasons(
    alloc: Global,
    page: &mut Page,
    program: &Program,
    compared: Compared<'_>,
    sizes: &[i64],
    all: &[Vec<Played>],
) -> Result<(), Memory>
    requires each { length sizes.now ≡ length program.now.params }
    requires small { AllByRecursion (IsSmall VALUE_SIZE) sizes.now }
{
    for (schedule, played) in compared.schedules.iter().zip(all) {
        let (name, capacities) = (schedule.name.as_str(), compared.capacities);
        write_reasons_of(
            alloc,
            page,
            program,
            capacities,
            sizes,
            name,
            played.as_slice(),
        )?;
    }
    Ok(())
}

/// The table for a bound of a program. Where some schedule isn't played with some capacity, it is what was found wrong.
fn answer_for(
    alloc: Global,
    program: &Program,
    bound: &Bound,
    compared: Compared<'_>,
    sizes: &[i64],
) -> Result<Page, Stop>
    requires assumed { bound.now.assumed ≡ program.now.assumed }
    requires each { length sizes.now ≡ length program.now.params }
    requires small { AllByRecursion (IsSmall VALUE_SIZE) sizes.now }
{
    let _params = program.params();
    let all = all_plays(alloc, program, compared, sizes)?;
    let mut page = table(alloc, compared, bound, sizes, all.as_slice())?;
    let mut reasons = Page::new(alloc);
    write_reasons(
        alloc,
        &mut reasons,
        program,
        compared,
        sizes,
        all.as_slice(),
    )?;
    if reasons.is_empty() {
        return Ok(page);
    }
    if compared.shape == Shape::Text {
        page.write_bytes(reasons.bytes())?;
    }
    Err(Stop::Wrong(page))
}

/// The answer by the texts of a program, which the file of this name has, and of a certificate, and words that give sizes.
pub(crate) fn compare_answer(
    alloc: Global,
    file: &str,
    text: &[u8],
    certificate: Given<'_>,
    compared: Compared<'_>,
    given: &[String],
) -> Result<Page, Stop> {
    let program = program_in(alloc, file, text)?;
    let sizes = sizes_for(alloc, program.params(), given)?;
    let stated = certificate.certificate(alloc)?;
    let bound = certificate.bound(alloc, &program, &stated)?;
    answer_for(alloc, &program, &bound, compared, sizes.as_slice())
}
