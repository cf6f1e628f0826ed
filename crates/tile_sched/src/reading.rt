//! Reading schedules.

ghost use Rattle.std.specs.Prelude.{◌≡◌, ◌<◌, ◌^◌, length, map, IfOk};
ghost use Rattle.json_values.specs.View.{json_data};
ghost use Rattle.affine_program.specs.Parts.{meaning};
ghost use Rattle.json_parts.specs.Outcome.{Gives};
ghost use Rattle.certificate_parts.specs.Matrices.{columns_of};
ghost use Rattle.tile_sched.specs.Schedules.{rows_of, key_variables, IsSchedule};
ghost use Rattle.tile_sched.specs.Reading.{reads_form_over, reads_key, reads_key_list, reads_keys, reads_all, reads_schedule as schedule_in};
ghost use Rattle.tile_sched.specs.Texts.{ReadsText};

use crate::error::{SchedError, schedule_error};
use crate::schedule::{Key, Schedule};
use affine_form::Form;
use affine_program::Program;
use certificate_parts::OfForm;
use claims::{ObjectKey, Step};
use iolb_model::limits;
use json_parts::{CertError, Part, fault, has_keys, list, natural, under};
use json_values::{Json, JsonError};
use std::alloc::Global;

/// A form over so many variables. Another length has fault 2.
#[tactic(auto, unfolding(crate::specs::Reading::reads_form_over))]
fn form_over(alloc: Global, value: &Json, variables: usize) -> Result<Form, CertError>
    requires { variables < 2 ^ 32 }
    ensures { Gives (λ form. form) result (reads_form_over variables (json_data value.now)) }
{
    let numbers = list(alloc, value)?;
    if numbers.len() == variables + 1 {
        let form = <OfForm as Part>::read(alloc, value)?;
        Ok(form)
    } else {
        Err(fault(alloc, 2))
    }
}

/// A key over so many variables: its form, then its divisor.
#[tactic(auto, unfolding(crate::specs::Reading::reads_key))]
fn one_key(alloc: Global, value: &Json, variables: usize) -> Result<Key, CertError>
    requires { variables < 2 ^ 32 }
    ensures { Gives (λ key. key) result (reads_key variables (json_data value.now)) }
{
    let values = list(alloc, value)?;
    if values.len() != 2 {
        return Err(fault(alloc, 2));
    }
    let form = match form_over(alloc, &values[0], variables) {
        Ok(form) => form,
        Err(error) => return Err(under(alloc, Step::Index(0), error)),
    };
    match natural(alloc, &values[1], 1, u64::from(limits::DIVISOR)) {
        Ok(divisor) => Ok(Key {
            form,
            divisor: divisor as u32,
        }),
        Err(error) => Err(under(alloc, Step::Index(1), error)),
    }
}

/// The members of an array of so many. Another length has fault 2, and a length above the limit fault 3.
#[tactic(auto, unfolding(crate::specs::Reading::reads_key_list))]
fn key_list(alloc: Global, value: &Json, count: usize) -> Result<&[Json], CertError>
    ensures { Gives (λ list. map json_data list.now) result (reads_key_list count (json_data value.now)) }
{
    let values = list(alloc, value)?;
    if values.len() != count {
        return Err(fault(alloc, 2));
    }
    if count <= limits::SCHEDULE_KEYS {
        Ok(values)
    } else {
        Err(fault(alloc, 3))
    }
}

/// The keys of a statement: so many, each over so many variables.
#[tactic(auto, unfolding(crate::specs::Reading::reads_keys))]
fn keys(alloc: Global, value: &Json, count: usize, variables: usize) -> Result<Vec<Key>, CertError>
    requires { variables < 2 ^ 32 }
    ensures { Gives (λ keys. keys.items) result (reads_keys count variables (json_data value.now)) }
{
    let values = key_list(alloc, value, count)?;
    let mut keys = Vec::new(alloc);
    for (i, value) in values.iter().enumerate() {
        match one_key(alloc, value, variables) {
            Ok(found) => keys.push(found)?,
            Err(error) => return Err(under(alloc, Step::Index(i as u64), error)),
        }
    }
    Ok(keys)
}

/// How many variables the keys of a statement have.
fn variables_of(program: &Program, statement: usize) -> usize
    requires { statement < length program.now.statements }
    ensures value { result ≡ key_variables (meaning program.now) statement }
    ensures small { result < 2 ^ 32 }
{
    let params = program.params();
    params.len() + program.statements()[statement].bounds.as_slice().len()
}

/// How many members the first array has.
fn first_count(values: &[Json]) -> usize
    ensures { result ≡ columns_of (map json_data values.now) }
{
    if values.is_empty() {
        return 0;
    }
    match values[0].as_array() {
        Some(members) => members.len(),
        None => 0,
    }
}

/// The keys of each statement: as many for each as the first has.
#[tactic(auto, unfolding(crate::specs::Reading::reads_all))]
fn rows(alloc: Global, program: &Program, value: &Json) -> Result<Vec<Vec<Key>>, CertError>
    ensures { Gives (λ rows. rows_of rows.items) result (reads_all (meaning program.now) (json_data value.now)) }
{
    let values = list(alloc, value)?;
    if values.len() != program.statements().len() {
        return Err(fault(alloc, 2));
    }
    let count = first_count(values);
    let mut rows = Vec::new(alloc);
    for (i, value) in values.iter().enumerate() {
        match keys(alloc, value, count, variables_of(program, i)) {
            Ok(found) => rows.push(found)?,
            Err(error) => return Err(under(alloc, Step::Index(i as u64), error)),
        }
    }
    Ok(rows)
}

/// A schedule of a program.
#[tactic(auto, unfolding(crate::specs::Reading::reads_schedule, json_parts::specs::Json::with_keys))]
fn schedule(alloc: Global, program: &Program, value: &Json) -> Result<Schedule, CertError>
    ensures { Gives (λ schedule. schedule) result (schedule_in (meaning program.now) (json_data value.now)) }
{
    if !has_keys(value, &["keys"]) {
        return Err(fault(alloc, 2));
    }
    let Some(member) = value.get("keys") else {
        return Err(fault(alloc, 2));
    };
    match rows(alloc, program, member) {
        Ok(rows) => Ok(Schedule::new(rows)),
        Err(error) => Err(under(alloc, Step::Key(ObjectKey("keys")), error)),
    }
}

/// Reads the text of a schedule of a program.
///
/// # Errors
///
/// The first fault of the text: 1, at the whole, where it is no JSON; else the first in one walk over the value: 2 where
/// a value has another shape, or a list another length than the program calls for, 3 where a limit is passed. Want of
/// memory, at any time.
pub fn read_schedule(alloc: Global, bytes: &[u8], program: &Program) -> Result<Schedule, SchedError>
    ensures read { ReadsText (meaning program.now) bytes.now result }
    ensures fits { IfOk result (IsSchedule (meaning program.now)) }
{
    let value = match Json::from_slice(alloc, bytes) {
        Ok(value) => value,
        Err(JsonError::Memory) => return Err(SchedError::Memory),
        Err(JsonError::NoJson) => return Err(schedule_error(fault(alloc, 1))),
    };
    match schedule(alloc, program, &value) {
        Ok(schedule) => Ok(schedule),
        Err(error) => Err(schedule_error(error)),
    }
}
