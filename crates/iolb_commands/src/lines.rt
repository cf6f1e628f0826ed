//! The lines that are written to the standard error.

ghost use Rattle.std.specs.Prelude.{◌≡◌, ◌++◌, ℕ, codes, decimal, IfOk};
ghost use Rattle.iolb_commands.specs.Lines.{usage, out_of_memory, file_line as line_of_file, program_line as line_of_program, place_part as part_of_place, text_line as line_of_text, other_line as line_of_other, refusal_line as line_of_refusal, refused_line as line_of_refused, assumption_line as line_of_assumption, unplayed_line as line_of_unplayed, moves_line as line_of_moves, illegal_line as line_of_illegal, not_complete_line as line_of_not_complete};
ghost use Rattle.command_words.specs.Requests.{bytes_of};
ghost use Rattle.iolb_commands.specs.Stop.{stop_line as line_of_stop};

use crate::pointer_text::pointer_text;
use crate::stop::{OtherFault, Refusal, Stop};
use affine_c::ProgramFault;
use affine_form::Memory;
use claims::{FailedCondition, Place};
use command_words::file_at;
use iolb_cert::CertFault;
use iolb_host::FileFault;
use memory_levels::TowerIllegal;
use std::alloc::Global;
use tile_sched::{SchedFault, Unplayed};

const USAGE: &[u8] =
    b"usage: iolb check PROGRAM CERTIFICATE\n       iolb bound PROGRAM\n       iolb eval PROGRAM CERTIFICATE S NAME=NUMBER...\n       iolb replay PROGRAM SCHEDULE S NAME=NUMBER...\n       iolb sample N\n       iolb parallel PROGRAM CERTIFICATE P S NAME=NUMBER...\n       iolb traffic PROGRAM CERTIFICATE STORES S NAME=NUMBER...\n       iolb levels PROGRAM CERTIFICATE CAPS NAME=NUMBER...\n       iolb climb PROGRAM MOVES CAPS NAME=NUMBER...\n";

/// The line for a value beyond 128 bits.
const WIDE: &[u8] = b"value beyond 128 bits\n";

/// The line for a graph that is out of reach.
const TOO_MANY: &[u8] = b"too many vertices\n";

/// The line for want of memory.
pub(crate) const OUT_OF_MEMORY: &[u8] = b"out of memory\n";

/// Why the file of this name wasn't read.
fn file_line(alloc: Global, name: &str, fault: FileFault) -> Result<Vec<u8>, Memory>
    ensures { IfOk result (λ line. line.items ≡ line_of_file name.now fault) }
{
    let words: &[u8] = match fault {
        FileFault::Missing => b"file missing: ",
        FileFault::TooLong => b"file too long: ",
        FileFault::Failed => b"read failed: ",
        FileFault::Memory => return Ok(Vec::from_slice(alloc, OUT_OF_MEMORY)?),
    };
    let mut line = Vec::from_slice(alloc, words)?;
    line.extend_from_slice(name.as_bytes())?;
    line.push(b'\n')?;
    Ok(line)
}

/// The fault of a program's text.
fn program_line(alloc: Global, fault: ProgramFault) -> Result<Vec<u8>, Memory>
    ensures { IfOk result (λ line. line.items ≡ line_of_program fault) }
{
    let number = fault.number;
    let place = fault.place;
    let line = format!(in alloc; "program refused: fault {number} at byte {place}\n")?;
    Ok(Vec::from_slice(alloc, line.as_bytes())?)
}

/// The place of a fault of this number in a text; fault 1 has none.
fn place_part(alloc: Global, number: u8, place: &Place) -> Result<Vec<u8>, Memory>
    ensures { IfOk result (λ text. text.items ≡ part_of_place number place.now) }
{
    if number == 1 {
        return Ok(Vec::new(alloc));
    }
    let mut text = Vec::from_slice(alloc, b" at ")?;
    text.extend_from_slice(pointer_text(alloc, place)?.as_slice())?;
    Ok(text)
}

/// The fault of this number at this place of a text, behind words.
fn text_line(alloc: Global, words: &[u8], number: u8, place: &Place) -> Result<Vec<u8>, Memory>
    ensures { IfOk result (λ line. line.items ≡ line_of_text words.now number place.now) }
{
    let mut line = Vec::from_slice(alloc, words)?;
    line.extend_from_slice(format!(in alloc; "{number}")?.as_bytes())?;
    line.extend_from_slice(place_part(alloc, number, place)?.as_slice())?;
    line.push(b'\n')?;
    Ok(line)
}

/// The first line that is none of a move, by its first byte.
fn moves_line(alloc: Global, place: u64) -> Result<Vec<u8>, Memory>
    ensures { IfOk result (λ line. line.items ≡ line_of_moves place) }
{
    let line = format!(in alloc; "moves text refused: fault 1 at byte {place}\n")?;
    Ok(Vec::from_slice(alloc, line.as_bytes())?)
}

/// The fault of a text other than the program's.
fn other_line(alloc: Global, fault: &OtherFault) -> Result<Vec<u8>, Memory>
    ensures { IfOk result (λ line. line.items ≡ line_of_other fault.now) }
{
    match fault {
        OtherFault::Certificate(CertFault { number, place }) => {
            text_line(alloc, b"certificate text refused: fault ", *number, place)
        }
        OtherFault::Schedule(SchedFault { number, place }) => {
            text_line(alloc, b"schedule text refused: fault ", *number, place)
        }
        OtherFault::Moves(place) => moves_line(alloc, *place),
        OtherFault::Stores(CertFault { number, place }) => {
            text_line(alloc, b"store text refused: fault ", *number, place)
        }
    }
}

/// The condition that fails, behind words.
fn condition_line(alloc: Global, words: &[u8], failed: &FailedCondition) -> Result<Vec<u8>, Memory>
    ensures { IfOk result (λ line. line.items ≡ line_of_refused words.now failed.now.condition failed.now.place) }
{
    let condition = failed.condition;
    let mut line = Vec::from_slice(alloc, words)?;
    line.extend_from_slice(format!(in alloc; "{condition} at ")?.as_bytes())?;
    line.extend_from_slice(pointer_text(alloc, &failed.place)?.as_slice())?;
    line.push(b'\n')?;
    Ok(line)
}

/// The first assumption that is false.
fn assumption_line(alloc: Global, number: u16) -> Result<Vec<u8>, Memory>
    ensures { IfOk result (λ line. line.items ≡ line_of_assumption number) }
{
    let line = format!(in alloc; "assumption {number} is false\n")?;
    Ok(Vec::from_slice(alloc, line.as_bytes())?)
}

/// An instance that comes before a source of it.
fn order_line(alloc: Global, vertex: u32, source: u32) -> Result<Vec<u8>, Memory>
    ensures { IfOk result (λ line. line.items ≡ line_of_unplayed (Unplayed.OutOfOrder vertex source)) }
{
    let line = format!(in alloc; "out of order: {vertex} before {source}\n")?;
    Ok(Vec::from_slice(alloc, line.as_bytes())?)
}

/// An instance that needs more red pebbles than there are.
fn need_line(alloc: Global, vertex: u32, need: u64) -> Result<Vec<u8>, Memory>
    ensures { IfOk result (λ line. line.items ≡ line_of_unplayed (Unplayed.TooSmall vertex need)) }
{
    let line = format!(in alloc; "too small: {vertex} needs {need}\n")?;
    Ok(Vec::from_slice(alloc, line.as_bytes())?)
}

/// The first move that isn't allowed, by its line.
fn illegal_line(alloc: Global, line: u64, illegal: TowerIllegal) -> Result<Vec<u8>, Memory>
    ensures { IfOk result (λ text. text.items ≡ line_of_illegal line illegal) }
{
    let number = illegal.number();
    let text = format!(in alloc; "illegal move {number} at line {line}\n")?;
    Ok(Vec::from_slice(alloc, text.as_bytes())?)
}

/// The first instance that a play leaves unfinished.
fn not_complete_line(alloc: Global, vertex: u32) -> Result<Vec<u8>, Memory>
    ensures { IfOk result (λ line. line.items ≡ line_of_not_complete vertex) }
{
    let line = format!(in alloc; "not complete: {vertex}\n")?;
    Ok(Vec::from_slice(alloc, line.as_bytes())?)
}

/// Why a schedule isn't played.
fn unplayed_line(alloc: Global, unplayed: Unplayed) -> Result<Vec<u8>, Memory>
    ensures { IfOk result (λ line. line.items ≡ line_of_unplayed unplayed) }
{
    match unplayed {
        Unplayed::Assumption(number) => assumption_line(alloc, number),
        Unplayed::TooMany => Ok(Vec::from_slice(alloc, TOO_MANY)?),
        Unplayed::OutOfOrder { vertex, source } => order_line(alloc, vertex, source),
        Unplayed::TooSmall { vertex, need } => need_line(alloc, vertex, need),
    }
}

/// Why what was read isn't answered.
fn refusal_line(alloc: Global, refusal: &Refusal) -> Result<Vec<u8>, Memory>
    ensures { IfOk result (λ line. line.items ≡ line_of_refusal refusal.now) }
{
    match refusal {
        Refusal::Condition(failed) => {
            condition_line(alloc, b"certificate refused: condition ", failed)
        }
        Refusal::StoresCondition(failed) => {
            condition_line(alloc, b"stores refused: condition ", failed)
        }
        Refusal::Assumption(number) => assumption_line(alloc, *number),
        Refusal::Unplayed(unplayed) => unplayed_line(alloc, *unplayed),
        Refusal::TooMany => Ok(Vec::from_slice(alloc, TOO_MANY)?),
        Refusal::Illegal { line, illegal } => illegal_line(alloc, *line, *illegal),
        Refusal::NotComplete(vertex) => not_complete_line(alloc, *vertex),
    }
}

/// The line that says why a request about files of these names stops.
pub(crate) fn stop_line(alloc: Global, names: &[String], stop: &Stop) -> Result<Vec<u8>, Memory>
    ensures { IfOk result (λ line. line.items ≡ line_of_stop (bytes_of names.now) stop.now) }
{
    match stop {
        Stop::Words => Ok(Vec::from_slice(alloc, USAGE)?),
        Stop::File { place, fault } => file_line(alloc, file_at(names, *place), *fault),
        Stop::ProgramText(fault) => program_line(alloc, *fault),
        Stop::OtherText(fault) => other_line(alloc, fault),
        Stop::Refused(refusal) => refusal_line(alloc, refusal),
        Stop::Wide => Ok(Vec::from_slice(alloc, WIDE)?),
        Stop::Memory => Ok(Vec::from_slice(alloc, OUT_OF_MEMORY)?),
    }
}
