//! Messages.

ghost use Rattle.std.specs.Prelude.{◌≡◌, ◌++◌, OnOk};
ghost use Rattle.program_messages.specs.Messages.{IsSaid, TellsFault, help_part, name_part, number_part, position_part, wrong_part};

use crate::key::key_of;
use crate::rules::rule_for;
use crate::words::first_word;
use help_pages::fault_of;
use plain_pages::{Page, Position, position_of};
use std::alloc::AllocError;

/// What is said of a fault: what is wrong, and what to write instead.
#[derive(Clone, Copy)]
struct Said {
    wrong: &'static str,
    instead: &'static str,
}

/// What is said of a fault of this number where this word stands.
fn said_at(number: u8, word: &[u8]) -> Said
    ensures { IsSaid number result.wrong.now result.instead.now }
{
    if let Some(rule) = rule_for(number, word) {
        return Said {
            wrong: rule.wrong(),
            instead: rule.instead(),
        };
    }
    match fault_of(u64::from(number)) {
        Some(fault) => Said {
            wrong: fault.wrong,
            instead: fault.instead,
        },
        None => Said {
            wrong: "this isn't read",
            instead: "see `iolb-explain help`",
        },
    }
}

/// Writes a name, where a fault of this number is about a name.
fn write_name(page: &mut Page, number: u8, name: &[u8]) -> Result<(), AllocError>
    ensures { OnOk result (page.new ≡ page.old ++ name_part number name.now) }
{
    if number < 6 || number > 8 {
        return Ok(());
    }
    page.text("`")?;
    page.write_bytes(name)?;
    page.text("`: ")
}

/// Writes a colon and a number.
fn write_number(page: &mut Page, number: usize) -> Result<(), AllocError>
    ensures { OnOk result (page.new ≡ page.old ++ number_part number) }
{
    page.text(format!(in page.alloc(); ":{number}")?.as_str())
}

/// Writes `FILE:LINE:COLUMN: error: `.
fn write_position(page: &mut Page, file: &str, position: Position) -> Result<(), AllocError>
    ensures { OnOk result (page.new ≡ page.old ++ position_part file.now position.line position.column) }
{
    page.text(file)?;
    write_number(page, position.line)?;
    write_number(page, position.column)?;
    page.text(": error: ")
}

/// Writes what is wrong, and the fault's number.
fn write_wrong(page: &mut Page, wrong: &str, number: u8) -> Result<(), AllocError>
    ensures { OnOk result (page.new ≡ page.old ++ wrong_part wrong.now number) }
{
    page.text(wrong)?;
    page.line(format!(in page.alloc(); " [fault {number}]")?.as_str())
}

/// Writes what to write instead.
fn write_help(page: &mut Page, instead: &str) -> Result<(), AllocError>
    ensures { OnOk result (page.new ≡ page.old ++ help_part instead.now) }
{
    page.text("help: ")?;
    page.line(instead)
}

/// Writes the message of the fault of this number at a place of a text, which the file of this name has:
/// `FILE:LINE:COLUMN: error: WHAT IS WRONG [fault NUMBER]`, the line with a caret, and what to write instead. A place past the end
/// is the end.
pub fn fault_message(
    page: &mut Page,
    file: &str,
    text: &[u8],
    number: u8,
    place: usize,
) -> Result<(), AllocError>
    ensures { OnOk result (TellsFault page.old page.new file.now text.now number place) }
{
    let within = place.min(text.len());
    let name = first_word(&text[within..]);
    let said = said_at(number, key_of(text, number, within));
    write_position(page, file, position_of(text, place))?;
    write_name(page, number, name)?;
    write_wrong(page, said.wrong, number)?;
    page.caret(text, place)?;
    write_help(page, said.instead)?;
    Ok(())
}
