//! Rows.

ghost use Rattle.std.specs.Prelude.{◌≡◌, ◌++◌, OnOk, codes, decimal};
ghost use Rattle.comparisons.specs.Tables.{fields_line, object_line, outcome_fields, outcome_members, reason_text};

use crate::plays::Played;
use crate::ratio::write_ratio;
use crate::strings::{write_field, write_string};
use plain_pages::Page;
use std::alloc::AllocError;
use tile_sched::Unplayed;

/// A row: the words of fast memory, the bound there, the name of a schedule, and what comes of it.
#[derive(Clone, Copy)]
pub struct Row<'a> {
    pub s: u64,
    pub bound: u128,
    pub schedule: &'a str,
    pub played: Played,
}

/// Writes what comes of a schedule, as fields of comma-separated values.
fn write_outcome_fields(page: &mut Page, bound: u128, played: Played) -> Result<(), AllocError>
    ensures { OnOk result (page.new ≡ page.old ++ outcome_fields bound played) }
{
    match played {
        Played::Totals { loads, stores } => {
            page.text(format!(in page.alloc(); "{loads},{stores},")?.as_str())?;
            write_ratio(page, loads, bound, "")
        }
        Played::Refused(_) => page.text(",,"),
    }
}

/// Writes that an instance needs so many words.
fn write_need(page: &mut Page, vertex: u32, need: u64) -> Result<(), AllocError>
    ensures { OnOk result (page.new ≡ page.old ++ codes "vertex " ++ decimal vertex ++ codes " needs " ++ decimal need ++ codes " words at once") }
{
    page.text(format!(in page.alloc(); "vertex {vertex} needs {need} words at once")?.as_str())
}

/// Writes why a schedule isn't played.
fn write_reason(page: &mut Page, unplayed: Unplayed) -> Result<(), AllocError>
    ensures { OnOk result (page.new ≡ page.old ++ reason_text unplayed) }
{
    let alloc = page.alloc();
    match unplayed {
        Unplayed::Assumption(number) => page.text(format!(in alloc;
            "assumption {number}, counted from 0, is false"
        )?.as_str()),
        Unplayed::TooMany => page.text("there are too many vertices"),
        Unplayed::OutOfOrder { vertex, source } => page.text(format!(in alloc;
            "vertex {vertex} comes before vertex {source}, whose value it reads"
        )?.as_str()),
        Unplayed::TooSmall { vertex, need } => write_need(page, vertex, need),
    }
}

/// Writes what comes of a schedule, as members of an object of JSON.
fn write_outcome_members(page: &mut Page, bound: u128, played: Played) -> Result<(), AllocError>
    ensures { OnOk result (page.new ≡ page.old ++ outcome_members bound played) }
{
    match played {
        Played::Totals { loads, stores } => {
            page.text(format!(in page.alloc();
                "\"loads\":{loads},\"stores\":{stores},\"over\":"
            )?.as_str())?;
            write_ratio(page, loads, bound, "null")
        }
        Played::Refused(unplayed) => {
            page.text("\"loads\":null,\"stores\":null,\"over\":null,\"reason\":\"")?;
            write_reason(page, unplayed)?;
            page.text("\"")
        }
    }
}

impl Row<'_> {
    /// Writes a row of columns.
    pub(crate) fn write_columns(self, page: &mut Page) -> Result<(), AllocError> {
        let (s, bound) = (self.s, self.bound);
        page.text(format!(in page.alloc(); "{s:>12}{bound:>16}")?.as_str())?;
        match self.played {
            Played::Totals { loads, stores } => {
                page.text(format!(in page.alloc(); "{loads:>16}{stores:>16}  ")?.as_str())?;
                write_ratio(page, loads, bound, "-")?;
            }
            Played::Refused(_) => page.text("               -               -  -")?,
        }
        page.text("  ")?;
        page.line(self.schedule)
    }

    /// Writes a row of comma-separated values, where a schedule that isn't played has empty fields.
    pub(crate) fn write_fields(self, page: &mut Page) -> Result<(), AllocError>
        ensures { OnOk result (page.new ≡ page.old ++ fields_line self.entry) }
    {
        let (s, bound) = (self.s, self.bound);
        page.text(format!(in page.alloc(); "{s},{bound},")?.as_str())?;
        write_outcome_fields(page, bound, self.played)?;
        page.text(",")?;
        write_field(page, self.schedule)?;
        page.text("\n")
    }

    /// Writes a row as an object of JSON, where a schedule that isn't played has `null` and the reason.
    pub(crate) fn write_object(self, page: &mut Page) -> Result<(), AllocError>
        ensures { OnOk result (page.new ≡ page.old ++ object_line self.entry) }
    {
        let (s, bound) = (self.s, self.bound);
        page.text(format!(in page.alloc(); "{{\"S\":{s},\"bound\":{bound},")?.as_str())?;
        write_outcome_members(page, bound, self.played)?;
        page.text(",\"schedule\":")?;
        write_string(page, self.schedule)?;
        page.text("}\n")
    }
}
