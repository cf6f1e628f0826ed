//! Tables.

ghost use Rattle.std.specs.Prelude.{◌≡◌, ◌++◌, OnOk};
ghost use Rattle.comparisons.specs.Tables.{AddsRow, head_line};

use crate::rows::Row;
use plain_pages::Page;
use std::alloc::AllocError;

/// The shape of a table: columns for readers, comma-separated values, or a line of JSON for each row.
#[derive(Clone, Copy, Debug, PartialEq, Eq)]
pub enum Shape {
    Text,
    Csv,
    Json,
}

/// Writes the line above the rows.
pub fn write_head(page: &mut Page, shape: Shape) -> Result<(), AllocError>
    ensures { OnOk result (page.new ≡ page.old ++ head_line shape) }
{
    page.text(match shape {
        Shape::Text => {
            "           S           bound           loads          stores  over  schedule\n"
        }
        Shape::Csv => "S,bound,loads,stores,over,schedule\n",
        Shape::Json => "",
    })
}

/// Writes a row.
pub fn write_row(page: &mut Page, shape: Shape, row: Row<'_>) -> Result<(), AllocError>
    ensures { OnOk result (AddsRow shape row.entry page.old page.new) }
{
    match shape {
        Shape::Text => row.write_columns(page),
        Shape::Csv => row.write_fields(page),
        Shape::Json => row.write_object(page),
    }
}
