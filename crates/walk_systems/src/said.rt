//! What stands at a leaf, in words.

use crate::leaves::Source;
use affine_form::Memory;
use affine_program::Reference;
use plain_pages::Page;
use reuse_paths::Leaf;

/// An entry's key, with what it is for.
fn entry_words(entry: &Leaf) -> &'static str {
    match entry {
        Leaf::Empty(_) => "`empty`, for no point",
        Leaf::Stop { .. } => "`stop`, for an input",
        Leaf::Credit { .. } => "`credit`, for an instance of the credited nest's statement",
        Leaf::Go { .. } => "`rows`, for an instance of a statement with a region",
        Leaf::Arrive { .. } => "`arrive`, for an instance of the statement where the walk ends",
    }
}

/// Writes where the word at a leaf comes from, and which entry stands there.
pub(crate) fn write_there(page: &mut Page, source: Source<'_>, entry: &Leaf) -> Result<(), Memory> {
    let alloc = page.alloc();
    let words = match source {
        Source::Written { statement, .. } => format!(in alloc;
            "an instance of statement {statement}"
        )?,
        Source::Input => format!(in alloc; "an input")?,
        Source::Unknown => format!(in alloc; "not told, since the leaf is blank")?,
    };
    page.text("the word there: ")?;
    page.line(words.as_str())?;
    page.text("the entry: ")?;
    page.line(entry_words(entry))?;
    Ok(())
}

/// Writes that a family has no label for the word at a leaf: that of the statement that wrote it, or of the array that
/// is read.
pub(crate) fn write_unlabelled(
    page: &mut Page,
    source: Source<'_>,
    reference: &Reference,
) -> Result<(), Memory> {
    let alloc = page.alloc();
    let words = match source {
        Source::Written { statement, .. } => format!(in alloc; "statement {statement}")?,
        _ => {
            let array = reference.array;
            format!(in alloc; "array {array}")?
        }
    };
    page.text("the family has no label for ")?;
    page.line(words.as_str())?;
    Ok(())
}
