//! Parameters whose names mean something else in bounds.

ghost use Rattle.std.specs.Prelude.{◌≡◌, ◌++◌, MatchOption, None, OnOk, Some};
ghost use Rattle.bound_warnings.specs.Names.{before_name, behind_name, lines_of, meaning, name_lines};

use affine_form::Name;
use plain_pages::Page;
use std::alloc::AllocError;

/// What a name means where bounds are written, if it means something.
fn meaning_of(name: &Name) -> Option<&'static str>
    ensures { MatchOption result (meaning name.now ≡ None) (λ text. meaning name.now ≡ Some text.now) }
{
    match name.bytes() {
        [b'S'] => Some("the words of fast memory"),
        [b'T'] => Some("the events of a stretch of moves"),
        [b'U'] => Some("the instances of a stretch of moves"),
        _ => None,
    }
}

/// Writes what stands before a name.
fn write_before(page: &mut Page, file: &str) -> Result<(), AllocError>
    ensures { OnOk result (page.new ≡ page.old ++ before_name file.now) }
{
    page.text(file)?;
    page.text(": warning: the parameter `")
}

/// Writes what stands behind a name that has this meaning in bounds.
fn write_behind(page: &mut Page, meaning: &str) -> Result<(), AllocError>
    ensures { OnOk result (page.new ≡ page.old ++ behind_name meaning.now) }
{
    page.text(format!(in page.alloc();
        "` has the name that bounds give to {meaning}\nhelp: give it another name\n"
    )?.as_str())
}

/// Writes the warning about a parameter of this name, which has this meaning in bounds.
fn write_meaning(page: &mut Page, file: &str, name: &[u8], meaning: &str) -> Result<(), AllocError>
    ensures { OnOk result (page.new ≡ page.old ++ lines_of file.now name.now (Some meaning.now)) }
{
    write_before(page, file)?;
    page.write_bytes(name)?;
    write_behind(page, meaning)
}

/// Writes the warning about the name of a parameter, where it means something else in bounds.
pub(crate) fn warn_name(page: &mut Page, file: &str, name: &Name) -> Result<(), AllocError>
    ensures { OnOk result (page.new ≡ page.old ++ name_lines file.now name.now) }
{
    match meaning_of(name) {
        Some(meaning) => write_meaning(page, file, name.bytes(), meaning),
        None => Ok(()),
    }
}
