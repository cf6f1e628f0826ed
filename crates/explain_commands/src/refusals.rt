//! Refusals of certificates, explained.

ghost use Rattle.std.specs.Prelude.{◌≡◌, ◌++◌, codes, IfOk};
ghost use Rattle.explain_commands.specs.Refusals.{MeetsAll};

use crate::certificates::Given;
use crate::programs::program_in;
use crate::stop::Stop;
use plain_pages::Page;
use std::alloc::Global;

/// The page that a certificate meets all conditions for the program with this text, which the file of this name has.
pub(crate) fn refusal_answer(
    alloc: Global,
    file: &str,
    text: &[u8],
    given: Given<'_>,
) -> Result<Page, Stop>
    ensures meets { IfOk result (λ page. MeetsAll text.now given.entry.text.now) }
    ensures says { IfOk result (λ page. page ≡ given.entry.name.now ++ codes " meets all conditions\n") }
{
    let program = program_in(alloc, file, text)?;
    let certificate = given.certificate(alloc)?;
    let _bound = given.bound(alloc, &program, &certificate)?;
    let mut page = Page::new(alloc);
    page.text(given.name)?;
    page.line(" meets all conditions")?;
    Ok(page)
}
