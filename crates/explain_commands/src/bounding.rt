//! Bounds, explained.

use crate::certificates::Given;
use crate::programs::program_in;
use crate::stop::Stop;
use crate::tries::write_tries;
use affine_form::Memory;
use affine_program::Program;
use bound_words::write_bound;
use find_terms::{Accepted, made};
use iolb_check::{Bound, Certificate};
use plain_pages::Page;
use program_pages::find_places;
use std::alloc::Global;

/// The page of a bound.
fn bound_page(
    alloc: Global,
    program: &Program,
    text: &[u8],
    certificate: &Certificate,
    bound: &Bound,
) -> Result<Page, Memory> {
    let mut page = Page::new(alloc);
    let places = find_places(alloc, text, program.arrays())?;
    write_bound(&mut page, text, program, &places, certificate, bound)?;
    Ok(page)
}

/// The page about the bound of the program with this text, which the file of this name has: the bound of a certificate or, where
/// none is given, of the certificate that is made for the program, with what was tried for it.
pub(crate) fn bound_answer(
    alloc: Global,
    file: &str,
    text: &[u8],
    given: Option<Given<'_>>,
) -> Result<Page, Stop> {
    let program = program_in(alloc, file, text)?;
    match given {
        Some(given) => {
            let certificate = given.certificate(alloc)?;
            let bound = given.bound(alloc, &program, &certificate)?;
            Ok(bound_page(alloc, &program, text, &certificate, &bound)?)
        }
        None => {
            let Accepted {
                certificate,
                bound,
                text: _certificate_text,
            } = made(alloc, &program)?;
            let mut page = bound_page(alloc, &program, text, &certificate, &bound)?;
            write_tries(alloc, &mut page, &program, certificate)?;
            Ok(page)
        }
    }
}
