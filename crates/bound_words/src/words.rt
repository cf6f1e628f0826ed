//! Bounds in words.

use crate::reads::Source;
use affine_form::Memory;
use affine_program::Program;
use iolb_check::{Bound, Branch, Certificate, Value};
use plain_pages::Page;
use program_pages::Places;

/// Writes a branch: its terms, and what none of them counts.
fn write_branch(
    page: &mut Page,
    source: Source<'_>,
    number: usize,
    branch: &Branch,
    values: &[Value],
) -> Result<(), Memory> {
    page.line(format!(in page.alloc(); "branch {number}, the sum of")?.as_str())?;
    for (term, value) in branch.terms.as_slice().iter().zip(values) {
        source.write_term(page, term, value)?;
    }
    source.write_uncounted(page, branch)
}

/// Writes a bound in words: of each branch of the certificate that gave it its terms, each with what is counted, its read and
/// statement with their places in the program's text, and what it is worth; the arrays whose inputs no term counts; and the reads
/// without a source tree. The bound is the greatest of its branches.
pub fn write_bound(
    page: &mut Page,
    text: &[u8],
    program: &Program,
    places: &Places,
    certificate: &Certificate,
    bound: &Bound,
) -> Result<(), Memory> {
    let source = Source {
        program,
        text,
        places,
    };
    let branches = certificate.branches();
    if branches.is_empty() {
        page.line("there is no branch: the bound is 0")?;
    }
    for (number, (branch, values)) in branches.iter().zip(bound.branch_lists()).enumerate() {
        write_branch(page, source, number, branch, values.as_slice())?;
    }
    source.write_blanks(page, certificate)
}
