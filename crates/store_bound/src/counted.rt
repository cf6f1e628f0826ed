//! The wavefront terms whose words are counted among the stores.

ghost use Rattle.std.specs.Prelude.{◌≡◌};
ghost use Rattle.iolb_check.specs.Claims.{claim_of_term};
ghost use Rattle.store_bound.specs.Counted.{terms_named, word_statement};

use iolb_check::{Certificate, Term};

/// The terms of the branch of this number: none where there is no number, or no such branch.
pub(crate) fn named_terms(certificate: &Certificate, branch: Option<u8>) -> &[Term]
    ensures { result.now ≡ terms_named certificate.now branch }
{
    let Some(number) = branch else {
        return &[];
    };
    match certificate.branches().get(usize::from(number)) {
        Some(branch) => branch.terms.as_slice(),
        None => &[],
    }
}

/// The statement whose instances computed a term's words, where it is a wavefront term whose words were computed.
pub(crate) fn word_statement(term: &Term) -> Option<u16>
    ensures { result ≡ word_statement (claim_of_term term.now) }
{
    let Term::Wavefront(front) = term else {
        return None;
    };
    match &front.source {
        Some(spot) => Some(spot.statement),
        None => None,
    }
}
