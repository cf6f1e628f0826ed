//! How many pairs of outputs, and of outputs and words, are of one statement.

ghost use Rattle.std.specs.Prelude.{◌≡◌, ◌≤◌, ◌+◌, ◌*◌, ◌==◌, length, map, filter, filter_map};
ghost use Rattle.iolb_check.specs.Claims.{claim_of_term};
ghost use Rattle.iolb_model.specs.declared.limits.TheConstants.{TERMS};
ghost use Rattle.store_bound.specs.Counted.{word_statement};
ghost use Rattle.store_bound.specs.StoresFit.{output_pairs, statements_of, word_pairs, word_statements};
ghost use Rattle.store_terms.specs.declared.limits.TheConstants.{OUTPUTS};

use crate::counted::word_statement;
use iolb_check::Term;
use store_terms::Output;

/// How many outputs are of a statement.
fn outputs_of(statement: u16, outputs: &[Output]) -> usize
    ensures many { result ≡ length (filter (λ other. statement == other) (statements_of outputs.now)) }
    ensures few { result ≤ length outputs.now }
{
    let mut count = 0;
    for output in outputs {
        if statement == output.statement {
            count += 1;
        }
    }
    count
}

/// How many pairs of outputs have one statement.
pub(crate) fn output_pairs(outputs: &[Output]) -> usize
    requires { length outputs.now ≤ OUTPUTS }
    ensures pairs { result ≡ length (output_pairs (statements_of outputs.now)) }
    ensures few { result ≤ OUTPUTS * OUTPUTS }
{
    let mut pairs = 0;
    for (i, output) in outputs.iter().enumerate() {
        let (_before, later) = outputs.split_at(i + 1);
        pairs += outputs_of(output.statement, later);
    }
    pairs
}

/// How many terms have words that a statement computed.
fn words_of(statement: u16, terms: &[Term]) -> usize
    ensures many { result ≡ length (filter (λ other. statement == other) (word_statements (map claim_of_term terms.now))) }
    ensures few { result ≤ length terms.now }
{
    let mut count = 0;
    for term in terms {
        if word_statement(term) == Some(statement) {
            count += 1;
        }
    }
    count
}

/// How many pairs there are of an output and a term whose words its statement computed.
pub(crate) fn word_pairs(outputs: &[Output], terms: &[Term]) -> usize
    requires outputs { length outputs.now ≤ OUTPUTS }
    requires terms { length terms.now ≤ TERMS }
    ensures pairs { result ≡ length (word_pairs (statements_of outputs.now) (word_statements (map claim_of_term terms.now))) }
    ensures few { result ≤ OUTPUTS * TERMS }
{
    let mut pairs = 0;
    for output in outputs {
        pairs += words_of(output.statement, terms);
    }
    pairs
}
