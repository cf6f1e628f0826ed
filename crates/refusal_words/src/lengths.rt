//! How long lists of certificates have to be.

ghost use Rattle.affine_program.specs.Parts.{meaning};
ghost use Rattle.dep_quast.specs.Truth.{ReadFits};
ghost use Rattle.dep_quast.specs.Views.{read_of};

use crate::branches::branch_pieces;
use crate::joint_lengths::in_joint;
use affine_form::Memory;
use affine_program::Program;
use asked_systems::{behind, index_at, is_there, key_at};
use certificate_fit::counts::{
    domain_size, loops_around, order_rows, pairs_between, read_count, subscript_count,
};
use claims::Step;
use dep_quast::fitting::earlier_count;
use dep_quast::reader::{Reader, variables};
use dep_quast::{Quast, Quasts};
use iolb_check::{Certificate, Term};
use k_partition::{Partition, Shape};
use reuse_paths::Credit;
use std::alloc::Global;
use walk_systems::{family_length, open_count, pair_count, partition_pieces, reach_length};
use wavefront::Wavefront;

/// How many members the list with this key of a source has to have, at this level of its statement.
fn of_source(program: &Program, reader: Reader, source: u16, level: u8, key: &str) -> Option<usize>
    requires { ReadFits (meaning program.now) (read_of reader) }
{
    match key {
        "before" => Some(order_rows(program, source, reader.statement, level)),
        "between" => Some(pairs_between(program, reader, source)),
        "cell" => Some(subscript_count(program, reader).saturating_mul(2)),
        "domain" => Some(domain_size(program, source)),
        "point" => Some(loops_around(program, source)),
        _ => None,
    }
}

/// How many members the list at a place under a source tree has to have.
fn in_tree(program: &Program, reader: Reader, quast: &Quast, steps: &[Step]) -> Option<usize>
    requires { ReadFits (meaning program.now) (read_of reader) }
{
    let key = key_at(steps, 0)?;
    let rest = behind(steps, 1);
    match quast {
        Quast::Test { yes, no, .. } => match key {
            "form" => Some(variables(program, reader).saturating_add(1)),
            "yes" => in_tree(program, reader, yes, rest),
            _ => in_tree(program, reader, no, rest),
        },
        Quast::Source {
            statement,
            level,
            ..
        } => {
            if rest.is_empty() {
                of_source(program, reader, *statement, *level, key)
            } else {
                Some(variables(program, reader).saturating_add(1))
            }
        }
        Quast::Input { .. } => Some(earlier_count(program, reader)),
        Quast::Empty { .. } | Quast::Blank => None,
    }
}

/// How many members the list at a place of the source trees has to have.
fn in_trees(program: &Program, certificate: &Certificate, steps: &[Step]) -> Option<usize> {
    if steps.is_empty() {
        return Some(program.statements().len());
    }
    let statement = u16::try_from(index_at(steps, 0)?).ok()?;
    if steps.len() == 1 {
        return Some(read_count(program, statement));
    }
    let read = u16::try_from(index_at(steps, 1)?).ok()?;
    let quast = certificate.quasts().tree(statement, read)?;
    if !is_there(program, statement, read) {
        return None;
    }
    in_tree(program, Reader { statement, read }, quast, behind(steps, 2))
}

/// How many variables the nest of a term has, and how many loops are around the statements whose instances it names; none for a
/// joint term, whose parts have nests.
fn sizes_of(program: &Program, term: &Term) -> Option<(usize, usize)> {
    match term {
        Term::Cold(cold) => Some((
            cold.nest.bounds().len(),
            loops_around(program, cold.statement),
        )),
        Term::Joint(_) => None,
        Term::Partition(partition) => Some((
            partition.nest.bounds().len(),
            loops_around(program, partition.statement),
        )),
        Term::Wavefront(front) => {
            let around = loops_around(program, front.user.statement).saturating_add(loops_around(
                program,
                front.vertex.statement,
            ));
            let source = match &front.source {
                Some(spot) => loops_around(program, spot.statement),
                None => 0,
            };
            Some((front.nest.bounds().len(), around.saturating_add(source)))
        }
    }
}

/// How many rows say that the instances that a term names are in their domains; none for a joint term, whose parts name them.
fn inside_length(program: &Program, term: &Term) -> Option<usize> {
    match term {
        Term::Cold(cold) => Some(domain_size(program, cold.statement)),
        Term::Joint(_) => None,
        Term::Partition(partition) => Some(domain_size(program, partition.statement)),
        Term::Wavefront(front) => {
            let source = match &front.source {
                Some(spot) => domain_size(program, spot.statement),
                None => 0,
            };
            Some(
                domain_size(program, front.user.statement)
                    .saturating_add(domain_size(program, front.vertex.statement))
                    .saturating_add(source),
            )
        }
    }
}

/// How many numbers a form has that is over the parameters and so many variables more: the coefficients, and the
/// constant.
pub(crate) fn form_length(program: &Program, more: usize) -> usize {
    program
        .params()
        .len()
        .saturating_add(more)
        .saturating_add(1)
}

/// How many members the list at a place in those that all terms have has to have.
fn in_lists(program: &Program, term: &Term, steps: &[Step]) -> Option<usize> {
    let (variables, loops) = sizes_of(program, term)?;
    match (key_at(steps, 0)?, index_at(steps, 1)) {
        ("shown" | "sums", None) => Some(variables),
        ("inside", None) => inside_length(program, term),
        ("nest" | "point", None) => Some(loops),
        ("nest", Some(number)) => Some(form_length(program, number)),
        ("point", Some(_)) => Some(form_length(program, variables)),
        _ => None,
    }
}

/// How many members the list at a place of a credit has to have, behind its number: one for each loop of its statement,
/// or the numbers of a bound.
pub(crate) fn in_credit(program: &Program, credit: &Credit, steps: &[Step]) -> Option<usize> {
    match (key_at(steps, 0)?, index_at(steps, 1)) {
        ("nest", Some(number)) => Some(form_length(program, number)),
        ("nest" | "shown" | "sums", None) => Some(loops_around(program, credit.statement)),
        _ => None,
    }
}

/// How many members the list at a place in a partition term alone has to have.
fn in_partition(
    alloc: Global,
    program: &Program,
    quasts: &Quasts,
    term: &Partition,
    steps: &[Step],
) -> Result<Option<usize>, Memory> {
    let number = index_at(steps, 1).unwrap_or(0);
    let (family, credit) = (term.families.get(number), term.credits.get(number));
    let rest = behind(steps, 2);
    match (key_at(steps, 0), family, credit) {
        (Some("families"), Some(family), _) => {
            family_length(alloc, program, quasts, term, family, rest)
        }
        (Some("credits"), _, Some(credit)) => Ok(in_credit(program, credit, rest)),
        (Some("apart"), _, _) => match term.shape {
            Shape::Each => Ok(Some(0)),
            Shape::Sum => {
                let lists = partition_pieces(alloc, program, quasts, term)?;
                Ok(Some(pair_count(alloc, lists.as_slice())?))
            }
        },
        _ => Ok(None),
    }
}

/// How many members the list at a place in a wavefront term alone has to have.
fn in_front(
    alloc: Global,
    program: &Program,
    quasts: &Quasts,
    front: &Wavefront,
    steps: &[Step],
) -> Result<Option<usize>, Memory> {
    let (nest, rest) = (&front.nest, behind(steps, 1));
    let (user, vertex) = (&front.user, &front.vertex);
    match (key_at(steps, 0), &front.source, &front.reach) {
        (Some("edge"), _, _) => {
            let reader = Reader {
                statement: user.statement,
                read: front.read,
            };
            Ok(Some(open_count(alloc, quasts, reader)?))
        }
        (Some("outer_sums"), _, _) => Ok(Some(usize::from(front.outer))),
        (Some("back"), _, _) => {
            reach_length(
                alloc,
                program,
                quasts,
                nest,
                user,
                vertex,
                &front.back,
                rest,
            )
        }
        (Some("reach"), Some(source), Some(reach)) => {
            reach_length(alloc, program, quasts, nest, vertex, source, reach, rest)
        }
        _ => Ok(None),
    }
}

/// How many members the list at a place in a term has to have.
fn in_term(
    alloc: Global,
    program: &Program,
    quasts: &Quasts,
    term: &Term,
    steps: &[Step],
) -> Result<Option<usize>, Memory> {
    let common = in_lists(program, term, steps);
    if common.is_some() {
        return Ok(common);
    }
    match term {
        Term::Cold(cold) if key_at(steps, 0) == Some("leaves") => {
            let reader = Reader {
                statement: cold.statement,
                read: cold.read,
            };
            Ok(Some(open_count(alloc, quasts, reader)?))
        }
        Term::Cold(_) => Ok(None),
        Term::Joint(joint) => in_joint(alloc, program, quasts, joint, steps),
        Term::Partition(partition) => in_partition(alloc, program, quasts, partition, steps),
        Term::Wavefront(front) => in_front(alloc, program, quasts, front, steps),
    }
}

/// The term of a certificate at a place behind `branches`, and the steps from it on.
pub(crate) fn term_at<'a>(
    certificate: &'a Certificate,
    steps: &'a [Step],
) -> Option<(&'a Term, &'a [Step])> {
    let branch = certificate.branches().get(index_at(steps, 0)?)?;
    let term = branch.terms.as_slice().get(index_at(steps, 2)?)?;
    Some((term, behind(steps, 4)))
}

/// How many members the list at a place behind `branches` has to have.
fn in_branches(
    alloc: Global,
    program: &Program,
    certificate: &Certificate,
    steps: &[Step],
) -> Result<Option<usize>, Memory> {
    let quasts = certificate.quasts();
    if let Some((term, inner)) = term_at(certificate, steps) {
        return in_term(alloc, program, quasts, term, inner);
    }
    let branch = certificate.branches().get(index_at(steps, 0).unwrap_or(0));
    match (branch, key_at(steps, 1)) {
        (Some(branch), Some("disjoint")) => {
            let lists = branch_pieces(alloc, program, quasts, branch)?;
            Ok(Some(pair_count(alloc, lists.as_slice())?))
        }
        _ => Ok(None),
    }
}

/// How many members the list at a place of a certificate for a program has to have, where that is known.
pub(crate) fn called_for(
    alloc: Global,
    program: &Program,
    certificate: &Certificate,
    steps: &[Step],
) -> Result<Option<usize>, Memory> {
    let rest = behind(steps, 1);
    if key_at(steps, 0) == Some("quasts") {
        return Ok(in_trees(program, certificate, rest));
    }
    in_branches(alloc, program, certificate, rest)
}
