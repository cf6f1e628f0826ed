//! What terms are asked to show.

use crate::joints::write_in_joint;
use affine_form::{Form, Memory, Multipliers, variables_from};
use affine_program::Program;
use asked_systems::{NestAsked, behind, index_at, key_at, write_inside, write_range};
use certificate_fit::counts::domain_size;
use claims::Step;
use dep_quast::Quasts;
use domain_count::Sums;
use iolb_check::Term;
use iolb_model::limits;
use k_partition::Partition;
use plain_pages::Page;
use reuse_paths::Credit;
use walk_systems::{
    partition_pieces, write_cold_inverse, write_cold_leaf, write_cover, write_edge, write_family,
    write_front_inverse, write_pair, write_reach, write_sum, write_unit, write_vertex,
};
use wavefront::{Cold, Wavefront};

/// The bounds of a term's nest, and what is claimed of the number of its points; none for a joint term, whose parts have nests.
fn counted(term: &Term) -> Option<(&[(Form, Form)], &Sums)> {
    match term {
        Term::Cold(cold) => Some((cold.nest.bounds(), &cold.sums)),
        Term::Joint(_) => None,
        Term::Partition(partition) => Some((partition.nest.bounds(), &partition.sums)),
        Term::Wavefront(front) => Some((front.nest.bounds(), &front.sums)),
    }
}

/// Writes the system of the multipliers of this number which show that the points of a nest are instances of a statement.
pub(crate) fn write_points(
    page: &mut Page,
    nest: NestAsked<'_>,
    statement: u16,
    number: usize,
    shown: &Multipliers,
) -> Result<(), Memory> {
    let count = nest.bounds.len();
    if count > limits::NEST_VARIABLES {
        return Ok(());
    }
    let params = nest.program.params().len();
    let point = variables_from(page.alloc(), params + count, params, count)?;
    write_inside(page, nest, statement, point.as_slice(), number, shown)
}

/// Writes the system of the multipliers of this number which show that the user, the vertex and the source of a
/// wavefront term are instances, one for each row of their domains.
fn write_spots(
    page: &mut Page,
    nest: NestAsked<'_>,
    front: &Wavefront,
    number: usize,
    shown: &Multipliers,
) -> Result<(), Memory> {
    let user = front.user.point.as_slice();
    let behind_user = number.checked_sub(domain_size(nest.program, front.user.statement));
    let Some(number_behind) = behind_user else {
        return write_inside(page, nest, front.user.statement, user, number, shown);
    };
    let vertex = front.vertex.point.as_slice();
    match (
        number_behind.checked_sub(domain_size(nest.program, front.vertex.statement)),
        &front.source,
    ) {
        (None, _) => write_inside(
            page,
            nest,
            front.vertex.statement,
            vertex,
            number_behind,
            shown,
        ),
        (Some(last), Some(spot)) => {
            write_inside(
                page,
                nest,
                spot.statement,
                spot.point.as_slice(),
                last,
                shown,
            )
        }
        (Some(_), None) => Ok(()),
    }
}

/// Writes the system of the multipliers of this number which show that the instances of a term are in their domains.
fn write_instances(
    page: &mut Page,
    nest: NestAsked<'_>,
    term: &Term,
    number: usize,
) -> Result<(), Memory> {
    match term {
        Term::Cold(cold) => match cold.inside.get(number) {
            Some(shown) => {
                let point = cold.point.as_slice();
                write_inside(page, nest, cold.statement, point, number, shown)
            }
            None => Ok(()),
        },
        Term::Joint(_) => Ok(()),
        Term::Partition(partition) => match partition.inside.get(number) {
            Some(shown) => write_points(page, nest, partition.statement, number, shown),
            None => Ok(()),
        },
        Term::Wavefront(front) => match front.inside.get(number) {
            Some(shown) => write_spots(page, nest, front, number, shown),
            None => Ok(()),
        },
    }
}

/// Writes what is asked at a place of a nest's count: the system of the range of a variable (`shown/k`), or how much a polynomial
/// grows (`sums/k`).
pub(crate) fn write_in_count(
    page: &mut Page,
    nest: NestAsked<'_>,
    sums: &Sums,
    list: &str,
    number: usize,
) -> Result<(), Memory> {
    match (list, sums.shown().get(number)) {
        ("shown", Some(shown)) => write_range(page, nest, number, shown),
        ("sums", _) => write_sum(page, nest.program, nest.bounds, sums.sums(), number),
        _ => Ok(()),
    }
}

/// Writes what is asked at a place in the lists of terms with one nest: of an instance (`inside/i`), or of the nest's count.
fn write_in_lists(
    page: &mut Page,
    program: &Program,
    term: &Term,
    list: &str,
    number: usize,
) -> Result<(), Memory> {
    let Some((bounds, sums)) = counted(term) else {
        return Ok(());
    };
    let nest = NestAsked { program, bounds };
    if list == "inside" {
        return write_instances(page, nest, term, number);
    }
    write_in_count(page, nest, sums, list, number)
}

/// Writes what is asked at a place in a cold term alone: at a leaf of its read, or of its matrix.
fn write_in_cold(
    page: &mut Page,
    program: &Program,
    quasts: &Quasts,
    term: &Cold,
    steps: &[Step],
) -> Result<(), Memory> {
    match (index_at(steps, 1), index_at(steps, 2), index_at(steps, 3)) {
        (Some(number), _, _) => write_cold_leaf(page, program, quasts, term, number),
        (_, Some(row), Some(column)) => write_cold_inverse(page, program, term, row, column),
        _ => Ok(()),
    }
}

/// Writes what is asked at a place in a walk of a wavefront term: from the user to the vertex (`back`), or from there
/// to the source.
fn write_way(
    page: &mut Page,
    program: &Program,
    quasts: &Quasts,
    front: &Wavefront,
    condition: u8,
    steps: &[Step],
) -> Result<(), Memory> {
    let (nest, rest) = (&front.nest, behind(steps, 1));
    let (user, vertex) = (&front.user, &front.vertex);
    if key_at(steps, 0) == Some("back") {
        let back = &front.back;
        return write_reach(
            page, program, quasts, nest, user, vertex, back, condition, rest,
        );
    }
    match (&front.source, &front.reach) {
        (Some(source), Some(reach)) => write_reach(
            page, program, quasts, nest, vertex, source, reach, condition, rest,
        ),
        _ => Ok(()),
    }
}

/// Writes what is asked at a place in a wavefront term alone.
fn write_in_front(
    page: &mut Page,
    program: &Program,
    quasts: &Quasts,
    front: &Wavefront,
    condition: u8,
    steps: &[Step],
) -> Result<(), Memory> {
    match (
        key_at(steps, 0),
        index_at(steps, 1),
        index_at(steps, 2),
        index_at(steps, 3),
    ) {
        (Some("edge"), Some(number), _, _) => write_edge(page, program, quasts, front, number),
        (Some("outer_sums"), Some(number), _, _) => {
            let outer = front
                .nest
                .bounds()
                .get(..usize::from(front.outer))
                .unwrap_or(&[]);
            write_sum(page, program, outer, front.outer_sums.as_slice(), number)
        }
        (Some("vertex"), _, Some(number), _) => write_vertex(page, program, front, number),
        (Some("inverse"), _, Some(row), Some(column)) => {
            write_front_inverse(page, program, front, row, column)
        }
        _ => write_way(page, program, quasts, front, condition, steps),
    }
}

/// Writes what is asked at a place of a credit's count: `shown/k` or `sums/k`.
pub(crate) fn write_in_credit(
    page: &mut Page,
    program: &Program,
    credit: &Credit,
    steps: &[Step],
) -> Result<(), Memory> {
    let bounds = credit.nest.bounds();
    match (key_at(steps, 0), index_at(steps, 1)) {
        (Some(list), Some(number)) => {
            write_in_count(
                page,
                NestAsked { program, bounds },
                &credit.sums,
                list,
                number,
            )
        }
        _ => Ok(()),
    }
}

/// Writes the system of the pair of families' pieces of this number.
fn write_apart(
    page: &mut Page,
    program: &Program,
    quasts: &Quasts,
    term: &Partition,
    number: usize,
) -> Result<(), Memory> {
    let Some(shown) = term.apart.get(number) else {
        return Ok(());
    };
    let lists = partition_pieces(page.alloc(), program, quasts, term)?;
    write_pair(page, program, lists.as_slice(), number, shown)
}

/// Writes what is asked at a place in a partition term alone.
fn write_in_partition(
    page: &mut Page,
    program: &Program,
    quasts: &Quasts,
    term: &Partition,
    condition: u8,
    steps: &[Step],
) -> Result<(), Memory> {
    let Some(number) = index_at(steps, 1) else {
        return Ok(());
    };
    let (family, credit) = (term.families.get(number), term.credits.get(number));
    let rest = behind(steps, 2);
    match (key_at(steps, 0), family, credit, index_at(steps, 2)) {
        (Some("families"), Some(family), _, _) => {
            write_family(page, program, quasts, term, family, condition, rest)
        }
        (Some("credits"), _, Some(credit), _) => write_in_credit(page, program, credit, rest),
        (Some("inverse"), _, _, Some(column)) => write_unit(page, term, number, column),
        (Some("matrix"), _, _, _) => write_cover(page, term, number),
        (Some("apart"), _, _, _) => write_apart(page, program, quasts, term, number),
        _ => Ok(()),
    }
}

/// Writes what is asked for a condition at a place in a term: a system, or what is called for beside what stands there.
pub(crate) fn write_in_term(
    page: &mut Page,
    program: &Program,
    quasts: &Quasts,
    term: &Term,
    condition: u8,
    steps: &[Step],
) -> Result<(), Memory> {
    if let (Some(list @ ("inside" | "shown" | "sums")), Some(number)) = (
        key_at(steps, 0),
        index_at(steps, 1),
    ) {
        return write_in_lists(page, program, term, list, number);
    }
    match term {
        Term::Cold(cold) => write_in_cold(page, program, quasts, cold, steps),
        Term::Joint(joint) => write_in_joint(page, program, quasts, joint, condition, steps),
        Term::Partition(term) => write_in_partition(page, program, quasts, term, condition, steps),
        Term::Wavefront(front) => write_in_front(page, program, quasts, front, condition, steps),
    }
}
