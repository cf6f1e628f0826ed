//! Whether there are as many multipliers as pairs of pieces that are to have no vertex in common.

ghost use Rattle.std.specs.Prelude.{◌≡◌, ◌++◌, if◌then◌else◌, None, map, OnOk, IfOk};
ghost use Rattle.affine_program.specs.Parts.{meaning};
ghost use Rattle.dep_quast.specs.Tree.{tree_of};
ghost use Rattle.iolb_check.specs.Claims.{claim_of_term};
ghost use Rattle.iolb_check.specs.FamilyTargets.{leaf_targets};
ghost use Rattle.iolb_check.specs.PairFit.{cold_targets, front_targets, stop_targets, term_targets};
ghost use Rattle.reuse_paths.specs.LeafClaims.{claim_of, is_stop};
ghost use Rattle.dep_quast.specs.Quasts.{trees_of};
ghost use Rattle.footprint_pieces.specs.TargetPairs.{items_of};
ghost use Rattle.wavefront.specs.View.{front_of, term_of};

use crate::Term;
use crate::family_targets::targets_of_partition;
use crate::joint_targets::targets_of_joint;
use affine_form::Memory;
use affine_program::Program;
use certificate_fit::counts::read_count;
use dep_quast::Quast;
use dep_quast::reader::{Reader, reference};
use reuse_paths::{Leaf, Quasts, Target};
use std::alloc::Global;
use wavefront::{Cold, Wavefront};

/// The targets of the pieces of terms, term by term.
pub(crate) fn branch_targets(
    alloc: Global,
    program: &Program,
    quasts: &Quasts,
    terms: &[Term],
) -> Result<Vec<Vec<Target>>, Memory>
    ensures { IfOk result (λ lists. map items_of lists.items ≡ map (term_targets (meaning program.now) (trees_of quasts.now)) (map claim_of_term terms.now)) }
{
    let mut lists = Vec::new(alloc);
    for term in terms {
        lists.push(targets_of_term(alloc, program, quasts, term)?)?;
    }
    Ok(lists)
}

/// The targets of the pieces of a term.
fn targets_of_term(
    alloc: Global,
    program: &Program,
    quasts: &Quasts,
    term: &Term,
) -> Result<Vec<Target>, Memory>
    ensures { IfOk result (λ targets. targets.items ≡ term_targets (meaning program.now) (trees_of quasts.now) (claim_of_term term.now)) }
{
    match term {
        Term::Cold(cold) => targets_of_cold(alloc, program, quasts, cold),
        Term::Partition(partition) => targets_of_partition(alloc, program, quasts, partition),
        Term::Wavefront(front) => target_of_front(alloc, program, front),
        Term::Joint(joint) => targets_of_joint(alloc, program, quasts, joint),
    }
}

/// The target of the piece of a wavefront term: none where its words are inputs of a read that isn't there.
fn target_of_front(
    alloc: Global,
    program: &Program,
    front: &Wavefront,
) -> Result<Vec<Target>, Memory>
    ensures { IfOk result (λ targets. targets.items ≡ front_targets (meaning program.now) (front_of front.now) (front_of front.now).source) }
{
    let mut targets = Vec::new(alloc);
    if let Some(spot) = &front.source {
        targets.push(Target::Instance(spot.statement))?;
    } else if usize::from(front.read) < read_count(program, front.user.statement) {
        let reader = Reader {
            statement: front.user.statement,
            read: front.read,
        };
        targets.push(Target::Cell(reference(program, reader).array))?;
    }
    Ok(targets)
}

/// The targets of the pieces of a cold term. A read that isn't there has no leaves.
fn targets_of_cold(
    alloc: Global,
    program: &Program,
    quasts: &Quasts,
    cold: &Cold,
) -> Result<Vec<Target>, Memory>
    ensures { IfOk result (λ targets. targets.items ≡ cold_targets (meaning program.now) (trees_of quasts.now) (term_of cold.now)) }
{
    let reader = Reader {
        statement: cold.statement,
        read: cold.read,
    };
    if usize::from(cold.read) >= read_count(program, cold.statement) {
        return Ok(Vec::new(alloc));
    }
    let array = reference(program, reader).array;
    match quasts.tree(cold.statement, cold.read) {
        Some(quast) => targets_over(alloc, array, quast, cold.leaves.as_slice()),
        None => Ok(Vec::new(alloc)),
    }
}

/// The targets of the pieces of a read of an array, over its source tree, at the leaves at which the entries say that a
/// walk stops.
fn targets_over(
    alloc: Global,
    array: u16,
    quast: &Quast,
    entries: &[Leaf],
) -> Result<Vec<Target>, Memory>
    ensures { IfOk result (λ targets. targets.items ≡ stop_targets (leaf_targets array (tree_of quast.now)) (map claim_of entries.now)) }
{
    let mut leaves = Vec::new(alloc);
    push_leaf_targets(&mut leaves, array, quast)?;
    targets_at(alloc, leaves.as_slice(), entries)
}

/// The targets of the pieces at the leaves of a source tree, appended.
pub(crate) fn push_leaf_targets(
    targets: &mut Vec<Option<Target>>,
    array: u16,
    quast: &Quast,
) -> Result<(), Memory>
    ensures { OnOk result (targets.new.items ≡ targets.old.items ++ leaf_targets array (tree_of quast.now)) }
{
    let target = match quast {
        Quast::Test { yes, no, .. } => {
            push_leaf_targets(targets, array, yes)?;
            return push_leaf_targets(targets, array, no);
        }
        Quast::Empty { .. } => return Ok(()),
        Quast::Source { statement, .. } => Some(Target::Instance(*statement)),
        Quast::Input { .. } => Some(Target::Cell(array)),
        Quast::Blank => None,
    };
    targets.push(target)?;
    Ok(())
}

/// The targets at the leaves at which the entries say that a walk stops.
fn targets_at(
    alloc: Global,
    leaves: &[Option<Target>],
    entries: &[Leaf],
) -> Result<Vec<Target>, Memory>
    ensures { IfOk result (λ targets. targets.items ≡ stop_targets leaves.now (map claim_of entries.now)) }
{
    let mut targets = Vec::new(alloc);
    for i in 0..leaves.len().min(entries.len()) {
        if let Some(target) = target_if(leaves[i], &entries[i]) {
            targets.push(target)?;
        }
    }
    Ok(targets)
}

/// The target of a leaf, if the entry says that a walk stops there.
fn target_if(target: Option<Target>, entry: &Leaf) -> Option<Target>
    ensures { result ≡ (if is_stop (claim_of entry.now) then target else None) }
{
    if entry.is_stop() { target } else { None }
}
