//! The families of arrays.

ghost use Rattle.std.specs.Prelude.{◌≡◌, ◌≤◌, ◌<◌, ◌+◌, IfOk, length, map, option_map};
ghost use Rattle.std.specs.List.{AllByRecursion};
ghost use Rattle.affine_program.specs.Domain.{depth_of};
ghost use Rattle.affine_program.specs.Parts.{access_of, meaning};
ghost use Rattle.reuse_paths.specs.Families.{boxed_node, family_of, boxed_forms};
ghost use Rattle.dep_quast.specs.Quasts.{trees_of};
ghost use Rattle.reuse_paths.specs.Walks.{tree_of_walk};
ghost use Rattle.projective_bounds.specs.Families.{array_families, array_family, array_inputs, array_node, array_read, array_subscripts, array_walk, cell_label, first_to, loops_label};
ghost use Rattle.projective_bounds.specs.Readable.{AreReadable, IsReadable};
ghost use Rattle.iolb_model.specs.declared.limits.TheConstants.{ARRAYS, NEST_VARIABLES};

use crate::entries::{entries, stop};
use crate::labels::{cell_label, loops_label};
use affine_form::{Form, Memory};
use affine_program::{Program, Reference};
use cover_lp::CoordSet;
use dep_quast::reader::{Reader, depth, reference, written};
use reuse_paths::{Family, FamilyNode, Quasts, Region, Walk};
use std::alloc::Global;

/// The number of the first reference to an array, and how many references there are where none is to it.
fn first_to(reads: &[Reference], array: u16) -> usize
    ensures number { result ≡ first_to array (map access_of reads.now) }
    ensures within { result ≤ length reads.now }
{
    let Some((first, others)) = reads.split_first() else {
        return 0;
    };
    if first.array == array {
        return 0;
    }
    first_to(others, array) + 1
}

/// The number of the first read of an array, and how many reads there are where it isn't read.
pub fn array_read(program: &Program, array: u16) -> u16
    requires there { 0 < length program.now.statements }
    ensures { result ≡ array_read (meaning program.now) array }
{
    let statement = &program.statements()[0];
    first_to(statement.reads.as_slice(), array) as u16
}

/// The walk along the sources of the first read of an array, for labels of so many forms.
fn array_walk(
    alloc: Global,
    program: &Program,
    quasts: &Quasts,
    array: u16,
    size: usize,
) -> Result<Walk, Memory>
    requires few { size ≤ NEST_VARIABLES }
    requires there { 0 < length program.now.statements }
    ensures { IfOk result (λ walk. tree_of_walk walk ≡ array_walk (meaning program.now) (trees_of quasts.now) array size) }
{
    let read = array_read(program, array);
    let leaves = match quasts.tree(0, read) {
        Some(quast) => entries(alloc, size, quast)?,
        None => stop(alloc, size)?,
    };
    Ok(Walk::Take { read, leaves })
}

/// The values of these loops, as a label.
fn label(alloc: Global, program: &Program, set: &CoordSet) -> Result<Vec<Form>, Memory>
    requires there { 0 < length program.now.statements }
    requires loops { AllByRecursion (λ level. level < depth_of (meaning program.now) 0) set.now }
    ensures { IfOk result (λ label. label.items ≡ loops_label (meaning program.now) set.now) }
{
    let params = program.params().len();
    let vars = params + depth(program, 0);
    loops_label(alloc, params, vars, set.coords())
}

/// What the family of an array says of the one statement: walks go on from all instances, where the array is written.
fn node(
    alloc: Global,
    program: &Program,
    quasts: &Quasts,
    array: u16,
    set: &CoordSet,
) -> Result<Option<Box<FamilyNode>>, Memory>
    requires there { 0 < length program.now.statements }
    requires readable { IsReadable (meaning program.now) array set.now }
    ensures { IfOk result (λ found. option_map boxed_node found ≡ array_node (meaning program.now) (trees_of quasts.now) array set.now) }
{
    if written(program, 0).array != array {
        return Ok(None);
    }
    let tree = array_walk(alloc, program, quasts, array, set.coords().len())?;
    let rows = Vec::new(alloc);
    let node = FamilyNode {
        label: label(alloc, program, set)?,
        region: Some(Box::new(alloc, Region { rows, tree })?),
    };
    Ok(Some(Box::new(alloc, node)?))
}

/// The label of the cells of an array.
fn cells(alloc: Global, program: &Program, array: u16, set: &CoordSet) -> Result<Vec<Form>, Memory>
    requires there { 0 < length program.now.statements }
    requires readable { IsReadable (meaning program.now) array set.now }
    ensures { IfOk result (λ label. label.items ≡ cell_label (meaning program.now) (array_subscripts (meaning program.now) array) set.now) }
{
    let read = array_read(program, array);
    let params = program.params().len();
    let subs = reference(program, Reader { statement: 0, read })
        .subs
        .as_slice();
    cell_label(alloc, params, subs, set.coords())
}

/// The labels of the cells of an array, and none for those of the others.
fn inputs(
    alloc: Global,
    program: &Program,
    array: u16,
    set: &CoordSet,
) -> Result<Vec<Option<Box<Vec<Form>>>>, Memory>
    requires there { 0 < length program.now.statements }
    requires readable { IsReadable (meaning program.now) array set.now }
    ensures { IfOk result (λ all. map (option_map boxed_forms) all.items ≡ array_inputs (meaning program.now) array set.now) }
{
    let mut all = Vec::new(alloc);
    for other in 0..program.arrays().len() {
        if other == usize::from(array) {
            let label = cells(alloc, program, array, set)?;
            all.push(Some(Box::new(alloc, label)?))?;
        } else {
            all.push(None)?;
        }
    }
    Ok(all)
}

/// The family of an array, in whose reference these loops stand.
fn family(
    alloc: Global,
    program: &Program,
    quasts: &Quasts,
    array: u16,
    set: &CoordSet,
    weight: u8,
) -> Result<Family, Memory>
    requires there { length program.now.statements ≡ 1 }
    requires readable { IsReadable (meaning program.now) array set.now }
    ensures { IfOk result (λ family. family_of family ≡ array_family (meaning program.now) (trees_of quasts.now) array set.now weight) }
{
    let node = node(alloc, program, quasts, array, set)?;
    let nodes = vec![in alloc; node]?;
    Ok(Family {
        scale: 1,
        set: CoordSet::new(Vec::from_slice(alloc, set.coords())?),
        weight,
        start_label: label(alloc, program, set)?,
        start: array_walk(alloc, program, quasts, array, set.coords().len())?,
        nodes,
        inputs: inputs(alloc, program, array, set)?,
    })
}

/// The families of the arrays from one on whose weight isn't 0.
pub(crate) fn families(
    alloc: Global,
    program: &Program,
    quasts: &Quasts,
    array: u16,
    sets: &[CoordSet],
    weights: &[u8],
) -> Result<Vec<Family>, Memory>
    requires there { length program.now.statements ≡ 1 }
    requires few { array + length sets.now ≤ ARRAYS }
    requires readable { AreReadable (meaning program.now) array sets.now weights.now }
    ensures { IfOk result (λ all. map family_of all.items ≡ array_families (meaning program.now) (trees_of quasts.now) array sets.now weights.now) }
{
    let (Some((set, others)), Some((weight, rest))) = (sets.split_first(), weights.split_first())
    else {
        return Ok(Vec::new(alloc));
    };
    let mut all = families(alloc, program, quasts, array + 1, others, rest)?;
    if *weight != 0 {
        let first = family(alloc, program, quasts, array, set, *weight)?;
        all.insert(0, first)?;
    }
    Ok(all)
}
