//! Families of walks.

ghost use Rattle.std.specs.Prelude.{◌≡◌, suc, List, [], map, min, IfOk};
ghost use Rattle.serde_json.specs.View.{view};
ghost use Rattle.iolb_model.specs.Form.{AffineForm};
ghost use Rattle.certificate_fit.specs.Limits.{AreSmall, IsSmallWalk, IsSmallFamily};
ghost use Rattle.reuse_paths.specs.Families.{NodeForms, FamilyForms, family_of, node_of};
ghost use Rattle.reuse_paths.specs.Walks.{WalkTree, tree_of_walk};
ghost use Rattle.json_parts.specs.Fields.{field};
ghost use Rattle.json_parts.specs.Names.{first_of, more_of, one-more-name};
ghost use Rattle.json_parts.specs.Related.{plain_link};
ghost use Rattle.json_parts.specs.Shape.{IsReadBack};
ghost use Rattle.certificate_parts.specs.Families.{node_shape, IsSmallForms, start_shape, family_shape, families_shape, AreSmallFamilies, weights_of};

use crate::forms::OfForm;
use crate::reaches::OfRegion;
use crate::walks::OfWalk;
use affine_form::{Form, Memory};
use cover_lp::CoordSet;
use iolb_model::limits;
use json_parts::{
    Any8, Boxed, CertError, End, ListOf, Number8, Number32, OneToMost, OrNull, Part, Puts, fault,
    put_list, put_part, read_object, write_list, write_object,
};
use json_values::Json;
use reuse_paths::{Family, FamilyNode, Walk};
use serde_json::{Map, Value, put};
use std::alloc::Global;

type Label = ListOf<OfForm>;

/// What is said of a statement: the label of an instance, and a region or null.
struct OfNode {}

impl Part for OfNode {
    type Value = FamilyNode;

    ghost Said = { NodeForms };

    ghost shape = { node_shape };

    ghost link = { plain_link node_of };

    ghost Fits = { λ node. IsSmallForms (node_of node) };

    #[tactic(auto, unfolding(crate::specs::Families::node_shape))]
    fn read(alloc: Global, value: &Json) -> Result<FamilyNode, CertError> {
        let (label, (region, ())) = read_object::<(Label, (OrNull<Boxed<OfRegion>>, End))>(
            alloc,
            value,
            &["label", "region"],
        )?;
        Ok(FamilyNode { label, region })
    }

    #[tactic(auto, using(crate::proofs::ReadReaches::node_fits), unfolding(crate::specs::Families::node_shape))]
    fn write(alloc: Global, part: &FamilyNode) -> Result<Value, Memory> {
        let rest = put_part::<OrNull<Boxed<OfRegion>>, _>(&part.region, End {});
        let all = put_part::<Label, _>(&part.label, rest);
        let value = write_object(alloc, &["label", "region"], &all)?;
        Ok(value)
    }
}

/// The label of an instance that is counted, and its walk.
struct OfStart {}

impl Part for OfStart {
    type Value = (Vec<Form>, Walk);

    ghost Said = { List AffineForm × WalkTree };

    ghost shape = { start_shape };

    ghost link = { plain_link (λ start. (start.0.items, tree_of_walk start.1)) };

    ghost Fits = { λ start. AreSmall start.0.items × IsSmallWalk (tree_of_walk start.1) };

    #[tactic(auto, unfolding(crate::specs::Families::start_shape))]
    fn read(alloc: Global, value: &Json) -> Result<(Vec<Form>, Walk), CertError> {
        let (label, (tree, ())) = read_object::<(Label, (OfWalk, End))>(
            alloc,
            value,
            &["label", "tree"],
        )?;
        Ok((label, tree))
    }

    #[tactic(auto, unfolding(crate::specs::Families::start_shape))]
    fn write(alloc: Global, part: &(Vec<Form>, Walk)) -> Result<Value, Memory> {
        write_start(alloc, part.0.as_slice(), &part.1)
    }
}

/// The label of an instance that is counted, and its walk, as an object.
#[tactic(auto, unfolding(crate::specs::Families::start_shape))]
fn write_start(alloc: Global, label: &[Form], tree: &Walk) -> Result<Value, Memory>
    requires { AreSmall label.now × IsSmallWalk (tree_of_walk tree.now) }
    ensures value { IfOk result (λ value. view value ≡ start_shape.data_of (label.now, tree_of_walk tree.now)) }
    ensures read { IfOk result (λ _. IsReadBack start_shape (label.now, tree_of_walk tree.now)) }
{
    let rest = put_part::<OfWalk, _>(tree, End {});
    let all = put_list::<OfForm, _>(label, rest);
    let value = write_object(alloc, &["label", "tree"], &all)?;
    Ok(value)
}

/// A start that is to be written, and the members behind it.
#[derive(Drop)]
struct PutStart<'a, R> {
    label: &'a [Form],
    tree: &'a Walk,
    rest: R,
}

impl<'a, R: Puts> Puts for PutStart<'a, R> {
    ghost Said = { (List AffineForm × WalkTree) × R.Said };

    ghost COUNT = { suc R.COUNT };

    ghost fields = { λ names. field (first_of [] names) start_shape (R.fields (more_of names)) };

    ghost said = { λ puts. ((puts.label.now, tree_of_walk puts.tree.now), R.said puts.rest) };

    ghost Fit = { λ puts. (AreSmall puts.label.now × IsSmallWalk (tree_of_walk puts.tree.now)) × R.Fit puts.rest };

    ghost Are = { λ puts. R.Are puts.rest };

    fn write(&self, alloc: Global, names: &[&str]) -> Result<Map<String, Value>, Memory> {
        let mut members = self.rest.write(alloc, &names[1..])?;
        let value = write_start(alloc, self.label, self.tree)?;
        put(&mut members, alloc, names[0], value)?;
        Ok(members)
    }

    ghost names_are = { λ names so_many. one-more-name R.COUNT (λ more. (R.fields more).names) (λ more some. R.names_are more some) names so_many };
}

/// A family: a scale from 1 to 2^20, and a weight from 1 to 12.
struct OfFamily {}

type Members = (
    ListOf<OrNull<Boxed<Label>>>,
    (
        ListOf<OrNull<Boxed<OfNode>>>,
        (Scale, (ListOf<Any8>, (OfStart, (Weight, End)))),
    ),
);

type Scale = Number32<1, 1048576>;

type Weight = Number8<1, 12>;

impl Part for OfFamily {
    type Value = Family;

    ghost Said = { FamilyForms };

    ghost shape = { family_shape };

    ghost link = { plain_link family_of };

    ghost Fits = { λ family. IsSmallFamily (family_of family) };

    #[tactic(auto, unfolding(crate::specs::Families::family_shape))]
    fn read(alloc: Global, value: &Json) -> Result<Family, CertError> {
        let names = ["inputs", "nodes", "scale", "set", "start", "weight"];
        let (inputs, (nodes, (scale, (set, (start, (weight, ())))))) = read_object::<Members>(
            alloc, value, &names,
        )?;
        let (start_label, start) = start;
        Ok(Family {
            scale,
            set: CoordSet::new(set),
            weight,
            start_label,
            start,
            nodes,
            inputs,
        })
    }

    #[tactic(auto, unfolding(crate::specs::Families::family_shape))]
    fn write(alloc: Global, part: &Family) -> Result<Value, Memory> {
        let names = ["inputs", "nodes", "scale", "set", "start", "weight"];
        let rest = PutStart {
            label: part.start_label.as_slice(),
            tree: &part.start,
            rest: put_part::<Weight, _>(&part.weight, End {}),
        };
        let rest = put_list::<Any8, _>(part.set.coords(), rest);
        let rest = put_part::<Scale, _>(&part.scale, rest);
        let rest = put_part::<ListOf<OrNull<Boxed<OfNode>>>, _>(&part.nodes, rest);
        let all = put_part::<ListOf<OrNull<Boxed<Label>>>, _>(&part.inputs, rest);
        let value = write_object(alloc, &names, &all)?;
        Ok(value)
    }
}

/// The weights of families together, or 255 if they are more.
fn weight_of(families: &[Family]) -> u8
    ensures { result ≡ min (weights_of (map family_of families.now)) 255 }
{
    let mut sum: u8 = 0;
    for family in families {
        sum = sum.saturating_add(family.weight);
    }
    sum
}

/// One to six families, whose weights are 24 together at most.
pub struct OfFamilies {}

impl Part for OfFamilies {
    type Value = Vec<Family>;

    ghost Said = { List FamilyForms };

    ghost shape = { families_shape };

    ghost link = { plain_link (λ families. map family_of families.items) };

    ghost Fits = { λ families. AreSmallFamilies (map family_of families.items) };

    #[tactic(auto, unfolding(crate::specs::Families::families_shape))]
    fn read(alloc: Global, value: &Json) -> Result<Vec<Family>, CertError> {
        let families = <OneToMost<OfFamily, 6> as Part>::read(alloc, value)?;
        if weight_of(families.as_slice()) <= limits::WEIGHTS {
            Ok(families)
        } else {
            Err(fault(alloc, 3))
        }
    }

    #[tactic(auto, unfolding(crate::specs::Families::families_shape))]
    fn write(alloc: Global, part: &Vec<Family>) -> Result<Value, Memory> {
        let value = write_list::<OfFamily>(alloc, part.as_slice())?;
        Ok(value)
    }
}
