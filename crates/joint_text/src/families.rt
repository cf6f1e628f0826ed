//! Families.

ghost use Rattle.std.specs.Prelude.{◌≡◌, List, map, min, sum_by};
ghost use Rattle.joint_partition.specs.Limits.{IsSmallJointFamily, IsSmallLabeling, IsSmallStart, IsSmallWay};
ghost use Rattle.joint_partition.specs.Term.{JointFamily as Said, LabelForms, StartTerm, WayTerm};
ghost use Rattle.joint_partition.specs.View.{family_of, labeling_of, start_of, way_of};
ghost use Rattle.joint_text.specs.Families.{families_shape, family_shape, labeling_shape, start_shape, way_shape, weights_of, AreSmallFamilies};
ghost use Rattle.json_parts.specs.Related.{plain_link};

use affine_form::Memory;
use certificate_parts::{OfForm, OfRegion, OfWalk};
use cover_lp::CoordSet;
use joint_partition::limits::JOINT_WEIGHTS;
use joint_partition::{JointFamily, Labeling, Start, Way};
use json_parts::{
    Any8, Boxed, CertError, End, ListOf, Number8, Number32, OneToMost, OrNull, Part, fault, put,
    put_list, put_part, read_object, write_list, write_object,
};
use json_values::Json;
use serde_json::Value;
use std::alloc::Global;

type Labels = ListOf<OrNull<Boxed<ListOf<OfForm>>>>;

/// A labeling.
struct OfLabeling {}

impl Part for OfLabeling {
    type Value = Labeling;

    ghost Said = { LabelForms };

    ghost shape = { labeling_shape };

    ghost link = { plain_link labeling_of };

    ghost Fits = { λ labels. IsSmallLabeling (labeling_of labels) };

    #[tactic(auto, unfolding(crate::specs::Families::labeling_shape))]
    fn read(alloc: Global, value: &Json) -> Result<Labeling, CertError> {
        let names = ["inputs", "nodes"];
        let (inputs, (nodes, ())) = read_object::<(Labels, (Labels, End))>(alloc, value, &names)?;
        Ok(Labeling { nodes, inputs })
    }

    #[tactic(auto, unfolding(crate::specs::Families::labeling_shape))]
    fn write(alloc: Global, part: &Labeling) -> Result<Value, Memory> {
        let rest = put_part::<Labels, _>(&part.nodes, End {});
        let all = put_part::<Labels, _>(&part.inputs, rest);
        let value = write_object(alloc, &["inputs", "nodes"], &all)?;
        Ok(value)
    }
}

type Regions = ListOf<OrNull<Boxed<OfRegion>>>;

/// A way.
struct OfWay {}

impl Part for OfWay {
    type Value = Way;

    ghost Said = { WayTerm };

    ghost shape = { way_shape };

    ghost link = { plain_link way_of };

    ghost Fits = { λ way. IsSmallWay (way_of way) };

    #[tactic(auto, unfolding(crate::specs::Families::way_shape))]
    fn read(alloc: Global, value: &Json) -> Result<Way, CertError> {
        let names = ["labels", "regions"];
        let (labels, (regions, ())) = read_object::<(Any8, (Regions, End))>(alloc, value, &names)?;
        Ok(Way { labels, regions })
    }

    #[tactic(auto, unfolding(crate::specs::Families::way_shape))]
    fn write(alloc: Global, part: &Way) -> Result<Value, Memory> {
        let rest = put_part::<Regions, _>(&part.regions, End {});
        let all = put_part::<Any8, _>(&part.labels, rest);
        let value = write_object(alloc, &["labels", "regions"], &all)?;
        Ok(value)
    }
}

/// How walks start from the points of a part.
struct OfStart {}

impl Part for OfStart {
    type Value = Start;

    ghost Said = { StartTerm };

    ghost shape = { start_shape };

    ghost link = { plain_link start_of };

    ghost Fits = { λ start. IsSmallStart (start_of start) };

    #[tactic(auto, unfolding(crate::specs::Families::start_shape))]
    fn read(alloc: Global, value: &Json) -> Result<Start, CertError> {
        let names = ["tree", "way"];
        let (tree, (way, ())) = read_object::<(OfWalk, (Any8, End))>(alloc, value, &names)?;
        Ok(Start { way, tree })
    }

    #[tactic(auto, unfolding(crate::specs::Families::start_shape))]
    fn write(alloc: Global, part: &Start) -> Result<Value, Memory> {
        let rest = put_part::<Any8, _>(&part.way, End {});
        let all = put_part::<OfWalk, _>(&part.tree, rest);
        let value = write_object(alloc, &["tree", "way"], &all)?;
        Ok(value)
    }
}

/// A family: one of 6 groups, 1 to 4 labelings, a scale from 1 to 2^20, 1 to 8 ways, and a weight from 1 to 12.
struct OfFamily {}

type Scale = Number32<1, 1048576>;

type Weight = Number8<1, 12>;

type Ways = OneToMost<OfWay, 8>;

type Behind = (ListOf<OfStart>, (Ways, (Weight, End)));

type Labelings = OneToMost<OfLabeling, 4>;

type Members = (Number8<0, 5>, (Labelings, (Scale, (ListOf<Any8>, Behind))));

const NAMES: [&str; 7] = [
    "group", "labels", "scale", "set", "starts", "ways", "weight",
];

impl Part for OfFamily {
    type Value = JointFamily;

    ghost Said = { Said };

    ghost shape = { family_shape };

    ghost link = { plain_link family_of };

    ghost Fits = { λ family. IsSmallJointFamily (family_of family) };

    #[tactic(auto, unfolding(crate::specs::Families::family_shape))]
    fn read(alloc: Global, value: &Json) -> Result<JointFamily, CertError> {
        let (group, (labels, (scale, (set, rest)))) = read_object::<Members>(alloc, value, &NAMES)?;
        let (starts, (ways, (weight, ()))) = rest;
        Ok(JointFamily {
            group,
            scale,
            set: CoordSet::new(set),
            weight,
            labels,
            ways,
            starts,
        })
    }

    #[tactic(auto, unfolding(crate::specs::Families::family_shape))]
    fn write(alloc: Global, part: &JointFamily) -> Result<Value, Memory> {
        let rest = put!(Weight, &part.weight, End {});
        let rest = put!(Ways, &part.ways, rest);
        let rest = put!(ListOf<OfStart>, &part.starts, rest);
        let rest = put_list!(Any8, part.set.coords(), rest);
        let rest = put!(Scale, &part.scale, rest);
        let rest = put!(Labelings, &part.labels, rest);
        let all = put!(Number8<0, 5>, &part.group, rest);
        let value = write_object(alloc, &NAMES, &all)?;
        Ok(value)
    }
}

/// The weights of families together, or 255 if they are more.
fn weight_of(families: &[JointFamily]) -> u8
    ensures { result ≡ min (weights_of (map family_of families.now)) 255 }
{
    let mut sum: u8 = 0;
    for family in families {
        sum = sum.saturating_add(family.weight);
    }
    sum
}

/// One to six families, whose weights are 16 together at most.
pub(crate) struct OfFamilies {}

impl Part for OfFamilies {
    type Value = Vec<JointFamily>;

    ghost Said = { List Said };

    ghost shape = { families_shape };

    ghost link = { plain_link (λ families. map family_of families.items) };

    ghost Fits = { λ families. AreSmallFamilies (map family_of families.items) };

    #[tactic(auto, unfolding(crate::specs::Families::families_shape))]
    fn read(alloc: Global, value: &Json) -> Result<Vec<JointFamily>, CertError> {
        let families = <OneToMost<OfFamily, 6> as Part>::read(alloc, value)?;
        if weight_of(families.as_slice()) <= JOINT_WEIGHTS {
            Ok(families)
        } else {
            Err(fault(alloc, 3))
        }
    }

    #[tactic(auto, unfolding(crate::specs::Families::families_shape))]
    fn write(alloc: Global, part: &Vec<JointFamily>) -> Result<Value, Memory> {
        let value = write_list::<OfFamily>(alloc, part.as_slice())?;
        Ok(value)
    }
}
