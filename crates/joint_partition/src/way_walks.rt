//! Walks that go on in the regions of a way.

ghost use Rattle.std.specs.Prelude.{◌≡◌, ◌<◌, [], length, map};
ghost use Rattle.affine_program.specs.Parts.{meaning};
ghost use Rattle.dep_quast.specs.Quasts.{trees_of};
ghost use Rattle.reuse_paths.specs.Families.{credit_of};
ghost use Rattle.reuse_paths.specs.FamilyClaims.{family_setting};
ghost use Rattle.reuse_paths.specs.WalkViews.{walk_of};
ghost use Rattle.joint_partition.specs.FamiliesFit.{AreLabeled};
ghost use Rattle.joint_partition.specs.Term.{labels_of, way_at, way_walks};
ghost use Rattle.joint_partition.specs.View.{family_of, labeling_of, way_of};

use crate::term::{JointFamily, Labeling, Way};
use affine_form::Form;
use affine_program::Program;
use domain_count::Nest;
use reuse_paths::{Aim, Credit, Kept, Nodes, Quasts, Walking};

/// The way of a family with this number.
pub(crate) fn way_at(family: &JointFamily, number: u8) -> &Way
    requires { number < length (family_of family.now).ways }
    ensures { way_of result.now ≡ way_at (family_of family.now) number }
{
    let ways = family.ways.as_slice();
    let i = usize::from(number);
    &ways[i]
}

/// The labeling of a family with this number.
pub(crate) fn labeling_at(family: &JointFamily, number: u8) -> &Labeling
    requires { number < length (family_of family.now).labels }
    ensures { labeling_of result.now ≡ labels_of (family_of family.now) number }
{
    let labels = family.labels.as_slice();
    let i = usize::from(number);
    &labels[i]
}

/// The walks of a family in a way, from readers with this label: there is no nest around them.
pub(crate) fn walking_in<'a>(
    program: &'a Program,
    quasts: &'a Quasts,
    none: &'a Nest,
    credits: &'a [Credit],
    family: &'a JointFamily,
    way: &'a Way,
    reader: &'a [Form],
) -> Walking<'a>
    requires none { none.now ≡ [] }
    requires there { way.now.labels < length (family_of family.now).labels }
    requires labeled { AreLabeled (labels_of (family_of family.now) way.now.labels).nodes (way_of way.now).regions }
    ensures setting { walk_of result ≡ family_setting (meaning program.now) (trees_of quasts.now) (map credit_of credits.now) (way_walks (family_of family.now) (way_of way.now)) reader.now }
    ensures condition { result.condition ≡ 15 }
{
    let own = labeling_at(family, way.labels);
    let labels = own.nodes.as_slice();
    let inputs = own.inputs.as_slice();
    let regions = way.regions.as_slice();
    Walking {
        program,
        quasts,
        nest: none,
        aim: Aim::Keep(Kept {
            nodes: Nodes::Apart { labels, regions },
            inputs,
            credits,
            reader,
        }),
        condition: 15,
    }
}
