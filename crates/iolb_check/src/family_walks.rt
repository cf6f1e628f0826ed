//! What the tests of a joint term's family hand on.
#![tactic(auto)]

ghost use Rattle.std.specs.Prelude.{◌≡◌, map, option_map, IfOk};
ghost use Rattle.iolb_check.specs.JointWalks.{AreBare, setting_in};
ghost use Rattle.joint_partition.specs.Term.{no_form};
ghost use Rattle.joint_partition.specs.View.{family_of};
ghost use Rattle.reuse_paths.specs.WalkViews.{walk_of};
ghost use Rattle.reuse_paths.specs.Walks.{boxed_region};

use affine_form::{Form, Memory};
use affine_program::Program;
use domain_count::Nest;
use joint_partition::{Joint, JointFamily};
use reuse_paths::{Aim, Kept, Nodes, Quasts, Region, Walking};
use std::alloc::Global;

/// A family of a joint term, over a program and source trees, with an empty nest, and a label of as many forms as its labels are to
/// have.
#[derive(Clone, Copy)]
pub struct FamilyWalks<'a> {
    pub program: &'a Program,
    pub quasts: &'a Quasts,
    pub term: &'a Joint,
    pub family: &'a JointFamily,
    pub none: &'a Nest,
    pub reader: &'a [Form],
}

/// As many forms as a label of a family is to have.
pub(crate) fn blank_label(alloc: Global, family: &JointFamily) -> Result<Vec<Form>, Memory>
    ensures { IfOk result (λ label. label.items ≡ map (λ i. no_form) (family_of family.now).set) }
{
    let mut label = Vec::new(alloc);
    let set = family.set.coords();
    for _member in set {
        label.push(Form::new(Vec::new(alloc), 0))?;
    }
    Ok(label)
}

/// Walks that go on in these regions, whose labels have as many forms as the reader's: there is no nest around them.
pub(crate) fn walking_in<'a>(
    walks: &FamilyWalks<'a>,
    regions: &'a [Option<Box<Region>>],
) -> Walking<'a>
    requires { AreBare walks.now }
    ensures { walk_of result ≡ setting_in walks.now (map (option_map boxed_region) regions.now) }
{
    let credits = walks.term.credits.as_slice();
    Walking {
        program: walks.program,
        quasts: walks.quasts,
        nest: walks.none,
        aim: Aim::Keep(Kept {
            nodes: Nodes::Apart {
                labels: &[],
                regions,
            },
            inputs: &[],
            credits,
            reader: walks.reader,
        }),
        condition: 1,
    }
}
