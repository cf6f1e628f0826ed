//! Joint partition terms.

use affine_form::{Form, Multipliers};
use cover_lp::CoordSet;
use domain_count::{Nest, Sums};
use reuse_paths::{Credit, Region, Walk};
use wavefront::Inverse;

/// What shows that a system has no whole-number point.
#[derive(Debug, Drop)]
pub enum Split {
    /// A split where the form is at least 0, and one where it is at most -1.
    Test {
        form: Form,
        yes: Box<Split>,
        no: Box<Split>,
    },
    /// Multipliers that show it.
    Empty {
        shown: Multipliers,
    },
}

/// A part of a joint term. Its points are the instances of the statement in the nest; `inside` shows that they are instances.
/// The image of one is the values of the forms of the map, which has a scaled inverse.
#[derive(Debug, Drop)]
pub struct Part {
    pub statement: u16,
    pub nest: Nest,
    pub sums: Sums,
    pub inside: Vec<Multipliers>,
    pub image: Vec<Form>,
    pub inverse: Inverse,
}

/// The labels of words: for each statement none, or that of its instances, as forms over the parameters and the loop values;
/// and for each array none, or that of its cells, as forms over the parameters and the subscripts.
#[derive(Debug, Drop)]
pub struct Labeling {
    pub nodes: Vec<Option<Box<Vec<Form>>>>,
    pub inputs: Vec<Option<Box<Vec<Form>>>>,
}

/// A way of walks: the number of a labeling, and for each statement none, or the region from which walks go on.
#[derive(Debug, Drop)]
pub struct Way {
    pub labels: u8,
    pub regions: Vec<Option<Box<Region>>>,
}

/// How walks start from the points of a part, and the number of the way that they enter.
#[derive(Debug, Drop)]
pub struct Start {
    pub way: u8,
    pub tree: Walk,
}

/// A family of walks, with a start for each part. A start label is the scale times the coordinates of the set, which has a
/// weight. Families of different groups have no word in common.
#[derive(Debug, Drop)]
pub struct JointFamily {
    pub group: u8,
    pub scale: u32,
    pub set: CoordSet,
    pub weight: u8,
    pub labels: Vec<Labeling>,
    pub ways: Vec<Way>,
    pub starts: Vec<Start>,
}

/// A joint partition term: points of several statements, or of one under several images, are counted in one space. `distinct`
/// shows of each two parts that their images differ; the sets of the families cover each coordinate `q` times. A stretch has `a`
/// times s and `b` events more where s words are red at most; the points of the credits aren't counted against their
/// computations. `apart` shows that no two families of different groups have a word in common.
#[derive(Debug, Drop)]
pub struct Joint {
    pub parts: Vec<Part>,
    pub distinct: Vec<Split>,
    pub q: u8,
    pub a: u8,
    pub b: u32,
    pub credits: Vec<Credit>,
    pub families: Vec<JointFamily>,
    pub apart: Vec<Multipliers>,
}
