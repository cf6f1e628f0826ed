//! Branches of certificates, and their terms.

use affine_form::Multipliers;
use joint_partition::Joint;
use k_partition::Partition;
use wavefront::{Cold, Wavefront};

/// A term of a branch: what some words are claimed to be loaded for.
#[derive(Debug, Drop)]
pub enum Term {
    /// Words that are read before any instance wrote them.
    Cold(Cold),
    /// Instances whose words are reused along walks, and so many of them as go into a stretch of moves.
    Partition(Partition),
    /// Words that are there when vertices are computed, and are used behind them.
    Wavefront(Wavefront),
    /// Points of several statements, or of one under several images, whose words are reused along walks, and so many of their
    /// images as go into a stretch of moves.
    Joint(Joint),
}

/// A branch of a certificate: terms, and multipliers which show that no two of them count a word that the other counts.
#[derive(Debug, Drop)]
pub struct Branch {
    pub terms: Vec<Term>,
    pub disjoint: Vec<Multipliers>,
}
