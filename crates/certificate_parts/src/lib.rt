//! The parts of certificates as JSON values, read and written: forms, multipliers, matrices and those with a scale, nests,
//! polynomials, claims at the leaves of source trees, these trees, walks back along the sources of reads, regions, spots, what shows that walks
//! arrive, families of walks, and credited nests.
//!
//! Each is a `Part` of `json_parts`. Its reader takes a JSON value (RFC 8259) and answers what it says, or the first fault of
//! one walk over it: of an object the keys first, then the values by the byte order of their keys; of a list its length,
//! where that has a limit, then its members. Fault 2 is a value of another shape, fault 3 a number or a length past a limit.
//! A fault's place is the way to the value at fault from the value that is read. Its writer makes exactly the value that the
//! reader takes back.
#![tactic(auto)]

mod apart;
mod credits;
mod families;
mod forms;
mod inverses;
mod leaves;
mod matrices;
mod multipliers;
pub mod nested;
mod nests;
mod numbers;
mod polynomials;
mod reaches;
mod trees;
mod walks;

pub use credits::OfCredit;
pub use families::OfFamilies;
pub use forms::OfForm;
pub use inverses::OfInverse;
pub use leaves::OfLeaf;
pub use matrices::OfMatrix;
pub use multipliers::OfMultipliers;
pub use nests::OfNest;
pub use polynomials::OfPolynomial;
pub use reaches::{OfReach, OfRegion, OfSpot};
pub use trees::OfTree;
pub use walks::OfWalk;
