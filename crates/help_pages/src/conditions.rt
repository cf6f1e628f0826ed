//! The conditions of certificates and of stores, in sentences.

ghost use Rattle.std.specs.Prelude.{◌≡◌, ◌≤◌, ◌-◌, ◌↔◌, IsSome, IfSome, Some, slice_get};
ghost use Rattle.help_pages.specs.Conditions.{condition_places, condition_texts};

/// What is said of a condition: when it holds, and what a place of its failure names.
#[derive(Clone, Copy)]
pub struct Condition {
    pub holds: &'static str,
    pub place: &'static str,
}

/// When the condition of this number holds.
fn condition_holds(number: u64) -> Option<&'static str>
    ensures there { IsSome result ↔ ((1 ≤ number) × (number ≤ 25)) }
    ensures text { IfSome result (λ text. slice_get condition_texts (number - 1) ≡ Some text.now) }
{
    Some(match number {
        1 =>
            "each list has the length that the program calls for, each index names a thing, and polynomials use only their variables",
        2 => "no operation on polynomials passes its limit, and no system has more than 128 rows",
        3 => "the source that a leaf names is an instance: its loop values are within their bounds",
        4 => "the source that a leaf names writes the array that is read, and the cell",
        5 => "the source comes before the reader, at its level",
        6 =>
            "no write of the cell lies between the source and the reader, or none at all is earlier",
        7 => "an empty leaf has no point: its tests contradict the domain of the reader",
        8 =>
            "each range of a nest is whole: `upper - lower + 1` is at least 0 wherever the variables before it are",
        9 =>
            "each sum's difference in its variable is what the variables behind it count, so the last is the number of points",
        10 =>
            "the points are instances: their loop values are within the bounds of the statement's loops",
        11 =>
            "the read is of an input at each point: each leaf of the read's tree is one without an earlier write, or has no point",
        12 =>
            "different points have different words or images: the matrix times the coefficients of the variables is the scale times the identity",
        13 =>
            "the start label fixes what its set says: the coefficients of the loops are the scale times the rows of `matrix` in the set",
        14 => "the word at the other end of a step has the label of the reader",
        15 =>
            "at each leaf a walk ends at an input or at a credited nest, or goes on in a region of the source, or has no point",
        16 => "`inverse` times `matrix` is the identity",
        17 => "each coordinate is fixed by sets whose weights are q or more together",
        18 =>
            "no two families have a word in common: in shape \"sum\" all families, in a joint term those of different groups",
        19 =>
            "the word is what the user reads: at each leaf the source that is named, or an input where none is, or there is no point",
        20 => "a walk from the vertex arrives at the source",
        21 => "a walk from the user arrives at the vertex",
        22 => "the vertex depends on the outer variables alone",
        23 => "no two terms of a branch, or outputs of stores, have a word in common",
        24 => "no later instance writes the cell of an output of stores",
        25 =>
            "points of two parts of a joint term have different images: no point of both meets the rows at an end of their split",
        _ => return None,
    })
}

/// What a place of the failure of the condition of this number names.
fn condition_place(number: u64) -> Option<&'static str>
    ensures there { IsSome result ↔ ((1 ≤ number) × (number ≤ 25)) }
    ensures text { IfSome result (λ text. slice_get condition_places (number - 1) ≡ Some text.now) }
{
    Some(match number {
        1 => "the value that is wrong, the first on a walk through the text",
        2 => "the polynomial, or the multipliers whose system is too long",
        3 => "`domain/i`: two for each loop of the source, the lower bound and then the upper",
        4 =>
            "`statement`, or `cell/i`: two for each subscript, one for each direction of the equation",
        5 => "`before/i`: two for each loop that is equal, and one for the next",
        6 =>
            "`between/i` or `input/i`: one for each statement that writes the array and each level at which it could come",
        7 => "`empty`",
        8 => "`shown/k`, of the nest's k-th variable",
        9 => "`sums/k`, of the nest's k-th variable",
        10 => "`inside/i`: two for each loop, the lower bound and then the upper",
        11 => "`leaves/i`, of the i-th leaf that isn't empty, `yes` before `no`",
        12 => "`inverse/matrix/row/column`",
        13 => "`start/label/i`",
        14 =>
            "`label/i` or `stop/i`: two for each member of the set, or the leaf where the word has no label",
        15 => "the leaf, `rows/i`, or `empty`",
        16 => "`inverse/row/column`",
        17 => "`matrix/coordinate`; `parts/0/map/coordinate` in a joint term",
        18 => "`apart/i`, one for each pair of pieces of two such families",
        19 => "`edge/i`, of the i-th leaf that isn't empty",
        20 => "in `reach`",
        21 => "in `back`",
        22 => "`vertex/point/i`, the form that has another variable",
        23 => "`disjoint/i`, one for each pair of pieces of two terms; `apart/i` in stores",
        24 =>
            "`later/i`: one for each statement that writes the array and each level at which it could come",
        25 =>
            "`distinct/i`, one for each pair of parts, then `yes` or `no` for each test on the way, then `empty`",
        _ => return None,
    })
}

/// What is said of the condition of this number, from 1 to 25.
pub fn condition_of(number: u64) -> Option<Condition>
    ensures there { IsSome result ↔ ((1 ≤ number) × (number ≤ 25)) }
    ensures holds { IfSome result (λ said. slice_get condition_texts (number - 1) ≡ Some said.holds.now) }
    ensures place { IfSome result (λ said. slice_get condition_places (number - 1) ≡ Some said.place.now) }
{
    match (condition_holds(number), condition_place(number)) {
        (Some(holds), Some(place)) => Some(Condition { holds, place }),
        _ => None,
    }
}
