//! How many pairs of pieces have one target.

ghost use Rattle.std.specs.Prelude.{◌≡◌, ◌<◌, ◌+◌, ◌↔◌, length, map, filter, IsTrue, MatchOption};
ghost use Rattle.footprint_pieces.specs.DisjointClaims.{same_target};
ghost use Rattle.footprint_pieces.specs.TargetPairs.{items_of, pairwise_targets, same_in_lists, same_targets};

use crate::piece::Target;
use crate::shared::is_same;

/// Whether there are so many pairs of one target of each list and the same of a later list.
pub fn has_pairs(lists: &[Vec<Target>], many: usize) -> bool
    ensures { IsTrue result ↔ (many ≡ length (pairwise_targets (map items_of lists.now))) }
{
    left_of_lists(lists, many) == Some(0)
}

/// How many of so many are left where each such pair takes one, if there are enough.
fn left_of_lists(lists: &[Vec<Target>], many: usize) -> Option<usize>
    ensures { MatchOption result (many < length (pairwise_targets (map items_of lists.now))) (λ left. left + length (pairwise_targets (map items_of lists.now)) ≡ many) }
{
    let mut left = many;
    for (i, targets) in lists.iter().enumerate() {
        let (_before, later) = lists.split_at(i + 1);
        left = pairs_left(targets.as_slice(), later, left)?;
    }
    Some(left)
}

/// How many of so many are left where each pair of one of the targets and the same of the lists takes one, if there are enough.
pub fn pairs_left(targets: &[Target], lists: &[Vec<Target>], many: usize) -> Option<usize>
    ensures { MatchOption result (many < length (same_in_lists targets.now (map items_of lists.now))) (λ left. left + length (same_in_lists targets.now (map items_of lists.now)) ≡ many) }
{
    let mut left = many;
    for others in lists {
        left = left_of(targets, others.as_slice(), left)?;
    }
    Some(left)
}

/// How many are left where each pair of one of the targets and the same of others takes one.
fn left_of(targets: &[Target], others: &[Target], many: usize) -> Option<usize>
    ensures { MatchOption result (many < length (same_targets targets.now others.now)) (λ left. left + length (same_targets targets.now others.now) ≡ many) }
{
    let mut left = many;
    for target in targets {
        left = left.checked_sub(count_of(target, others))?;
    }
    Some(left)
}

/// How many of the others are the target.
fn count_of(target: &Target, others: &[Target]) -> usize
    ensures { result ≡ length (filter (same_target target.now) others.now) }
{
    others.iter().filter(|other| is_same(target, other)).count()
}
