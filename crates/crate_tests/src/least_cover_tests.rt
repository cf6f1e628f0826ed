//! Least covers against all weights and all packings, on sets of up to three coordinates, and of drawn families of six sets. A
//! set is written as a number whose bits are its coordinates.

ghost use Rattle.std.specs.Prelude.{◌≤◌};

use cover_lp::{CoordSet, CoverFault, least_cover};
use std::alloc::Global;
use std::test::Fail;

/// The coordinates, as sets of one.
const COORDINATES: [u32; 6] = [1, 2, 4, 8, 16, 32];

/// The sets that aren't empty, each with its bit in a family of sets.
const SETS: [(u32, u32); 7] = [(1, 1), (2, 2), (3, 4), (4, 8), (5, 16), (6, 32), (7, 64)];

/// What the digits of a code in a base give in total at the items that meet a set; the digits stand for the items in order.
fn total_at(items: &[u32], base: u32, code: u32, set: u32) -> u32
    requires { 1 ≤ base }
{
    let mut rest = code;
    let mut total: u32 = 0;
    for item in items {
        if *item & set != 0 {
            total = total.saturating_add(rest % base);
        }
        rest /= base;
    }
    total
}

/// How many codes of so many digits there are.
fn codes(base: u32, digits: &[u32]) -> u32 {
    let mut count: u32 = 1;
    for _digit in digits {
        count = count.saturating_mul(base);
    }
    count
}

/// Whether the weights of a code give each coordinate at least q.
fn is_covering(sets: &[u32], coordinates: &[u32], q: u32, code: u32) -> bool {
    for coordinate in coordinates {
        if total_at(sets, q.saturating_add(1), code, *coordinate) < q {
            return false;
        }
    }
    true
}

/// Whether the amounts of a code give each set at most q.
fn is_packing(sets: &[u32], coordinates: &[u32], q: u32, code: u32) -> bool {
    for set in sets {
        if total_at(coordinates, q.saturating_add(1), code, *set) > q {
            return false;
        }
    }
    true
}

/// The least total of a cover with weights up to q.
fn least_weight(sets: &[u32], coordinates: &[u32], q: u32) -> u32 {
    let base = q.saturating_add(1);
    let mut least = u32::MAX;
    for code in 0..codes(base, sets) {
        if is_covering(sets, coordinates, q, code) {
            least = least.min(total_at(sets, base, code, 7));
        }
    }
    least
}

/// The greatest total of a packing with amounts up to q.
fn greatest_packing(sets: &[u32], coordinates: &[u32], q: u32) -> u32 {
    let base = q.saturating_add(1);
    let mut greatest: u32 = 0;
    for code in 0..codes(base, coordinates) {
        if is_packing(sets, coordinates, q, code) {
            greatest = greatest.max(total_at(coordinates, base, code, 7));
        }
    }
    greatest
}

/// The first coordinate in no set.
fn first_bare(sets: &[u32], coordinates: &[u32]) -> Option<u8> {
    let mut place: u8 = 0;
    for coordinate in coordinates {
        if !sets.iter().any(|set| set & coordinate != 0) {
            return Some(place);
        }
        place = place.saturating_add(1);
    }
    None
}

/// The least denominator up to 12 over which a cover and a packing have one total, and this total.
fn least_pair(sets: &[u32], coordinates: &[u32]) -> Option<(u32, u32)> {
    for q in 1..13 {
        let total = least_weight(sets, coordinates, q);
        if total == greatest_packing(sets, coordinates, q) {
            return Some((q, total));
        }
    }
    None
}

/// The sets of a family.
fn sets_of(alloc: Global, family: u32) -> Result<Vec<u32>, Fail> {
    let mut sets = Vec::new(alloc);
    for (set, bit) in SETS.iter() {
        if family & bit != 0 {
            sets.push(*set)?;
        }
    }
    Ok(sets)
}

/// The coordinates of a set.
fn coordinates_of(alloc: Global, set: u32) -> Result<CoordSet, Fail> {
    let mut coordinates = Vec::new(alloc);
    let mut place: u8 = 0;
    for coordinate in COORDINATES.iter() {
        if set & coordinate != 0 {
            coordinates.push(place)?;
        }
        place = place.saturating_add(1);
    }
    Ok(CoordSet::new(coordinates))
}

/// The total of weights.
fn total_of(weights: &[u8]) -> u32 {
    let mut total: u32 = 0;
    for weight in weights {
        total = total.saturating_add(u32::from(*weight));
    }
    total
}

/// Whether the answer for a family of sets is what all weights and packings say.
fn is_least(alloc: Global, family: u32, coordinates: &[u32], d: u8) -> Result<bool, Fail> {
    let sets = sets_of(alloc, family)?;
    let mut given = Vec::new(alloc);
    for set in sets.as_slice() {
        given.push(coordinates_of(alloc, *set)?)?;
    }
    let bare = first_bare(sets.as_slice(), coordinates);
    Ok(match least_cover(alloc, given.as_slice(), d) {
        Ok(cover) => {
            let found = (u32::from(cover.q()), total_of(cover.weights()));
            bare.is_none() && least_pair(sets.as_slice(), coordinates) == Some(found)
        }
        Err(CoverFault::Uncovered(coordinate)) => bare == Some(coordinate),
        Err(_) => false,
    })
}

/// The families of sets of one, two and three coordinates: no number of at most six sets is left out.
const FAMILIES: [(u8, u32); 3] = [(1, 2), (2, 8), (3, 127)];

#[test]
fn covers_are_least_among_all_weights(rt: HostRuntime) -> Result<(), Fail> {
    let alloc = rt.alloc();
    for (d, end) in FAMILIES.iter() {
        let coordinates = &COORDINATES[..usize::from(*d)];
        for family in 1..*end {
            assert!(rt; is_least(alloc, family, coordinates, *d)?);
        }
    }
    Ok(())
}

/// Whether the least cover of sets that are written as numbers has these weights, this packing and this denominator.
fn is_known(
    alloc: Global,
    sets: &[u32],
    d: u8,
    weights: &[u8],
    packing: &[u8],
    q: u8,
) -> Result<bool, Fail> {
    let mut given = Vec::new(alloc);
    for set in sets {
        given.push(coordinates_of(alloc, *set)?)?;
    }
    Ok(match least_cover(alloc, given.as_slice(), d) {
        Ok(cover) => cover.weights() == weights && cover.packing() == packing && cover.q() == q,
        Err(_) => false,
    })
}

#[test]
fn least_covers_are_known(rt: HostRuntime) -> Result<(), Fail> {
    let alloc = rt.alloc();
    assert!(rt; is_known(alloc, &[3, 5, 6], 3, &[1, 1, 1], &[1, 1, 1], 2)?);
    assert!(rt; is_known(alloc, &[1, 2], 2, &[1, 1], &[1, 1], 1)?);
    assert!(rt;
        is_known(
            alloc,
            &[3, 6, 12, 24, 17],
            5,
            &[1, 1, 1, 1, 1],
            &[1, 1, 1, 1, 1],
            2
        )?
    );
    Ok(())
}

/// How many families of six sets are drawn.
const DRAWN: u32 = 2_000;

/// A number drawn after another (a linear congruence; Knuth, The Art of Computer Programming, volume 2, section 3.3.4).
fn next(seed: u64) -> u64 {
    seed.wrapping_mul(6_364_136_223_846_793_005)
        .wrapping_add(1_442_695_040_888_963_407)
}

/// Six drawn sets of six coordinates, none empty, and the next number to draw from.
fn drawn_sets(alloc: Global, seed: u64) -> Result<(Vec<u32>, u64), Fail> {
    let mut sets = Vec::new(alloc);
    let mut seed = seed;
    for _ in 0..6 {
        seed = next(seed);
        sets.push((seed >> 33) as u32 % 63 + 1)?;
    }
    Ok((sets, seed))
}

/// Whether six sets have a least cover exactly where each of six coordinates is in one.
fn has_least_cover(alloc: Global, sets: &[u32]) -> Result<bool, Fail> {
    let mut given = Vec::new(alloc);
    for set in sets {
        given.push(coordinates_of(alloc, *set)?)?;
    }
    let bare = first_bare(sets, &COORDINATES);
    Ok(match least_cover(alloc, given.as_slice(), 6) {
        Ok(_) => bare.is_none(),
        Err(CoverFault::Uncovered(coordinate)) => bare == Some(coordinate),
        Err(_) => false,
    })
}

#[test]
fn six_sets_have_least_covers(rt: HostRuntime) -> Result<(), Fail> {
    let alloc = rt.alloc();
    let mut seed = 1;
    for _ in 0..DRAWN {
        let (sets, after) = drawn_sets(alloc, seed)?;
        assert!(rt; has_least_cover(alloc, sets.as_slice())?);
        seed = after;
    }
    Ok(())
}
