//! That pairs have one total, and that a pair in reach makes a least one be in reach.

ghost use Rattle.cover_lp.specs.Cover.{PairsHaveOneTotal, PairsInReachHaveLeast};

/// A law: where some cover and packing of equal totals have a denominator from 1 to 12 and a total of at most 24, so has a
/// pair over the least denominator of all.
pub fn pairs_in_reach_have_least()
    ensures { PairsInReachHaveLeast }
{}

/// A law: pairs over two denominators have one total, as a ratio. So where the total of one pair is known, the others have to be
/// looked for at that total alone, and at those denominators over which it is whole.
pub fn pairs_have_one_total()
    ensures { PairsHaveOneTotal }
{}
