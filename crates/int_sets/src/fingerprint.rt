//! Fingerprints of forms: values by which sums of rows are told apart.

ghost use Rattle.std.specs.Prelude.{◌≡◌, ◌≤◌, ◌*◌, ◌^◌, unsigned_abs};
ghost use Rattle.int_sets.specs.Fingerprint.{value_at_point, VALUE_LIMIT};

use affine_form::{Form, add_product};

/// A fixed point, of numbers below 2^40 drawn at random. Forms without constants that differ have different values there,
/// but for rare ones.
pub(crate) const POINT: [i128; 24] = [
    676_289_561_917,
    656_185_977_334,
    566_884_615_863,
    982_000_303_806,
    946_569_046_269,
    803_403_080_488,
    943_794_189_867,
    1_094_728_615_208,
    1_078_852_476_995,
    946_044_872_408,
    600_585_089_349,
    685_165_988_832,
    1_003_543_013_703,
    1_011_118_426_994,
    921_759_079_425,
    797_242_263_940,
    1_014_442_974_493,
    704_501_819_216,
    965_846_240_747,
    837_093_295_398,
    843_986_659_415,
    1_069_173_650_808,
    615_079_829_975,
    759_524_977_332,
];

/// The form's value at the fixed point, without its constant.
pub(crate) fn value_of(form: &Form) -> i128
    ensures value { result ≡ value_at_point form.now }
    ensures small { unsigned_abs result ≤ VALUE_LIMIT }
{
    let mut sum = 0;
    for (i, coefficient) in form.coef().iter().enumerate() {
        sum = add_product(sum, *coefficient, POINT[i]);
    }
    sum
}
