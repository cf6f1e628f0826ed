//! Start labels of counted points.

ghost use Rattle.std.specs.Prelude.{◌≡◌, ◌<◌, ◌*ℤ◌, pos, unsigned_abs, length, map, slice_index_or, IfOk};
ghost use Rattle.std.specs.List.{AllByRecursion};
ghost use Rattle.affine_form.specs.Combination.{scale_form};
ghost use Rattle.affine_form.specs.Form.{IsSmallForm};
ghost use Rattle.iolb_model.specs.declared.limits.TheConstants.{NUMBER_SIZE, PUT_SIZE};
ghost use Rattle.joint_partition.specs.Term.{no_form, start_label};
ghost use Rattle.joint_partition.specs.View.{family_of, part_of};

use crate::term::{JointFamily, Part};
use affine_form::{Form, Memory, add_product};
use std::alloc::Global;

/// A number times a scale.
fn times(scale: u32, number: i128) -> i128
    requires { unsigned_abs number < NUMBER_SIZE }
    ensures value { result ≡ pos scale *ℤ number }
    ensures small { unsigned_abs result < PUT_SIZE }
{
    add_product(0, i128::from(scale), number)
}

/// A form times a scale.
fn scaled(alloc: Global, scale: u32, form: &Form) -> Result<Form, Memory>
    requires { IsSmallForm NUMBER_SIZE form.now }
    ensures { IfOk result (λ scaled. scaled ≡ scale_form (pos scale) form.now) }
{
    let numbers = form.coef();
    let mut coef = Vec::new(alloc);
    for number in numbers {
        let product = times(scale, *number);
        coef.push(product)?;
    }
    let constant = times(scale, form.constant());
    Ok(Form::new(coef, constant))
}

/// The forms of a list with these numbers, times a scale.
fn scaled_forms(
    alloc: Global,
    scale: u32,
    forms: &[Form],
    numbers: &[u8],
) -> Result<Vec<Form>, Memory>
    requires forms { AllByRecursion (IsSmallForm NUMBER_SIZE) forms.now }
    requires numbers { AllByRecursion (λ i. i < length forms.now) numbers.now }
    ensures scaled { IfOk result (λ all. all.items ≡ map (λ i. scale_form (pos scale) (slice_index_or forms.now i no_form)) numbers.now) }
    ensures small { IfOk result (λ all. AllByRecursion (IsSmallForm PUT_SIZE) all.items) }
{
    let mut all = Vec::new(alloc);
    for number in numbers {
        let i = usize::from(*number);
        let form = scaled(alloc, scale, &forms[i])?;
        all.push(form)?;
    }
    Ok(all)
}

/// The start label of a family's walks from a part: the scale times the forms of the part's map in the family's set.
pub(crate) fn start_label(
    alloc: Global,
    part: &Part,
    family: &JointFamily,
) -> Result<Vec<Form>, Memory>
    requires image { AllByRecursion (IsSmallForm NUMBER_SIZE) part.now.image.items }
    requires set { AllByRecursion (λ i. i < length part.now.image.items) family.now.set }
    ensures label { IfOk result (λ label. label.items ≡ start_label (part_of part.now) (family_of family.now)) }
    ensures small { IfOk result (λ label. AllByRecursion (IsSmallForm PUT_SIZE) label.items) }
{
    let image = part.image.as_slice();
    let set = family.set.coords();
    scaled_forms(alloc, family.scale, image, set)
}
