//! Trees whose inner nodes test forms.

ghost use Rattle.std.specs.Prelude.{◌≡◌, codes, IfOk};
ghost use Rattle.iolb_model.specs.declared.limits.TheConstants.{NUMBER_SIZE};
ghost use Rattle.affine_form.specs.Form.{IsSmallForm};
ghost use Rattle.serde_json.specs.Data.{member, no_members, object};
ghost use Rattle.json_values.specs.View.{json_data};
ghost use Rattle.serde_json.specs.View.{view};
ghost use Rattle.json_parts.specs.Outcome.{Gives};
ghost use Rattle.json_parts.specs.Shape.{IsReadBack};
ghost use Rattle.certificate_parts.specs.Forms.{form_shape};
ghost use Rattle.certificate_parts.specs.Nested.{Branching, reads_nested, test_data};

use crate::forms::OfForm;
use affine_form::{Form, Memory};
use claims::{ObjectKey, Step};
use json_parts::{CertError, Part, fault, has_keys, said_member, under};
use json_values::Json;
use serde_json::{Value, json};
use std::alloc::{AllocError, Global};

/// How trees of a kind are read and made.
pub trait Branches: Drop {
    /// What a text says of a tree.
    ghost Tree: { Type 0 };

    ghost branching: { Branching Tree };

    ghost tree: { Self → Tree };

    /// The tree without tests that a value says.
    fn read_end(alloc: Global, value: &Json) -> Result<Self, CertError>
        ensures { Gives tree result (branching.reads_end (json_data value.now)) };

    /// A test of a form, over the tree where it is at least 0, and that where it is below.
    fn test(alloc: Global, form: Form, yes: Self, no: Self) -> Result<Self, Memory>
        ensures { IfOk result (λ made. tree made ≡ branching.made form (tree yes) (tree no)) };
}

/// A tree in which so many tests may be nested.
pub fn nested<T: Branches>(alloc: Global, value: &Json, left: u8) -> Result<T, CertError>
    ensures { Gives T.tree result (reads_nested T.branching left (json_data value.now)) }
{
    if !has_keys(value, &["form", "no", "yes"]) {
        return T::read_end(alloc, value);
    }
    if left == 0 {
        return Err(fault(alloc, 3));
    }
    let form = said_member::<OfForm>(alloc, value, "form")?;
    let Some(below) = value.get("no") else {
        return Err(fault(alloc, 2));
    };
    let no = match nested::<T>(alloc, below, left - 1) {
        Ok(tree) => tree,
        Err(error) => return Err(under(alloc, Step::Key(ObjectKey("no")), error)),
    };
    let Some(above) = value.get("yes") else {
        return Err(fault(alloc, 2));
    };
    match nested::<T>(alloc, above, left - 1) {
        Ok(yes) => Ok(T::test(alloc, form, yes, no)?),
        Err(error) => Err(under(alloc, Step::Key(ObjectKey("yes")), error)),
    }
}

/// The object of a test, by the values of its members.
fn test_object(alloc: Global, form: Value, no: Value, yes: Value) -> Result<Value, AllocError>
    ensures { IfOk result (λ value. view value
        ≡ object (member (codes "form") (view form) (member (codes "no") (view no) (member (codes "yes") (view yes) no_members)))) }
{
    json!(in alloc; {"form": form, "no": no, "yes": yes})
}

/// A test of a form, by the values of its trees.
pub fn write_test(alloc: Global, form: &Form, no: Value, yes: Value) -> Result<Value, Memory>
    requires { IsSmallForm NUMBER_SIZE form.now }
    ensures value { IfOk result (λ value. view value ≡ test_data form.now (view no) (view yes)) }
    ensures read { IfOk result (λ _. IsReadBack form_shape form.now) }
{
    let form = <OfForm as Part>::write(alloc, form)?;
    Ok(test_object(alloc, form, no, yes)?)
}
