//! References, as they are written in C.

ghost use Rattle.std.specs.Prelude.{length};
ghost use Rattle.iolb_model.specs.Program.{AccessFits, IsOver};
ghost use Rattle.affine_program.specs.Parts.{access_of, meaning};

use affine_form::{Form, Memory, Name};
use affine_program::{Program, Reference};
use plain_pages::Page;

/// Writes a subscript in brackets.
fn write_subscript(page: &mut Page, names: &[Name], form: &Form) -> Result<(), Memory>
    requires { IsOver (length names.now) form.now }
{
    let text = form.text(page.alloc(), names)?;
    page.text("[")?;
    page.write_bytes(text.as_slice())?;
    page.text("]")?;
    Ok(())
}

/// Writes a reference of a program, where these are the parameters and the loops round it.
pub fn write_reference(
    page: &mut Page,
    program: &Program,
    names: &[Name],
    reference: &Reference,
) -> Result<(), Memory>
    requires { AccessFits (meaning program.now) (length names.now) (access_of reference.now) }
{
    let (name, _rank) = &program.arrays()[usize::from(reference.array)];
    page.write_bytes(name.bytes())?;
    for form in reference.subs.as_slice() {
        write_subscript(page, names, form)?;
    }
    Ok(())
}
