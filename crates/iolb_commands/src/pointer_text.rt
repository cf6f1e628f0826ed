//! Places in JSON values, printed.

ghost use Rattle.std.specs.Prelude.{◌≡◌, ◌++◌, IfOk, OnOk};
ghost use Rattle.iolb_commands.specs.PointerText.{pointer_text as text_of_pointer, step_text};

use affine_form::Memory;
use claims::{Place, Step};
use std::alloc::Global;

/// A step of a JSON Pointer, written at the end.
fn push_step(alloc: Global, text: &mut Vec<u8>, step: &Step) -> Result<(), Memory>
    ensures { OnOk result (text.new.items ≡ text.old.items ++ step_text step.now) }
{
    text.push(b'/')?;
    match step {
        Step::Key(key) => text.extend_from_slice(key.0.as_bytes())?,
        Step::Index(index) => text.extend_from_slice(format!(in alloc; "{index}")?.as_bytes())?,
    }
    Ok(())
}

/// The place as a JSON Pointer (RFC 6901).
pub(crate) fn pointer_text(alloc: Global, place: &Place) -> Result<Vec<u8>, Memory>
    ensures { IfOk result (λ text. text.items ≡ text_of_pointer place.now) }
{
    let mut text = Vec::new(alloc);
    for step in place.steps() {
        push_step(alloc, &mut text, step)?;
    }
    Ok(text)
}
