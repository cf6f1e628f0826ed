//! The parameters and the arrays among names of all kinds.

ghost use Rattle.std.specs.Prelude.{◌≡◌, IfOk};
ghost use Rattle.c_reading.specs.Names.{parameters_among, arrays_among};

use crate::named::Kind;
use affine_form::{Memory, Name};
use std::alloc::Global;

/// The parameters among these names, by their numbers.
pub(crate) fn parameters_among(
    alloc: Global,
    names: &[Name],
    kinds: &[Kind],
) -> Result<Vec<Name>, Memory>
    ensures { IfOk result (λ found. found.items ≡ parameters_among names.now kinds.now) }
{
    let mut found = Vec::new(alloc);
    let mut names = names;
    let mut kinds = kinds;
    loop {
        let Some((name, more_names)) = names.split_first() else {
            return Ok(found);
        };
        let Some((kind, more_kinds)) = kinds.split_first() else {
            return Ok(found);
        };
        if let Kind::Parameter(_) = *kind {
            found.push(name.try_clone(alloc)?)?;
        }
        names = more_names;
        kinds = more_kinds;
    }
}

/// The arrays among these names, by their numbers, each with its number of subscripts.
pub(crate) fn arrays_among(
    alloc: Global,
    names: &[Name],
    kinds: &[Kind],
) -> Result<Vec<(Name, usize)>, Memory>
    ensures { IfOk result (λ found. found.items ≡ arrays_among names.now kinds.now) }
{
    let mut found = Vec::new(alloc);
    let mut names = names;
    let mut kinds = kinds;
    loop {
        let Some((name, more_names)) = names.split_first() else {
            return Ok(found);
        };
        let Some((kind, more_kinds)) = kinds.split_first() else {
            return Ok(found);
        };
        if let Kind::Array(_, subscripts) = *kind {
            found.push((name.try_clone(alloc)?, subscripts))?;
        }
        names = more_names;
        kinds = more_kinds;
    }
}
