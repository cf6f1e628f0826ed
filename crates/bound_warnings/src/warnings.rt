//! All warnings of a program.

ghost use Rattle.std.specs.Prelude.{◌≡◌, ◌++◌, OnOk};
ghost use Rattle.std.specs.List.{flat_map};
ghost use Rattle.bound_warnings.specs.Names.{name_lines};

use crate::loops::{Scene, warn_items};
use crate::names::warn_name;
use affine_form::Memory;
use affine_program::Program;
use plain_pages::Page;
use program_pages::Places;

/// Writes warnings about the parameters of a program, which the file of this name has, whose names mean something else in bounds.
pub fn write_name_warnings(page: &mut Page, file: &str, program: &Program) -> Result<(), Memory>
    ensures { OnOk result (page.new ≡ page.old ++ flat_map (name_lines file.now) program.now.params) }
{
    for name in program.params() {
        warn_name(page, file, name)?;
    }
    Ok(())
}

/// Writes warnings about the loops of a program that keep bounds from being found: loops whose ranges may be less than empty, and loops
/// that look like tiles.
pub fn write_loop_warnings(
    page: &mut Page,
    file: &str,
    text: &[u8],
    program: &Program,
    places: &Places,
) -> Result<(), Memory> {
    let alloc = page.alloc();
    let scene = Scene {
        alloc,
        file,
        text,
        program,
        places,
        guarded: false,
    };
    let mut seen = 0;
    warn_items(scene, page, &mut seen, &[], program.tree())
}
