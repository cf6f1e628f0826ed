//! The lines of a play.

ghost use Rattle.std.specs.Prelude.{◌≡◌, ◌++◌, OnOk};
ghost use Rattle.tile_sched.specs.Lines.{number_line};

use itoa::Buffer;
use std::alloc::AllocError;

/// Puts words and a number in the place of what a line held.
pub(crate) fn set_line(line: &mut Vec<u8>, words: &[u8], number: u64) -> Result<(), AllocError>
    ensures { OnOk result (line.new.items ≡ number_line words.now number) }
{
    let mut digits = Buffer::new();
    line.clear();
    line.extend_from_slice(words)?;
    line.extend_from_slice(digits.format(number).as_bytes())?;
    line.push(b'\n')?;
    Ok(())
}
