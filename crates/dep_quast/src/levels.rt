//! Levels of the order of two statements, and writers of an array.

ghost use Rattle.std.specs.Prelude.{◌≡◌, ◌<◌, ◌≤◌, length, IfOk, suc};
ghost use Rattle.std.specs.List.{AllByRecursion};
ghost use Rattle.affine_program.specs.Parts.{meaning};
ghost use Rattle.dep_quast.specs.Levels.{level_count, writers, IsWriter};
ghost use Rattle.iolb_model.specs.declared.limits.TheConstants.{LOOPS};

use affine_form::Memory;
use affine_program::Program;
use std::alloc::Global;

/// How many levels there are at which an instance of t may come before one of s: one for each loop around both, and one
/// more where t stands before s in the text.
pub fn level_count(program: &Program, t: u16, s: u16) -> usize
    requires t_there { t < length program.now.statements }
    requires s_there { s < length program.now.statements }
    ensures count { result ≡ level_count (meaning program.now) t s }
    ensures few { result ≤ suc LOOPS }
{
    let _params = program.params();
    let common = program.common(t, s);
    if t < s { common + 1 } else { common }
}

/// The statements that write an array, ascending.
pub fn writers(alloc: Global, program: &Program, array: u16) -> Result<Vec<u16>, Memory>
    ensures writers { IfOk result (λ found. found.items ≡ writers (meaning program.now) array) }
    ensures each { IfOk result (λ found. AllByRecursion (IsWriter (meaning program.now) array) found.items) }
{
    let mut found = Vec::new(alloc);
    for (number, statement) in program.statements().iter().enumerate() {
        if statement.writes.array == array {
            found.push(number as u16)?;
        }
    }
    Ok(found)
}
