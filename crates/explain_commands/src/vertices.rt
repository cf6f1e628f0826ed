//! Vertices, explained.

ghost use Rattle.std.specs.Prelude.{◌≡◌, length};
ghost use Rattle.std.specs.List.{AllByRecursion};
ghost use Rattle.affine_form.specs.Form.{IsSmall};
ghost use Rattle.iolb_model.specs.declared.limits.TheConstants.{VALUE_SIZE};

use crate::programs::program_in;
use crate::sizes::sizes_for;
use crate::stop::{Stop, wrong};
use affine_form::Memory;
use affine_program::Program;
use loop_graph::values_of;
use named_vertices::{
    Named, Spot, Unnamed, find_instances, named_at, number_of, spot_of, write_named,
};
use plain_pages::Page;
use std::alloc::Global;

/// The page that a vertex has this number and is this.
fn named_page(
    alloc: Global,
    program: &Program,
    number: usize,
    named: &Named,
) -> Result<Page, Memory> {
    let mut page = Page::new(alloc);
    page.text(format!(in alloc; "vertex {number} is ")?.as_str())?;
    write_named(&mut page, program, named)?;
    page.line("")?;
    Ok(page)
}

/// The stop where no vertex is named.
fn unnamed_stop(alloc: Global, unnamed: Unnamed) -> Stop {
    match unnamed {
        Unnamed::Assumption(number) => assumption_stop(alloc, number),
        Unnamed::TooMany => wrong(
            alloc,
            "there are more than 2097152 instances at these sizes",
            "",
        ),
        Unnamed::Absent => wrong(alloc, "there is no such vertex at these sizes", ""),
        Unnamed::Memory => Stop::Memory,
    }
}

/// The stop where the assumption of this number is false.
fn assumption_stop(alloc: Global, number: u16) -> Stop {
    match format!(in alloc; "assumption {number}, counted from 0, is false at these sizes") {
        Ok(text) => wrong(alloc, text.as_str(), ""),
        Err(_) => Stop::Memory,
    }
}

/// The vertex that is meant at these sizes of the parameters: its number, and what it is.
fn find_vertex(
    alloc: Global,
    program: &Program,
    sizes: &[i64],
    spot: Spot,
) -> Result<(usize, Named), Unnamed>
    requires each { length sizes.now ≡ length program.now.params }
    requires small { AllByRecursion (IsSmall VALUE_SIZE) sizes.now }
{
    let values = values_of(alloc, sizes)?;
    let all = find_instances(alloc, program, values.as_slice())?;
    match spot {
        Spot::Number(number) => {
            let named = named_at(alloc, program, all.as_slice(), number)?;
            Ok((number, named))
        }
        Spot::Named(named) => {
            let number = number_of(alloc, program, all.as_slice(), &named)?;
            Ok((number, named))
        }
    }
}

/// The page about a vertex of the program with this text, by words: the file's name, the vertex, and sizes.
pub(crate) fn vertex_answer(alloc: Global, words: &[String], text: &[u8]) -> Result<Page, Stop> {
    let [file, word, given @ ..] = words else {
        return Err(Stop::Words);
    };
    let program = program_in(alloc, file.as_str(), text)?;
    let sizes = sizes_for(alloc, program.params(), given)?;
    let Some(spot) = spot_of(alloc, &program, word.as_str())? else {
        return Err(Stop::Words);
    };
    match find_vertex(alloc, &program, sizes.as_slice(), spot) {
        Ok((number, named)) => Ok(named_page(alloc, &program, number, &named)?),
        Err(unnamed) => Err(unnamed_stop(alloc, unnamed)),
    }
}
