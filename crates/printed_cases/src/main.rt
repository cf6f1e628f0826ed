//! Programs and certificates that are read, as they are written again.
//!
//! Each word behind the program's name is the name of a file.
//!
//! - Of a program, `NAME.c`, its arrays are printed, each with its number of subscripts, then its computation graph at small
//!   sizes, then the text that it has, and then, where that is read and written again, whether it stays.
//! - Of `NAME.trees` each line is a program, a certificate, a statement, and a size for each parameter. The line is printed,
//!   and whether the source tree of the statement's first read agrees with a plain scan of the execution.
//! - Of `NAME.plays` each line is a program, a number of loads, a number of red pebbles, and a size for each parameter. The
//!   line is printed, and whether the program, played in its own order, makes at least so many loads.
//! - Of `NAME.plain` and `NAME.found` each line is a statement, a read, the names of the variables there, and a program. The
//!   line is printed, and the read's plain source tree, or that there is none; or the tree that is found.
//! - Of `NAME.openings` and `NAME.shapes` each line is a program. The line is printed, and its opening terms with their counts,
//!   or its shape, where it is projective.
//! - Of other files each line is the text of a certificate, and its text as it is written is printed.
#![tactic(auto)]

mod certificates;
mod found_trees;
mod graphs;
mod lines;
mod openings;
mod plays;
mod programs;
mod scanned;
mod shapes;
mod trees;

use iolb_host::{Files, StdFiles};
use std::alloc::{AllocError, Global};
use std::io::Write;
use std::{env, io};

/// The most bytes of a file.
const MOST: u64 = 1 << 20;

/// Writes what is said of the file of this name.
fn write_file<F: Files>(
    alloc: Global,
    folder: &mut F,
    name: &str,
    page: &mut Vec<u8>,
) -> Result<(), AllocError> {
    page.extend_from_slice(format!(in alloc; "== {name}\n")?.as_bytes())?;
    let Ok(bytes) = folder.read(name, MOST) else {
        return page.extend_from_slice(b"no such file\n");
    };
    if name.ends_with(".c") {
        programs::write(alloc, bytes.as_slice(), page)
    } else if name.ends_with(".trees") {
        trees::write(alloc, folder, bytes.as_slice(), page)
    } else if name.ends_with(".plays") {
        plays::write(alloc, folder, bytes.as_slice(), page)
    } else if name.ends_with(".plain") {
        found_trees::write(alloc, bytes.as_slice(), true, page)
    } else if name.ends_with(".found") {
        found_trees::write(alloc, bytes.as_slice(), false, page)
    } else if name.ends_with(".openings") {
        openings::write(alloc, bytes.as_slice(), page)
    } else if name.ends_with(".shapes") {
        shapes::write(alloc, bytes.as_slice(), page)
    } else {
        certificates::write(alloc, bytes.as_slice(), page)
    }
}

fn main(rt: HostRuntime) -> io::Result<()> {
    let alloc = rt.alloc();
    let mut folder = StdFiles::new(&rt);
    let mut page = Vec::new(alloc);
    let mut names = env::args(&rt)?;
    let _program = names.next();
    for name in names {
        write_file(alloc, &mut folder, name.as_str(), &mut page)?;
    }
    io::writer(&rt).write_all(page.as_slice())
}
