//! Source trees that are found, as text.

use crate::lines::{program_of, write_said};
use affine_form::{Form, Name};
use affine_program::Program;
use dep_quast::Quast;
use flow_deps::{plain, quast};
use std::alloc::{AllocError, Global};

/// Writes a form with these names for its variables, and `?` where there are more or fewer of them.
fn write_form(
    alloc: Global,
    names: &[Name],
    form: &Form,
    text: &mut Vec<u8>,
) -> Result<(), AllocError> {
    if names.len() == form.coef().len() {
        if let Ok(written) = form.text(alloc, names) {
            return text.extend_from_slice(written.as_slice());
        }
    }
    text.push(b'?')?;
    Ok(())
}

/// Writes a point, form by form.
fn write_point(
    alloc: Global,
    names: &[Name],
    point: &[Form],
    text: &mut Vec<u8>,
) -> Result<(), AllocError> {
    for (place, value) in point.iter().enumerate() {
        text.extend_from_slice(if place == 0 { b"" } else { b", " })?;
        write_form(alloc, names, value, text)?;
    }
    Ok(())
}

/// Writes a tree: a test with both sides, a source with its statement, its level and its point, or another leaf.
fn write_tree(
    alloc: Global,
    names: &[Name],
    tree: &Quast,
    text: &mut Vec<u8>,
) -> Result<(), AllocError> {
    match tree {
        Quast::Test { form, yes, no } => {
            write_form(alloc, names, form, text)?;
            text.extend_from_slice(b" ? ")?;
            write_tree(alloc, names, yes, text)?;
            text.extend_from_slice(b" : ")?;
            write_tree(alloc, names, no, text)
        }
        Quast::Source {
            statement,
            level,
            point,
            ..
        } => {
            text.extend_from_slice(format!(in alloc; "{statement}/{level}(")?.as_bytes())?;
            write_point(alloc, names, point.as_slice(), text)?;
            text.push(b')')?;
            Ok(())
        }
        Quast::Input { .. } => text.extend_from_slice(b"input"),
        Quast::Empty { .. } => text.extend_from_slice(b"empty"),
        Quast::Blank => text.extend_from_slice(b"blank"),
    }
}

/// The names of a list of words.
fn names_of(alloc: Global, words: &str) -> Result<Vec<Name>, AllocError> {
    let mut names = Vec::new(alloc);
    for word in words.split_whitespace() {
        if word.len() > 0 && word.len() <= 64 {
            names.push(Name::new(Vec::from_slice(alloc, word.as_bytes())?))?;
        }
    }
    Ok(names)
}

/// The plain tree of a read, where there is one and it is asked for; else the tree that is found.
fn tree_of(
    alloc: Global,
    program: &Program,
    statement: u16,
    read: u16,
    only_plain: bool,
) -> Option<Option<Quast>> {
    let reader = program.statements().get(usize::from(statement))?;
    if usize::from(read) >= reader.reads.as_slice().len() {
        return None;
    }
    if only_plain {
        plain(alloc, program, statement, read).ok()
    } else {
        Some(Some(quast(alloc, program, statement, read).ok()?))
    }
}

/// What is said of a line: a statement, a read, the names of the variables at the reader, `:`, and a program.
fn said_of(alloc: Global, line: &str, only_plain: bool) -> Result<Option<Vec<u8>>, AllocError> {
    let Some((words, lines)) = line.split_once(':') else {
        return Ok(None);
    };
    let mut words = words.splitn(3, ' ');
    let (Some(statement), Some(read), Some(names)) = (words.next(), words.next(), words.next())
    else {
        return Ok(None);
    };
    let (Ok(statement), Ok(read)) = (statement.parse::<u16>(), read.parse::<u16>()) else {
        return Ok(None);
    };
    let Some(program) = program_of(alloc, lines)? else {
        return Ok(None);
    };
    let Some(found) = tree_of(alloc, &program, statement, read, only_plain) else {
        return Ok(None);
    };
    let names = names_of(alloc, names)?;
    let mut said = Vec::from_slice(alloc, b"  ")?;
    match found {
        Some(tree) => write_tree(alloc, names.as_slice(), &tree, &mut said)?,
        None => said.extend_from_slice(b"none")?,
    }
    said.push(b'\n')?;
    Ok(Some(said))
}

/// Writes of each line's read its plain tree, or `none`; or its tree where the plain one isn't asked for.
pub(crate) fn write(
    alloc: Global,
    bytes: &[u8],
    only_plain: bool,
    page: &mut Vec<u8>,
) -> Result<(), AllocError> {
    let text = str::from_utf8(bytes).unwrap_or("");
    for line in text.lines() {
        let said = said_of(alloc, line, only_plain)?;
        write_said(line, said, page)?;
    }
    Ok(())
}
