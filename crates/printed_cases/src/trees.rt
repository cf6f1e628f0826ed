//! Source trees of certificates beside a plain scan of the execution.

use crate::scanned::agrees;
use affine_c::read_program;
use iolb_cert::read_certificate;
use iolb_host::Files;
use std::alloc::{AllocError, Global};

/// The most bytes of a file.
const MOST: u64 = 1 << 20;

/// What is said of the source tree of a statement's first read in a certificate for a program, at these sizes.
fn said_of<F: Files>(
    alloc: Global,
    folder: &mut F,
    words: (&str, &str, u16),
    sizes: &[i128],
) -> &'static [u8] {
    let (Ok(program), Ok(certificate)) = (folder.read(words.0, MOST), folder.read(words.1, MOST))
    else {
        return b" no such file\n";
    };
    let (Ok(program), Ok(certificate)) = (
        read_program(alloc, program.as_slice()),
        read_certificate(alloc, certificate.as_slice()),
    ) else {
        return b" isn't read\n";
    };
    let Some(tree) = certificate.quasts().tree(words.2, 0) else {
        return b" no tree\n";
    };
    match agrees(alloc, &program, words.2, tree, sizes) {
        Ok(true) => b" agrees\n",
        Ok(false) => b" differs\n",
        Err(_) => b" isn't scanned\n",
    }
}

/// The numbers that words say.
pub(crate) fn numbers(alloc: Global, words: &[&str]) -> Result<Vec<i128>, AllocError> {
    let mut numbers = Vec::new(alloc);
    for word in words {
        if let Ok(number) = word.parse::<i128>() {
            numbers.push(number)?;
        }
    }
    Ok(numbers)
}

/// Writes what is said of the tree that a line names: a program, a certificate, a statement, and sizes.
fn write_line<F: Files>(
    alloc: Global,
    folder: &mut F,
    line: &str,
    page: &mut Vec<u8>,
) -> Result<(), AllocError> {
    page.extend_from_slice(line.as_bytes())?;
    let mut words = Vec::new(alloc);
    for word in line.split_whitespace() {
        words.push(word)?;
    }
    let [program, certificate, statement, sizes @ ..] = words.as_slice() else {
        return page.extend_from_slice(b" too few words\n");
    };
    let Ok(statement) = statement.parse::<u16>() else {
        return page.extend_from_slice(b" no statement\n");
    };
    let sizes = numbers(alloc, sizes)?;
    let said = said_of(
        alloc,
        folder,
        (*program, *certificate, statement),
        sizes.as_slice(),
    );
    page.extend_from_slice(said)
}

/// Writes what is said of the trees that lines name.
pub(crate) fn write<F: Files>(
    alloc: Global,
    folder: &mut F,
    bytes: &[u8],
    page: &mut Vec<u8>,
) -> Result<(), AllocError> {
    let text = str::from_utf8(bytes).unwrap_or("");
    for line in text.lines() {
        write_line(alloc, folder, line, page)?;
    }
    Ok(())
}
