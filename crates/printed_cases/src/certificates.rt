//! Certificates, as they are written again.

use iolb_cert::{certificate_text, read_certificate};
use std::alloc::{AllocError, Global};

/// Writes the text of the certificate whose text is a line.
fn write_line(alloc: Global, line: &str, page: &mut Vec<u8>) -> Result<(), AllocError> {
    let Ok(certificate) = read_certificate(alloc, line.as_bytes()) else {
        return page.extend_from_slice(b"isn't read\n");
    };
    match certificate_text(alloc, &certificate) {
        Ok(text) => page.extend_from_slice(text.as_slice()),
        Err(_) => page.extend_from_slice(b"isn't written\n"),
    }
}

/// Writes the texts of the certificates whose texts are the lines.
pub(crate) fn write(alloc: Global, bytes: &[u8], page: &mut Vec<u8>) -> Result<(), AllocError> {
    let text = str::from_utf8(bytes).unwrap_or("");
    for line in text.lines() {
        write_line(alloc, line, page)?;
    }
    Ok(())
}
