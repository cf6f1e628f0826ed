//! Scripts.

use explain_commands::run;
use iolb_host::{Files, SureFiles, SureSink};
use std::alloc::{AllocError, Global};
use std::collections::BTreeMap;

/// The most bytes of a script, and of a file of the folder.
const MOST: u64 = 1 << 26;

/// The words of a line.
fn words_of(alloc: Global, line: &str) -> Result<Vec<String>, AllocError> {
    let mut words = Vec::new(alloc);
    for word in line.split_whitespace() {
        words.push(word.to_string(alloc)?)?;
    }
    Ok(words)
}

/// The bytes of a text, with newlines where it has `\n`.
fn unescaped(alloc: Global, text: &str) -> Result<Vec<u8>, AllocError> {
    Ok(text.replace(alloc, "\\n", "\n")?.into_bytes())
}

/// The files that words name: those that were made, and those of the folder.
fn files_of<F: Files>(
    alloc: Global,
    made: &BTreeMap<String, Vec<u8>>,
    folder: &mut F,
    words: &[String],
) -> Result<BTreeMap<String, Vec<u8>>, AllocError> {
    let mut files = BTreeMap::new(alloc);
    for word in words {
        if let Some(bytes) = made.get(word.as_str()) {
            let copy = Vec::from_slice(alloc, bytes)?;
            files.insert(word.as_str().to_string(alloc)?, copy)?;
        } else if let Ok(bytes) = folder.read(word.as_str(), MOST) {
            files.insert(word.as_str().to_string(alloc)?, bytes)?;
        }
    }
    Ok(files)
}

/// Makes a call with the words of a line, and writes what it answers. Its status.
fn call<F: Files>(
    alloc: Global,
    made: &BTreeMap<String, Vec<u8>>,
    folder: &mut F,
    line: &str,
    transcript: &mut Vec<u8>,
) -> Result<u8, AllocError> {
    let words = words_of(alloc, line)?;
    let mut files = SureFiles::new(alloc, files_of(alloc, made, folder, words.as_slice())?);
    let mut out = SureSink::new(alloc);
    let mut err = SureSink::new(alloc);
    let status = run(alloc, words.as_slice(), &mut files, &mut out, &mut err).number();
    transcript.extend_from_slice(out.bytes())?;
    transcript.extend_from_slice(err.bytes())?;
    transcript.extend_from_slice(format!(in alloc; "status {status}\n")?.as_bytes())?;
    Ok(status)
}

/// A text with another in the place of the first that is as the words in front of ` -> ` say; `no such text` where
/// there is none.
fn edited(alloc: Global, text: &str, words: &str) -> Result<String, AllocError> {
    let (old, new) = words.split_once(" -> ").unwrap_or((words, ""));
    match text.split_once(old) {
        Some((front, back)) => format!(in alloc; "{front}{new}{back}"),
        None => "no such text".to_string(alloc),
    }
}

/// The text of the file that a line makes, behind its kind and its name.
fn text_of<F: Files>(
    alloc: Global,
    made: &BTreeMap<String, Vec<u8>>,
    folder: &mut F,
    kind: &str,
    rest: &str,
) -> Result<String, AllocError> {
    match kind {
        "scop" => format!(in alloc; "#pragma scop\\n{rest}\\n#pragma endscop\\n"),
        "edit" => {
            let (name, words) = rest.split_once(' ').unwrap_or((rest, ""));
            let names = vec![in alloc; name.to_string(alloc)?]?;
            let files = files_of(alloc, made, folder, names.as_slice())?;
            match files.get(name) {
                Some(bytes) => edited(alloc, str::from_utf8(bytes.as_slice()).unwrap_or(""), words),
                None => "no such file".to_string(alloc),
            }
        }
        _ => rest.to_string(alloc),
    }
}

/// Makes the file that a line says.
fn make<F: Files>(
    alloc: Global,
    made: &mut BTreeMap<String, Vec<u8>>,
    folder: &mut F,
    line: &str,
) -> Result<(), AllocError> {
    let (kind, behind) = line.split_once(' ').unwrap_or((line, ""));
    let (name, rest) = behind.split_once(' ').unwrap_or((behind, ""));
    let text = text_of(alloc, made, folder, kind, rest)?;
    made.insert(name.to_string(alloc)?, unescaped(alloc, text.as_str())?)?;
    Ok(())
}

/// Plays the script of this name, and writes what comes of it. The status of its last call; 0 where there is none.
pub(crate) fn play<F: Files>(
    alloc: Global,
    folder: &mut F,
    name: &str,
    transcript: &mut Vec<u8>,
) -> Result<u8, AllocError> {
    let Ok(bytes) = folder.read(name, MOST) else {
        transcript.extend_from_slice(b"no such script\n")?;
        return Ok(0);
    };
    let text = str::from_utf8(bytes.as_slice()).unwrap_or("");
    let mut made = BTreeMap::new(alloc);
    let mut status = 0;
    for line in text.lines() {
        transcript.extend_from_slice(line.as_bytes())?;
        transcript.push(b'\n')?;
        if let Some(words) = line.strip_prefix('$') {
            status = call(alloc, &made, folder, words, transcript)?;
        } else if !line.is_empty() && !line.starts_with('#') {
            make(alloc, &mut made, folder, line)?;
        }
    }
    Ok(status)
}
