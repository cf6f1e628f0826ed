//! The lines of a script.

use crate::calls::call;
use crate::scene::{Failing, Scene};
use iolb_host::Files;
use std::alloc::{AllocError, Global};

/// The most bytes of a script.
const MOST: u64 = 1 << 20;

/// The bytes of a text, with newlines where it has `\n`.
fn unescaped(alloc: Global, text: &str) -> Result<Vec<u8>, AllocError> {
    Ok(text.replace(alloc, "\\n", "\n")?.into_bytes())
}

/// The bytes of a program with this between its opening and its closing line.
fn scop(alloc: Global, text: &str) -> Result<Vec<u8>, AllocError> {
    let program = format!(in alloc; "#pragma scop\\n{text}\\n#pragma endscop\\n")?;
    unescaped(alloc, program.as_str())
}

/// What a line says where it isn't of the script's.
fn unknown(transcript: &mut Vec<u8>) -> Result<(), AllocError> {
    transcript.extend_from_slice(b"no such line\n")
}

/// Makes a file of so many times a text.
fn repeat(
    alloc: Global,
    scene: &mut Scene,
    name: &str,
    rest: &str,
    transcript: &mut Vec<u8>,
) -> Result<(), AllocError> {
    let Some((number, text)) = rest.split_once(' ') else {
        return unknown(transcript);
    };
    let Ok(number) = number.parse::<usize>() else {
        return unknown(transcript);
    };
    scene.make(name, text.repeat(alloc, number)?.into_bytes())
}

/// Edits a file for the next call.
fn edit<F: Files>(
    alloc: Global,
    scene: &mut Scene,
    folder: &mut F,
    name: &str,
    rest: &str,
    transcript: &mut Vec<u8>,
) -> Result<(), AllocError> {
    let Some((old, new)) = rest.split_once(" ->") else {
        return unknown(transcript);
    };
    let new = new.strip_prefix(' ').unwrap_or("");
    let bytes = match scene.content(folder, name)? {
        Some(bytes) => bytes,
        None => Vec::new(alloc),
    };
    let text = str::from_utf8(bytes.as_slice()).unwrap_or("");
    if !text.contains(old) {
        return transcript.extend_from_slice(b"no such text\n");
    }
    scene.edit(name, text.replacen(alloc, old, new, 1)?.into_bytes())
}

/// Cuts a file for the next call.
fn cut<F: Files>(
    scene: &mut Scene,
    folder: &mut F,
    name: &str,
    length: &str,
    transcript: &mut Vec<u8>,
) -> Result<(), AllocError> {
    let (Some(mut bytes), Ok(length)) = (scene.content(folder, name)?, length.parse::<usize>())
    else {
        return unknown(transcript);
    };
    bytes.truncate(length);
    scene.edit(name, bytes)
}

/// Lets a read or a write of the next call fail.
fn fail(
    scene: &mut Scene,
    which: &str,
    number: &str,
    transcript: &mut Vec<u8>,
) -> Result<(), AllocError> {
    let Ok(number) = number.parse::<u32>() else {
        return unknown(transcript);
    };
    scene.failing = if which == "read" {
        Some(Failing::Read(number))
    } else if which == "out" {
        Some(Failing::Output(number))
    } else if which == "err" {
        Some(Failing::Error(number))
    } else {
        return unknown(transcript);
    };
    Ok(())
}

/// Does what a line with two words and more arranges.
fn arrange<F: Files>(
    alloc: Global,
    scene: &mut Scene,
    folder: &mut F,
    words: (&str, &str, &str),
    transcript: &mut Vec<u8>,
) -> Result<(), AllocError> {
    let (kind, name, rest) = words;
    if kind == "file" {
        scene.make(name, unescaped(alloc, rest)?)
    } else if kind == "scop" {
        scene.make(name, scop(alloc, rest)?)
    } else if kind == "repeat" {
        repeat(alloc, scene, name, rest, transcript)
    } else if kind == "edit" {
        edit(alloc, scene, folder, name, rest, transcript)
    } else if kind == "cut" {
        cut(scene, folder, name, rest, transcript)
    } else if kind == "cuts" {
        scene.cuts = Some(name.to_string(alloc)?);
        Ok(())
    } else if kind == "last" {
        scene.last = name.parse::<usize>().ok();
        Ok(())
    } else if kind == "keep" {
        scene.kept = Some(name.to_string(alloc)?);
        Ok(())
    } else if kind == "fail" {
        fail(scene, name, rest, transcript)
    } else {
        unknown(transcript)
    }
}

/// Does what a line says, and writes it with what comes of it.
fn play_line<F: Files>(
    alloc: Global,
    scene: &mut Scene,
    folder: &mut F,
    line: &str,
    transcript: &mut Vec<u8>,
) -> Result<(), AllocError> {
    transcript.extend_from_slice(line.as_bytes())?;
    transcript.push(b'\n')?;
    if line.is_empty() || line.starts_with('#') {
        return Ok(());
    }
    if let Some(words) = line.strip_prefix('$') {
        call(alloc, scene, folder, words, transcript)?;
        scene.clear();
        return Ok(());
    }
    let Some((kind, behind)) = line.split_once(' ') else {
        return unknown(transcript);
    };
    let (name, rest) = behind.split_once(' ').unwrap_or((behind, ""));
    arrange(alloc, scene, folder, (kind, name, rest), transcript)
}

/// Plays the script of this name, and writes what comes of it. The status of its last call; 0 where there is none.
pub(crate) fn play<F: Files>(
    alloc: Global,
    folder: &mut F,
    name: &str,
    transcript: &mut Vec<u8>,
) -> Result<u8, AllocError> {
    let Ok(bytes) = folder.read(name, MOST) else {
        transcript.extend_from_slice(b"no such script\n")?;
        return Ok(0);
    };
    let text = str::from_utf8(bytes.as_slice()).unwrap_or("");
    let mut scene = Scene::new(alloc);
    for line in text.lines() {
        play_line(alloc, &mut scene, folder, line, transcript)?;
    }
    Ok(scene.status)
}
