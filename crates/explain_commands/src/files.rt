//! Files that words name.

ghost use Rattle.std.specs.Prelude.{◌≡◌, ◌≤◌, length, IfOk};

use crate::stop::Stop;
use iolb_host::Files;

/// The word at a place, or an empty one.
pub(crate) fn word_at(words: &[String], place: usize) -> &str {
    match words.get(place) {
        Some(word) => word.as_str(),
        None => "",
    }
}

/// Reads the file that the word at a place names, of at most so many bytes.
pub(crate) fn read_at<F: Files>(
    words: &[String],
    place: usize,
    most: usize,
    files: &mut F,
) -> Result<Vec<u8>, Stop>
    ensures told_stays { F.told files.new ≡ F.told files.old }
    ensures within { IfOk result (λ bytes. length bytes.items ≤ most) }
{
    match files.read(word_at(words, place), most as u64) {
        Ok(bytes) => Ok(bytes),
        Err(fault) => Err(Stop::File { place, fault }),
    }
}
