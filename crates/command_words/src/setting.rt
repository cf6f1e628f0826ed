//! What words say of the memory, and of a program's parameters, behind the names of files.

ghost use Rattle.std.specs.Prelude.{◌≡◌, option_map, string_bytes, map, IfOk, IfSome};
ghost use Rattle.command_words.specs.Requests.{bytes_of};
ghost use Rattle.command_words.specs.Settings.{levels_in, levels_of, setting_in as setting_in_words, setting_of, IsSmallLevels, IsSmallSetting};

use crate::capacities::capacities_of;
use crate::number::memory_of;
use crate::size::{Size, sizes_of};
use affine_form::Memory;
use std::alloc::Global;

/// So many red pebbles, and sizes of a program's parameters.
#[derive(Debug, Drop)]
pub struct Setting {
    pub memory: u64,
    pub sizes: Vec<Size>,
}

/// The capacities of fast levels, the fastest first, and sizes of a program's parameters.
#[derive(Debug, Drop)]
pub struct LevelSetting {
    pub capacities: Vec<u64>,
    pub sizes: Vec<Size>,
}

/// What words S NAME=NUMBER... say.
pub(crate) fn setting_in(alloc: Global, words: &[String]) -> Result<Option<Setting>, Memory>
    ensures words { IfOk result (λ found. option_map setting_of found ≡ setting_in_words (bytes_of words.now)) }
    ensures small { IfOk result (λ found. IfSome found IsSmallSetting) }
{
    let [memory, sizes @ ..] = words else {
        return Ok(None);
    };
    let Some(memory) = memory_of(memory.as_bytes()) else {
        return Ok(None);
    };
    match sizes_of(alloc, sizes)? {
        Some(sizes) => Ok(Some(Setting { memory, sizes })),
        None => Ok(None),
    }
}

/// What words S,S... NAME=NUMBER... say.
pub(crate) fn level_setting_in(
    alloc: Global,
    words: &[String],
) -> Result<Option<LevelSetting>, Memory>
    ensures words { IfOk result (λ found. option_map levels_of found ≡ levels_in (bytes_of words.now)) }
    ensures small { IfOk result (λ found. IfSome found IsSmallLevels) }
{
    let [levels, sizes @ ..] = words else {
        return Ok(None);
    };
    let Some(capacities) = capacities_of(alloc, levels)? else {
        return Ok(None);
    };
    match sizes_of(alloc, sizes)? {
        Some(sizes) => Ok(Some(LevelSetting { capacities, sizes })),
        None => Ok(None),
    }
}
