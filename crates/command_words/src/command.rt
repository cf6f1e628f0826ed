//! What the words ask for.

ghost use Rattle.std.specs.Prelude.{◌≡◌, map, option_map, string_bytes, IfOk, IfSome};
ghost use Rattle.std.specs.List.{list_any};
ghost use Rattle.command_words.specs.Requests.{asked, begins_with_dash, bytes_of, climbing, evaluation, file_at as name_at, levelling, other_request, replay, request_of, sample_in, sharing_in, sized_request, traffic_in as traffic_in_words, work_of, work_on as work_on_words, IsSmallWork};
ghost use Rattle.command_words.specs.Settings.{levels_in, setting_in as setting_in_words};

use crate::number::{processors_of, products_of};
use crate::setting::{LevelSetting, Setting, level_setting_in, setting_in};
use affine_form::Memory;
use std::alloc::Global;

/// What is to be done with a program and a certificate.
#[derive(Debug, Drop)]
pub enum Job {
    /// Check the certificate.
    Check,
    /// Check it, and value its bound at this setting.
    Eval(Setting),
    /// Check it, and value its bound for so many processors, each of which has this setting's red pebbles.
    Parallel { processors: u32, setting: Setting },
    /// Check it, and value its bound at each of these levels.
    Levels(LevelSetting),
}

/// What is to be done with a program, and with the other files.
#[derive(Debug, Drop)]
pub enum Work {
    /// The second file holds a certificate.
    Judge(Job),
    /// The second file holds a schedule: play it at this setting.
    Replay(Setting),
    /// The second file holds moves: play them over these levels.
    Climb(LevelSetting),
    /// The second file holds a certificate and the third stores: check both, and value the traffic at this setting.
    Traffic(Setting),
    /// There is no second file: make a certificate.
    Bound,
    /// There is no file: make a certificate of so many matrix products, 1 to 32, and value its bound.
    Sample(u8),
}

/// Work on files, by their names in the order of the words. The first is the program's, where there is one.
#[derive(Debug, Drop)]
pub struct Command<'a> {
    pub files: &'a [String],
    pub work: Work,
}

/// The name at a place, from 0 on, and none where there is no such place.
pub fn file_at(names: &[String], place: usize) -> &str
    ensures { result.now ≡ name_at (bytes_of names.now) place }
{
    match names.get(place) {
        Some(name) => name.as_str(),
        None => "",
    }
}

/// Whether a word begins with `-`.
fn is_option(word: &[u8]) -> bool
    ensures { result ≡ begins_with_dash word.now }
{
    if let Some(byte) = word.first() {
        *byte == b'-'
    } else {
        false
    }
}

/// Whether one of the words begins with `-`.
fn has_option(words: &[String]) -> bool
    ensures { result ≡ list_any begins_with_dash (map (λ word. string_bytes word) words.now) }
{
    for word in words {
        if is_option(word.as_bytes()) {
            return true;
        }
    }
    false
}

/// What the words behind the program's name ask for: `check PROGRAM CERTIFICATE`, `bound PROGRAM`,
/// `eval PROGRAM CERTIFICATE S NAME=NUMBER...`, `replay PROGRAM SCHEDULE S NAME=NUMBER...`,
/// `parallel PROGRAM CERTIFICATE P S NAME=NUMBER...`, `traffic PROGRAM CERTIFICATE STORES S NAME=NUMBER...`,
/// `levels PROGRAM CERTIFICATE S,S... NAME=NUMBER...`, `climb PROGRAM MOVES S,S... NAME=NUMBER...`, or `sample N`, where S is 1 to 19
/// digits, from 1 to 2^63 - 1 (one to four joined by commas no more than that together), P 1 to 7 digits, from 1 to 2^20, N digits,
/// from 1 to 32, a NUMBER an optional `-` and 1 to 13 digits, of size below 2^40, and a NAME the bytes before the first `=`. `None`
/// where they ask for nothing of this, or a word begins with `-`.
pub fn command_of(alloc: Global, words: &[String]) -> Result<Option<Command<'_>>, Memory>
    ensures command { IfOk result (λ command. option_map asked command ≡ request_of (map (λ word. string_bytes word) words.now)) }
    ensures small { IfOk result (λ found. IfSome found (λ command. IsSmallWork command.work)) }
{
    if has_option(words) {
        return Ok(None);
    }
    let Some((command, arguments)) = words.split_first() else {
        return Ok(None);
    };
    let command = command.as_str();
    if command == "check" {
        return Ok(work_on(2, Work::Judge(Job::Check), arguments));
    }
    if command == "bound" {
        return Ok(work_on(1, Work::Bound, arguments));
    }
    other_command(alloc, command, arguments)
}

/// What another command than `check` and `bound` asks for.
fn other_command<'a>(
    alloc: Global,
    command: &str,
    words: &'a [String],
) -> Result<Option<Command<'a>>, Memory>
    ensures command { IfOk result (λ found. option_map asked found ≡ other_request command.now (bytes_of words.now)) }
    ensures small { IfOk result (λ found. IfSome found (λ made. IsSmallWork made.work)) }
{
    if command == "traffic" {
        return traffic_command(alloc, words);
    }
    if command == "sample" {
        return Ok(sample_command(words));
    }
    if words.len() < 2 {
        return Ok(None);
    }
    sized_command(alloc, command, &words[..2], &words[2..])
}

/// The matrix products that words N ask for.
fn sample_command(words: &[String]) -> Option<Command<'_>>
    ensures command { option_map asked result ≡ sample_in (bytes_of words.now) }
    ensures small { IfSome result (λ command. IsSmallWork command.work) }
{
    let [products] = words else {
        return None;
    };
    let products = products_of(products.as_bytes())?;
    Some(Command {
        files: &[],
        work: Work::Sample(products),
    })
}

/// This work on so many files, which all words name.
fn work_on(count: usize, work: Work, words: &[String]) -> Option<Command<'_>>
    requires small { IsSmallWork work }
    ensures command { option_map asked result ≡ work_on_words count (work_of work) (bytes_of words.now) }
    ensures small { IfSome result (λ command. IsSmallWork command.work) }
{
    if words.len() == count {
        Some(Command { files: words, work })
    } else {
        None
    }
}

/// What a command on files asks for, by the words behind their names.
fn sized_command<'a>(
    alloc: Global,
    command: &str,
    files: &'a [String],
    words: &[String],
) -> Result<Option<Command<'a>>, Memory>
    ensures command { IfOk result (λ found. option_map asked found ≡ sized_request command.now (bytes_of files.now) (bytes_of words.now)) }
    ensures small { IfOk result (λ found. IfSome found (λ made. IsSmallWork made.work)) }
{
    if command == "eval" {
        return eval_command(alloc, files, words);
    }
    if command == "replay" {
        return replay_command(alloc, files, words);
    }
    if command == "parallel" {
        return parallel_command(alloc, files, words);
    }
    if command == "levels" {
        return levels_command(alloc, files, words);
    }
    if command == "climb" {
        return climb_command(alloc, files, words);
    }
    Ok(None)
}

/// The evaluation that words S NAME=NUMBER... ask for.
fn eval_command<'a>(
    alloc: Global,
    files: &'a [String],
    words: &[String],
) -> Result<Option<Command<'a>>, Memory>
    ensures command { IfOk result (λ found. option_map asked found ≡ option_map (evaluation (bytes_of files.now)) (setting_in_words (bytes_of words.now))) }
    ensures small { IfOk result (λ found. IfSome found (λ command. IsSmallWork command.work)) }
{
    match setting_in(alloc, words)? {
        Some(setting) => Ok(Some(Command {
            files,
            work: Work::Judge(Job::Eval(setting)),
        })),
        None => Ok(None),
    }
}

/// The replay that words S NAME=NUMBER... ask for.
fn replay_command<'a>(
    alloc: Global,
    files: &'a [String],
    words: &[String],
) -> Result<Option<Command<'a>>, Memory>
    ensures command { IfOk result (λ found. option_map asked found ≡ option_map (replay (bytes_of files.now)) (setting_in_words (bytes_of words.now))) }
    ensures small { IfOk result (λ found. IfSome found (λ command. IsSmallWork command.work)) }
{
    match setting_in(alloc, words)? {
        Some(setting) => Ok(Some(Command {
            files,
            work: Work::Replay(setting),
        })),
        None => Ok(None),
    }
}

/// The evaluation for several processors that words P S NAME=NUMBER... ask for.
fn parallel_command<'a>(
    alloc: Global,
    files: &'a [String],
    words: &[String],
) -> Result<Option<Command<'a>>, Memory>
    ensures command { IfOk result (λ found. option_map asked found ≡ sharing_in (bytes_of files.now) (bytes_of words.now)) }
    ensures small { IfOk result (λ found. IfSome found (λ command. IsSmallWork command.work)) }
{
    let [processors, words @ ..] = words else {
        return Ok(None);
    };
    let Some(processors) = processors_of(processors.as_bytes()) else {
        return Ok(None);
    };
    match setting_in(alloc, words)? {
        Some(setting) => Ok(Some(Command {
            files,
            work: Work::Judge(Job::Parallel {
                processors,
                setting,
            }),
        })),
        None => Ok(None),
    }
}

/// The evaluation at levels that words S,S... NAME=NUMBER... ask for.
fn levels_command<'a>(
    alloc: Global,
    files: &'a [String],
    words: &[String],
) -> Result<Option<Command<'a>>, Memory>
    ensures command { IfOk result (λ found. option_map asked found ≡ option_map (levelling (bytes_of files.now)) (levels_in (bytes_of words.now))) }
    ensures small { IfOk result (λ found. IfSome found (λ command. IsSmallWork command.work)) }
{
    match level_setting_in(alloc, words)? {
        Some(setting) => Ok(Some(Command {
            files,
            work: Work::Judge(Job::Levels(setting)),
        })),
        None => Ok(None),
    }
}

/// The play over levels that words S,S... NAME=NUMBER... ask for.
fn climb_command<'a>(
    alloc: Global,
    files: &'a [String],
    words: &[String],
) -> Result<Option<Command<'a>>, Memory>
    ensures command { IfOk result (λ found. option_map asked found ≡ option_map (climbing (bytes_of files.now)) (levels_in (bytes_of words.now))) }
    ensures small { IfOk result (λ found. IfSome found (λ command. IsSmallWork command.work)) }
{
    match level_setting_in(alloc, words)? {
        Some(setting) => Ok(Some(Command {
            files,
            work: Work::Climb(setting),
        })),
        None => Ok(None),
    }
}

/// The traffic that words PROGRAM CERTIFICATE STORES S NAME=NUMBER... ask for.
fn traffic_command(alloc: Global, words: &[String]) -> Result<Option<Command<'_>>, Memory>
    ensures command { IfOk result (λ found. option_map asked found ≡ traffic_in_words (bytes_of words.now)) }
    ensures small { IfOk result (λ found. IfSome found (λ command. IsSmallWork command.work)) }
{
    if words.len() < 3 {
        return Ok(None);
    }
    match setting_in(alloc, &words[3..])? {
        Some(setting) => Ok(Some(Command {
            files: &words[..3],
            work: Work::Traffic(setting),
        })),
        None => Ok(None),
    }
}
