//! The words are read.

ghost use Rattle.std.specs.Prelude.{◌≡◌, map, option_map, string_bytes};
ghost use Rattle.sg_words.specs.Asked.{Answers, wanted_of};
ghost use Rattle.sg_words.specs.Reading.{Matches, Shows};
ghost use Rattle.sg_words.specs.Settings.{checked, settings_of};
ghost use Rattle.sg_words.specs.Words.{Said};

use crate::arguments::command;
use crate::settings::{Settings, WordsFault};
use crate::values::{names_file, number_in, number_or};
use clap::ArgMatches;
use clap::error::ErrorKind;
use std::alloc::Global;

/// The most statements of a drill.
const MOST_DRILL: u64 = 100_000;

/// The settings that the words ask for, by the synopsis
/// `sgps [--budget N] [--cache N] [--stats] [--keep-going] [--drill N] [FILE]`, without the program's name.
///
/// Usage: the words break a rule. Memory: memory was wanting, at any point.
pub fn read_words(alloc: Global, words: &[String]) -> Result<Settings<'_>, WordsFault>
    ensures { Answers (settings_of (map string_bytes words.now)) result }
{
    let matches = matches_of(alloc, words)?;
    settings_in(&matches).ok_or(WordsFault::Usage)
}

/// The words as `clap` reads them.
fn matches_of(alloc: Global, words: &[String]) -> Result<ArgMatches<'_>, WordsFault>
    ensures { Matches (map string_bytes words.now) result }
{
    let command = command(alloc)?;
    match command.try_get_matches_from(words) {
        Ok(matches) => Ok(matches),
        Err(error) => Err(fault_of(error.kind())),
    }
}

/// Want of memory is Memory, and any other kind of error is Usage.
fn fault_of(kind: ErrorKind) -> WordsFault
    ensures memory { kind ≡ ErrorKind.OutOfMemory → result ≡ WordsFault.Memory }
    ensures usage { result ≡ WordsFault.Usage → kind ≡ ErrorKind.OutOfMemory → ⊥ }
    ensures other { (kind ≡ ErrorKind.OutOfMemory → ⊥) → result ≡ WordsFault.Usage }
{
    match kind {
        ErrorKind::OutOfMemory => WordsFault::Memory,
        _ => WordsFault::Usage,
    }
}

/// The settings in what `clap` read, or none where a value breaks a rule.
fn settings_in<'a>(matches: &ArgMatches<'a>) -> Option<Settings<'a>>
    ensures { (said : Said) → Shows matches.now said → option_map wanted_of result ≡ checked said }
{
    let budget = number_or(matches.get_str("budget"), 1, 1_000_000, 100_000)?;
    let cache = number_or(matches.get_str("cache"), 0, 64, 32)?;
    let drill = match matches.get_str("drill") {
        Some(text) => Some(number_in(text, 1, MOST_DRILL)?),
        None => None,
    };
    let file = matches.get_str("FILE");
    if let Some(text) = file
        && (drill.is_some() || !names_file(text))
    {
        return None;
    }
    Some(Settings {
        budget,
        cache,
        stats: matches.get_flag("stats"),
        keep_going: matches.get_flag("keep-going"),
        drill,
        file,
    })
}
