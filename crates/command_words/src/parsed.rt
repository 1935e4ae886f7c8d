//! Words behind a command's own, read by `clap`.
ghost use Rattle.std.specs.Prelude.{◌≡◌, IfOk, map, true};
ghost use Rattle.std.specs.String.{string_bytes};
ghost use Rattle.clap.specs.Words.{app_of, is_simple_and_free};
ghost use Rattle.command_words.specs.Apps.{Parses, run_app, word_app};
ghost use Rattle.command_words.specs.Passed.{are_read};
ghost use Rattle.command_words.specs.Reads.{ReadsRun, ReadsWord};

use crate::fault::WordsFault;
use clap::error::ErrorKind;
use clap::{Arg, ArgAction, ArgMatches, Command};
use std::alloc::{AllocError, Global};

/// The one word that stands behind `kinds`, `cure` or `make`.
pub(crate) fn only_word<'a>(alloc: Global, words: &'a [String]) -> Result<&'a str, WordsFault>
    requires { are_read (map string_bytes words.now) ≡ true }
    ensures { ReadsWord (map string_bytes words.now) result }
{
    let command = command_of_word(alloc)?;
    let matches = matches_on(command, words)?;
    match matches.get_str("word") {
        Some(word) => Ok(word),
        None => Err(WordsFault::NoCommand),
    }
}

/// The file that stands behind `run` or `exec`, and the word of its turns where the option is there.
pub(crate) fn run_words<'a>(
    alloc: Global,
    words: &'a [String],
) -> Result<(&'a str, Option<&'a str>), WordsFault>
    requires { are_read (map string_bytes words.now) ≡ true }
    ensures { ReadsRun (map string_bytes words.now) result }
{
    let command = command_of_run(alloc)?;
    let matches = matches_on(command, words)?;
    match matches.get_str("file") {
        Some(file) => Ok((file, matches.get_str("turns"))),
        None => Err(WordsFault::NoCommand),
    }
}

/// A command with one word.
fn command_of_word<'a>(alloc: Global) -> Result<Command<'a>, AllocError>
    ensures { IfOk result (λ c. app_of c ≡ word_app) }
{
    let word = Arg::new(alloc, "word")
        .required(true)
        .action(ArgAction::Set);
    Command::new(alloc, "ccured")
        .no_binary_name(true)
        .disable_help_flag(true)
        .arg(word)
}

/// A command with a file and the option `--turns`.
fn command_of_run<'a>(alloc: Global) -> Result<Command<'a>, AllocError>
    ensures { IfOk result (λ c. app_of c ≡ run_app) }
{
    let file = Arg::new(alloc, "file")
        .required(true)
        .action(ArgAction::Set);
    let turns = Arg::new(alloc, "turns")
        .long("turns")
        .action(ArgAction::Set);
    Command::new(alloc, "ccured")
        .no_binary_name(true)
        .disable_help_flag(true)
        .arg(file)?
        .arg(turns)
}

/// What a command makes of words.
fn matches_on<'a>(command: Command<'a>, words: &'a [String]) -> Result<ArgMatches<'a>, WordsFault>
    requires { is_simple_and_free (app_of command) ≡ true }
    ensures { Parses (app_of command.entry) (map string_bytes words.now) result }
{
    match command.try_get_matches_from(words) {
        Ok(matches) => Ok(matches),
        Err(error) => {
            if error.kind() == ErrorKind::OutOfMemory {
                Err(WordsFault::NoMemory)
            } else {
                Err(WordsFault::NoCommand)
            }
        }
    }
}
