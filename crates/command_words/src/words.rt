//! The words of a command.
ghost use Rattle.std.specs.Prelude.{◌≡◌, ◌≤◌, Err, IfOk, map, option_map, true};
ghost use Rattle.std.specs.String.{string_bytes};
ghost use Rattle.command_words.specs.Commands.{asked_by, command_of, file_of, is_file_name, most_functions, only_file, only_number, running, sets_turns};
ghost use Rattle.command_words.specs.Passed.{are_asked, are_read, is_dashed, is_name, is_read};
ghost use Rattle.command_words.specs.Reads.{Reads, run_of};
ghost use Rattle.command_words.specs.Views.{HasFewFunctions, command_view};
ghost use Rattle.command_words.specs.declared.fault.WordsFault.TheVariants.{NoMemory};

use crate::command::{Action, Command};
use crate::fault::WordsFault;
use crate::numbers::number_of;
use crate::parsed::{only_word, run_words};
use std::alloc::Global;

/// The most turns that a run may be given, and those that it has where none are.
const MOST_TURNS: u64 = 1_000_000_000;

const DEFAULT_TURNS: u64 = 1_000_000;

/// The most functions of a generated program.
const MOST_FUNCTIONS: u64 = 1000;

/// The command that the words after the program's name are, if they are one: `run FILE`, `exec FILE`, both with `--turns N` or `--turns=N`
/// before FILE or behind it, `kinds FILE`, `cure FILE` or `make N`.
pub fn command_of(alloc: Global, words: &[String]) -> Result<Command<'_>, WordsFault>
    ensures command { Reads command_view (command_of (map string_bytes words.now)) result }
    ensures few { IfOk result HasFewFunctions }
    // Memory is wanted only where the first word is a command's own, and each word behind it is read.
    ensures memory { result ≡ Err NoMemory → are_asked (map string_bytes words.now) ≡ true }
{
    match words.split_first() {
        None => Err(WordsFault::NoCommand),
        Some((first, rest)) => asked_by(alloc, first.as_str(), rest),
    }
}

/// What the first word asks for with those behind it.
#[tactic(auto, using(crate::proofs::Refused::none_asked))]
fn asked_by<'a>(alloc: Global, first: &str, words: &'a [String]) -> Result<Command<'a>, WordsFault>
    ensures command { Reads command_view (asked_by first.now (map string_bytes words.now)) result }
    ensures few { IfOk result HasFewFunctions }
    ensures memory { result ≡ Err NoMemory
        → (is_name first.now ≡ true) × (are_read (map string_bytes words.now) ≡ true) }
{
    if !are_read(words) {
        return Err(WordsFault::NoCommand);
    }
    match first {
        "run" => {
            let (file, turns) = running(alloc, words)?;
            Ok(Command::OnFile(Action::Run(turns), file))
        }
        "kinds" => Ok(Command::OnFile(Action::Kinds, only_file(alloc, words)?)),
        "cure" => Ok(Command::OnFile(Action::Cure, only_file(alloc, words)?)),
        "exec" => {
            let (file, turns) = running(alloc, words)?;
            Ok(Command::OnFile(Action::Exec(turns), file))
        }
        "make" => Ok(Command::Make(only_number(alloc, words)?)),
        _ => Err(WordsFault::NoCommand),
    }
}

/// Whether each word is read.
fn are_read(words: &[String]) -> bool
    ensures { result ≡ are_read (map string_bytes words.now) }
{
    for word in words {
        if !is_read(word.as_str()) {
            return false;
        }
    }
    true
}

/// Whether a word is read: one that begins with `-` is so only where it is the option.
fn is_read(word: &str) -> bool
    ensures { result ≡ is_read word.now }
{
    !is_dashed(word) || word == "--turns" || sets_turns(word)
}

/// Whether a word begins with `-`.
fn is_dashed(word: &str) -> bool
    ensures { result ≡ is_dashed word.now }
{
    match word.as_bytes() {
        [] => false,
        [first, ..] => *first == b'-',
    }
}

/// Whether a word is the option and its value.
fn sets_turns(word: &str) -> bool
    ensures { result ≡ sets_turns word.now }
{
    word.as_bytes().starts_with(b"--turns=")
}

/// The number that the words behind `make` are.
fn only_number(alloc: Global, words: &[String]) -> Result<u64, WordsFault>
    requires { are_read (map string_bytes words.now) ≡ true }
    ensures number { Reads (λ n. n) (only_number (map string_bytes words.now)) result }
    ensures few { IfOk result (λ n. n ≤ most_functions) }
{
    let word = only_word(alloc, words)?;
    match number_of(MOST_FUNCTIONS, word.as_bytes()) {
        Some(number) => Ok(number),
        None => Err(WordsFault::NoCommand),
    }
}

/// The file that the words behind `kinds` or `cure` are.
fn only_file(alloc: Global, words: &[String]) -> Result<&str, WordsFault>
    requires { are_read (map string_bytes words.now) ≡ true }
    ensures { Reads (λ file. file.now) (only_file (map string_bytes words.now)) result }
{
    let word = only_word(alloc, words)?;
    match file_of(word) {
        Some(file) => Ok(file),
        None => Err(WordsFault::NoCommand),
    }
}

/// The file and the turns that the words behind `run` or `exec` are.
fn running(alloc: Global, words: &[String]) -> Result<(&str, u64), WordsFault>
    requires { are_read (map string_bytes words.now) ≡ true }
    ensures { Reads (λ r. (r.0.now, r.1)) (running (map string_bytes words.now)) result }
{
    let (file, turns) = run_words(alloc, words)?;
    match run_of(file, turns) {
        Some(run) => Ok(run),
        None => Err(WordsFault::NoCommand),
    }
}

/// The file and the turns of a run, by the words of both.
fn run_of<'a>(file: &'a str, turns: Option<&str>) -> Option<(&'a str, u64)>
    ensures { option_map (λ r. (r.0.now, r.1)) result
        ≡ run_of file.now (option_map (λ turns. turns.now) turns.entry) }
{
    let name = file_of(file)?;
    match turns {
        None => Some((name, DEFAULT_TURNS)),
        Some(word) => {
            let number = number_of(MOST_TURNS, word.as_bytes())?;
            Some((name, number))
        }
    }
}

/// The file of a word: a name isn't empty and doesn't begin with `-`.
fn file_of(word: &str) -> Option<&str>
    ensures { option_map (λ file. file.now) result ≡ file_of word.now }
{
    if is_file_name(word) { Some(word) } else { None }
}

fn is_file_name(word: &str) -> bool
    ensures { result ≡ is_file_name word.now }
{
    match word.as_bytes() {
        [] => false,
        [first, ..] => *first != b'-',
    }
}
