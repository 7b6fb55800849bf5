//! From the words to what they ask for.
ghost use Rattle.std.specs.Prelude.{◌≡◌, ◌≤◌, false, IfOk, IfSome, Some, None, Err, option_map};
ghost use Rattle.clap.specs.Words.{app_of, found_of, rule_of, rows_of};
ghost use Rattle.sac_words.specs.Command.{choice, flag, required, sac_command};
ghost use Rattle.sac_words.specs.Meaning.{texts, meant, input_meant, IsSized, meant_by, input_by, mode_by, chunk_by, number_or, is_flag_given, words_mean};

use crate::number::number_in;
use crate::options::{Input, Mode, Options, WordsError};
use clap::error::ErrorKind;
use clap::{Arg, ArgAction, ArgMatches, Command};
use sac_base::Caps;
use std::alloc::{AllocError, Global};

// An option that takes one text.
fn choice<'a>(alloc: Global, name: &'a str) -> Arg<'a>
    ensures rule { rule_of result ≡ choice name.entry.now }
    ensures local { result.global ≡ false }
{
    Arg::new(alloc, name).long(name)
}

// A word that has to be there.
fn required<'a>(alloc: Global, name: &'a str) -> Arg<'a>
    ensures rule { rule_of result ≡ required name.entry.now }
    ensures local { result.global ≡ false }
{
    Arg::new(alloc, name).required(true)
}

// An option that takes no text.
fn flag<'a>(alloc: Global, name: &'a str) -> Arg<'a>
    ensures rule { rule_of result ≡ flag name.entry.now }
    ensures local { result.global ≡ false }
{
    Arg::new(alloc, name).long(name).action(ArgAction::SetTrue)
}

fn command<'a>(alloc: Global) -> Result<Command<'a>, AllocError>
    ensures { IfOk result (λ command. app_of command ≡ sac_command) }
{
    Command::new(alloc, "sac")
        .arg(required(alloc, "FILE"))?
        .arg(choice(alloc, "input"))?
        .arg(choice(alloc, "workers"))?
        .arg(choice(alloc, "chunk"))?
        .arg(choice(alloc, "turns"))?
        .arg(choice(alloc, "depth"))?
        .arg(choice(alloc, "mode"))?
        .arg(flag(alloc, "report"))?
        .arg(choice(alloc, "gen"))
}

// The number of an option within its range, or what holds where the option is not given.
fn number_or(given: Option<&str>, least: u64, most: u64, default: u64) -> Option<u64>
    requires { default ≤ most }
    ensures exact { result ≡ number_or least most default (option_map (λ text. text.now) given.entry) }
    ensures within { IfSome result (λ number. number ≤ most) }
{
    match given {
        Some(text) => number_in(text, least, most),
        None => Some(default),
    }
}

fn chunk_of(given: Option<&str>) -> Option<Option<u64>>
    ensures { result ≡ chunk_by (option_map (λ text. text.now) given.entry) }
{
    match given {
        Some(text) => match number_in(text, 1, 16_777_216) {
            Some(size) => Some(Some(size)),
            None => None,
        },
        None => Some(None),
    }
}

fn mode_of(given: Option<&str>) -> Option<Mode>
    ensures { result ≡ mode_by (option_map (λ text. text.now) given.entry) }
{
    match given {
        None | Some("run") => Some(Mode::Run),
        Some("check") => Some(Mode::Check),
        Some("print") => Some(Mode::Print),
        Some(_) => None,
    }
}

// At most one of a file and a number may be given.
fn input_of<'a>(file: Option<&'a str>, number: Option<&'a str>) -> Option<Input<'a>>
    ensures exact { option_map input_meant result ≡ input_by (option_map (λ text. text.now) file.entry) (option_map (λ text. text.now) number.entry) }
    ensures sized { IfSome result IsSized }
{
    match (file, number) {
        (None, None) => Some(Input::Empty),
        (Some(name), None) => Some(Input::File(name)),
        (None, Some(text)) => match number_in(text, 1, 4096) {
            Some(size) => Some(Input::Generated(size as u32)),
            None => None,
        },
        (Some(_), Some(_)) => None,
    }
}

// The value of a flag is `true` or `false`.
fn is_given(flag: Option<&str>) -> bool
    ensures { result ≡ is_flag_given (option_map (λ text. text.now) flag.entry) }
{
    match flag {
        Some(text) => text == "true",
        None => false,
    }
}

fn options_of<'a>(matches: &ArgMatches<'a>) -> Option<Options<'a>>
    ensures exact { option_map meant result ≡ meant_by (rows_of (found_of matches.now)) }
    ensures sized { IfSome result (λ options. IsSized options.input) }
{
    let source = matches.get_str("FILE")?;
    let input = input_of(matches.get_str("input"), matches.get_str("gen"))?;
    let workers = number_or(matches.get_str("workers"), 1, 64, 4)?;
    let chunk = chunk_of(matches.get_str("chunk"))?;
    let turns = number_or(matches.get_str("turns"), 1, 1_000_000_000, 1_000_000)?;
    let depth = number_or(matches.get_str("depth"), 1, 200, 100)?;
    let mode = mode_of(matches.get_str("mode"))?;
    let report = is_given(matches.get_str("report"));
    Some(Options {
        source,
        input,
        workers: workers as u32,
        chunk,
        caps: Caps { turns, depth },
        mode,
        report,
    })
}

/// Reads the words, of which the first is the program's name.
///
/// # Errors
///
/// `Refused` exactly where the words ask for nothing; `Memory` where no memory was found.
pub fn read_words<'a>(alloc: Global, words: &'a [&'a str]) -> Result<Options<'a>, WordsError>
    ensures read { IfOk result (λ options. words_mean (texts words.entry.now) ≡ Some (meant options)) }
    ensures sized { IfOk result (λ options. IsSized options.input) }
    ensures refused { result ≡ Err WordsError.Refused → words_mean (texts words.entry.now) ≡ None }
{
    let Ok(command) = command(alloc) else {
        return Err(WordsError::Memory);
    };
    let matches = match command.try_get_matches_from(words) {
        Ok(matches) => matches,
        Err(error) => {
            return match error.kind() {
                ErrorKind::OutOfMemory => Err(WordsError::Memory),
                _ => Err(WordsError::Refused),
            };
        }
    };
    match options_of(&matches) {
        Some(options) => Ok(options),
        None => Err(WordsError::Refused),
    }
}
