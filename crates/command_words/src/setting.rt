//! Settings, and how the matches of a command line give one.

ghost use Rattle.std.specs.Prelude.{◌≡◌, IfOk, map, option_map, option_and_then, codes, string_bytes};
ghost use Rattle.clap.specs.Words.{all_of, first_of, found_of, rows_of};
ghost use Rattle.command_words.specs.Asked as spec;
ghost use Rattle.command_words.specs.Asked.{asked, dialect_of, matched, number_in, run_app, running, sample_app, sampling, seen, translate_app, translation};

use crate::lines::{matches, run_line, sample_line, translate_line};
use clap::ArgMatches;
use p2c_text::Dialect;
use std::alloc::{AllocError, Global};

/// What the words ask for, with what stands in them.
#[derive(Drop)]
pub enum Setting<'a> {
    Translate {
        dialect: Dialect,
        files: Vec<&'a str>,
    },
    Run {
        steps: u64,
        file: &'a str,
    },
    Sample {
        seed: u64,
        size: u64,
    },
}

/// What the words after the program's name ask for, or `None` where they ask for nothing.
pub fn parse_words<'a>(
    alloc: Global,
    words: &'a [String],
) -> Result<Option<Setting<'a>>, AllocError>
    ensures { IfOk result (λ found. option_map seen found ≡ asked (map string_bytes words.now)) }
{
    let Some(command) = words.first() else {
        return Ok(None);
    };
    let command = command.as_str();
    if command == "translate" {
        return translate(alloc, words);
    }
    if command == "run" {
        return run(alloc, words);
    }
    if command == "sample" {
        return sample(alloc, words);
    }
    Ok(None)
}

fn translate<'a>(alloc: Global, words: &'a [String]) -> Result<Option<Setting<'a>>, AllocError>
    ensures { IfOk result (λ found. option_map seen found ≡ option_and_then translation (matched translate_app (map string_bytes words.now))) }
{
    match matches(translate_line(alloc)?, words)? {
        Some(found) => translation(alloc, &found),
        None => Ok(None),
    }
}

fn run<'a>(alloc: Global, words: &'a [String]) -> Result<Option<Setting<'a>>, AllocError>
    ensures { IfOk result (λ found. option_map seen found ≡ option_and_then running (matched run_app (map string_bytes words.now))) }
{
    match matches(run_line(alloc)?, words)? {
        Some(found) => Ok(running(&found)),
        None => Ok(None),
    }
}

fn sample<'a>(alloc: Global, words: &'a [String]) -> Result<Option<Setting<'a>>, AllocError>
    ensures { IfOk result (λ found. option_map seen found ≡ option_and_then sampling (matched sample_app (map string_bytes words.now))) }
{
    match matches(sample_line(alloc)?, words)? {
        Some(found) => Ok(sampling(&found)),
        None => Ok(None),
    }
}

fn translation<'a>(alloc: Global, found: &ArgMatches<'a>) -> Result<Option<Setting<'a>>, AllocError>
    ensures { IfOk result (λ made. option_map seen made ≡ spec.translation (rows_of (found_of found.now))) }
{
    let Some(dialect) = dialect_found(found) else {
        return Ok(None);
    };
    let Some(files) = values(found, "files") else {
        return Ok(None);
    };
    let files = files.to_vec(alloc)?;
    Ok(Some(Setting::Translate { dialect, files }))
}

fn dialect_found(found: &ArgMatches<'_>) -> Option<Dialect>
    ensures { result ≡ option_and_then dialect_of (first_of (codes "dialect") (rows_of (found_of found.now))) }
{
    dialect_named(value(found, "dialect")?)
}

fn running<'a>(found: &ArgMatches<'a>) -> Option<Setting<'a>>
    ensures { option_map seen result ≡ spec.running (rows_of (found_of found.now)) }
{
    let steps = number(value(found, "steps")?, 1, 1_000_000_000_000_000_000)?;
    let file = value(found, "file")?;
    Some(Setting::Run { steps, file })
}

fn sampling<'a>(found: &ArgMatches<'a>) -> Option<Setting<'a>>
    ensures { option_map seen result ≡ spec.sampling (rows_of (found_of found.now)) }
{
    let seed = number(value(found, "seed")?, 0, 1_000_000_000)?;
    let size = number(value(found, "size")?, 1, 10_000)?;
    Some(Setting::Sample { seed, size })
}

/// The first value of an argument.
fn value<'a>(found: &ArgMatches<'a>, id: &str) -> Option<&'a str>
    ensures { option_map (λ text. text.now) result ≡ first_of id.now (rows_of (found_of found.now)) }
{
    found.get_str(id)
}

/// The values of an argument.
fn values<'m, 'a>(found: &'m ArgMatches<'a>, id: &str) -> Option<&'m [&'a str]>
    ensures { option_map (λ texts. map (λ text. text.now) texts.now) result ≡ all_of id.now (rows_of (found_of found.now)) }
{
    found.get_strs(id)
}

fn dialect_named(text: &str) -> Option<Dialect>
    ensures { result ≡ dialect_of text.now }
{
    if text == "iso" {
        Some(Dialect::Iso)
    } else if text == "turbo" {
        Some(Dialect::Turbo)
    } else if text == "ucsd" {
        Some(Dialect::Ucsd)
    } else if text == "hp" {
        Some(Dialect::Hp)
    } else {
        None
    }
}

fn number(text: &str, least: u64, most: u64) -> Option<u64>
    ensures { result ≡ number_in least most text.now }
{
    match text.parse::<u64>() {
        Ok(number) if least <= number && number <= most => Some(number),
        _ => None,
    }
}
