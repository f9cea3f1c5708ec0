//! The command lines.

ghost use Rattle.std.specs.Prelude.{◌≡◌, IfOk, true, map, option_map, codes, string_bytes};
ghost use Rattle.clap.specs.Words.{app_of, found_of, is_simple_and_free, kind_of, rows_of};
ghost use Rattle.command_words.specs.Asked.{matched, run_app, sample_app, translate_app};

use clap::builder::ValueRange;
use clap::error::ErrorKind;
use clap::{Arg, ArgMatches, Command, Error};
use std::alloc::{AllocError, Global};

/// `translate [-L DIALECT] FILE..`
pub fn translate_line<'a>(alloc: Global) -> Result<Command<'a>, AllocError>
    ensures { IfOk result (λ line. app_of line ≡ translate_app) }
{
    let dialect = Arg::new(alloc, "dialect").short('L').default_value("iso");
    let files = Arg::new(alloc, "files")
        .required(true)
        .num_args(number_of_files());
    Command::new(alloc, "translate").arg(dialect)?.arg(files)
}

fn number_of_files() -> ValueRange
    ensures { result ≡ record { start_inclusive = 1; end_inclusive = 64 } }
{
    ValueRange::new(1..=64)
}

/// `run [--steps N] FILE`
pub fn run_line<'a>(alloc: Global) -> Result<Command<'a>, AllocError>
    ensures { IfOk result (λ line. app_of line ≡ run_app) }
{
    let steps = Arg::new(alloc, "steps")
        .long("steps")
        .default_value("1000000000000");
    let file = Arg::new(alloc, "file").required(true);
    Command::new(alloc, "run").arg(steps)?.arg(file)
}

/// `sample --seed N --size N`
pub fn sample_line<'a>(alloc: Global) -> Result<Command<'a>, AllocError>
    ensures { IfOk result (λ line. app_of line ≡ sample_app) }
{
    let seed = Arg::new(alloc, "seed").long("seed").required(true);
    let size = Arg::new(alloc, "size").long("size").required(true);
    Command::new(alloc, "sample").arg(seed)?.arg(size)
}

/// What a command line makes of the words, where it takes them.
pub fn matches<'a>(
    line: Command<'a>,
    words: &'a [String],
) -> Result<Option<ArgMatches<'a>>, AllocError>
    ensures { is_simple_and_free (app_of line.entry) ≡ true → IfOk result (λ found. option_map (λ m. rows_of (found_of m)) found ≡ matched (app_of line.entry) (map string_bytes words.now)) }
{
    match line.try_get_matches_from(words) {
        Ok(found) => Ok(Some(found)),
        Err(error) if is_want_of_memory(&error) => Err(AllocError),
        Err(_) => Ok(None),
    }
}

fn is_want_of_memory(error: &Error) -> bool
    ensures { kind_of error.now ≡ ErrorKind.OutOfMemory → result ≡ true }
{
    matches!(error.kind(), ErrorKind::OutOfMemory)
}
