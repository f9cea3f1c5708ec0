//! The words after the program's name.

ghost use Rattle.std.specs.Prelude.{◌≡◌, IfOk, map, option_map, slice_get};
ghost use Rattle.command_words.specs.Asked.{asked, seen};
ghost use Rattle.p2c_top.specs.Words.{Finds, name_in, or_nothing};

use command_words::{Setting, parse_words};
use std::alloc::{AllocError, Global};
use std::marker::Model;

/// The words after the program's name, in order.
#[derive(Drop)]
pub struct Words {
    pub list: Vec<String>,
}

impl Model for Words {
    ghost use Rattle.std.specs.Prelude.{List, ℕ, map, string_bytes};

    ghost Value = { List (List ℕ) };

    ghost view = { λ words. map string_bytes words.list.items };
}

/// What the words ask for.
pub fn asked(alloc: Global, words: &Words) -> Result<Option<Setting<'_>>, AllocError>
    ensures { Finds result (asked words.now) }
{
    parse_words(alloc, words.list.as_slice())
}

/// The name of the file with this number, from 0 on, or nothing.
pub fn name_or_nothing<'a>(asked: &Result<Option<Setting<'a>>, AllocError>, file: usize) -> &'a str
    ensures { IfOk asked.now (λ found. result.now ≡ name_in (option_map seen found) file) }
{
    match asked {
        Ok(Some(Setting::Translate { files, .. })) => nth_name(files.as_slice(), file),
        Ok(Some(Setting::Run { file: name, .. })) => *name,
        _ => "",
    }
}

fn nth_name<'a>(names: &[&'a str], file: usize) -> &'a str
    ensures { result.now ≡ or_nothing (slice_get (map (λ name. name.now) names.now) file) }
{
    match names.get(file) {
        Some(name) => *name,
        None => "",
    }
}
