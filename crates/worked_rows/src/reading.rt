//! Rows as they are written.

use crate::row::Row;
use anyhow::{Context, Result, anyhow};
use p2c_text::Text;
use std::alloc::{AllocError, Global};

/// The lines with which each C text begins.
const HEAD: &str = "/* p2c 1 */\n#include <stdint.h>\n#include <stdio.h>\n#include <stdlib.h>\n";

/// Where the lines of bytes go.
#[derive(Clone, Copy)]
enum Place {
    /// To the last file.
    File,
    Input,
    Error,
    Output,
    /// To what stands behind the head lines of the texts that follow.
    Above,
}

/// Texts of a table, each tried in some dialects.
#[derive(Drop)]
struct Table {
    name: String,
    /// What stands before and after each text.
    before: String,
    after: String,
    /// The first letters of the dialects in which the last text is tried; none where no text is.
    dialects: String,
    /// The line, the phase and the kind with which it is refused; nothing where it is not.
    refusal: String,
    text: Vec<u8>,
}

impl Table {
    fn new(alloc: Global) -> Table {
        Table {
            name: String::new(alloc),
            before: String::new(alloc),
            after: String::new(alloc),
            dialects: String::new(alloc),
            refusal: String::new(alloc),
            text: Vec::new(alloc),
        }
    }
}

/// The rows that were read so far. The last one may get more.
#[derive(Drop)]
struct Reading {
    rows: Vec<Row>,
    place: Place,
    above: Vec<u8>,
    table: Table,
}

/// The rows of a text.
pub fn rows_of(alloc: Global, text: &str) -> Result<Vec<Row>> {
    let mut reading = Reading {
        rows: Vec::new(alloc),
        place: Place::Above,
        above: Vec::new(alloc),
        table: Table::new(alloc),
    };
    for (number, line) in text.lines().enumerate() {
        let at = number.saturating_add(1);
        let read = reading.read_line(alloc, line);
        read.context(format_args!("line {at}"))?;
    }
    reading.end_trial(alloc)?;
    Ok(reading.rows)
}

/// What stands behind the first character and a space.
fn rest_of(line: &str) -> &str {
    match line.split_once(' ') {
        Some((_, rest)) => rest,
        None => "",
    }
}

fn number(text: &str) -> Result<u64> {
    text.parse::<u64>().context("no number")
}

/// The word for a dialect, by its first letter.
fn dialect_word(letter: u8) -> &'static str {
    match letter {
        b'i' => "iso",
        b't' => "turbo",
        b'u' => "ucsd",
        _ => "hp",
    }
}

impl Reading {
    fn read_line(&mut self, alloc: Global, line: &str) -> Result<()> {
        match line.as_bytes().first() {
            None | Some(b'#') => Ok(()),
            Some(b'|') => {
                self.append(rest_of(line))?;
                self.append("\n")
            }
            Some(b'>') => self.append(rest_of(line)),
            Some(b'*') => self.append_many(alloc, rest_of(line)),
            Some(_) => self.read_word(alloc, line),
        }
    }

    /// A line that begins with a word.
    fn read_word(&mut self, alloc: Global, line: &str) -> Result<()> {
        let (word, rest) = line.split_once(' ').unwrap_or((line, ""));
        match word {
            "row" => {
                self.end_trial(alloc)?;
                self.rows.push(Row::new(alloc, rest)?)?;
                Ok(())
            }
            "table" => {
                self.end_trial(alloc)?;
                self.table.name = String::from_str(alloc, rest)?;
                Ok(())
            }
            "before" => self.set_before(alloc, rest),
            "after" => self.set_after(alloc, rest),
            "try" => self.begin_trial(alloc, rest),
            "above" => {
                self.above.clear();
                self.place = Place::Above;
                Ok(())
            }
            "head" => {
                self.append(HEAD)?;
                self.append_above()
            }
            "byte" => self.append_byte(alloc, rest),
            _ => self.set(alloc, word, rest),
        }
    }

    /// A part of the last row.
    fn set(&mut self, alloc: Global, word: &str, rest: &str) -> Result<()> {
        let Some(row) = self.rows.last_mut() else {
            return Err(anyhow!("a row is wanted first"));
        };
        match word {
            "words" => row.words = String::from_str(alloc, rest)?,
            "file" => {
                row.add_file(alloc, rest)?;
                self.place = Place::File;
            }
            "real" => row.real = true,
            "input" => self.place = Place::Input,
            "error" => self.place = Place::Error,
            "output" => self.place = Place::Output,
            "piece" => row.piece = number(rest)? as usize,
            "status" => row.wanted.status = rest.parse::<u8>().context("no status")?,
            "fail" => set_failing(row, rest)?,
            _ => return Err(anyhow!("what is '{word}'?")),
        }
        Ok(())
    }

    fn set_before(&mut self, alloc: Global, text: &str) -> Result<()> {
        self.end_trial(alloc)?;
        self.table.before = String::from_str(alloc, text)?;
        Ok(())
    }

    fn set_after(&mut self, alloc: Global, text: &str) -> Result<()> {
        self.end_trial(alloc)?;
        self.table.after = String::from_str(alloc, text)?;
        Ok(())
    }

    // ---- bytes

    fn append(&mut self, text: &str) -> Result<()> {
        if !self.table.dialects.is_empty() {
            self.table.text.extend_from_slice(text.as_bytes())?;
            return Ok(());
        }
        if let Place::Above = self.place {
            self.above.extend_from_slice(text.as_bytes())?;
            return Ok(());
        }
        let Some(row) = self.rows.last_mut() else {
            return Err(anyhow!("a row is wanted first"));
        };
        append_to(row, self.place, text.as_bytes())
    }

    /// What stands behind the head lines.
    fn append_above(&mut self) -> Result<()> {
        match self.rows.last_mut() {
            Some(row) => append_to(row, self.place, &self.above),
            None => Err(anyhow!("a row is wanted first")),
        }
    }

    /// A number, and the text that stands so many times.
    fn append_many(&mut self, alloc: Global, line: &str) -> Result<()> {
        let (count, text) = line.split_once(' ').unwrap_or((line, ""));
        for _ in 0..number(count)? {
            self.append(text)?;
        }
        Ok(())
    }

    /// A byte, by its code.
    fn append_byte(&mut self, alloc: Global, code: &str) -> Result<()> {
        let code = code.parse::<u8>().context("no byte")?;
        let text = format!(in alloc; "{}", char::from(code))?;
        self.append(text.as_str())
    }

    // ---- tables

    /// A text is tried in these dialects, and refused so.
    fn begin_trial(&mut self, alloc: Global, line: &str) -> Result<()> {
        self.end_trial(alloc)?;
        let (dialects, refusal) = line.split_once(' ').unwrap_or((line, ""));
        self.table.dialects = String::from_str(alloc, dialects)?;
        self.table.refusal = String::from_str(alloc, refusal)?;
        self.table.text = Vec::from_slice(alloc, self.table.before.as_bytes())?;
        Ok(())
    }

    /// The text that is tried is complete: it is a row in each of its dialects.
    fn end_trial(&mut self, alloc: Global) -> Result<()> {
        let dialects = std::mem::replace(&mut self.table.dialects, String::new(alloc));
        for letter in dialects.as_bytes() {
            let row = trial_of(alloc, &self.table, dialect_word(*letter))?;
            self.rows.push(row)?;
        }
        Ok(())
    }
}

/// The row of the text that a table tries, in this dialect.
fn trial_of(alloc: Global, table: &Table, dialect: &str) -> Result<Row> {
    let text = String::from_utf8_lossy(alloc, &table.text)?;
    let name = format!(in alloc; "{} ({dialect}): {text}", table.name)?;
    let mut row = Row::new(alloc, name.as_str())?;
    row.words = format!(in alloc; "translate -L {dialect} a.pas")?;
    let mut bytes = table.text.clone()?;
    bytes.extend_from_slice(table.after.as_bytes())?;
    row.files.push(Text {
        name: String::from_str(alloc, "a.pas")?,
        bytes,
    })?;
    if table.refusal.is_empty() {
        row.wanted.any_output = true;
    } else {
        let line = format!(in alloc; "a.pas:{}\n", table.refusal)?;
        row.wanted.status = 241;
        row.wanted.error = line.into_bytes();
    }
    Ok(row)
}

/// Which call of the outside fails.
fn set_failing(row: &mut Row, text: &str) -> Result<()> {
    let (call, count) = text.split_once(' ').unwrap_or((text, ""));
    let count = number(count)?;
    match call {
        "read" => row.failing.read = count,
        "take" => row.failing.take = count,
        "put" => row.failing.put = count,
        _ => return Err(anyhow!("which call fails?")),
    }
    Ok(())
}

fn append_to(row: &mut Row, place: Place, bytes: &[u8]) -> Result<()> {
    match place {
        Place::File => match row.files.last_mut() {
            Some(file) => file.bytes.extend_from_slice(bytes)?,
            None => return Err(anyhow!("a file is wanted first")),
        },
        Place::Input => row.input.extend_from_slice(bytes)?,
        Place::Error => row.wanted.error.extend_from_slice(bytes)?,
        Place::Output => row.wanted.output.extend_from_slice(bytes)?,
        Place::Above => return Err(anyhow!("these bytes belong to no row")),
    }
    Ok(())
}
