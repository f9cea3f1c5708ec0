//! A row played on devices in memory.

ghost use Rattle.std.specs.Prelude.{◌≤◌};

use crate::row::Row;
use anyhow::Result;
use p2c_outside::{Files, MemoryFiles, MemorySink, MemorySource, RealFiles};
use p2c_text::Text;
use p2c_top::{Words, p2c};
use std::alloc::{AllocError, Global};

/// The most bytes that a stream takes.
const ROOM: usize = 65_536;

/// What a row came to.
#[derive(Drop)]
pub struct Played {
    pub status: u8,
    pub error: Vec<u8>,
    pub output: Vec<u8>,
}

impl Played {
    /// Whether this is what the row wants.
    pub fn is_wanted(&self, row: &Row) -> bool {
        let wanted = &row.wanted;
        let fits = if wanted.any_output {
            !self.output.is_empty()
        } else {
            self.output == wanted.output
        };
        fits && self.status == wanted.status && self.error == wanted.error
    }
}

fn words_of(alloc: Global, row: &Row) -> Result<Words, AllocError> {
    let mut list = Vec::new(alloc);
    for word in row.words.as_str().split_whitespace() {
        list.push(String::from_str(alloc, word)?)?;
    }
    Ok(Words { list })
}

fn files_of(alloc: Global, row: &Row, most: usize) -> Result<MemoryFiles, AllocError>
    requires { 1 ≤ most }
{
    let mut names = Vec::new(alloc);
    for file in &row.files {
        names.push(Text {
            name: file.name.clone()?,
            bytes: file.bytes.clone()?,
        })?;
    }
    Ok(MemoryFiles {
        names,
        most,
        calls: 0,
        fail: vec![in alloc; row.failing.read]?,
        missing: 0,
        faults: 0,
    })
}

fn input_of(alloc: Global, row: &Row, most: usize) -> Result<MemorySource, AllocError>
    requires { 1 ≤ most }
{
    Ok(MemorySource {
        bytes: row.input.clone()?,
        at: 0,
        most,
        calls: 0,
        fail: vec![in alloc; row.failing.take]?,
        faults: 0,
    })
}

/// Calls the top call with these files, and otherwise as the row says.
fn play_over<F: Files>(alloc: Global, row: &Row, files: &mut F, most: usize) -> Result<Played>
    requires { 1 ≤ most }
{
    let words = words_of(alloc, row)?;
    let mut input = input_of(alloc, row, most)?;
    let fail = vec![in alloc; row.failing.put]?;
    let mut out = MemorySink::new(alloc, ROOM, most, fail)?;
    let mut err = MemorySink::new(alloc, ROOM, 7, Vec::new(alloc))?;
    let status = p2c(alloc, &words, files, &mut input, &mut out, &mut err);
    Ok(Played {
        status,
        error: err.bytes,
        output: out.bytes,
    })
}

/// Calls the top call as the row says.
pub fn play(rt: &HostRuntime, row: &Row) -> Result<Played> {
    let alloc = rt.alloc();
    let most = row.piece.max(1);
    if row.real {
        play_over(alloc, row, &mut RealFiles::new(rt, alloc), most)
    } else {
        play_over(alloc, row, &mut files_of(alloc, row, most)?, most)
    }
}
