//! Calls the top call on each row of the files that the words name, and tells which rows come out
//! otherwise than they should.
//!
//! A row says the words, the files, the input and which call of the outside fails, and then the status
//! and what both streams are to take. `data/README` says how rows are written.
#![tactic(auto)]

mod play;
mod reading;
mod row;

use crate::play::{Played, play};
use crate::reading::rows_of;
use crate::row::Row;
use anyhow::Result;
use std::{env, fs};

/// Tells of a row what came in place of what it wants.
fn tell(rt: &HostRuntime, row: &Row, played: &Played) -> Result<()> {
    println!(rt; "{}: status {}", row.name, played.status)?;
    println!(rt;
        "  error:  {:?}",
        String::from_utf8_lossy(rt.alloc(), &played.error)?
    )?;
    println!(rt;
        "  output: {:?}",
        String::from_utf8_lossy(rt.alloc(), &played.output)?
    )?;
    Ok(())
}

/// Plays each row of a file.
fn play_file(rt: &HostRuntime, name: &str) -> Result<()> {
    let text = fs::read_to_string(rt, name)?;
    let rows = rows_of(rt.alloc(), text.as_str())?;
    let mut differ = 0u64;
    for row in &rows {
        let played = play(rt, row)?;
        if !played.is_wanted(row) {
            differ = differ.saturating_add(1);
            tell(rt, row, &played)?;
        }
    }
    println!(rt; "{name}: {} rows, {differ} differ", rows.len())?;
    Ok(())
}

fn main(rt: HostRuntime) -> Result<()> {
    for name in env::args(&rt)?.skip(1) {
        play_file(&rt, name.as_str())?;
    }
    Ok(())
}
