//! Reads a text of the C subset, so that the time of it can be taken.
#![tactic(auto)]

use anyhow::{Result, anyhow};
use c_reader::{CTextFault, LONGEST_INPUT, read};
use std::{env, fs};

fn main(rt: HostRuntime) -> Result<()> {
    let Some(name) = env::args(&rt)?.nth(1) else {
        return Err(anyhow!("the name of a file is missing"));
    };
    let bytes = fs::read(&rt, name.as_str())?;
    if bytes.len() > LONGEST_INPUT {
        return Err(anyhow!("the text is too long"));
    }
    match read(rt.alloc(), &bytes) {
        Ok(program) => println!(rt; "{} functions", program.functions.len())?,
        Err(CTextFault::At { kind, line }) => println!(rt; "{kind:?} on line {line}")?,
        Err(CTextFault::Memory(_)) => println!(rt; "out of memory")?,
    }
    Ok(())
}
