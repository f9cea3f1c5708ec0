//! Runs a text of the C subset for so many steps, so that the time of it can be taken.
#![tactic(auto)]

use anyhow::{Result, anyhow};
use c_machine::{Ended, run};
use c_reader::{CTextFault, LONGEST_INPUT, read};
use c_tree::program::CProgram;
use p2c_outside::{CalmSink, CalmSource};
use std::{env, fs};

/// Runs a program on no input, and says how it ends.
fn report(rt: &HostRuntime, program: &CProgram, steps: u64) -> Result<()> {
    let mut input = CalmSource {
        bytes: Vec::new(rt.alloc()),
        at: 0,
    };
    let mut out = CalmSink { count: 0 };
    let ended = run(rt.alloc(), program, steps, &mut input, &mut out);
    println!(rt; "{ended:?} after {} bytes", out.count)?;
    Ok(())
}

fn main(rt: HostRuntime) -> Result<()> {
    let Some(name) = env::args(&rt)?.nth(1) else {
        return Err(anyhow!("the name of a file is missing"));
    };
    let Some(count) = env::args(&rt)?.nth(2) else {
        return Err(anyhow!("the number of steps is missing"));
    };
    let steps: u64 = count.as_str().parse()?;
    let bytes = fs::read(&rt, name.as_str())?;
    if bytes.len() > LONGEST_INPUT {
        return Err(anyhow!("the text is too long"));
    }
    match read(rt.alloc(), &bytes) {
        Ok(program) => report(&rt, &program, steps)?,
        Err(CTextFault::At { kind, line }) => println!(rt; "{kind:?} on line {line}")?,
        Err(CTextFault::Memory(_)) => println!(rt; "out of memory")?,
    }
    Ok(())
}
