//! Reads a text and counts its tokens, so that the time of it can be taken.
#![tactic(auto)]

use anyhow::{Result, anyhow};
use dialect_lexer::{LONGEST_INPUT, tokens};
use p2c_text::Dialect;
use std::{env, fs};

fn main(rt: HostRuntime) -> Result<()> {
    let Some(name) = env::args(&rt)?.nth(1) else {
        return Err(anyhow!("the name of a file is missing"));
    };
    let bytes = fs::read(&rt, name.as_str())?;
    if bytes.len() > LONGEST_INPUT {
        return Err(anyhow!("the text is too long"));
    }
    match tokens(rt.alloc(), Dialect::Turbo, 0, &bytes) {
        Ok(list) => println!(rt; "{} tokens", list.as_slice().len())?,
        Err(_) => println!(rt; "no tokens")?,
    }
    Ok(())
}
