//! Reads an ISO text of Pascal into its tree, so that the time of it can be taken.
#![tactic(auto)]

use anyhow::{Result, anyhow};
use dialect_lexer::{LONGEST_INPUT, LexFault, tokens};
use p2c_text::Dialect;
use pascal_tree::height;
use std::{env, fs};
use unit_parser::{SyntaxFault, parse};

fn report(rt: &HostRuntime, bytes: &[u8]) -> Result<()> {
    if bytes.len() > LONGEST_INPUT {
        return Err(anyhow!("the text is too long"));
    }
    let list = match tokens(rt.alloc(), Dialect::Iso, 0, bytes) {
        Ok(list) => list,
        Err(LexFault::At { kind, span }) => {
            println!(rt; "{kind:?} on line {}", span.line)?;
            return Ok(());
        }
        Err(LexFault::Memory(_)) => return Err(anyhow!("out of memory")),
    };
    match parse(rt.alloc(), Dialect::Iso, bytes, &list) {
        Ok(file) => println!(rt; "{} levels", height(&file))?,
        Err(SyntaxFault::Unexpected(span)) => println!(rt; "Unexpected on line {}", span.line)?,
        Err(SyntaxFault::TooDeep(span)) => println!(rt; "TooDeep on line {}", span.line)?,
        Err(SyntaxFault::Memory(_)) => return Err(anyhow!("out of memory")),
    }
    Ok(())
}

fn main(rt: HostRuntime) -> Result<()> {
    let Some(name) = env::args(&rt)?.nth(1) else {
        return Err(anyhow!("the name of a file is missing"));
    };
    let bytes = fs::read(&rt, name.as_str())?;
    report(&rt, &bytes)
}
