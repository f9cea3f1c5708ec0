//! Makes the text of the generator for a seed and a size, so that the time of it can be taken.
#![tactic(auto)]

use anyhow::{Context, Result, anyhow};
use pascal_samples::sample;
use std::env;

fn main(rt: HostRuntime) -> Result<()> {
    let mut words = env::args(&rt)?.skip(1);
    let (Some(seed), Some(size)) = (words.next(), words.next()) else {
        return Err(anyhow!("a seed and a size are wanted"));
    };
    let seed = seed
        .as_str()
        .parse::<u64>()
        .context("the seed is no number")?;
    let size = size
        .as_str()
        .parse::<u32>()
        .context("the size is no number")?;
    if size < 1 || size > 10_000 {
        return Err(anyhow!("the size is not in 1 to 10000"));
    }
    let text = sample(rt.alloc(), seed, size)?;
    println!(rt; "{} bytes", text.len())?;
    Ok(())
}
