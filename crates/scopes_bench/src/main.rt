//! Declares names in one scope and opens scopes in it, and finds each name from the innermost one, so
//! that the time of it can be taken.
#![tactic(auto)]

ghost use Rattle.std.specs.Prelude.{◌<◌, length};

use anyhow::{Context, Result, anyhow};
use p2c_text::{Name, name_of};
use scope_tables::Scopes;
use std::alloc::{AllocError, Global};
use std::env;

/// The name with this number.
fn name(alloc: Global, number: u64) -> Result<Name, AllocError> {
    let text = format!(in alloc; "name_{number}")?;
    name_of(alloc, text.as_bytes())
}

/// Declares so many names in the innermost scope.
#[tactic(auto, using(crate::proofs::Declared::still_open))]
fn declare(alloc: Global, scopes: &mut Scopes, count: u64) -> Result<()>
    requires { 0 < length scopes.old }
{
    for number in 0..count {
        let name = name(alloc, number)?;
        if scopes.declare(name, number).is_err() {
            return Err(anyhow!("a name could not be declared"));
        }
    }
    Ok(())
}

fn enter(scopes: &mut Scopes, count: u64) -> Result<()> {
    for _ in 0..count {
        scopes.enter()?;
    }
    Ok(())
}

/// How many of the names are found.
fn found(alloc: Global, scopes: &Scopes, count: u64) -> Result<u64> {
    let mut found = 0u64;
    for number in 0..count {
        if scopes.find(&name(alloc, number)?).is_some() {
            found = found.saturating_add(1);
        }
    }
    Ok(found)
}

fn main(rt: HostRuntime) -> Result<()> {
    let mut words = env::args(&rt)?.skip(1);
    let (Some(names), Some(depth)) = (words.next(), words.next()) else {
        return Err(anyhow!("a number of names and a number of scopes are wanted"));
    };
    let names = names.as_str().parse::<u64>().context("no number of names")?;
    let depth = depth
        .as_str()
        .parse::<u64>()
        .context("no number of scopes")?;
    let alloc = rt.alloc();
    let mut scopes = Scopes::new(alloc)?;
    scopes.enter()?;
    declare(alloc, &mut scopes, names)?;
    enter(&mut scopes, depth)?;
    println!(rt; "{} found", found(alloc, &scopes, names)?)?;
    Ok(())
}
