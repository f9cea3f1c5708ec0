//! A whole program.

ghost use Rattle.std.specs.Prelude.{◌≡◌, ◌≤◌, ◌++◌, OnOk, IfOk};
ghost use Rattle.pascal_samples.specs.Text.{calls_text, routines_text, sample_text};

use crate::append::append_with;
use crate::routine::{append_routine, draws};
use std::alloc::{AllocError, Global};

/// A program of so many routines, with a body that calls each of them.
pub fn sample(alloc: Global, seed: u64, size: u32) -> Result<Vec<u8>, AllocError>
    requires some { 1 ≤ size }
    requires bounded { size ≤ 10000 }
    ensures { IfOk result (λ text. text.items ≡ sample_text seed size) }
{
    let mut out = Vec::new(alloc);
    append_parts(
        &mut out,
        b"program sample(output);\nvar g: integer;\n",
        seed,
        b"begin\ng := 0;\n",
        u64::from(size),
        b"writeln(g)\nend.\n",
    )?;
    Ok(out)
}

/// The routines and the calls of them between three pieces.
fn append_parts(
    out: &mut Vec<u8>,
    before: &[u8],
    seed: u64,
    between: &[u8],
    size: u64,
    after: &[u8],
) -> Result<(), AllocError>
    requires { size ≤ 10000 }
    ensures { OnOk result (out.new.items ≡ out.old.items
        ++ (before.now ++ routines_text seed 1 size ++ between.now ++ calls_text 1 size ++ after.now)) }
{
    out.extend_from_slice(before)?;
    append_routines(out, seed, size)?;
    out.extend_from_slice(between)?;
    append_calls(out, size)?;
    out.extend_from_slice(after)
}

fn append_routines(out: &mut Vec<u8>, seed: u64, size: u64) -> Result<(), AllocError>
    requires { size ≤ 10000 }
    ensures { OnOk result (out.new.items ≡ out.old.items ++ routines_text seed 1 size) }
{
    let mut state = seed;
    for number in 1..size + 1 {
        let drawn = draws(number, state);
        append_routine(out, number, &drawn)?;
        state = drawn.state;
    }
    Ok(())
}

fn append_calls(out: &mut Vec<u8>, size: u64) -> Result<(), AllocError>
    requires { size ≤ 10000 }
    ensures { OnOk result (out.new.items ≡ out.old.items ++ calls_text 1 size) }
{
    for number in 1..size + 1 {
        append_with(out, b"p", number, b"(1);\n")?;
    }
    Ok(())
}
