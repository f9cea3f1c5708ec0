//! The C program that writes given bytes.

ghost use Rattle.std.specs.Prelude.{◌≡◌, IfOk, map};
ghost use Rattle.c_grammar.specs.Text.{IsCTree};
ghost use Rattle.std.specs.List.{AllByRecursion};
ghost use Rattle.agreement.specs.Laws.{IsByte};
ghost use Rattle.agreement.specs.Writers.{put_of, writer_of};

use c_tree::expr::CExpr;
use c_tree::program::{CMain, CProgram};
use c_tree::statement::CStatement;
use std::alloc::{AllocError, Global};
use tree_lists::Items;

/// One `putchar` for each byte, and `return INT64_C(0);`.
pub fn writer(alloc: Global, bytes: &[u8]) -> Result<CProgram, AllocError>
    ensures value { IfOk result (λ program. program ≡ writer_of bytes.now) }
    ensures tree { IfOk result IsCTree }
    ensures bytes { AllByRecursion IsByte bytes.now }
{
    let mut body = puts(alloc, bytes)?;
    body.push(CStatement::return_of(Some(CExpr::number(0))))?;
    Ok(CProgram {
        forwards: Items::new(alloc),
        declarations: Items::new(alloc),
        globals: Items::new(alloc),
        prototypes: Items::new(alloc),
        functions: Items::new(alloc),
        main: CMain {
            locals: Items::new(alloc),
            body,
        },
    })
}

fn puts(alloc: Global, bytes: &[u8]) -> Result<Items<CStatement>, AllocError>
    ensures { IfOk result (λ body. body ≡ map put_of bytes.now) }
{
    let mut body = Vec::with_capacity(alloc, bytes.len())?;
    for byte in bytes {
        body.push(CStatement::put_char(CExpr::number(u64::from(*byte))))?;
    }
    Ok(Items::from_vec(body))
}
