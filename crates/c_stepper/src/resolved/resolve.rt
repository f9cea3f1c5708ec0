//! One statement.
ghost use Rattle.std.specs.Prelude.{IfOk};
ghost use Rattle.c_tree.specs.Tree as t;
ghost use Rattle.c_evaluation.specs.Numbers.{variables_of};
ghost use Rattle.c_stepper.specs.Codes.{IsResolved, IsTest, IsChoice};

use crate::resolved::call::call_resolved;
use crate::resolved::code::Resolved;
use c_evaluation::function_names::Names;
use c_evaluation::numbers::{resolved, variable_placed};
use c_tree::expr::{CExpr, CPlace};
use c_tree::statement::{CStatement, CStatementNode};
use std::alloc::{AllocError, Global};

/// `place = e;`
#[tactic(auto, using(crate::proofs::Resolving::is_store))]
fn store_resolved(
    alloc: Global,
    names: &Names,
    place: &CPlace,
    e: &CExpr,
) -> Result<Resolved, AllocError>
    ensures { IfOk result (λ r. IsResolved names.now.program.now (variables_of names.now) r (t.Assign place.now e.now)) }
{
    let Some(variable) = variable_placed(names, place) else {
        return Ok(Resolved::Other);
    };
    match resolved(alloc, names, e)? {
        Some(number) => Ok(Resolved::Store(variable, number)),
        None => Ok(Resolved::Other),
    }
}

/// The test of a `while`, or of an `if` without `else`.
fn test_resolved(alloc: Global, names: &Names, e: &CExpr) -> Result<Resolved, AllocError>
    ensures { IfOk result (λ r. IsTest names.now.program.now (variables_of names.now) r e.now) }
{
    match resolved(alloc, names, e)? {
        Some(number) => Ok(Resolved::Test(number)),
        None => Ok(Resolved::Other),
    }
}

/// The test of an `if` with `else`.
fn choice_resolved(alloc: Global, names: &Names, e: &CExpr) -> Result<Resolved, AllocError>
    ensures { IfOk result (λ r. IsChoice names.now.program.now (variables_of names.now) r e.now) }
{
    match resolved(alloc, names, e)? {
        Some(number) => Ok(Resolved::Choose(number)),
        None => Ok(Resolved::Other),
    }
}

/// `return e;`
#[tactic(auto, using(crate::proofs::Resolving::is_give))]
fn give_resolved(alloc: Global, names: &Names, e: &Option<CExpr>) -> Result<Resolved, AllocError>
    ensures { IfOk result (λ r. IsResolved names.now.program.now (variables_of names.now) r (t.Return e.now)) }
{
    match e {
        None => Ok(Resolved::Other),
        Some(e) => match resolved(alloc, names, e)? {
            Some(number) => Ok(Resolved::Give(number)),
            None => Ok(Resolved::Other),
        },
    }
}

/// The resolved form of a statement.
#[tactic(auto, using(crate::proofs::Resolving::is_if, crate::proofs::Resolving::is_if_else, crate::proofs::Resolving::is_while))]
pub fn statement_resolved(
    alloc: Global,
    names: &Names,
    statement: &CStatement,
) -> Result<Resolved, AllocError>
    ensures { IfOk result (λ r. IsResolved names.now.program.now (variables_of names.now) r statement.now) }
{
    match &statement.node {
        CStatementNode::Assign(place, e) => store_resolved(alloc, names, place, e),
        CStatementNode::Call(into, who, arguments) => {
            call_resolved(alloc, names, into, who, arguments.as_slice())
        }
        CStatementNode::If(e, _) => test_resolved(alloc, names, e),
        CStatementNode::IfElse(e, _, _) => choice_resolved(alloc, names, e),
        CStatementNode::While(e, _) => test_resolved(alloc, names, e),
        CStatementNode::Return(e) => give_resolved(alloc, names, e),
        _ => Ok(Resolved::Other),
    }
}
