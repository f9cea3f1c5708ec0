//! Calls.
ghost use Rattle.std.specs.Prelude.{◌≡◌, true, IfOk, IfSome};
ghost use Rattle.c_tree.specs.Tree as t;
ghost use Rattle.c_evaluation.specs.Numbers.{variables_of};
ghost use Rattle.c_stepper.specs.Codes.{IsResolved, IsFunction, IsCallee, IsTarget, ResolveAll, AreInts, TakesInts};

use crate::resolved::code::{Resolved, ResolvedCall};
use c_cells::slot::is_int;
use c_evaluation::function_names::Names;
use c_evaluation::numbers::{
    Number, Variable, function_named, names_variable, resolved, variable_placed,
};
use c_tree::Name;
use c_tree::expr::{CExpr, CPlace};
use c_tree::program::CVariable;
use c_tree::statement::CCallee;
use std::alloc::{AllocError, Global};

/// The function of a name that names no variable.
fn function_resolved(names: &Names, name: &Name) -> Option<usize>
    ensures { IfSome result (λ n. IsFunction names.now.program.now (variables_of names.now) n name.now) }
{
    if names_variable(names, name) {
        None
    } else {
        function_named(names, name)
    }
}

/// The function that is called, where it is called by its name.
fn callee_resolved(names: &Names, who: &CCallee) -> Option<usize>
    ensures { IfSome result (λ n. IsCallee names.now.program.now (variables_of names.now) n who.now) }
{
    match who {
        CCallee::Direct(name) => function_resolved(names, name),
        CCallee::Indirect(_) => None,
    }
}

/// The variable for the answer, or that there is none.
fn target_resolved(names: &Names, into: &Option<CPlace>) -> Option<Option<Variable>>
    ensures { IfSome result (λ o. IsTarget names.now.program.now (variables_of names.now) o into.now) }
{
    match into {
        None => Some(None),
        Some(place) => match variable_placed(names, place) {
            Some(variable) => Some(Some(variable)),
            None => None,
        },
    }
}

/// The numbers of arguments.
fn arguments_resolved(
    alloc: Global,
    names: &Names,
    arguments: &[CExpr],
) -> Result<Option<Vec<Number>>, AllocError>
    ensures { IfOk result (λ o. IfSome o (λ numbers. ResolveAll names.now.program.now (variables_of names.now) numbers.items arguments.now)) }
{
    let mut numbers = Vec::new(alloc);
    let mut rest = arguments;
    while let Some((first, after)) = rest.split_first() {
        let Some(number) = resolved(alloc, names, first)? else {
            return Ok(None);
        };
        numbers.push(number)?;
        rest = after;
    }
    Ok(Some(numbers))
}

/// Whether all variables are of `int64_t`.
fn are_ints(variables: &[CVariable]) -> bool
    ensures { result ≡ true → AreInts variables.now }
{
    let mut rest = variables;
    while let Some((first, after)) = rest.split_first() {
        if !is_int(&first.of) {
            return false;
        }
        rest = after;
    }
    true
}

/// Whether a function has so many parameters, of `int64_t` each.
fn takes_ints(names: &Names, function: usize, count: usize) -> bool
    ensures { result ≡ true → TakesInts names.now.program.now function count }
{
    match names.program.functions.get(function) {
        Some(found) => {
            let parameters = found.parameters.as_slice();
            parameters.len() == count && are_ints(parameters)
        }
        None => false,
    }
}

/// A call.
pub fn call_resolved(
    alloc: Global,
    names: &Names,
    into: &Option<CPlace>,
    who: &CCallee,
    arguments: &[CExpr],
) -> Result<Resolved, AllocError>
    ensures { IfOk result (λ r. IsResolved names.now.program.now (variables_of names.now) r (t.Call into.now who.now arguments.now)) }
{
    let Some(function) = callee_resolved(names, who) else {
        return Ok(Resolved::Other);
    };
    let Some(target) = target_resolved(names, into) else {
        return Ok(Resolved::Other);
    };
    let Some(numbers) = arguments_resolved(alloc, names, arguments)? else {
        return Ok(Resolved::Other);
    };
    if takes_ints(names, function, numbers.len()) {
        Ok(Resolved::Call(ResolvedCall {
            function,
            target,
            arguments: numbers,
        }))
    } else {
        Ok(Resolved::Other)
    }
}
