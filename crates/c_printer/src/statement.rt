//! Statements.

ghost use Rattle.std.specs.Prelude.{◌≡◌, ◌+◌, ◌++◌, OnOk, codes};
ghost use Rattle.c_tree.specs.Tree.{body_of};
ghost use Rattle.c_printer.specs.Text.{margin, line, expr_text, place_text, exprs_text, more_exprs_text, into_text, callee_text, type_text, return_text, statement_text, body_text};

use crate::expr::{put_expr, put_place};
use crate::types::put_type;
use c_tree::expr::{CExpr, CPlace};
use c_tree::statement::{CCallee, CStatement, CStatementNode};
use c_tree::types::CType;
use std::alloc::AllocError;

pub(crate) fn put_margin(out: &mut Vec<u8>, level: usize) -> Result<(), AllocError>
    ensures { OnOk result (out.new.items ≡ out.old.items ++ margin level) }
{
    for step in 0..level {
        out.extend_from_slice(b"  ")?;
    }
    Ok(())
}

pub(crate) fn put_line(out: &mut Vec<u8>, level: usize, text: &[u8]) -> Result<(), AllocError>
    ensures { OnOk result (out.new.items ≡ out.old.items ++ line level text.now) }
{
    put_margin(out, level)?;
    out.extend_from_slice(text)?;
    out.extend_from_slice(b"\n")
}

fn put_named_line(
    out: &mut Vec<u8>,
    level: usize,
    before: &[u8],
    name: &[u8],
    after: &[u8],
) -> Result<(), AllocError>
    ensures { OnOk result (out.new.items ≡ out.old.items ++ line level (before.now ++ name.now ++ after.now)) }
{
    put_margin(out, level)?;
    out.extend_from_slice(before)?;
    out.extend_from_slice(name)?;
    out.extend_from_slice(after)?;
    out.extend_from_slice(b"\n")
}

/// A line with one expression in it.
fn put_expr_line(
    out: &mut Vec<u8>,
    level: usize,
    before: &[u8],
    a: &CExpr,
    after: &[u8],
) -> Result<(), AllocError>
    ensures { OnOk result (out.new.items ≡ out.old.items ++ line level (before.now ++ expr_text a.now ++ after.now)) }
{
    put_margin(out, level)?;
    out.extend_from_slice(before)?;
    put_expr(out, a)?;
    out.extend_from_slice(after)?;
    out.extend_from_slice(b"\n")
}

fn put_assignment(
    out: &mut Vec<u8>,
    level: usize,
    target: &CPlace,
    a: &CExpr,
) -> Result<(), AllocError>
    ensures { OnOk result (out.new.items ≡ out.old.items ++ line level (place_text target.now ++ codes " = " ++ expr_text a.now ++ codes ";")) }
{
    put_margin(out, level)?;
    put_place(out, target)?;
    out.extend_from_slice(b" = ")?;
    put_expr(out, a)?;
    out.extend_from_slice(b";")?;
    out.extend_from_slice(b"\n")
}

/// A line with a place and a type in it.
fn put_place_type_line(
    out: &mut Vec<u8>,
    level: usize,
    place: &CPlace,
    between: &[u8],
    of: &CType,
    after: &[u8],
) -> Result<(), AllocError>
    ensures { OnOk result (out.new.items ≡ out.old.items ++ line level (place_text place.now ++ between.now ++ type_text of.now ++ after.now)) }
{
    put_margin(out, level)?;
    put_place(out, place)?;
    out.extend_from_slice(between)?;
    put_type(out, of)?;
    out.extend_from_slice(after)?;
    out.extend_from_slice(b"\n")
}

/// A line that begins with a place.
fn put_place_line(
    out: &mut Vec<u8>,
    level: usize,
    place: &CPlace,
    after: &[u8],
) -> Result<(), AllocError>
    ensures { OnOk result (out.new.items ≡ out.old.items ++ line level (place_text place.now ++ after.now)) }
{
    put_margin(out, level)?;
    put_place(out, place)?;
    out.extend_from_slice(after)?;
    out.extend_from_slice(b"\n")
}

fn put_into(out: &mut Vec<u8>, into: &Option<CPlace>) -> Result<(), AllocError>
    ensures { OnOk result (out.new.items ≡ out.old.items ++ into_text into.now) }
{
    match into {
        None => Ok(()),
        Some(target) => {
            put_place(out, target)?;
            out.extend_from_slice(b" = ")
        }
    }
}

fn put_callee(out: &mut Vec<u8>, callee: &CCallee) -> Result<(), AllocError>
    ensures { OnOk result (out.new.items ≡ out.old.items ++ callee_text callee.now) }
{
    match callee {
        CCallee::Direct(name) => out.extend_from_slice(name.as_slice()),
        CCallee::Indirect(a) => {
            out.extend_from_slice(b"(*")?;
            put_expr(out, a)?;
            out.extend_from_slice(b")")
        }
    }
}

fn put_more_arguments(out: &mut Vec<u8>, arguments: &[CExpr]) -> Result<(), AllocError>
    ensures { OnOk result (out.new.items ≡ out.old.items ++ more_exprs_text arguments.now) }
{
    let mut rest = arguments;
    while let [a, after @ ..] = rest {
        out.extend_from_slice(b", ")?;
        put_expr(out, a)?;
        rest = after;
    }
    Ok(())
}

fn put_arguments(out: &mut Vec<u8>, arguments: &[CExpr]) -> Result<(), AllocError>
    ensures { OnOk result (out.new.items ≡ out.old.items ++ exprs_text arguments.now) }
{
    match arguments {
        [] => Ok(()),
        [first, rest @ ..] => {
            put_expr(out, first)?;
            put_more_arguments(out, rest)
        }
    }
}

fn put_call(
    out: &mut Vec<u8>,
    level: usize,
    into: &Option<CPlace>,
    callee: &CCallee,
    arguments: &[CExpr],
) -> Result<(), AllocError>
    ensures { OnOk result (out.new.items ≡ out.old.items ++ line level (into_text into.now ++ callee_text callee.now ++ codes "(" ++ exprs_text arguments.now ++ codes ");")) }
{
    put_margin(out, level)?;
    put_into(out, into)?;
    put_callee(out, callee)?;
    out.extend_from_slice(b"(")?;
    put_arguments(out, arguments)?;
    out.extend_from_slice(b");")?;
    out.extend_from_slice(b"\n")
}

fn put_return(out: &mut Vec<u8>, level: usize, value: &Option<CExpr>) -> Result<(), AllocError>
    ensures { OnOk result (out.new.items ≡ out.old.items ++ line level (return_text value.now)) }
{
    match value {
        None => put_line(out, level, b"return;"),
        Some(a) => put_expr_line(out, level, b"return ", a, b";"),
    }
}

#[cycle(statement)]
pub(crate) fn put_statement(
    out: &mut Vec<u8>,
    level: usize,
    s: &CStatement,
) -> Result<(), AllocError>
    ensures { OnOk result (out.new.items ≡ out.old.items ++ statement_text level s.now) }
{
    match &s.node {
        CStatementNode::Assign(target, a) => put_assignment(out, level, target, a),
        CStatementNode::Call(into, callee, arguments) => {
            put_call(out, level, into, callee, arguments.as_slice())
        }
        CStatementNode::Malloc(target, of) => {
            put_place_type_line(out, level, target, b" = malloc(sizeof(", of, b"));")
        }
        CStatementNode::Free(a) => put_expr_line(out, level, b"free(", a, b");"),
        CStatementNode::GetChar(target) => put_place_line(out, level, target, b" = getchar();"),
        CStatementNode::PutChar(a) => put_expr_line(out, level, b"putchar(", a, b");"),
        CStatementNode::If(test, yes) => {
            put_expr_line(out, level, b"if (", test, b") {")?;
            put_body(out, level, yes.as_slice())
        }
        CStatementNode::IfElse(test, yes, no) => {
            put_expr_line(out, level, b"if (", test, b") {")?;
            put_body(out, level, yes.as_slice())?;
            put_line(out, level, b"else {")?;
            put_body(out, level, no.as_slice())
        }
        CStatementNode::While(test, body) => {
            put_expr_line(out, level, b"while (", test, b") {")?;
            put_body(out, level, body.as_slice())
        }
        CStatementNode::Goto(label) => put_named_line(out, level, b"goto ", label.as_slice(), b";"),
        CStatementNode::Label(label) => put_named_line(out, level, b"", label.as_slice(), b": ;"),
        CStatementNode::Return(value) => put_return(out, level, value),
    }
}

/// The statements of a body one level deeper, and its closing brace.
#[cycle(statement)]
fn put_body(out: &mut Vec<u8>, level: usize, body: &[CStatement]) -> Result<(), AllocError>
    ensures { OnOk result (out.new.items ≡ out.old.items ++ (body_text (level + 1) (body_of body.now) ++ line level (codes "}"))) }
{
    put_statements(out, level.checked_add(1).ok_or(AllocError)?, body)?;
    put_line(out, level, b"}")
}

#[cycle(statement)]
pub(crate) fn put_statements(
    out: &mut Vec<u8>,
    level: usize,
    list: &[CStatement],
) -> Result<(), AllocError>
    ensures { OnOk result (out.new.items ≡ out.old.items ++ body_text level (body_of list.now)) }
{
    let mut rest = list;
    while let [s, after @ ..] = rest {
        put_statement(out, level, s)?;
        rest = after;
    }
    Ok(())
}
