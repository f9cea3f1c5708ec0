//! Expressions and places.

ghost use Rattle.std.specs.Prelude.{◌≡◌, ◌++◌, OnOk, codes, decimal};
ghost use Rattle.c_printer.specs.Text.{unary_text, binary_text, cast_text, expr_text, place_text};
ghost use Rattle.c_printer.specs.Selectors.{selector_text, selectors_text};
ghost use Rattle.c_tree.specs.expressions.View.{base_place};

use c_tree::expr::{CBasePlace, CExpr, CExprNode, CPlace, CSelector};
use c_tree::operators::{CBinary, CCast, CUnary};
use itoa::Buffer;
use std::alloc::AllocError;

fn unary_sign(op: CUnary) -> &'static [u8]
    ensures { result.now ≡ unary_text op }
{
    match op {
        CUnary::Minus => b"-",
        CUnary::Not => b"!",
        CUnary::Complement => b"~",
    }
}

fn binary_sign(op: CBinary) -> &'static [u8]
    ensures { result.now ≡ binary_text op }
{
    match op {
        CBinary::Add => b" + ",
        CBinary::Subtract => b" - ",
        CBinary::Multiply => b" * ",
        CBinary::Divide => b" / ",
        CBinary::Remainder => b" % ",
        CBinary::Equal => b" == ",
        CBinary::NotEqual => b" != ",
        CBinary::Less => b" < ",
        CBinary::AtMost => b" <= ",
        CBinary::Greater => b" > ",
        CBinary::AtLeast => b" >= ",
        CBinary::And => b" && ",
        CBinary::Or => b" || ",
        CBinary::BitAnd => b" & ",
        CBinary::BitOr => b" | ",
        CBinary::BitXor => b" ^ ",
        CBinary::ShiftLeft => b" << ",
        CBinary::ShiftRight => b" >> ",
    }
}

fn number(out: &mut Vec<u8>, macro_name: &[u8], n: u64) -> Result<(), AllocError>
    ensures { OnOk result (out.new.items ≡ out.old.items ++ (macro_name.now ++ codes "(" ++ decimal n ++ codes ")")) }
{
    let mut buffer = Buffer::new();
    out.extend_from_slice(macro_name)?;
    out.extend_from_slice(b"(")?;
    out.extend_from_slice(buffer.format(n).as_bytes())?;
    out.extend_from_slice(b")")
}

fn put_cast(out: &mut Vec<u8>, to: &CCast) -> Result<(), AllocError>
    ensures { OnOk result (out.new.items ≡ out.old.items ++ cast_text to.now) }
{
    match to {
        CCast::Int => out.extend_from_slice(b"int64_t"),
        CCast::Word => out.extend_from_slice(b"uint64_t"),
        CCast::VoidPointer => out.extend_from_slice(b"void *"),
        CCast::StructPointer(name) => {
            out.extend_from_slice(b"struct ")?;
            out.extend_from_slice(name.as_slice())?;
            out.extend_from_slice(b" *")
        }
    }
}

#[cycle(expr)]
pub(crate) fn put_expr(out: &mut Vec<u8>, e: &CExpr) -> Result<(), AllocError>
    ensures { OnOk result (out.new.items ≡ out.old.items ++ expr_text e.now) }
{
    match &e.node {
        CExprNode::Read(p) => put_place(out, p.get()),
        CExprNode::Number(n) => number(out, b"INT64_C", *n),
        CExprNode::WordNumber(n) => number(out, b"UINT64_C", *n),
        CExprNode::Null => out.extend_from_slice(b"NULL"),
        CExprNode::Address(p) => put_address(out, p.get()),
        CExprNode::Unary(op, a) => put_unary(out, *op, a.get()),
        CExprNode::Binary(op, a, b) => {
            out.extend_from_slice(b"(")?;
            put_expr(out, a.get())?;
            out.extend_from_slice(binary_sign(*op))?;
            put_expr(out, b.get())?;
            out.extend_from_slice(b")")
        }
        CExprNode::Cast(to, a) => put_converted(out, to, a.get()),
    }
}

#[cycle(expr)]
fn put_address(out: &mut Vec<u8>, p: &CPlace) -> Result<(), AllocError>
    ensures { OnOk result (out.new.items ≡ out.old.items ++ (codes "(&" ++ place_text p.now ++ codes ")")) }
{
    out.extend_from_slice(b"(&")?;
    put_place(out, p)?;
    out.extend_from_slice(b")")
}

#[cycle(expr)]
fn put_unary(out: &mut Vec<u8>, op: CUnary, a: &CExpr) -> Result<(), AllocError>
    ensures { OnOk result (out.new.items ≡ out.old.items ++ (codes "(" ++ unary_text op ++ expr_text a.now ++ codes ")")) }
{
    out.extend_from_slice(b"(")?;
    out.extend_from_slice(unary_sign(op))?;
    put_expr(out, a)?;
    out.extend_from_slice(b")")
}

#[cycle(expr)]
fn put_converted(out: &mut Vec<u8>, to: &CCast, a: &CExpr) -> Result<(), AllocError>
    ensures { OnOk result (out.new.items ≡ out.old.items ++ (codes "((" ++ cast_text to.now ++ codes ") " ++ expr_text a.now ++ codes ")")) }
{
    out.extend_from_slice(b"((")?;
    put_cast(out, to)?;
    out.extend_from_slice(b") ")?;
    put_expr(out, a)?;
    out.extend_from_slice(b")")
}

#[cycle(expr)]
pub(crate) fn put_place(out: &mut Vec<u8>, p: &CPlace) -> Result<(), AllocError>
    ensures { OnOk result (out.new.items ≡ out.old.items ++ place_text p.now) }
{
    put_base_place(out, &p.base)?;
    put_selectors(out, p.selectors.as_slice())
}

#[cycle(expr)]
fn put_base_place(out: &mut Vec<u8>, base: &CBasePlace) -> Result<(), AllocError>
    ensures { OnOk result (out.new.items ≡ out.old.items ++ place_text (base_place base.now)) }
{
    match base {
        CBasePlace::Variable(name) => out.extend_from_slice(name.as_slice()),
        CBasePlace::Pointee(a) => put_pointee(out, a.get()),
    }
}

#[cycle(expr)]
fn put_selectors(out: &mut Vec<u8>, list: &[CSelector]) -> Result<(), AllocError>
    ensures { OnOk result (out.new.items ≡ out.old.items ++ selectors_text list.now) }
{
    let mut rest = list;
    while let [first, after @ ..] = rest {
        put_selector(out, first)?;
        rest = after;
    }
    Ok(())
}

#[cycle(expr)]
fn put_selector(out: &mut Vec<u8>, selector: &CSelector) -> Result<(), AllocError>
    ensures { OnOk result (out.new.items ≡ out.old.items ++ selector_text selector.now) }
{
    match selector {
        CSelector::Member(name) => {
            out.extend_from_slice(b".")?;
            out.extend_from_slice(name.as_slice())
        }
        CSelector::Index(a) => {
            out.extend_from_slice(b"[")?;
            put_expr(out, a)?;
            out.extend_from_slice(b"]")
        }
    }
}

#[cycle(expr)]
fn put_pointee(out: &mut Vec<u8>, a: &CExpr) -> Result<(), AllocError>
    ensures { OnOk result (out.new.items ≡ out.old.items ++ (codes "(*" ++ expr_text a.now ++ codes ")")) }
{
    out.extend_from_slice(b"(*")?;
    put_expr(out, a)?;
    out.extend_from_slice(b")")
}
