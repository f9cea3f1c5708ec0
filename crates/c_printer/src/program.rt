//! Declarations and programs.

ghost use Rattle.std.specs.Prelude.{◌≡◌, ◌++◌, OnOk, IfOk, codes, decimal};
ghost use Rattle.c_tree.specs.Tree.{body_of};
ghost use Rattle.c_grammar.specs.Text.{IsCTree, CText};
ghost use Rattle.c_printer.specs.Text.{line, type_text, gap_text, result_text, body_text, all_text, more_text, list_text, variable_text, variable_line, length_text, member_line, forward_line, struct_text, typedef_line, declaration_text, head_text, prototype_line, block_text, function_text, main_text, head_lines, program_text};

use crate::statement::{put_line, put_margin, put_statements};
use crate::types::{put_result, put_type, put_type_of_name};
use c_tree::Name;
use c_tree::program::{
    CDeclaration, CFunction, CMain, CMember, CProgram, CPrototype, CStruct, CTypedef, CVariable,
};
use c_tree::statement::CStatement;
use c_tree::types::CType;
use itoa::Buffer;
use std::alloc::{AllocError, Global};

fn put_variable(out: &mut Vec<u8>, v: &CVariable) -> Result<(), AllocError>
    ensures { OnOk result (out.new.items ≡ out.old.items ++ variable_text v.now) }
{
    put_type_of_name(out, &v.of)?;
    out.extend_from_slice(v.name.as_slice())
}

fn put_variable_line(out: &mut Vec<u8>, level: usize, v: &CVariable) -> Result<(), AllocError>
    ensures { OnOk result (out.new.items ≡ out.old.items ++ variable_line level v.now) }
{
    put_margin(out, level)?;
    put_variable(out, v)?;
    out.extend_from_slice(b";")?;
    out.extend_from_slice(b"\n")
}

fn put_variables(out: &mut Vec<u8>, level: usize, list: &[CVariable]) -> Result<(), AllocError>
    ensures { OnOk result (out.new.items ≡ out.old.items ++ all_text (variable_line level) list.now) }
{
    let mut rest = list;
    while let [v, after @ ..] = rest {
        put_variable_line(out, level, v)?;
        rest = after;
    }
    Ok(())
}

fn put_length(out: &mut Vec<u8>, length: Option<u64>) -> Result<(), AllocError>
    ensures { OnOk result (out.new.items ≡ out.old.items ++ length_text length) }
{
    match length {
        None => Ok(()),
        Some(n) => {
            let mut buffer = Buffer::new();
            out.extend_from_slice(b"[")?;
            out.extend_from_slice(buffer.format(n).as_bytes())?;
            out.extend_from_slice(b"]")
        }
    }
}

fn put_member(out: &mut Vec<u8>, m: &CMember) -> Result<(), AllocError>
    ensures { OnOk result (out.new.items ≡ out.old.items ++ member_line m.now) }
{
    put_margin(out, 1)?;
    put_type_of_name(out, &m.of)?;
    out.extend_from_slice(m.name.as_slice())?;
    put_length(out, m.length)?;
    out.extend_from_slice(b";")?;
    out.extend_from_slice(b"\n")
}

fn put_members(out: &mut Vec<u8>, list: &[CMember]) -> Result<(), AllocError>
    ensures { OnOk result (out.new.items ≡ out.old.items ++ all_text member_line list.now) }
{
    let mut rest = list;
    while let [m, after @ ..] = rest {
        put_member(out, m)?;
        rest = after;
    }
    Ok(())
}

fn put_struct_line(out: &mut Vec<u8>, name: &[u8], after: &[u8]) -> Result<(), AllocError>
    ensures { OnOk result (out.new.items ≡ out.old.items ++ line 0 (codes "struct " ++ name.now ++ after.now)) }
{
    out.extend_from_slice(b"struct ")?;
    out.extend_from_slice(name)?;
    out.extend_from_slice(after)?;
    out.extend_from_slice(b"\n")
}

fn put_forwards(out: &mut Vec<u8>, list: &[Name]) -> Result<(), AllocError>
    ensures { OnOk result (out.new.items ≡ out.old.items ++ all_text forward_line list.now) }
{
    let mut rest = list;
    while let [name, after @ ..] = rest {
        put_struct_line(out, name.as_slice(), b";")?;
        rest = after;
    }
    Ok(())
}

fn put_struct(out: &mut Vec<u8>, s: &CStruct) -> Result<(), AllocError>
    ensures { OnOk result (out.new.items ≡ out.old.items ++ struct_text s.now) }
{
    put_struct_line(out, s.name.as_slice(), b" {")?;
    put_members(out, s.members.as_slice())?;
    put_line(out, 0, b"};")
}

fn put_more_types(out: &mut Vec<u8>, list: &[CType]) -> Result<(), AllocError>
    ensures { OnOk result (out.new.items ≡ out.old.items ++ more_text type_text list.now) }
{
    let mut rest = list;
    while let [of, after @ ..] = rest {
        out.extend_from_slice(b", ")?;
        put_type(out, of)?;
        rest = after;
    }
    Ok(())
}

fn put_types(out: &mut Vec<u8>, list: &[CType]) -> Result<(), AllocError>
    ensures { OnOk result (out.new.items ≡ out.old.items ++ list_text type_text list.now) }
{
    match list {
        [] => out.extend_from_slice(b"void"),
        [first, rest @ ..] => {
            put_type(out, first)?;
            put_more_types(out, rest)
        }
    }
}

fn put_typedef(out: &mut Vec<u8>, t: &CTypedef) -> Result<(), AllocError>
    ensures { OnOk result (out.new.items ≡ out.old.items ++ typedef_line t.now) }
{
    out.extend_from_slice(b"typedef ")?;
    put_result(out, &t.result)?;
    out.extend_from_slice(b"(*")?;
    out.extend_from_slice(t.name.as_slice())?;
    out.extend_from_slice(b")(")?;
    put_types(out, t.parameters.as_slice())?;
    put_line(out, 0, b");")
}

fn put_declarations(out: &mut Vec<u8>, list: &[CDeclaration]) -> Result<(), AllocError>
    ensures { OnOk result (out.new.items ≡ out.old.items ++ all_text declaration_text list.now) }
{
    let mut rest = list;
    while let [d, after @ ..] = rest {
        match d {
            CDeclaration::Typedef(t) => put_typedef(out, t)?,
            CDeclaration::Struct(s) => put_struct(out, s)?,
        }
        rest = after;
    }
    Ok(())
}

fn put_more_parameters(out: &mut Vec<u8>, list: &[CVariable]) -> Result<(), AllocError>
    ensures { OnOk result (out.new.items ≡ out.old.items ++ more_text variable_text list.now) }
{
    let mut rest = list;
    while let [v, after @ ..] = rest {
        out.extend_from_slice(b", ")?;
        put_variable(out, v)?;
        rest = after;
    }
    Ok(())
}

fn put_parameters(out: &mut Vec<u8>, list: &[CVariable]) -> Result<(), AllocError>
    ensures { OnOk result (out.new.items ≡ out.old.items ++ list_text variable_text list.now) }
{
    match list {
        [] => out.extend_from_slice(b"void"),
        [first, rest @ ..] => {
            put_variable(out, first)?;
            put_more_parameters(out, rest)
        }
    }
}

/// A line that begins with a function's head.
fn put_head_line(
    out: &mut Vec<u8>,
    returned: &Option<CType>,
    name: &[u8],
    parameters: &[CVariable],
    after: &[u8],
) -> Result<(), AllocError>
    ensures { OnOk result (out.new.items ≡ out.old.items ++ line 0 (head_text returned.now name.now parameters.now ++ after.now)) }
{
    put_result(out, returned)?;
    out.extend_from_slice(name)?;
    out.extend_from_slice(b"(")?;
    put_parameters(out, parameters)?;
    out.extend_from_slice(b")")?;
    put_line(out, 0, after)
}

fn put_prototypes(out: &mut Vec<u8>, list: &[CPrototype]) -> Result<(), AllocError>
    ensures { OnOk result (out.new.items ≡ out.old.items ++ all_text prototype_line list.now) }
{
    let mut rest = list;
    while let [p, after @ ..] = rest {
        put_head_line(
            out,
            &p.result,
            p.name.as_slice(),
            p.parameters.as_slice(),
            b";",
        )?;
        rest = after;
    }
    Ok(())
}

/// The locals and statements of a function, and its closing brace.
fn put_block(out: &mut Vec<u8>, locals: &[CVariable], body: &[CStatement]) -> Result<(), AllocError>
    ensures { OnOk result (out.new.items ≡ out.old.items ++ block_text locals.now body.now) }
{
    put_variables(out, 1, locals)?;
    put_statements(out, 1, body)?;
    put_line(out, 0, b"}")
}

fn put_function(out: &mut Vec<u8>, f: &CFunction) -> Result<(), AllocError>
    ensures { OnOk result (out.new.items ≡ out.old.items ++ function_text f.now) }
{
    put_head_line(
        out,
        &f.result,
        f.name.as_slice(),
        f.parameters.as_slice(),
        b" {",
    )?;
    put_block(out, f.locals.as_slice(), f.body.as_slice())
}

fn put_functions(out: &mut Vec<u8>, list: &[CFunction]) -> Result<(), AllocError>
    ensures { OnOk result (out.new.items ≡ out.old.items ++ all_text function_text list.now) }
{
    let mut rest = list;
    while let [f, after @ ..] = rest {
        put_function(out, f)?;
        rest = after;
    }
    Ok(())
}

/// An opening line without parameters, and the block that it opens.
fn put_opened_block(
    out: &mut Vec<u8>,
    opening: &[u8],
    locals: &[CVariable],
    body: &[CStatement],
) -> Result<(), AllocError>
    ensures { OnOk result (out.new.items ≡ out.old.items ++ (line 0 opening.now ++ block_text locals.now body.now)) }
{
    put_line(out, 0, opening)?;
    put_block(out, locals, body)
}

fn put_main(out: &mut Vec<u8>, m: &CMain) -> Result<(), AllocError>
    ensures { OnOk result (out.new.items ≡ out.old.items ++ main_text m.now) }
{
    put_opened_block(
        out,
        b"int main(void) {",
        m.locals.as_slice(),
        m.body.as_slice(),
    )
}

fn put_head_lines(out: &mut Vec<u8>) -> Result<(), AllocError>
    ensures { OnOk result (out.new.items ≡ out.old.items ++ head_lines) }
{
    put_line(out, 0, b"/* p2c 1 */")?;
    put_line(out, 0, b"#include <stdint.h>")?;
    put_line(out, 0, b"#include <stdio.h>")?;
    put_line(out, 0, b"#include <stdlib.h>")
}

/// The text of a program, ended by byte 10. A tree of the subset is the only tree of its text.
pub fn print(alloc: Global, program: &CProgram) -> Result<Vec<u8>, AllocError>
    ensures layout { IfOk result (λ text. text.items ≡ program_text program.now) }
    ensures read_back { IfOk result (λ text. IsCTree program.now → CText text.items program.now) }
{
    let mut out = Vec::new(alloc);
    put_head_lines(&mut out)?;
    put_forwards(&mut out, program.forwards.as_slice())?;
    put_declarations(&mut out, program.declarations.as_slice())?;
    put_variables(&mut out, 0, program.globals.as_slice())?;
    put_prototypes(&mut out, program.prototypes.as_slice())?;
    put_functions(&mut out, program.functions.as_slice())?;
    put_main(&mut out, &program.main)?;
    Ok(out)
}
