//! Types.

ghost use Rattle.std.specs.Prelude.{◌≡◌, ◌++◌, OnOk};
ghost use Rattle.c_printer.specs.Text.{star_text, type_text, gap_text, result_text};
ghost use Rattle.c_tree.specs.types.View.{base_of, pointers};

use c_tree::types::{CBaseType, CType};
use std::alloc::AllocError;

/// The star after a base with so many stars.
fn star(base: &CBaseType, stars: usize) -> &'static [u8]
    ensures { result.now ≡ star_text (pointers stars (base_of base.now)) }
{
    match (base, stars) {
        (CBaseType::VoidPointer, 0) => b"*",
        (_, 0) => b" *",
        _ => b"*",
    }
}

fn gap(of: &CType) -> &'static [u8]
    ensures { result.now ≡ gap_text of.now }
{
    match (&of.base, of.stars) {
        (CBaseType::VoidPointer, 0) => b"",
        (_, 0) => b" ",
        _ => b"",
    }
}

fn put_base(out: &mut Vec<u8>, base: &CBaseType) -> Result<(), AllocError>
    ensures { OnOk result (out.new.items ≡ out.old.items ++ type_text (base_of base.now)) }
{
    match base {
        CBaseType::Int => out.extend_from_slice(b"int64_t"),
        CBaseType::Word => out.extend_from_slice(b"uint64_t"),
        CBaseType::Byte => out.extend_from_slice(b"unsigned char"),
        CBaseType::Struct(name) => {
            out.extend_from_slice(b"struct ")?;
            out.extend_from_slice(name.as_slice())
        }
        CBaseType::Named(name) => out.extend_from_slice(name.as_slice()),
        CBaseType::VoidPointer => out.extend_from_slice(b"void *"),
    }
}

pub(crate) fn put_type(out: &mut Vec<u8>, of: &CType) -> Result<(), AllocError>
    ensures { OnOk result (out.new.items ≡ out.old.items ++ type_text of.now) }
{
    put_base(out, &of.base)?;
    for stars in 0..of.stars {
        out.extend_from_slice(star(&of.base, stars))?;
    }
    Ok(())
}

/// A type with what stands between it and the name that it gives.
pub(crate) fn put_type_of_name(out: &mut Vec<u8>, of: &CType) -> Result<(), AllocError>
    ensures { OnOk result (out.new.items ≡ out.old.items ++ (type_text of.now ++ gap_text of.now)) }
{
    put_type(out, of)?;
    out.extend_from_slice(gap(of))
}

/// A result's type before the function's name.
pub(crate) fn put_result(out: &mut Vec<u8>, of: &Option<CType>) -> Result<(), AllocError>
    ensures { OnOk result (out.new.items ≡ out.old.items ++ result_text of.now) }
{
    match of {
        None => out.extend_from_slice(b"void "),
        Some(of) => put_type_of_name(out, of),
    }
}
