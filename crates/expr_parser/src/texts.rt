//! The bytes that a text stands for.
ghost use Rattle.std.specs.Prelude.{◌≡◌, ◌≤◌, ◌+◌, ◌*◌, ◌++◌, map, IfOk, OnOk};
ghost use Rattle.dialect_lexer.specs.Bytes as bytes_spec;
ghost use Rattle.dialect_lexer.specs.declared.bytes.Base.TheVariants as base;
ghost use Rattle.dialect_lexer.specs.Values as values;
ghost use Rattle.expr_parser.specs.Texts as spec;
ghost use Rattle.expr_parser.specs.Texts.{cap, capped};
ghost use Rattle.expr_parser.specs.Tokens.{stood_for};

use pascal_tree::TextBytes;
use std::alloc::{AllocError, Global};
use tree_lists::Items;

/// How far a text has been read.
#[derive(Clone, Copy)]
enum Reading {
    Before,
    Inside,
    /// After a quote, which closes or is the first of two.
    Quoted,
    /// In a decimal number after `#`, of this value.
    Decimal(u8),
    /// In a hexadecimal number after `#$`.
    Hexadecimal(u8),
}

/// The byte that opens and closes a quoted text.
const QUOTE: u8 = 39;

/// The byte before a character by its number.
const HASH: u8 = 35;

/// The byte before hexadecimal digits.
const DOLLAR: u8 = 36;

fn digit_value(byte: u8) -> u32
    ensures { result ≡ bytes_spec.digit_value byte }
{
    if byte <= 57 {
        return u32::from(byte.saturating_sub(48));
    }
    if byte <= 70 {
        return u32::from(byte - 55);
    }
    u32::from(byte.saturating_sub(87))
}

/// A value with one more digit, at most 255.
fn grown(base: u32, value: u8, byte: u8) -> u8
    requires { base ≤ 16 }
    ensures { result ≡ cap (value * base + bytes_spec.digit_value byte) }
{
    (u32::from(value) * base + digit_value(byte)).min(255) as u8
}

/// Where a part may begin.
fn after_part(byte: u8, other: Reading) -> Reading
    ensures { spec.reading_of result ≡ values.after_part byte (spec.reading_of other) }
{
    if byte == QUOTE {
        return Reading::Inside;
    }
    if byte == HASH {
        return Reading::Decimal(0);
    }
    other
}

fn after_decimal(value: u8, byte: u8) -> Reading
    ensures { spec.reading_of result ≡ capped (values.next_reading (values.Coded base.Decimal value) byte) }
{
    if byte == DOLLAR {
        return Reading::Hexadecimal(0);
    }
    after_part(byte, Reading::Decimal(grown(10, value, byte)))
}

fn after_hexadecimal(value: u8, byte: u8) -> Reading
    ensures { spec.reading_of result ≡ capped (values.next_reading (values.Coded base.Hexadecimal value) byte) }
{
    if byte == DOLLAR {
        return Reading::Hexadecimal(0);
    }
    after_part(byte, Reading::Hexadecimal(grown(16, value, byte)))
}

fn next(reading: Reading, byte: u8) -> Reading
    ensures { spec.reading_of result ≡ capped (values.next_reading (spec.reading_of reading) byte) }
{
    match reading {
        Reading::Before => after_part(byte, Reading::Before),
        Reading::Inside => {
            if byte == QUOTE {
                Reading::Quoted
            } else {
                Reading::Inside
            }
        }
        Reading::Quoted => after_part(byte, Reading::Quoted),
        Reading::Decimal(value) => after_decimal(value, byte),
        Reading::Hexadecimal(value) => after_hexadecimal(value, byte),
    }
}

/// Appends the value of a number, if it ends before this byte.
fn complete_number(out: &mut Vec<u8>, value: u8, byte: u8) -> Result<(), AllocError>
    ensures { OnOk result (out.new.items ≡ out.old.items ++ map cap (values.completed (values.Coded base.Decimal value) byte)) }
{
    if byte == QUOTE || byte == HASH {
        out.push(value)?;
    }
    Ok(())
}

/// Appends the byte that is complete once this one is read, if there is one.
fn complete(out: &mut Vec<u8>, reading: Reading, byte: u8) -> Result<(), AllocError>
    ensures { OnOk result (out.new.items ≡ out.old.items ++ map cap (values.completed (spec.reading_of reading) byte)) }
{
    match reading {
        Reading::Before => Ok(()),
        Reading::Inside => {
            if byte != QUOTE {
                out.push(byte)?;
            }
            Ok(())
        }
        Reading::Quoted => {
            if byte == QUOTE {
                out.push(QUOTE)?;
            }
            Ok(())
        }
        Reading::Decimal(value) | Reading::Hexadecimal(value) => complete_number(out, value, byte),
    }
}

/// Appends the byte that is complete at the end, if there is one.
fn complete_at_end(out: &mut Vec<u8>, reading: Reading) -> Result<(), AllocError>
    ensures { OnOk result (out.new.items ≡ out.old.items ++ map cap (values.completed_at_end (spec.reading_of reading))) }
{
    match reading {
        Reading::Before | Reading::Inside | Reading::Quoted => {}
        Reading::Decimal(value) | Reading::Hexadecimal(value) => out.push(value)?,
    }
    Ok(())
}

/// Appends the bytes for which a text stands.
#[tactic(auto, using(crate::proofs::Capped::one_more), unfolding(dialect_lexer::specs::Values::bytes_from))]
fn append(out: &mut Vec<u8>, text: &[u8]) -> Result<(), AllocError>
    ensures { OnOk result (out.new.items ≡ out.old.items ++ stood_for text.now) }
{
    let mut reading = Reading::Before;
    let mut rest = text;
    while let [byte, after @ ..] = rest {
        complete(out, reading, *byte)?;
        reading = next(reading, *byte);
        rest = after;
    }
    complete_at_end(out, reading)
}

/// The bytes for which a text stands.
pub fn text_bytes(alloc: Global, text: &[u8]) -> Result<TextBytes, AllocError>
    ensures { IfOk result (λ bytes. bytes ≡ stood_for text.now) }
{
    let mut out = Vec::new(alloc);
    append(&mut out, text)?;
    Ok(Items::from_vec(out))
}
