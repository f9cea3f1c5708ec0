//! The statements of a program that writes literal texts.

ghost use Rattle.std.specs.Prelude.{◌≡◌, ◌++◌, ◌∷◌, [], OnOk, option_map};
ghost use Rattle.std.specs.Str.{bytes_eq};
ghost use Rattle.agreement.specs.Writers.{bytes_of};
ghost use Rattle.writer_trees.specs.Files as spec;
ghost use Rattle.writer_trees.specs.Seen.{seen};

use p2c_text::{Dialect, LINE_END};
use pascal_tree::{Arg, Args, Expr, Factor, Identifier, Plain, Simple, Stmt, Term};
use std::alloc::AllocError;
use tree_lists::Boxed;

/// The most bytes that one literal stands for.
const LONGEST_TEXT: usize = 4_194_304;

/// What a statement writes.
#[derive(Clone, Copy)]
pub enum Found<'a> {
    Nothing,
    LineEnd,
    Text(&'a [u8]),
    Line(&'a [u8]),
}

#[tactic(auto, using(crate::proofs::TreeNodes::factor_texts))]
fn factor_text(factor: &Factor) -> Option<&[u8]>
    ensures { option_map (λ text. text.now) result ≡ spec.factor_text factor.now }
{
    match factor {
        Factor::Text { bytes, .. } => Some(bytes.as_slice()),
        Factor::Number { .. }
        | Factor::Nil(_)
        | Factor::Place(_)
        | Factor::Call { .. }
        | Factor::Group { .. }
        | Factor::Not { .. }
        | Factor::Set { .. } => None,
    }
}

fn term_text(term: &Term) -> Option<&[u8]>
    ensures { option_map (λ text. text.now) result ≡ spec.term_text term.now }
{
    match term.rest.as_slice() {
        [] => factor_text(&term.first),
        [_, ..] => None,
    }
}

fn unsigned_text(sum: &Simple) -> Option<&[u8]>
    ensures { option_map (λ text. text.now) result ≡ spec.unsigned_text sum.now }
{
    match sum.rest.as_slice() {
        [] => term_text(&sum.first),
        [_, ..] => None,
    }
}

fn sum_text(sum: &Simple) -> Option<&[u8]>
    ensures { option_map (λ text. text.now) result ≡ spec.sum_text sum.now }
{
    match sum.sign {
        None => unsigned_text(sum),
        Some(_) => None,
    }
}

/// The text that is the whole expression.
fn expr_text(expr: &Expr) -> Option<&[u8]>
    ensures { option_map (λ text. text.now) result ≡ spec.expr_text expr.now }
{
    match &expr.right {
        None => sum_text(&expr.left),
        Some(_) => None,
    }
}

fn text_without<'a>(value: &'a Expr, format: &Option<Boxed<Expr>>) -> Option<&'a [u8]>
    ensures { option_map (λ text. text.now) result ≡ spec.without format.now (spec.expr_text value.now) }
{
    match format {
        None => expr_text(value),
        Some(_) => None,
    }
}

fn value_text<'a>(
    value: &'a Expr,
    width: &Option<Boxed<Expr>>,
    decimals: &Option<Boxed<Expr>>,
) -> Option<&'a [u8]>
    ensures { option_map (λ text. text.now) result ≡ spec.without width.now (spec.without decimals.now (spec.expr_text value.now)) }
{
    match width {
        None => text_without(value, decimals),
        Some(_) => None,
    }
}

#[tactic(auto, using(crate::proofs::TreeNodes::arg_texts))]
fn arg_text(arg: &Arg) -> Option<&[u8]>
    ensures { option_map (λ text. text.now) result ≡ spec.arg_text arg.now }
{
    match arg {
        Arg::Value {
            value,
            width,
            decimals,
            ..
        } => value_text(value, width, decimals),
        Arg::Program(_) => None,
    }
}

fn one_text(args: &[Arg]) -> Option<&[u8]>
    ensures { option_map (λ text. text.now) result ≡ spec.one_text args.now }
{
    match args {
        [] => None,
        [arg] => arg_text(arg),
        [_, _, ..] => None,
    }
}

fn has_empty_texts(dialect: Dialect) -> bool
    ensures { result ≡ spec.has_empty_texts dialect }
{
    match dialect {
        Dialect::Iso => false,
        Dialect::Turbo | Dialect::Ucsd | Dialect::Hp => true,
    }
}

fn fits(dialect: Dialect, text: &[u8]) -> bool
    ensures { result ≡ spec.fits dialect text.now }
{
    text.len() <= LONGEST_TEXT && (has_empty_texts(dialect) || 0 < text.len())
}

fn fitting<'a>(dialect: Dialect, text: &'a [u8]) -> Option<&'a [u8]>
    ensures { option_map (λ text. text.now) result ≡ spec.fitting dialect text.now }
{
    if fits(dialect, text) {
        Some(text)
    } else {
        None
    }
}

/// The text that is the one argument.
fn given_text<'a>(dialect: Dialect, args: &'a Args) -> Option<&'a [u8]>
    ensures { option_map (λ text. text.now) result ≡ spec.given_text dialect args.now }
{
    match one_text(args.list.as_slice()) {
        Some(text) => fitting(dialect, text),
        None => None,
    }
}

fn write_found<'a>(dialect: Dialect, args: &'a Option<Args>) -> Option<Found<'a>>
    ensures { option_map seen result ≡ spec.write_writing dialect args.now }
{
    match args {
        Some(args) => match given_text(dialect, args) {
            Some(text) => Some(Found::Text(text)),
            None => None,
        },
        None => None,
    }
}

fn writeln_found<'a>(dialect: Dialect, args: &'a Option<Args>) -> Option<Found<'a>>
    ensures { option_map seen result ≡ spec.writeln_writing dialect args.now }
{
    match args {
        Some(args) => match given_text(dialect, args) {
            Some(text) => Some(Found::Line(text)),
            None => None,
        },
        None => Some(Found::LineEnd),
    }
}

fn is_called(name: &Identifier, called: &[u8]) -> bool
    ensures { result ≡ bytes_eq name.now.name called.now }
{
    name.name.as_bytes() == called
}

/// What a call of this name writes.
fn call_found<'a>(dialect: Dialect, name: &Identifier, args: &'a Option<Args>) -> Option<Found<'a>>
    ensures { option_map seen result ≡ spec.call_writing dialect name.now args.now }
{
    if is_called(name, b"writeln") {
        writeln_found(dialect, args)
    } else if is_called(name, b"write") {
        write_found(dialect, args)
    } else {
        None
    }
}

#[tactic(auto, using(crate::proofs::TreeNodes::plain_writings))]
fn plain_found<'a>(dialect: Dialect, plain: &'a Plain) -> Option<Found<'a>>
    ensures { option_map seen result ≡ spec.plain_writing dialect plain.now }
{
    match plain {
        Plain::Nothing(_) => Some(Found::Nothing),
        Plain::Call { name, args, .. } => call_found(dialect, name, args),
        Plain::Assign { .. }
        | Plain::Goto { .. }
        | Plain::Compound { .. }
        | Plain::If { .. }
        | Plain::Case { .. }
        | Plain::While { .. }
        | Plain::Repeat { .. }
        | Plain::For { .. }
        | Plain::With { .. }
        | Plain::Try { .. } => None,
    }
}

/// What the statement writes, where the form has it.
pub fn found_in<'a>(dialect: Dialect, statement: &'a Stmt) -> Option<Found<'a>>
    ensures { option_map seen result ≡ spec.writing_of dialect statement.now }
{
    match &statement.label {
        None => plain_found(dialect, &statement.plain),
        Some(_) => None,
    }
}

/// Appends what a statement writes.
pub fn put(written: &mut Vec<u8>, found: &Found<'_>) -> Result<(), AllocError>
    ensures { OnOk result (written.new.items ≡ written.old.items ++ bytes_of (seen found.now)) }
{
    match found {
        Found::Nothing => Ok(()),
        Found::LineEnd => put_line_end(written),
        Found::Text(text) => written.extend_from_slice(*text),
        Found::Line(text) => {
            written.extend_from_slice(*text)?;
            put_line_end(written)
        }
    }
}

fn put_line_end(written: &mut Vec<u8>) -> Result<(), AllocError>
    ensures { OnOk result (written.new.items ≡ written.old.items ++ 10 ∷ []) }
{
    written.push(LINE_END)?;
    Ok(())
}
