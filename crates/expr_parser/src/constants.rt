//! Labels and constants.
ghost use Rattle.std.specs.Prelude.{◌≡◌};
ghost use Rattle.expr_parser.specs.Parsing.{Parses};
ghost use Rattle.expr_parser.specs.Tokens.{seen};
ghost use Rattle.expr_parser.specs.Dialects as dialects;
ghost use Rattle.expr_parser.specs.Constants as spec;

use crate::leaves::{bytes, optional_sign, value};
use crate::operators::{after, is_sign};
use crate::rows::{row_of, with_item};
use crate::source::{Source, span_between};
use crate::step::{expect, identifier, is, is_identifier, is_number, is_text, same};
use dialect_lexer::{Symbol, Token};
use p2c_text::Dialect;
use pascal_tree::{CaseLabel, CaseLabels, Constant, Label, Sign};
use token_parsing::refusal::ParseError;
use tree_lists::Items;

fn has_named_labels(dialect: Dialect) -> bool
    ensures { result ≡ dialects.has_named_labels dialect }
{
    match dialect {
        Dialect::Turbo => true,
        Dialect::Iso | Dialect::Ucsd | Dialect::Hp => false,
    }
}

fn has_label_ranges(dialect: Dialect) -> bool
    ensures { result ≡ dialects.has_label_ranges dialect }
{
    match dialect {
        Dialect::Turbo | Dialect::Hp => true,
        Dialect::Iso | Dialect::Ucsd => false,
    }
}

#[tactic(auto, unfolding(crate::specs::Constants::named_label))]
fn named_label<'t>(
    source: &Source<'_>,
    tokens: &'t [Token],
) -> Result<(Label, &'t [Token]), ParseError>
    ensures { Parses source.now tokens.now result spec.named_label }
{
    let (name, rest) = identifier(source, tokens)?;
    Ok((Label::Name(name), rest))
}

#[tactic(auto, unfolding(crate::specs::Constants::number_label))]
fn number_label<'t>(
    source: &Source<'_>,
    tokens: &'t [Token],
) -> Result<(Label, &'t [Token]), ParseError>
    ensures { Parses source.now tokens.now result (spec.number_label source.now.end) }
{
    let (value, rest) = value(source, tokens)?;
    let span = span_between(source, tokens, rest);
    Ok((Label::Number { value, span }, rest))
}

fn is_named_label(source: &Source<'_>, tokens: &[Token]) -> bool
    ensures { result ≡ spec.begins_named_label source.now.dialect (seen source.now.bytes.now tokens.now) }
{
    has_named_labels(source.dialect) && is_identifier(source, tokens)
}

/// What a statement is labelled with.
#[tactic(auto, unfolding(crate::specs::Constants::label))]
pub fn label<'t>(
    source: &Source<'_>,
    tokens: &'t [Token],
) -> Result<(Label, &'t [Token]), ParseError>
    ensures { Parses source.now tokens.now result (spec.label source.now.dialect source.now.end) }
{
    if is_named_label(source, tokens) {
        return named_label(source, tokens);
    }
    number_label(source, tokens)
}

/// Whether a labelled statement is next.
fn is_label(source: &Source<'_>, tokens: &[Token]) -> bool
    ensures { result ≡ spec.begins_label source.now.dialect (seen source.now.bytes.now tokens.now) }
{
    is_number(source, tokens)
        || (is_named_label(source, tokens) && is(source, after(source, tokens), Symbol::Colon))
}

/// A label and its colon, if they are next.
#[tactic(auto, unfolding(crate::specs::Constants::optional_label))]
pub fn optional_label<'t>(
    source: &Source<'_>,
    tokens: &'t [Token],
) -> Result<(Option<Label>, &'t [Token]), ParseError>
    ensures { Parses source.now tokens.now result (spec.optional_label source.now.dialect source.now.end) }
{
    if is_label(source, tokens) {
        let (label, rest) = label(source, tokens)?;
        let rest = expect(source, rest, Symbol::Colon)?;
        return Ok((Some(label), rest));
    }
    Ok((None, tokens))
}

#[tactic(auto, unfolding(crate::specs::Constants::text_constant))]
fn text_constant<'t>(
    source: &Source<'_>,
    tokens: &'t [Token],
) -> Result<(Constant, &'t [Token]), ParseError>
    ensures { Parses source.now tokens.now result (spec.text_constant source.now.end) }
{
    let (bytes, rest) = bytes(source, tokens)?;
    let span = span_between(source, tokens, rest);
    Ok((Constant::Text { bytes, span }, rest))
}

#[tactic(auto, unfolding(crate::specs::Constants::name_constant))]
fn name_constant<'t>(
    source: &Source<'_>,
    tokens: &'t [Token],
    from: &[Token],
    sign: Option<Sign>,
) -> Result<(Constant, &'t [Token]), ParseError>
    ensures { Parses source.now tokens.now result (spec.name_constant source.now.end (seen source.now.bytes.now from.now) sign) }
{
    let (name, rest) = identifier(source, tokens)?;
    let span = span_between(source, from, rest);
    Ok((Constant::Name { sign, name, span }, rest))
}

#[tactic(auto, unfolding(crate::specs::Constants::number_constant))]
fn number_constant<'t>(
    source: &Source<'_>,
    tokens: &'t [Token],
    from: &[Token],
    sign: Option<Sign>,
) -> Result<(Constant, &'t [Token]), ParseError>
    ensures { Parses source.now tokens.now result (spec.number_constant source.now.end (seen source.now.bytes.now from.now) sign) }
{
    let (value, rest) = value(source, tokens)?;
    let span = span_between(source, from, rest);
    Ok((Constant::Number { sign, value, span }, rest))
}

/// A number or a name after its sign, which is the first of the tokens `from` if there is one.
#[tactic(auto, unfolding(crate::specs::Constants::unsigned_constant))]
fn unsigned_constant<'t>(
    source: &Source<'_>,
    tokens: &'t [Token],
    from: &[Token],
    sign: Option<Sign>,
) -> Result<(Constant, &'t [Token]), ParseError>
    ensures { Parses source.now tokens.now result (spec.unsigned_constant source.now.end (seen source.now.bytes.now from.now) sign) }
{
    if is_identifier(source, tokens) {
        return name_constant(source, tokens, from, sign);
    }
    number_constant(source, tokens, from, sign)
}

#[tactic(auto, unfolding(crate::specs::Constants::signed_constant))]
fn signed_constant<'t>(
    source: &Source<'_>,
    tokens: &'t [Token],
) -> Result<(Constant, &'t [Token]), ParseError>
    ensures { Parses source.now tokens.now result (spec.signed_constant source.now.end) }
{
    let (sign, rest) = optional_sign(source, tokens)?;
    unsigned_constant(source, rest, tokens, sign)
}

#[tactic(auto, unfolding(crate::specs::Constants::constant))]
pub fn constant<'t>(
    source: &Source<'_>,
    tokens: &'t [Token],
) -> Result<(Constant, &'t [Token]), ParseError>
    ensures { Parses source.now tokens.now result (spec.constant source.now.end) }
{
    if is_text(source, tokens) {
        return text_constant(source, tokens);
    }
    signed_constant(source, tokens)
}

/// Whether a constant is next.
pub fn is_constant(source: &Source<'_>, tokens: &[Token]) -> bool
    ensures { result ≡ spec.begins_constant (seen source.now.bytes.now tokens.now) }
{
    is_sign(source, tokens)
        || is_identifier(source, tokens)
        || is_number(source, tokens)
        || is_text(source, tokens)
}

/// Whether the range of a label goes on here.
fn is_range(source: &Source<'_>, tokens: &[Token]) -> bool
    ensures { result ≡ spec.begins_range source.now.dialect (seen source.now.bytes.now tokens.now) }
{
    has_label_ranges(source.dialect) && is(source, tokens, Symbol::DotDot)
}

/// The last value of a range, if one is next.
#[tactic(auto, unfolding(crate::specs::Constants::optional_last))]
fn optional_last<'t>(
    source: &Source<'_>,
    tokens: &'t [Token],
) -> Result<(Option<Constant>, &'t [Token]), ParseError>
    ensures { Parses source.now tokens.now result (spec.optional_last source.now.dialect source.now.end) }
{
    if is_range(source, tokens) {
        let rest = expect(source, tokens, Symbol::DotDot)?;
        let (constant, rest) = constant(source, rest)?;
        return Ok((Some(constant), rest));
    }
    Ok((None, tokens))
}

/// A label of a `case` or of a variant.
#[tactic(auto, unfolding(crate::specs::Constants::case_label))]
pub fn case_label<'t>(
    source: &Source<'_>,
    tokens: &'t [Token],
) -> Result<(CaseLabel, &'t [Token]), ParseError>
    ensures { Parses source.now tokens.now result (spec.case_label source.now.dialect source.now.end) }
{
    let (first, rest) = constant(source, tokens)?;
    let (last, rest) = optional_last(source, rest)?;
    let span = span_between(source, tokens, rest);
    Ok((CaseLabel { first, last, span }, rest))
}

/// A label after a comma, behind those before it.
#[tactic(auto, unfolding(crate::specs::Constants::next_case_label))]
fn next_case_label<'t>(
    source: &Source<'_>,
    tokens: &'t [Token],
    all: CaseLabels,
) -> Result<(CaseLabels, &'t [Token]), ParseError>
    ensures { Parses source.now tokens.now result (spec.next_case_label source.now.dialect source.now.end all) }
{
    let rest = expect(source, tokens, Symbol::Comma)?;
    let (item, rest) = case_label(source, rest)?;
    Ok((with_item(all, item)?, rest))
}

/// The labels after the first.
fn more_case_labels<'t>(
    source: &Source<'_>,
    tokens: &'t [Token],
    first: CaseLabels,
) -> Result<(CaseLabels, &'t [Token]), ParseError>
    ensures { Parses source.now tokens.now result (spec.more_case_labels source.now.dialect source.now.end first) }
{
    let mut all = first;
    let mut rest = tokens;
    for _turn in 0..tokens.len() {
        if !is(source, rest, Symbol::Comma) {
            return Ok((all, rest));
        }
        let (longer, behind) = next_case_label(source, rest, all)?;
        all = longer;
        rest = same(behind);
    }
    Ok((all, rest))
}

/// The labels of an arm or of a variant, with commas between them.
#[tactic(auto, unfolding(crate::specs::Constants::case_labels))]
pub fn case_labels<'t>(
    source: &Source<'_>,
    tokens: &'t [Token],
) -> Result<(CaseLabels, &'t [Token]), ParseError>
    ensures { Parses source.now tokens.now result (spec.case_labels source.now.dialect source.now.end) }
{
    let (item, rest) = case_label(source, tokens)?;
    let first = row_of(source.alloc, item)?;
    more_case_labels(source, rest, first)
}
