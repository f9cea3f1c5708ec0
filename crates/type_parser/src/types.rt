//! Types and lists of fields, by recursive descent. `depth` is how many levels may still nest; a type
//! and a list of fields are one each.
ghost use Rattle.std.specs.Prelude.{◌≡◌};
ghost use Rattle.expr_parser.specs.Parsing.{Parses};
ghost use Rattle.type_parser.specs.Types as spec;
ghost use Rattle.type_parser.specs.Fields as fields_spec;
ghost use Rattle.type_parser.specs.Levels as levels;

use crate::fields::{
    is_more_variants, is_next_section, is_next_variant, no_fields, optional_semicolon, selector,
};
use crate::names::names;
use crate::simple::{is_structured, optional_packed, simple_type};
use dialect_lexer::{Symbol, Token, Word};
use expr_parser::constants::case_labels;
use expr_parser::source::{Source, span_between};
use expr_parser::step::{expect, expect_word, is, is_identifier, is_word, same};
use pascal_tree::{
    Fields, Fixed, FixedSection, FixedSections, Struct, TypeNode, TypeNodes, Variant, VariantList,
    Variants,
};
use token_parsing::refusal::{ParseError, too_deep};
use tree_lists::{Boxed, Items};

/// A type after `of`.
#[tactic(auto, unfolding(crate::specs::Types::of_type))]
#[cycle(types)]
fn of_type<'t>(
    source: &Source<'_>,
    tokens: &'t [Token],
    depth: u32,
) -> Result<(TypeNode, &'t [Token]), ParseError>
    ensures { Parses source.now tokens.now result (spec.of_type (levels.type_node source.now.dialect source.now.end depth)) }
{
    let rest = expect_word(source, tokens, Word::KwOf)?;
    type_node(source, rest, depth)
}

/// A type after a comma, behind those before it.
#[tactic(auto, unfolding(crate::specs::Types::next_type))]
#[cycle(types)]
fn next_type<'t>(
    source: &Source<'_>,
    tokens: &'t [Token],
    depth: u32,
    all: TypeNodes,
) -> Result<(TypeNodes, &'t [Token]), ParseError>
    ensures { Parses source.now tokens.now result (spec.next_type (levels.type_node source.now.dialect source.now.end depth) all) }
{
    let mut all = all;
    let rest = expect(source, tokens, Symbol::Comma)?;
    let (item, rest) = type_node(source, rest, depth)?;
    all.push(item)?;
    Ok((all, rest))
}

/// The types after the first.
#[cycle(types)]
fn more_types<'t>(
    source: &Source<'_>,
    tokens: &'t [Token],
    depth: u32,
    first: TypeNodes,
) -> Result<(TypeNodes, &'t [Token]), ParseError>
    ensures { Parses source.now tokens.now result (spec.more_types (levels.type_node source.now.dialect source.now.end depth) first) }
{
    let mut all = first;
    let mut rest = tokens;
    for _turn in 0..tokens.len() {
        if !is(source, rest, Symbol::Comma) {
            return Ok((all, rest));
        }
        let (longer, behind) = next_type(source, rest, depth, all)?;
        all = longer;
        rest = same(behind);
    }
    Ok((all, rest))
}

/// Types with commas between them.
#[tactic(auto, unfolding(crate::specs::Types::types))]
#[cycle(types)]
fn types<'t>(
    source: &Source<'_>,
    tokens: &'t [Token],
    depth: u32,
) -> Result<(TypeNodes, &'t [Token]), ParseError>
    ensures { Parses source.now tokens.now result (spec.types (levels.type_node source.now.dialect source.now.end depth)) }
{
    let (item, rest) = type_node(source, tokens, depth)?;
    let mut first = Items::new(source.alloc);
    first.push(item)?;
    more_types(source, rest, depth, first)
}

/// The types of the indexes of an array, in brackets.
#[tactic(auto, unfolding(crate::specs::Types::indexes))]
#[cycle(types)]
fn indexes<'t>(
    source: &Source<'_>,
    tokens: &'t [Token],
    depth: u32,
) -> Result<(TypeNodes, &'t [Token]), ParseError>
    ensures { Parses source.now tokens.now result (spec.indexes (levels.type_node source.now.dialect source.now.end depth)) }
{
    let rest = expect(source, tokens, Symbol::OpenBracket)?;
    let (all, rest) = types(source, rest, depth)?;
    let rest = expect(source, rest, Symbol::CloseBracket)?;
    Ok((all, rest))
}

#[tactic(auto, unfolding(crate::specs::Types::array))]
#[cycle(types)]
fn array<'t>(
    source: &Source<'_>,
    tokens: &'t [Token],
    depth: u32,
) -> Result<(Struct, &'t [Token]), ParseError>
    ensures { Parses source.now tokens.now result (spec.array source.now.end (levels.type_node source.now.dialect source.now.end depth)) }
{
    let rest = expect_word(source, tokens, Word::KwArray)?;
    let (indexes, rest) = indexes(source, rest, depth)?;
    let (component, rest) = of_type(source, rest, depth)?;
    let component = Boxed::new(source.alloc, component)?;
    let span = span_between(source, tokens, rest);
    let array = Struct::Array {
        indexes,
        component,
        span,
    };
    Ok((array, rest))
}

#[tactic(auto, unfolding(crate::specs::Types::record_type))]
#[cycle(types)]
fn record<'t>(
    source: &Source<'_>,
    tokens: &'t [Token],
    depth: u32,
) -> Result<(Struct, &'t [Token]), ParseError>
    ensures { Parses source.now tokens.now result (spec.record_type source.now.end (levels.fields source.now.dialect source.now.end depth)) }
{
    let rest = expect_word(source, tokens, Word::KwRecord)?;
    let (fields, rest) = fields(source, rest, depth)?;
    let rest = expect_word(source, rest, Word::KwEnd)?;
    let span = span_between(source, tokens, rest);
    Ok((Struct::Record { fields, span }, rest))
}

#[tactic(auto, unfolding(crate::specs::Types::set_type))]
#[cycle(types)]
fn set<'t>(
    source: &Source<'_>,
    tokens: &'t [Token],
    depth: u32,
) -> Result<(Struct, &'t [Token]), ParseError>
    ensures { Parses source.now tokens.now result (spec.set_type source.now.end (levels.type_node source.now.dialect source.now.end depth)) }
{
    let rest = expect_word(source, tokens, Word::KwSet)?;
    let (base, rest) = of_type(source, rest, depth)?;
    let base = Boxed::new(source.alloc, base)?;
    let span = span_between(source, tokens, rest);
    Ok((Struct::Set { base, span }, rest))
}

#[tactic(auto, unfolding(crate::specs::Types::file_type))]
#[cycle(types)]
fn file<'t>(
    source: &Source<'_>,
    tokens: &'t [Token],
    depth: u32,
) -> Result<(Struct, &'t [Token]), ParseError>
    ensures { Parses source.now tokens.now result (spec.file_type source.now.end (levels.type_node source.now.dialect source.now.end depth)) }
{
    let rest = expect_word(source, tokens, Word::KwFile)?;
    let (component, rest) = of_type(source, rest, depth)?;
    let component = Boxed::new(source.alloc, component)?;
    let span = span_between(source, tokens, rest);
    Ok((Struct::File { component, span }, rest))
}

#[tactic(auto, unfolding(crate::specs::Types::structure))]
#[cycle(types)]
fn structure<'t>(
    source: &Source<'_>,
    tokens: &'t [Token],
    depth: u32,
) -> Result<(Struct, &'t [Token]), ParseError>
    ensures { Parses source.now tokens.now result (spec.structure source.now.end (levels.type_node source.now.dialect source.now.end depth) (levels.fields source.now.dialect source.now.end depth)) }
{
    if is_word(source, tokens, Word::KwArray) {
        return array(source, tokens, depth);
    }
    if is_word(source, tokens, Word::KwRecord) {
        return record(source, tokens, depth);
    }
    if is_word(source, tokens, Word::KwSet) {
        return set(source, tokens, depth);
    }
    file(source, tokens, depth)
}

/// A type with parts, which may be packed.
#[tactic(auto, unfolding(crate::specs::Types::structured))]
#[cycle(types)]
fn structured<'t>(
    source: &Source<'_>,
    tokens: &'t [Token],
    depth: u32,
) -> Result<(TypeNode, &'t [Token]), ParseError>
    ensures { Parses source.now tokens.now result (spec.structured source.now.end (levels.type_node source.now.dialect source.now.end depth) (levels.fields source.now.dialect source.now.end depth)) }
{
    let (packed, rest) = optional_packed(source, tokens)?;
    let (of, rest) = structure(source, rest, depth)?;
    let span = span_between(source, tokens, rest);
    Ok((TypeNode::Structured { packed, of, span }, rest))
}

/// A type whose parts have `depth` levels.
#[tactic(auto, unfolding(crate::specs::Types::type_by))]
#[cycle(types)]
fn type_by<'t>(
    source: &Source<'_>,
    tokens: &'t [Token],
    depth: u32,
) -> Result<(TypeNode, &'t [Token]), ParseError>
    ensures { Parses source.now tokens.now result (spec.type_by source.now.end (levels.type_node source.now.dialect source.now.end depth) (levels.fields source.now.dialect source.now.end depth)) }
{
    if is_structured(source, tokens) {
        return structured(source, tokens, depth);
    }
    simple_type(source, tokens)
}

/// A type of at most `depth` levels.
#[cycle(types)]
pub fn type_node<'t>(
    source: &Source<'_>,
    tokens: &'t [Token],
    depth: u32,
) -> Result<(TypeNode, &'t [Token]), ParseError>
    ensures { Parses source.now tokens.now result (levels.type_node source.now.dialect source.now.end depth) }
{
    if depth == 0 {
        return Err(too_deep(tokens));
    }
    type_by(source, tokens, depth - 1)
}

/// Fields of one type.
#[tactic(auto, unfolding(crate::specs::Fields::section))]
#[cycle(types)]
fn section<'t>(
    source: &Source<'_>,
    tokens: &'t [Token],
    depth: u32,
) -> Result<(FixedSection, &'t [Token]), ParseError>
    ensures { Parses source.now tokens.now result (fields_spec.section source.now.end (levels.type_node source.now.dialect source.now.end depth)) }
{
    let (names, rest) = names(source, tokens)?;
    let rest = expect(source, rest, Symbol::Colon)?;
    let (of, rest) = type_node(source, rest, depth)?;
    let span = span_between(source, tokens, rest);
    Ok((FixedSection { names, of, span }, rest))
}

/// Fields of one type after a semicolon, behind those before them.
#[tactic(auto, unfolding(crate::specs::Fields::next_section))]
#[cycle(types)]
fn next_section<'t>(
    source: &Source<'_>,
    tokens: &'t [Token],
    depth: u32,
    all: FixedSections,
) -> Result<(FixedSections, &'t [Token]), ParseError>
    ensures { Parses source.now tokens.now result (fields_spec.next_section source.now.end (levels.type_node source.now.dialect source.now.end depth) all) }
{
    let mut all = all;
    let rest = expect(source, tokens, Symbol::Semicolon)?;
    let (item, rest) = section(source, rest, depth)?;
    all.push(item)?;
    Ok((all, rest))
}

/// The sections after the first.
#[cycle(types)]
fn more_sections<'t>(
    source: &Source<'_>,
    tokens: &'t [Token],
    depth: u32,
    first: FixedSections,
) -> Result<(FixedSections, &'t [Token]), ParseError>
    ensures { Parses source.now tokens.now result (fields_spec.more_sections source.now.end (levels.type_node source.now.dialect source.now.end depth) first) }
{
    let mut all = first;
    let mut rest = tokens;
    for _turn in 0..tokens.len() {
        if !is_next_section(source, rest) {
            return Ok((all, rest));
        }
        let (longer, behind) = next_section(source, rest, depth, all)?;
        all = longer;
        rest = same(behind);
    }
    Ok((all, rest))
}

/// The fixed part of a list of fields.
#[tactic(auto, unfolding(crate::specs::Fields::fixed))]
#[cycle(types)]
fn fixed<'t>(
    source: &Source<'_>,
    tokens: &'t [Token],
    depth: u32,
) -> Result<(Fixed, &'t [Token]), ParseError>
    ensures { Parses source.now tokens.now result (fields_spec.fixed source.now.end (levels.type_node source.now.dialect source.now.end depth)) }
{
    let (item, rest) = section(source, tokens, depth)?;
    let mut first = Items::new(source.alloc);
    first.push(item)?;
    let (sections, rest) = more_sections(source, rest, depth, first)?;
    let span = span_between(source, tokens, rest);
    Ok((Fixed { sections, span }, rest))
}

/// Fields in parentheses.
#[tactic(auto, unfolding(crate::specs::Fields::group))]
#[cycle(types)]
fn group<'t>(
    source: &Source<'_>,
    tokens: &'t [Token],
    depth: u32,
) -> Result<(Fields, &'t [Token]), ParseError>
    ensures { Parses source.now tokens.now result (fields_spec.group (levels.fields source.now.dialect source.now.end depth)) }
{
    let rest = expect(source, tokens, Symbol::Open)?;
    let (fields, rest) = fields(source, rest, depth)?;
    let rest = expect(source, rest, Symbol::Close)?;
    Ok((fields, rest))
}

#[tactic(auto, unfolding(crate::specs::Fields::variant))]
#[cycle(types)]
fn variant<'t>(
    source: &Source<'_>,
    tokens: &'t [Token],
    depth: u32,
) -> Result<(Variant, &'t [Token]), ParseError>
    ensures { Parses source.now tokens.now result (fields_spec.variant source.now.dialect source.now.end (levels.fields source.now.dialect source.now.end depth)) }
{
    let (labels, rest) = case_labels(source, tokens)?;
    let rest = expect(source, rest, Symbol::Colon)?;
    let (fields, rest) = group(source, rest, depth)?;
    let span = span_between(source, tokens, rest);
    let variant = Variant {
        labels,
        fields,
        span,
    };
    Ok((variant, rest))
}

/// A variant after a semicolon, behind those before it.
#[tactic(auto, unfolding(crate::specs::Fields::next_variant))]
#[cycle(types)]
fn next_variant<'t>(
    source: &Source<'_>,
    tokens: &'t [Token],
    depth: u32,
    all: VariantList,
) -> Result<(VariantList, &'t [Token]), ParseError>
    ensures { Parses source.now tokens.now result (fields_spec.next_variant source.now.dialect source.now.end (levels.fields source.now.dialect source.now.end depth) all) }
{
    let mut all = all;
    let rest = expect(source, tokens, Symbol::Semicolon)?;
    let (item, rest) = variant(source, rest, depth)?;
    all.push(item)?;
    Ok((all, rest))
}

/// The variants after the first.
#[cycle(types)]
fn more_variants<'t>(
    source: &Source<'_>,
    tokens: &'t [Token],
    depth: u32,
    first: VariantList,
) -> Result<(VariantList, &'t [Token]), ParseError>
    ensures { Parses source.now tokens.now result (fields_spec.more_variants source.now.dialect source.now.end (levels.fields source.now.dialect source.now.end depth) first) }
{
    let mut all = first;
    let mut rest = tokens;
    for _turn in 0..tokens.len() {
        if !is_next_variant(source, rest) {
            return Ok((all, rest));
        }
        let (longer, behind) = next_variant(source, rest, depth, all)?;
        all = longer;
        rest = same(behind);
    }
    Ok((all, rest))
}

/// Variants with semicolons between them.
#[tactic(auto, unfolding(crate::specs::Fields::variant_list))]
#[cycle(types)]
fn variant_list<'t>(
    source: &Source<'_>,
    tokens: &'t [Token],
    depth: u32,
) -> Result<(VariantList, &'t [Token]), ParseError>
    ensures { Parses source.now tokens.now result (fields_spec.variant_list source.now.dialect source.now.end (levels.fields source.now.dialect source.now.end depth)) }
{
    let (item, rest) = variant(source, tokens, depth)?;
    let mut first = Items::new(source.alloc);
    first.push(item)?;
    more_variants(source, rest, depth, first)
}

/// The variants of a list of fields, with their tag.
#[tactic(auto, unfolding(crate::specs::Fields::variants))]
#[cycle(types)]
fn variants<'t>(
    source: &Source<'_>,
    tokens: &'t [Token],
    depth: u32,
) -> Result<(Variants, &'t [Token]), ParseError>
    ensures { Parses source.now tokens.now result (fields_spec.variants source.now.dialect source.now.end (levels.fields source.now.dialect source.now.end depth)) }
{
    let ((tag, of), rest) = selector(source, tokens)?;
    let (list, rest) = variant_list(source, rest, depth)?;
    let span = span_between(source, tokens, rest);
    let variants = Variants {
        tag,
        of,
        list,
        span,
    };
    Ok((variants, rest))
}

/// The variants after a semicolon, if they are next.
#[tactic(auto, unfolding(crate::specs::Fields::optional_variants))]
#[cycle(types)]
fn optional_variants<'t>(
    source: &Source<'_>,
    tokens: &'t [Token],
    depth: u32,
) -> Result<(Option<Boxed<Variants>>, &'t [Token]), ParseError>
    ensures { Parses source.now tokens.now result (fields_spec.optional_variants source.now.dialect source.now.end (levels.fields source.now.dialect source.now.end depth)) }
{
    if is_more_variants(source, tokens) {
        let rest = expect(source, tokens, Symbol::Semicolon)?;
        let (variants, rest) = variants(source, rest, depth)?;
        let variants = Boxed::new(source.alloc, variants)?;
        return Ok((Some(variants), rest));
    }
    Ok((None, tokens))
}

/// A list of fields that has a fixed part.
#[tactic(auto, unfolding(crate::specs::Fields::with_fixed))]
#[cycle(types)]
fn with_fixed<'t>(
    source: &Source<'_>,
    tokens: &'t [Token],
    depth: u32,
) -> Result<(Fields, &'t [Token]), ParseError>
    ensures { Parses source.now tokens.now result (fields_spec.with_fixed source.now.dialect source.now.end (levels.type_node source.now.dialect source.now.end depth) (levels.fields source.now.dialect source.now.end depth)) }
{
    let (fixed, rest) = fixed(source, tokens, depth)?;
    let (variants, rest) = optional_variants(source, rest, depth)?;
    let (closed, rest) = optional_semicolon(source, rest)?;
    let span = span_between(source, tokens, rest);
    let fields = Fields {
        fixed: Some(fixed),
        variants,
        closed,
        span,
    };
    Ok((fields, rest))
}

/// A list of fields that has variants alone.
#[tactic(auto, unfolding(crate::specs::Fields::only_variants))]
#[cycle(types)]
fn only_variants<'t>(
    source: &Source<'_>,
    tokens: &'t [Token],
    depth: u32,
) -> Result<(Fields, &'t [Token]), ParseError>
    ensures { Parses source.now tokens.now result (fields_spec.only_variants source.now.dialect source.now.end (levels.fields source.now.dialect source.now.end depth)) }
{
    let (variants, rest) = variants(source, tokens, depth)?;
    let variants = Boxed::new(source.alloc, variants)?;
    let (closed, rest) = optional_semicolon(source, rest)?;
    let span = span_between(source, tokens, rest);
    let fields = Fields {
        fixed: None,
        variants: Some(variants),
        closed,
        span,
    };
    Ok((fields, rest))
}

/// A list of fields whose parts have `depth` levels.
#[tactic(auto, unfolding(crate::specs::Fields::fields_by))]
#[cycle(types)]
fn fields_by<'t>(
    source: &Source<'_>,
    tokens: &'t [Token],
    depth: u32,
) -> Result<(Fields, &'t [Token]), ParseError>
    ensures { Parses source.now tokens.now result (fields_spec.fields_by source.now.dialect source.now.end (levels.type_node source.now.dialect source.now.end depth) (levels.fields source.now.dialect source.now.end depth)) }
{
    if is_identifier(source, tokens) {
        return with_fixed(source, tokens, depth);
    }
    if is_word(source, tokens, Word::KwCase) {
        return only_variants(source, tokens, depth);
    }
    no_fields(source, tokens)
}

#[cycle(types)]
fn fields<'t>(
    source: &Source<'_>,
    tokens: &'t [Token],
    depth: u32,
) -> Result<(Fields, &'t [Token]), ParseError>
    ensures { Parses source.now tokens.now result (levels.fields source.now.dialect source.now.end depth) }
{
    if depth == 0 {
        return Err(too_deep(tokens));
    }
    fields_by(source, tokens, depth - 1)
}
