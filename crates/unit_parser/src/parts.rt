//! Parts of declarations, and headings. `depth` is how many levels of what stands in them may still nest.
ghost use Rattle.std.specs.Prelude.{◌≡◌};
ghost use Rattle.expr_parser.specs.Parsing.{Parses};
ghost use Rattle.expr_parser.specs.Expressions as expressions;
ghost use Rattle.type_parser.specs.Levels as types;
ghost use Rattle.unit_parser.specs.Parts as spec;

use crate::words::has_value_expressions;
use dialect_lexer::{Symbol, Token, Word};
use expr_parser::constants::{constant, label};
use expr_parser::descent::expr;
use expr_parser::source::{Source, span_between};
use expr_parser::step::{expect, expect_word, identifier, is, is_identifier, is_word, same};
use pascal_tree::{
    ConstDefinition, ConstDefinitions, ConstPart, Heading, LabelPart, Labels, TypeDefinition,
    TypeDefinitions, TypeName, TypePart, Value, VarPart, VarSection, VarSections,
};
use token_parsing::refusal::ParseError;
use tree_lists::Items;
use type_parser::formals::{optional_formals, result_name};
use type_parser::names::names;
use type_parser::type_node;

/// A label after a comma, behind those before it.
#[tactic(auto, unfolding(crate::specs::Parts::next_label))]
fn next_label<'t>(
    source: &Source<'_>,
    tokens: &'t [Token],
    all: Labels,
) -> Result<(Labels, &'t [Token]), ParseError>
    ensures { Parses source.now tokens.now result (spec.next_label source.now.dialect source.now.end all) }
{
    let mut all = all;
    let rest = expect(source, tokens, Symbol::Comma)?;
    let (item, rest) = label(source, rest)?;
    all.push(item)?;
    Ok((all, rest))
}

/// The labels after the first.
fn more_labels<'t>(
    source: &Source<'_>,
    tokens: &'t [Token],
    first: Labels,
) -> Result<(Labels, &'t [Token]), ParseError>
    ensures { Parses source.now tokens.now result (spec.more_labels source.now.dialect source.now.end first) }
{
    let mut all = first;
    let mut rest = tokens;
    for _turn in 0..tokens.len() {
        if !is(source, rest, Symbol::Comma) {
            return Ok((all, rest));
        }
        let (longer, behind) = next_label(source, rest, all)?;
        all = longer;
        rest = same(behind);
    }
    Ok((all, rest))
}

/// Labels with commas between them.
#[tactic(auto, unfolding(crate::specs::Parts::labels))]
fn labels<'t>(source: &Source<'_>, tokens: &'t [Token]) -> Result<(Labels, &'t [Token]), ParseError>
    ensures { Parses source.now tokens.now result (spec.labels source.now.dialect source.now.end) }
{
    let (item, rest) = label(source, tokens)?;
    let mut first = Items::new(source.alloc);
    first.push(item)?;
    more_labels(source, rest, first)
}

#[tactic(auto, unfolding(crate::specs::Parts::label_part))]
pub fn label_part<'t>(
    source: &Source<'_>,
    tokens: &'t [Token],
) -> Result<(LabelPart, &'t [Token]), ParseError>
    ensures { Parses source.now tokens.now result (spec.label_part source.now.dialect source.now.end) }
{
    let rest = expect_word(source, tokens, Word::KwLabel)?;
    let (labels, rest) = labels(source, rest)?;
    let rest = expect(source, rest, Symbol::Semicolon)?;
    let span = span_between(source, tokens, rest);
    Ok((LabelPart { labels, span }, rest))
}

#[tactic(auto, unfolding(crate::specs::Parts::constant_value))]
fn constant_value<'t>(
    source: &Source<'_>,
    tokens: &'t [Token],
) -> Result<(Value, &'t [Token]), ParseError>
    ensures { Parses source.now tokens.now result (spec.constant_value source.now.end) }
{
    let (constant, rest) = constant(source, tokens)?;
    Ok((Value::Constant(constant), rest))
}

#[tactic(auto, unfolding(crate::specs::Parts::expression_value))]
fn expression_value<'t>(
    source: &Source<'_>,
    tokens: &'t [Token],
    depth: u32,
) -> Result<(Value, &'t [Token]), ParseError>
    ensures { Parses source.now tokens.now result (spec.expression_value (expressions.expr source.now.dialect source.now.end depth)) }
{
    let (expr, rest) = expr(source, tokens, depth)?;
    Ok((Value::Expression(expr), rest))
}

/// The value of a constant.
#[tactic(auto, unfolding(crate::specs::Parts::value))]
fn value<'t>(
    source: &Source<'_>,
    tokens: &'t [Token],
    depth: u32,
) -> Result<(Value, &'t [Token]), ParseError>
    ensures { Parses source.now tokens.now result (spec.value source.now.dialect source.now.end (expressions.expr source.now.dialect source.now.end depth)) }
{
    if has_value_expressions(source.dialect) {
        return expression_value(source, tokens, depth);
    }
    constant_value(source, tokens)
}

#[tactic(auto, unfolding(crate::specs::Parts::const_definition))]
fn const_definition<'t>(
    source: &Source<'_>,
    tokens: &'t [Token],
    depth: u32,
) -> Result<(ConstDefinition, &'t [Token]), ParseError>
    ensures { Parses source.now tokens.now result (spec.const_definition source.now.dialect source.now.end (expressions.expr source.now.dialect source.now.end depth)) }
{
    let (name, rest) = identifier(source, tokens)?;
    let rest = expect(source, rest, Symbol::Equal)?;
    let (value, rest) = value(source, rest, depth)?;
    let rest = expect(source, rest, Symbol::Semicolon)?;
    let span = span_between(source, tokens, rest);
    Ok((ConstDefinition { name, value, span }, rest))
}

/// A constant, behind those before it.
#[tactic(auto, unfolding(crate::specs::Parts::next_const_definition))]
fn next_const_definition<'t>(
    source: &Source<'_>,
    tokens: &'t [Token],
    depth: u32,
    all: ConstDefinitions,
) -> Result<(ConstDefinitions, &'t [Token]), ParseError>
    ensures { Parses source.now tokens.now result (spec.next_const_definition source.now.dialect source.now.end (expressions.expr source.now.dialect source.now.end depth) all) }
{
    let mut all = all;
    let (item, rest) = const_definition(source, tokens, depth)?;
    all.push(item)?;
    Ok((all, rest))
}

/// The constants after the first.
fn const_definitions<'t>(
    source: &Source<'_>,
    tokens: &'t [Token],
    depth: u32,
    first: ConstDefinitions,
) -> Result<(ConstDefinitions, &'t [Token]), ParseError>
    ensures { Parses source.now tokens.now result (spec.const_definitions source.now.dialect source.now.end (expressions.expr source.now.dialect source.now.end depth) first) }
{
    let mut all = first;
    let mut rest = tokens;
    for _turn in 0..tokens.len() {
        if !is_identifier(source, rest) {
            return Ok((all, rest));
        }
        let (longer, behind) = next_const_definition(source, rest, depth, all)?;
        all = longer;
        rest = same(behind);
    }
    Ok((all, rest))
}

#[tactic(auto, unfolding(crate::specs::Parts::const_part))]
pub fn const_part<'t>(
    source: &Source<'_>,
    tokens: &'t [Token],
    depth: u32,
) -> Result<(ConstPart, &'t [Token]), ParseError>
    ensures { Parses source.now tokens.now result (spec.const_part source.now.dialect source.now.end (expressions.expr source.now.dialect source.now.end depth)) }
{
    let rest = expect_word(source, tokens, Word::KwConst)?;
    let (first, rest) = next_const_definition(source, rest, depth, Items::new(source.alloc))?;
    let (definitions, rest) = const_definitions(source, rest, depth, first)?;
    let span = span_between(source, tokens, rest);
    Ok((ConstPart { definitions, span }, rest))
}

#[tactic(auto, unfolding(crate::specs::Parts::type_definition))]
fn type_definition<'t>(
    source: &Source<'_>,
    tokens: &'t [Token],
    depth: u32,
) -> Result<(TypeDefinition, &'t [Token]), ParseError>
    ensures { Parses source.now tokens.now result (spec.type_definition source.now.end (types.type_node source.now.dialect source.now.end depth)) }
{
    let (name, rest) = identifier(source, tokens)?;
    let rest = expect(source, rest, Symbol::Equal)?;
    let (of, rest) = type_node(source, rest, depth)?;
    let rest = expect(source, rest, Symbol::Semicolon)?;
    let span = span_between(source, tokens, rest);
    Ok((TypeDefinition { name, of, span }, rest))
}

/// A type, behind those before it.
#[tactic(auto, unfolding(crate::specs::Parts::next_type_definition))]
fn next_type_definition<'t>(
    source: &Source<'_>,
    tokens: &'t [Token],
    depth: u32,
    all: TypeDefinitions,
) -> Result<(TypeDefinitions, &'t [Token]), ParseError>
    ensures { Parses source.now tokens.now result (spec.next_type_definition source.now.end (types.type_node source.now.dialect source.now.end depth) all) }
{
    let mut all = all;
    let (item, rest) = type_definition(source, tokens, depth)?;
    all.push(item)?;
    Ok((all, rest))
}

/// The types after the first.
fn type_definitions<'t>(
    source: &Source<'_>,
    tokens: &'t [Token],
    depth: u32,
    first: TypeDefinitions,
) -> Result<(TypeDefinitions, &'t [Token]), ParseError>
    ensures { Parses source.now tokens.now result (spec.type_definitions source.now.end (types.type_node source.now.dialect source.now.end depth) first) }
{
    let mut all = first;
    let mut rest = tokens;
    for _turn in 0..tokens.len() {
        if !is_identifier(source, rest) {
            return Ok((all, rest));
        }
        let (longer, behind) = next_type_definition(source, rest, depth, all)?;
        all = longer;
        rest = same(behind);
    }
    Ok((all, rest))
}

#[tactic(auto, unfolding(crate::specs::Parts::type_part))]
pub fn type_part<'t>(
    source: &Source<'_>,
    tokens: &'t [Token],
    depth: u32,
) -> Result<(TypePart, &'t [Token]), ParseError>
    ensures { Parses source.now tokens.now result (spec.type_part source.now.end (types.type_node source.now.dialect source.now.end depth)) }
{
    let rest = expect_word(source, tokens, Word::KwType)?;
    let (first, rest) = next_type_definition(source, rest, depth, Items::new(source.alloc))?;
    let (definitions, rest) = type_definitions(source, rest, depth, first)?;
    let span = span_between(source, tokens, rest);
    Ok((TypePart { definitions, span }, rest))
}

/// Variables of one type.
#[tactic(auto, unfolding(crate::specs::Parts::var_section))]
fn var_section<'t>(
    source: &Source<'_>,
    tokens: &'t [Token],
    depth: u32,
) -> Result<(VarSection, &'t [Token]), ParseError>
    ensures { Parses source.now tokens.now result (spec.var_section source.now.end (types.type_node source.now.dialect source.now.end depth)) }
{
    let (names, rest) = names(source, tokens)?;
    let rest = expect(source, rest, Symbol::Colon)?;
    let (of, rest) = type_node(source, rest, depth)?;
    let rest = expect(source, rest, Symbol::Semicolon)?;
    let span = span_between(source, tokens, rest);
    Ok((VarSection { names, of, span }, rest))
}

/// Variables of one type, behind those before them.
#[tactic(auto, unfolding(crate::specs::Parts::next_var_section))]
fn next_var_section<'t>(
    source: &Source<'_>,
    tokens: &'t [Token],
    depth: u32,
    all: VarSections,
) -> Result<(VarSections, &'t [Token]), ParseError>
    ensures { Parses source.now tokens.now result (spec.next_var_section source.now.end (types.type_node source.now.dialect source.now.end depth) all) }
{
    let mut all = all;
    let (item, rest) = var_section(source, tokens, depth)?;
    all.push(item)?;
    Ok((all, rest))
}

/// The sections after the first.
fn var_sections<'t>(
    source: &Source<'_>,
    tokens: &'t [Token],
    depth: u32,
    first: VarSections,
) -> Result<(VarSections, &'t [Token]), ParseError>
    ensures { Parses source.now tokens.now result (spec.var_sections source.now.end (types.type_node source.now.dialect source.now.end depth) first) }
{
    let mut all = first;
    let mut rest = tokens;
    for _turn in 0..tokens.len() {
        if !is_identifier(source, rest) {
            return Ok((all, rest));
        }
        let (longer, behind) = next_var_section(source, rest, depth, all)?;
        all = longer;
        rest = same(behind);
    }
    Ok((all, rest))
}

#[tactic(auto, unfolding(crate::specs::Parts::var_part))]
pub fn var_part<'t>(
    source: &Source<'_>,
    tokens: &'t [Token],
    depth: u32,
) -> Result<(VarPart, &'t [Token]), ParseError>
    ensures { Parses source.now tokens.now result (spec.var_part source.now.end (types.type_node source.now.dialect source.now.end depth)) }
{
    let rest = expect_word(source, tokens, Word::KwVar)?;
    let (first, rest) = next_var_section(source, rest, depth, Items::new(source.alloc))?;
    let (sections, rest) = var_sections(source, rest, depth, first)?;
    let span = span_between(source, tokens, rest);
    Ok((VarPart { sections, span }, rest))
}

#[tactic(auto, unfolding(crate::specs::Parts::procedure_heading))]
fn procedure_heading<'t>(
    source: &Source<'_>,
    tokens: &'t [Token],
    depth: u32,
) -> Result<(Heading, &'t [Token]), ParseError>
    ensures { Parses source.now tokens.now result (spec.procedure_heading source.now.end (types.formals source.now.end depth)) }
{
    let rest = expect_word(source, tokens, Word::KwProcedure)?;
    let (name, rest) = identifier(source, rest)?;
    let (formals, rest) = optional_formals(source, rest, depth)?;
    let span = span_between(source, tokens, rest);
    let heading = Heading::Procedure {
        name,
        formals,
        span,
    };
    Ok((heading, rest))
}

/// The type of a result after a colon, if that is next.
#[tactic(auto, unfolding(crate::specs::Parts::optional_result))]
fn optional_result<'t>(
    source: &Source<'_>,
    tokens: &'t [Token],
) -> Result<(Option<TypeName>, &'t [Token]), ParseError>
    ensures { Parses source.now tokens.now result (spec.optional_result source.now.end) }
{
    if is(source, tokens, Symbol::Colon) {
        let (result, rest) = result_name(source, tokens)?;
        return Ok((Some(result), rest));
    }
    Ok((None, tokens))
}

#[tactic(auto, unfolding(crate::specs::Parts::function_heading))]
fn function_heading<'t>(
    source: &Source<'_>,
    tokens: &'t [Token],
    depth: u32,
) -> Result<(Heading, &'t [Token]), ParseError>
    ensures { Parses source.now tokens.now result (spec.function_heading source.now.end (types.formals source.now.end depth)) }
{
    let rest = expect_word(source, tokens, Word::KwFunction)?;
    let (name, rest) = identifier(source, rest)?;
    let (formals, rest) = optional_formals(source, rest, depth)?;
    let (result, rest) = optional_result(source, rest)?;
    let span = span_between(source, tokens, rest);
    let heading = Heading::Function {
        name,
        formals,
        result,
        span,
    };
    Ok((heading, rest))
}

#[tactic(auto, unfolding(crate::specs::Parts::heading))]
pub fn heading<'t>(
    source: &Source<'_>,
    tokens: &'t [Token],
    depth: u32,
) -> Result<(Heading, &'t [Token]), ParseError>
    ensures { Parses source.now tokens.now result (spec.heading source.now.end (types.formals source.now.end depth)) }
{
    if is_word(source, tokens, Word::KwFunction) {
        return function_heading(source, tokens, depth);
    }
    procedure_heading(source, tokens, depth)
}
