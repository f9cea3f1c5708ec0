//! Parts of lists of fields that have no types in them.
ghost use Rattle.std.specs.Prelude.{◌≡◌};
ghost use Rattle.expr_parser.specs.Parsing.{Parses};
ghost use Rattle.expr_parser.specs.Tokens.{seen};
ghost use Rattle.type_parser.specs.Fields as spec;

use crate::names::type_name;
use dialect_lexer::{Symbol, Token, Word};
use expr_parser::constants::is_constant;
use expr_parser::operators::after;
use expr_parser::source::{Source, span_between};
use expr_parser::step::{expect, expect_word, identifier, is, is_identifier, is_word};
use pascal_tree::{Fields, Identifier, TypeName};
use token_parsing::refusal::ParseError;

/// Whether another section of the fixed part is next, after a semicolon.
pub fn is_next_section(source: &Source<'_>, tokens: &[Token]) -> bool
    ensures { result ≡ spec.begins_next_section (seen source.now.bytes.now tokens.now) }
{
    is(source, tokens, Symbol::Semicolon) && is_identifier(source, after(source, tokens))
}

/// Whether another variant is next, after a semicolon.
pub fn is_next_variant(source: &Source<'_>, tokens: &[Token]) -> bool
    ensures { result ≡ spec.begins_next_variant (seen source.now.bytes.now tokens.now) }
{
    is(source, tokens, Symbol::Semicolon) && is_constant(source, after(source, tokens))
}

/// Whether variants are next, after a semicolon.
pub fn is_more_variants(source: &Source<'_>, tokens: &[Token]) -> bool
    ensures { result ≡ spec.begins_more_variants (seen source.now.bytes.now tokens.now) }
{
    is(source, tokens, Symbol::Semicolon) && is_word(source, after(source, tokens), Word::KwCase)
}

fn is_tag(source: &Source<'_>, tokens: &[Token]) -> bool
    ensures { result ≡ spec.begins_tag (seen source.now.bytes.now tokens.now) }
{
    is_identifier(source, tokens) && is(source, after(source, tokens), Symbol::Colon)
}

/// The name of a tag and its colon, if they are next.
#[tactic(auto, unfolding(crate::specs::Fields::optional_tag))]
fn optional_tag<'t>(
    source: &Source<'_>,
    tokens: &'t [Token],
) -> Result<(Option<Identifier>, &'t [Token]), ParseError>
    ensures { Parses source.now tokens.now result spec.optional_tag }
{
    if is_tag(source, tokens) {
        let (name, rest) = identifier(source, tokens)?;
        let rest = expect(source, rest, Symbol::Colon)?;
        return Ok((Some(name), rest));
    }
    Ok((None, tokens))
}

/// What stands before the variants: the tag and its type.
#[tactic(auto, unfolding(crate::specs::Fields::selector))]
pub fn selector<'t>(
    source: &Source<'_>,
    tokens: &'t [Token],
) -> Result<((Option<Identifier>, TypeName), &'t [Token]), ParseError>
    ensures { Parses source.now tokens.now result (spec.selector source.now.end) }
{
    let rest = expect_word(source, tokens, Word::KwCase)?;
    let (tag, rest) = optional_tag(source, rest)?;
    let (of, rest) = type_name(source, rest)?;
    let rest = expect_word(source, rest, Word::KwOf)?;
    Ok(((tag, of), rest))
}

/// Whether a semicolon is next, and the tokens after it.
#[tactic(auto, unfolding(crate::specs::Fields::optional_semicolon))]
pub fn optional_semicolon<'t>(
    source: &Source<'_>,
    tokens: &'t [Token],
) -> Result<(bool, &'t [Token]), ParseError>
    ensures { Parses source.now tokens.now result spec.optional_semicolon }
{
    if is(source, tokens, Symbol::Semicolon) {
        let rest = expect(source, tokens, Symbol::Semicolon)?;
        return Ok((true, rest));
    }
    Ok((false, tokens))
}

/// The list without fields.
#[tactic(auto, unfolding(crate::specs::Fields::no_fields))]
pub fn no_fields<'t>(
    source: &Source<'_>,
    tokens: &'t [Token],
) -> Result<(Fields, &'t [Token]), ParseError>
    ensures { Parses source.now tokens.now result (spec.no_fields source.now.end) }
{
    let span = span_between(source, tokens, tokens);
    let fields = Fields {
        fixed: None,
        variants: None,
        closed: false,
        span,
    };
    Ok((fields, tokens))
}
