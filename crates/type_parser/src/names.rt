//! Lists of names, and names of types.
ghost use Rattle.std.specs.Prelude.{◌≡◌};
ghost use Rattle.expr_parser.specs.Parsing.{Parses};
ghost use Rattle.type_parser.specs.Names as spec;

use dialect_lexer::{Symbol, Token, Word};
use expr_parser::source::{Source, span_between};
use expr_parser::step::{expect, expect_word, identifier, is, is_identifier, same};
use pascal_tree::{Identifiers, TypeName};
use token_parsing::refusal::ParseError;
use tree_lists::Items;

/// A name after a comma, behind those before it.
#[tactic(auto, unfolding(crate::specs::Names::next_name))]
fn next_name<'t>(
    source: &Source<'_>,
    tokens: &'t [Token],
    all: Identifiers,
) -> Result<(Identifiers, &'t [Token]), ParseError>
    ensures { Parses source.now tokens.now result (spec.next_name all) }
{
    let mut all = all;
    let rest = expect(source, tokens, Symbol::Comma)?;
    let (item, rest) = identifier(source, rest)?;
    all.push(item)?;
    Ok((all, rest))
}

/// The names after the first.
fn more_names<'t>(
    source: &Source<'_>,
    tokens: &'t [Token],
    first: Identifiers,
) -> Result<(Identifiers, &'t [Token]), ParseError>
    ensures { Parses source.now tokens.now result (spec.more_names first) }
{
    let mut all = first;
    let mut rest = tokens;
    for _turn in 0..tokens.len() {
        if !is(source, rest, Symbol::Comma) {
            return Ok((all, rest));
        }
        let (longer, behind) = next_name(source, rest, all)?;
        all = longer;
        rest = same(behind);
    }
    Ok((all, rest))
}

/// Names with commas between them, one at least.
#[tactic(auto, unfolding(crate::specs::Names::names))]
pub fn names<'t>(
    source: &Source<'_>,
    tokens: &'t [Token],
) -> Result<(Identifiers, &'t [Token]), ParseError>
    ensures { Parses source.now tokens.now result spec.names }
{
    let (item, rest) = identifier(source, tokens)?;
    let mut first = Items::new(source.alloc);
    first.push(item)?;
    more_names(source, rest, first)
}

/// The word `string`.
#[tactic(auto, unfolding(crate::specs::Names::string_name))]
fn string_name<'t>(
    source: &Source<'_>,
    tokens: &'t [Token],
) -> Result<(TypeName, &'t [Token]), ParseError>
    ensures { Parses source.now tokens.now result (spec.string_name source.now.end) }
{
    let rest = expect_word(source, tokens, Word::KwString)?;
    let span = span_between(source, tokens, rest);
    Ok((TypeName::String(span), rest))
}

/// The name of a type.
#[tactic(auto, unfolding(crate::specs::Names::type_name))]
pub fn type_name<'t>(
    source: &Source<'_>,
    tokens: &'t [Token],
) -> Result<(TypeName, &'t [Token]), ParseError>
    ensures { Parses source.now tokens.now result (spec.type_name source.now.end) }
{
    if is_identifier(source, tokens) {
        let (name, rest) = identifier(source, tokens)?;
        return Ok((TypeName::Name(name), rest));
    }
    string_name(source, tokens)
}
