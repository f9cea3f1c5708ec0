//! Types without types in them.
ghost use Rattle.std.specs.Prelude.{◌≡◌};
ghost use Rattle.token_parsing.specs.Parser.{begins};
ghost use Rattle.expr_parser.specs.Parsing.{Parses};
ghost use Rattle.expr_parser.specs.Tokens.{seen};
ghost use Rattle.type_parser.specs.Types as spec;

use crate::names::names;
use dialect_lexer::{Symbol, Token, TokenKind, Word};
use expr_parser::constants::constant;
use expr_parser::operators::after;
use expr_parser::source::{Source, span_between};
use expr_parser::step::{expect, expect_word, identifier, is, is_identifier, is_word};
use pascal_tree::{Constant, TypeNode};
use token_parsing::refusal::ParseError;

/// `^name`.
#[tactic(auto, unfolding(crate::specs::Types::pointer))]
fn pointer<'t>(
    source: &Source<'_>,
    tokens: &'t [Token],
) -> Result<(TypeNode, &'t [Token]), ParseError>
    ensures { Parses source.now tokens.now result (spec.pointer source.now.end) }
{
    let rest = expect(source, tokens, Symbol::Caret)?;
    let (domain, rest) = identifier(source, rest)?;
    let span = span_between(source, tokens, rest);
    Ok((TypeNode::Pointer { domain, span }, rest))
}

/// Names in parentheses.
#[tactic(auto, unfolding(crate::specs::Types::enumeration))]
fn enumeration<'t>(
    source: &Source<'_>,
    tokens: &'t [Token],
) -> Result<(TypeNode, &'t [Token]), ParseError>
    ensures { Parses source.now tokens.now result (spec.enumeration source.now.end) }
{
    let rest = expect(source, tokens, Symbol::Open)?;
    let (names, rest) = names(source, rest)?;
    let rest = expect(source, rest, Symbol::Close)?;
    let span = span_between(source, tokens, rest);
    Ok((TypeNode::Enumeration { names, span }, rest))
}

/// `first..last`.
#[tactic(auto, unfolding(crate::specs::Types::subrange))]
fn subrange<'t>(
    source: &Source<'_>,
    tokens: &'t [Token],
) -> Result<(TypeNode, &'t [Token]), ParseError>
    ensures { Parses source.now tokens.now result (spec.subrange source.now.end) }
{
    let (first, rest) = constant(source, tokens)?;
    let rest = expect(source, rest, Symbol::DotDot)?;
    let (last, rest) = constant(source, rest)?;
    let span = span_between(source, tokens, rest);
    Ok((TypeNode::Subrange { first, last, span }, rest))
}

#[tactic(auto, unfolding(crate::specs::Types::named))]
fn named<'t>(
    source: &Source<'_>,
    tokens: &'t [Token],
) -> Result<(TypeNode, &'t [Token]), ParseError>
    ensures { Parses source.now tokens.now result spec.named }
{
    let (name, rest) = identifier(source, tokens)?;
    Ok((TypeNode::Name(name), rest))
}

/// The limit of a string type, if one is next.
#[tactic(auto, unfolding(crate::specs::Types::optional_limit))]
fn optional_limit<'t>(
    source: &Source<'_>,
    tokens: &'t [Token],
) -> Result<(Option<Constant>, &'t [Token]), ParseError>
    ensures { Parses source.now tokens.now result (spec.optional_limit source.now.end) }
{
    if is(source, tokens, Symbol::OpenBracket) {
        let rest = expect(source, tokens, Symbol::OpenBracket)?;
        let (limit, rest) = constant(source, rest)?;
        let rest = expect(source, rest, Symbol::CloseBracket)?;
        return Ok((Some(limit), rest));
    }
    Ok((None, tokens))
}

#[tactic(auto, unfolding(crate::specs::Types::string_type))]
fn string_type<'t>(
    source: &Source<'_>,
    tokens: &'t [Token],
) -> Result<(TypeNode, &'t [Token]), ParseError>
    ensures { Parses source.now tokens.now result (spec.string_type source.now.end) }
{
    let rest = expect_word(source, tokens, Word::KwString)?;
    let (limit, rest) = optional_limit(source, rest)?;
    let span = span_between(source, tokens, rest);
    Ok((TypeNode::String { limit, span }, rest))
}

/// Whether a name is next that is no first constant of a subrange.
fn is_name_alone(source: &Source<'_>, tokens: &[Token]) -> bool
    ensures { result ≡ spec.begins_name_alone (seen source.now.bytes.now tokens.now) }
{
    is_identifier(source, tokens) && !is(source, after(source, tokens), Symbol::DotDot)
}

/// A type without types in it.
#[tactic(auto, unfolding(crate::specs::Types::simple_type))]
pub fn simple_type<'t>(
    source: &Source<'_>,
    tokens: &'t [Token],
) -> Result<(TypeNode, &'t [Token]), ParseError>
    ensures { Parses source.now tokens.now result (spec.simple_type source.now.end) }
{
    if is_name_alone(source, tokens) {
        return named(source, tokens);
    }
    if is(source, tokens, Symbol::Caret) {
        return pointer(source, tokens);
    }
    if is(source, tokens, Symbol::Open) {
        return enumeration(source, tokens);
    }
    if is_word(source, tokens, Word::KwString) {
        return string_type(source, tokens);
    }
    subrange(source, tokens)
}

/// Whether `packed` is next, and the tokens after it.
#[tactic(auto, unfolding(crate::specs::Types::optional_packed))]
pub fn optional_packed<'t>(
    source: &Source<'_>,
    tokens: &'t [Token],
) -> Result<(bool, &'t [Token]), ParseError>
    ensures { Parses source.now tokens.now result spec.optional_packed }
{
    if is_word(source, tokens, Word::KwPacked) {
        let rest = expect_word(source, tokens, Word::KwPacked)?;
        return Ok((true, rest));
    }
    Ok((false, tokens))
}

fn is_struct_word(word: Word) -> Option<()>
    ensures { result ≡ spec.struct_word_of word }
{
    match word {
        Word::KwPacked | Word::KwArray | Word::KwRecord | Word::KwSet | Word::KwFile => Some(()),
        _ => None,
    }
}

/// Whether a type with parts is next.
#[tactic(auto, unfolding(token_parsing::specs::Parser::begins))]
pub fn is_structured(source: &Source<'_>, tokens: &[Token]) -> bool
    ensures { result ≡ begins spec.struct_words (seen source.now.bytes.now tokens.now) }
{
    match tokens {
        [
            Token {
                kind: TokenKind::Word(found),
                ..
            },
            ..
        ] => is_struct_word(*found).is_some(),
        _ => false,
    }
}
