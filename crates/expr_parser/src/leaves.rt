//! Parts without expressions in them.
ghost use Rattle.std.specs.Prelude.{◌≡◌};
ghost use Rattle.token_parsing.specs.Parser.{one_of};
ghost use Rattle.expr_parser.specs.Parsing.{Parses};
ghost use Rattle.expr_parser.specs.Tokens.{seen};
ghost use Rattle.expr_parser.specs.Classes as classes;
ghost use Rattle.expr_parser.specs.Places as places;
ghost use Rattle.expr_parser.specs.Factors as factors;
ghost use Rattle.expr_parser.specs.Expressions as expressions;

use crate::operators::{is_sign, sign};
use crate::source::{Source, span_between, spelling};
use crate::step::{expect, expect_word, identifier, is, is_word};
use crate::texts::text_bytes;
use dialect_lexer::{Symbol, Token, TokenKind, Word};
use p2c_text::Dialect;
use pascal_tree::{Arg, Factor, Selector, Sign, TextBytes};
use token_parsing::refusal::{ParseError, unexpected};

/// The value of a number, and the tokens after it.
#[tactic(auto, unfolding(token_parsing::specs::Parser::one_of))]
pub fn value<'t>(source: &Source<'_>, tokens: &'t [Token]) -> Result<(i64, &'t [Token]), ParseError>
    ensures { Parses source.now tokens.now result (one_of classes.numbers) }
{
    match tokens {
        [
            Token {
                kind: TokenKind::Number(value),
                ..
            },
            behind @ ..,
        ] => Ok((*value, behind)),
        _ => Err(unexpected(tokens)),
    }
}

/// The bytes that a text stands for, and the tokens after it.
#[tactic(auto, unfolding(token_parsing::specs::Parser::one_of))]
pub fn bytes<'t>(
    source: &Source<'_>,
    tokens: &'t [Token],
) -> Result<(TextBytes, &'t [Token]), ParseError>
    ensures { Parses source.now tokens.now result (one_of classes.texts) }
{
    match tokens {
        [
            Token {
                kind: TokenKind::Text,
                span,
            },
            behind @ ..,
        ] => Ok((
            text_bytes(source.alloc, spelling(source.bytes, *span))?,
            behind,
        )),
        _ => Err(unexpected(tokens)),
    }
}

#[tactic(auto, unfolding(crate::specs::Factors::number))]
pub fn number<'t>(
    source: &Source<'_>,
    tokens: &'t [Token],
) -> Result<(Factor, &'t [Token]), ParseError>
    ensures { Parses source.now tokens.now result (factors.number source.now.end) }
{
    let (value, rest) = value(source, tokens)?;
    let span = span_between(source, tokens, rest);
    Ok((Factor::Number { value, span }, rest))
}

#[tactic(auto, unfolding(crate::specs::Factors::text))]
pub fn text<'t>(
    source: &Source<'_>,
    tokens: &'t [Token],
) -> Result<(Factor, &'t [Token]), ParseError>
    ensures { Parses source.now tokens.now result (factors.text source.now.end) }
{
    let (bytes, rest) = bytes(source, tokens)?;
    let span = span_between(source, tokens, rest);
    Ok((Factor::Text { bytes, span }, rest))
}

#[tactic(auto, unfolding(crate::specs::Factors::nil))]
pub fn nil<'t>(
    source: &Source<'_>,
    tokens: &'t [Token],
) -> Result<(Factor, &'t [Token]), ParseError>
    ensures { Parses source.now tokens.now result (factors.nil source.now.end) }
{
    let rest = expect_word(source, tokens, Word::KwNil)?;
    let span = span_between(source, tokens, rest);
    Ok((Factor::Nil(span), rest))
}

/// `.name`.
#[tactic(auto, unfolding(crate::specs::Places::field))]
pub fn field<'t>(
    source: &Source<'_>,
    tokens: &'t [Token],
) -> Result<(Selector, &'t [Token]), ParseError>
    ensures { Parses source.now tokens.now result (places.field source.now.end) }
{
    let rest = expect(source, tokens, Symbol::Dot)?;
    let (name, rest) = identifier(source, rest)?;
    let span = span_between(source, tokens, rest);
    Ok((Selector::Field { name, span }, rest))
}

/// `^`.
#[tactic(auto, unfolding(crate::specs::Places::follow))]
pub fn follow<'t>(
    source: &Source<'_>,
    tokens: &'t [Token],
) -> Result<(Selector, &'t [Token]), ParseError>
    ensures { Parses source.now tokens.now result (places.follow source.now.end) }
{
    let rest = expect(source, tokens, Symbol::Caret)?;
    let span = span_between(source, tokens, rest);
    Ok((Selector::Follow(span), rest))
}

/// Whether a selector is next.
pub fn is_selector(source: &Source<'_>, tokens: &[Token]) -> bool
    ensures { result ≡ places.begins_selector (seen source.now.bytes.now tokens.now) }
{
    is(source, tokens, Symbol::Dot)
        || is(source, tokens, Symbol::Caret)
        || is(source, tokens, Symbol::OpenBracket)
}

/// Whether `program` is next, in UCSD.
pub fn is_program(source: &Source<'_>, tokens: &[Token]) -> bool
    ensures { result ≡ places.begins_program source.now.dialect (seen source.now.bytes.now tokens.now) }
{
    match source.dialect {
        Dialect::Ucsd => is_word(source, tokens, Word::KwProgram),
        Dialect::Iso | Dialect::Turbo | Dialect::Hp => false,
    }
}

/// The argument `program`.
#[tactic(auto, unfolding(crate::specs::Places::program_arg))]
pub fn program_arg<'t>(
    source: &Source<'_>,
    tokens: &'t [Token],
) -> Result<(Arg, &'t [Token]), ParseError>
    ensures { Parses source.now tokens.now result (places.program_arg source.now.end) }
{
    let rest = expect_word(source, tokens, Word::KwProgram)?;
    let span = span_between(source, tokens, rest);
    Ok((Arg::Program(span), rest))
}

/// A sign, if one is next.
#[tactic(auto, unfolding(crate::specs::Expressions::optional_sign))]
pub fn optional_sign<'t>(
    source: &Source<'_>,
    tokens: &'t [Token],
) -> Result<(Option<Sign>, &'t [Token]), ParseError>
    ensures { Parses source.now tokens.now result expressions.optional_sign }
{
    if is_sign(source, tokens) {
        let (sign, rest) = sign(source, tokens)?;
        return Ok((Some(sign), rest));
    }
    Ok((None, tokens))
}
