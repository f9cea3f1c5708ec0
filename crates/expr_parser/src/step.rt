//! The next token.
ghost use Rattle.std.specs.Prelude.{◌≡◌};
ghost use Rattle.token_parsing.specs.Parser.{Gives, begins, one_of};
ghost use Rattle.expr_parser.specs.Parsing.{Parses};
ghost use Rattle.expr_parser.specs.Tokens.{seen};
ghost use Rattle.expr_parser.specs.Classes.{same_word, same_symbol};
ghost use Rattle.expr_parser.specs.Classes as spec;

use crate::source::{Source, spelling};
use dialect_lexer::{Symbol, Token, TokenKind, Word};
use p2c_text::name_of;
use pascal_tree::Identifier;
use token_parsing::refusal::{ParseError, unexpected};

#[tactic(auto, unfolding(crate::specs::Classes::same_symbol))]
fn are_same_symbols(found: Symbol, wanted: Symbol) -> bool
    ensures { result ≡ same_symbol found wanted }
{
    found == wanted
}

#[tactic(auto, unfolding(crate::specs::Classes::same_word))]
fn are_same_words(found: Word, wanted: Word) -> bool
    ensures { result ≡ same_word found wanted }
{
    found == wanted
}

/// Whether this symbol is next.
#[tactic(auto, unfolding(token_parsing::specs::Parser::begins))]
pub fn is(source: &Source<'_>, tokens: &[Token], wanted: Symbol) -> bool
    ensures { result ≡ begins (spec.symbols wanted) (seen source.now.bytes.now tokens.now) }
{
    match tokens {
        [
            Token {
                kind: TokenKind::Symbol(found),
                ..
            },
            ..
        ] => are_same_symbols(*found, wanted),
        _ => false,
    }
}

/// Whether this word is next.
#[tactic(auto, unfolding(token_parsing::specs::Parser::begins))]
pub fn is_word(source: &Source<'_>, tokens: &[Token], wanted: Word) -> bool
    ensures { result ≡ begins (spec.words wanted) (seen source.now.bytes.now tokens.now) }
{
    match tokens {
        [
            Token {
                kind: TokenKind::Word(found),
                ..
            },
            ..
        ] => are_same_words(*found, wanted),
        _ => false,
    }
}

/// Whether a name is next.
#[tactic(auto, unfolding(token_parsing::specs::Parser::begins))]
pub fn is_identifier(source: &Source<'_>, tokens: &[Token]) -> bool
    ensures { result ≡ begins spec.identifiers (seen source.now.bytes.now tokens.now) }
{
    match tokens {
        [
            Token {
                kind: TokenKind::Name,
                ..
            },
            ..
        ] => true,
        _ => false,
    }
}

/// Whether a number is next.
#[tactic(auto, unfolding(token_parsing::specs::Parser::begins))]
pub fn is_number(source: &Source<'_>, tokens: &[Token]) -> bool
    ensures { result ≡ begins spec.numbers (seen source.now.bytes.now tokens.now) }
{
    match tokens {
        [
            Token {
                kind: TokenKind::Number(_),
                ..
            },
            ..
        ] => true,
        _ => false,
    }
}

/// Whether a text is next.
#[tactic(auto, unfolding(token_parsing::specs::Parser::begins))]
pub fn is_text(source: &Source<'_>, tokens: &[Token]) -> bool
    ensures { result ≡ begins spec.texts (seen source.now.bytes.now tokens.now) }
{
    match tokens {
        [
            Token {
                kind: TokenKind::Text,
                ..
            },
            ..
        ] => true,
        _ => false,
    }
}

/// The tokens after this symbol.
#[tactic(auto, unfolding(token_parsing::specs::Parser::one_of))]
pub fn expect<'t>(
    source: &Source<'_>,
    tokens: &'t [Token],
    wanted: Symbol,
) -> Result<&'t [Token], ParseError>
    ensures { Gives (λ x. (tt, seen source.now.bytes.now x.now)) result (spec.expect wanted (seen source.now.bytes.now tokens.now)) }
{
    match tokens {
        [
            Token {
                kind: TokenKind::Symbol(found),
                ..
            },
            behind @ ..,
        ] => {
            if are_same_symbols(*found, wanted) {
                Ok(behind)
            } else {
                Err(unexpected(tokens))
            }
        }
        _ => Err(unexpected(tokens)),
    }
}

/// The tokens after this word.
#[tactic(auto, unfolding(token_parsing::specs::Parser::one_of))]
pub fn expect_word<'t>(
    source: &Source<'_>,
    tokens: &'t [Token],
    wanted: Word,
) -> Result<&'t [Token], ParseError>
    ensures { Gives (λ x. (tt, seen source.now.bytes.now x.now)) result (spec.expect_word wanted (seen source.now.bytes.now tokens.now)) }
{
    match tokens {
        [
            Token {
                kind: TokenKind::Word(found),
                ..
            },
            behind @ ..,
        ] => {
            if are_same_words(*found, wanted) {
                Ok(behind)
            } else {
                Err(unexpected(tokens))
            }
        }
        _ => Err(unexpected(tokens)),
    }
}

/// A name, and the tokens after it.
#[tactic(auto, unfolding(token_parsing::specs::Parser::one_of))]
pub fn identifier<'t>(
    source: &Source<'_>,
    tokens: &'t [Token],
) -> Result<(Identifier, &'t [Token]), ParseError>
    ensures { Parses source.now tokens.now result (one_of spec.identifiers) }
{
    match tokens {
        [
            Token {
                kind: TokenKind::Name,
                span,
            },
            behind @ ..,
        ] => {
            let name = name_of(source.alloc, spelling(source.bytes, *span))?;
            Ok((Identifier { name, span: *span }, behind))
        }
        _ => Err(unexpected(tokens)),
    }
}

/// The same tokens: a loop takes on what a `Result` gave by this call.
pub fn same<'t>(tokens: &'t [Token]) -> &'t [Token]
    ensures { result.now ≡ tokens.now }
{
    tokens
}
