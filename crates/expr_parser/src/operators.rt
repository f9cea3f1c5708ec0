//! Operators.
ghost use Rattle.std.specs.Prelude.{◌≡◌};
ghost use Rattle.token_parsing.specs.Parser.{begins, next, one_of, rest};
ghost use Rattle.expr_parser.specs.Parsing.{Parses};
ghost use Rattle.expr_parser.specs.Tokens.{seen};
ghost use Rattle.expr_parser.specs.Classes as spec;

use crate::source::Source;
use dialect_lexer::{Symbol, Token, TokenKind, Word};
use pascal_tree::{Adding, Multiplying, Relation, Sign};
use token_parsing::refusal::{ParseError, unexpected};

fn sign_of(symbol: Symbol) -> Option<Sign>
    ensures { result ≡ spec.sign_of symbol }
{
    match symbol {
        Symbol::Plus => Some(Sign::Plus),
        Symbol::Minus => Some(Sign::Minus),
        _ => None,
    }
}

fn relation_of_symbol(symbol: Symbol) -> Option<Relation>
    ensures { result ≡ spec.relation_of_symbol symbol }
{
    match symbol {
        Symbol::Equal => Some(Relation::Equal),
        Symbol::NotEqual => Some(Relation::NotEqual),
        Symbol::Less => Some(Relation::Less),
        Symbol::Greater => Some(Relation::Greater),
        Symbol::AtMost => Some(Relation::AtMost),
        Symbol::AtLeast => Some(Relation::AtLeast),
        _ => None,
    }
}

fn relation_of_word(word: Word) -> Option<Relation>
    ensures { result ≡ spec.relation_of_word word }
{
    match word {
        Word::KwIn => Some(Relation::In),
        _ => None,
    }
}

fn adding_of_symbol(symbol: Symbol) -> Option<Adding>
    ensures { result ≡ spec.adding_of_symbol symbol }
{
    match symbol {
        Symbol::Plus => Some(Adding::Add),
        Symbol::Minus => Some(Adding::Subtract),
        _ => None,
    }
}

fn adding_of_word(word: Word) -> Option<Adding>
    ensures { result ≡ spec.adding_of_word word }
{
    match word {
        Word::KwOr => Some(Adding::Or),
        Word::KwXor => Some(Adding::Xor),
        _ => None,
    }
}

fn multiplying_of_symbol(symbol: Symbol) -> Option<Multiplying>
    ensures { result ≡ spec.multiplying_of_symbol symbol }
{
    match symbol {
        Symbol::Star => Some(Multiplying::Multiply),
        Symbol::Slash => Some(Multiplying::Divide),
        _ => None,
    }
}

fn multiplying_of_word(word: Word) -> Option<Multiplying>
    ensures { result ≡ spec.multiplying_of_word word }
{
    match word {
        Word::KwDiv => Some(Multiplying::Div),
        Word::KwMod => Some(Multiplying::Mod),
        Word::KwAnd => Some(Multiplying::And),
        Word::KwShl => Some(Multiplying::Shl),
        Word::KwShr => Some(Multiplying::Shr),
        _ => None,
    }
}

/// The tokens after the next.
pub fn after<'t>(source: &Source<'_>, tokens: &'t [Token]) -> &'t [Token]
    ensures { seen source.now.bytes.now result.now ≡ rest (seen source.now.bytes.now tokens.now) }
{
    match tokens {
        [] => tokens,
        [_, behind @ ..] => behind,
    }
}

fn next_sign(source: &Source<'_>, tokens: &[Token]) -> Option<Sign>
    ensures { result ≡ next spec.signs (seen source.now.bytes.now tokens.now) }
{
    match tokens {
        [
            Token {
                kind: TokenKind::Symbol(found),
                ..
            },
            ..
        ] => sign_of(*found),
        _ => None,
    }
}

/// Whether a sign is next.
#[tactic(auto, unfolding(token_parsing::specs::Parser::begins))]
pub fn is_sign(source: &Source<'_>, tokens: &[Token]) -> bool
    ensures { result ≡ begins spec.signs (seen source.now.bytes.now tokens.now) }
{
    match next_sign(source, tokens) {
        Some(_) => true,
        None => false,
    }
}

/// A sign, and the tokens after it.
#[tactic(auto, unfolding(token_parsing::specs::Parser::one_of))]
pub fn sign<'t>(source: &Source<'_>, tokens: &'t [Token]) -> Result<(Sign, &'t [Token]), ParseError>
    ensures { Parses source.now tokens.now result (one_of spec.signs) }
{
    match next_sign(source, tokens) {
        Some(operator) => Ok((operator, after(source, tokens))),
        None => Err(unexpected(tokens)),
    }
}

fn next_relation(source: &Source<'_>, tokens: &[Token]) -> Option<Relation>
    ensures { result ≡ next spec.relations (seen source.now.bytes.now tokens.now) }
{
    match tokens {
        [
            Token {
                kind: TokenKind::Symbol(found),
                ..
            },
            ..
        ] => relation_of_symbol(*found),
        [
            Token {
                kind: TokenKind::Word(found),
                ..
            },
            ..
        ] => relation_of_word(*found),
        _ => None,
    }
}

/// Whether a relation is next.
#[tactic(auto, unfolding(token_parsing::specs::Parser::begins))]
pub fn is_relation(source: &Source<'_>, tokens: &[Token]) -> bool
    ensures { result ≡ begins spec.relations (seen source.now.bytes.now tokens.now) }
{
    match next_relation(source, tokens) {
        Some(_) => true,
        None => false,
    }
}

/// A relation, and the tokens after it.
#[tactic(auto, unfolding(token_parsing::specs::Parser::one_of))]
pub fn relation<'t>(
    source: &Source<'_>,
    tokens: &'t [Token],
) -> Result<(Relation, &'t [Token]), ParseError>
    ensures { Parses source.now tokens.now result (one_of spec.relations) }
{
    match next_relation(source, tokens) {
        Some(operator) => Ok((operator, after(source, tokens))),
        None => Err(unexpected(tokens)),
    }
}

fn next_adding(source: &Source<'_>, tokens: &[Token]) -> Option<Adding>
    ensures { result ≡ next spec.addings (seen source.now.bytes.now tokens.now) }
{
    match tokens {
        [
            Token {
                kind: TokenKind::Symbol(found),
                ..
            },
            ..
        ] => adding_of_symbol(*found),
        [
            Token {
                kind: TokenKind::Word(found),
                ..
            },
            ..
        ] => adding_of_word(*found),
        _ => None,
    }
}

/// Whether an adding operator is next.
#[tactic(auto, unfolding(token_parsing::specs::Parser::begins))]
pub fn is_adding(source: &Source<'_>, tokens: &[Token]) -> bool
    ensures { result ≡ begins spec.addings (seen source.now.bytes.now tokens.now) }
{
    match next_adding(source, tokens) {
        Some(_) => true,
        None => false,
    }
}

/// An adding operator, and the tokens after it.
#[tactic(auto, unfolding(token_parsing::specs::Parser::one_of))]
pub fn adding<'t>(
    source: &Source<'_>,
    tokens: &'t [Token],
) -> Result<(Adding, &'t [Token]), ParseError>
    ensures { Parses source.now tokens.now result (one_of spec.addings) }
{
    match next_adding(source, tokens) {
        Some(operator) => Ok((operator, after(source, tokens))),
        None => Err(unexpected(tokens)),
    }
}

fn next_multiplying(source: &Source<'_>, tokens: &[Token]) -> Option<Multiplying>
    ensures { result ≡ next spec.multiplyings (seen source.now.bytes.now tokens.now) }
{
    match tokens {
        [
            Token {
                kind: TokenKind::Symbol(found),
                ..
            },
            ..
        ] => multiplying_of_symbol(*found),
        [
            Token {
                kind: TokenKind::Word(found),
                ..
            },
            ..
        ] => multiplying_of_word(*found),
        _ => None,
    }
}

/// Whether a multiplying operator is next.
#[tactic(auto, unfolding(token_parsing::specs::Parser::begins))]
pub fn is_multiplying(source: &Source<'_>, tokens: &[Token]) -> bool
    ensures { result ≡ begins spec.multiplyings (seen source.now.bytes.now tokens.now) }
{
    match next_multiplying(source, tokens) {
        Some(_) => true,
        None => false,
    }
}

/// A multiplying operator, and the tokens after it.
#[tactic(auto, unfolding(token_parsing::specs::Parser::one_of))]
pub fn multiplying<'t>(
    source: &Source<'_>,
    tokens: &'t [Token],
) -> Result<(Multiplying, &'t [Token]), ParseError>
    ensures { Parses source.now tokens.now result (one_of spec.multiplyings) }
{
    match next_multiplying(source, tokens) {
        Some(operator) => Ok((operator, after(source, tokens))),
        None => Err(unexpected(tokens)),
    }
}
