//! What stands before the parts of a statement.
ghost use Rattle.std.specs.Prelude.{◌≡◌};
ghost use Rattle.pascal_tree.specs.declared.statements.Plain.TheVariants as plain_;
ghost use Rattle.token_parsing.specs.Parser.{next, one_of};
ghost use Rattle.expr_parser.specs.Parsing.{Parses};
ghost use Rattle.expr_parser.specs.Tokens.{seen};
ghost use Rattle.expr_parser.specs.Expressions.{expr as expr_of};
ghost use Rattle.stmt_parser.specs.Classes as classes;
ghost use Rattle.stmt_parser.specs.Statements as spec;

use dialect_lexer::{Symbol, Token, TokenKind, Word};
use expr_parser::descent::{expr, place};
use expr_parser::operators::after;
use expr_parser::source::Source;
use expr_parser::step::{expect, expect_word, is, same};
use p2c_text::Span;
use pascal_tree::{Direction, Expr, Identifier, Places, Plain, Stmt};
use token_parsing::refusal::{ParseError, unexpected};
use tree_lists::{Boxed, Items};

/// The values that a `for` goes through.
#[derive(Drop)]
pub struct Limits {
    pub first: Boxed<Expr>,
    pub direction: Direction,
    pub last: Boxed<Expr>,
}

/// An expression, as a part of a statement.
pub fn boxed<'t>(
    source: &Source<'_>,
    tokens: &'t [Token],
    depth: u32,
) -> Result<(Boxed<Expr>, &'t [Token]), ParseError>
    ensures { Parses source.now tokens.now result (expr_of source.now.dialect source.now.end depth) }
{
    let (expr, rest) = expr(source, tokens, depth)?;
    let expr = Boxed::new(source.alloc, expr)?;
    Ok((expr, rest))
}

/// An expression between two words.
#[tactic(auto, unfolding(crate::specs::Statements::between))]
pub fn between<'t>(
    source: &Source<'_>,
    tokens: &'t [Token],
    depth: u32,
    opening: Word,
    closing: Word,
) -> Result<(Boxed<Expr>, &'t [Token]), ParseError>
    ensures { Parses source.now tokens.now result (spec.between opening closing (expr_of source.now.dialect source.now.end depth)) }
{
    let rest = expect_word(source, tokens, opening)?;
    let (expr, rest) = boxed(source, rest, depth)?;
    let rest = expect_word(source, rest, closing)?;
    Ok((expr, rest))
}

fn direction_of(word: Word) -> Option<Direction>
    ensures { result ≡ classes.direction_of word }
{
    match word {
        Word::KwTo => Some(Direction::Up),
        Word::KwDownto => Some(Direction::Down),
        _ => None,
    }
}

fn next_direction(source: &Source<'_>, tokens: &[Token]) -> Option<Direction>
    ensures { result ≡ next classes.directions (seen source.now.bytes.now tokens.now) }
{
    match tokens {
        [
            Token {
                kind: TokenKind::Word(found),
                ..
            },
            ..
        ] => direction_of(*found),
        _ => None,
    }
}

/// `to` or `downto`.
#[tactic(auto, unfolding(token_parsing::specs::Parser::one_of))]
fn direction<'t>(
    source: &Source<'_>,
    tokens: &'t [Token],
) -> Result<(Direction, &'t [Token]), ParseError>
    ensures { Parses source.now tokens.now result (one_of classes.directions) }
{
    match next_direction(source, tokens) {
        Some(direction) => Ok((direction, after(source, tokens))),
        None => Err(unexpected(tokens)),
    }
}

/// The values after the variable of a `for`, and `do`.
#[tactic(auto, unfolding(crate::specs::Statements::limits))]
pub fn for_limits<'t>(
    source: &Source<'_>,
    tokens: &'t [Token],
    depth: u32,
) -> Result<(Limits, &'t [Token]), ParseError>
    ensures { Parses source.now tokens.now result (spec.limits (expr_of source.now.dialect source.now.end depth)) }
{
    let rest = expect(source, tokens, Symbol::Assign)?;
    let (first, rest) = boxed(source, rest, depth)?;
    let (direction, rest) = direction(source, rest)?;
    let (last, rest) = boxed(source, rest, depth)?;
    let rest = expect_word(source, rest, Word::KwDo)?;
    Ok((
        Limits {
            first,
            direction,
            last,
        },
        rest,
    ))
}

/// The `for` over these values.
pub fn for_statement(variable: Identifier, limits: Limits, body: Boxed<Stmt>, span: Span) -> Plain
    ensures { result ≡ plain_.For variable limits.first limits.direction limits.last body span }
{
    let Limits {
        first,
        direction,
        last,
    } = limits;
    Plain::For {
        variable,
        first,
        direction,
        last,
        body,
        span,
    }
}

/// A place after a comma, behind those before it.
#[tactic(auto, unfolding(crate::specs::Statements::next_place))]
fn next_place<'t>(
    source: &Source<'_>,
    tokens: &'t [Token],
    depth: u32,
    all: Places,
) -> Result<(Places, &'t [Token]), ParseError>
    ensures { Parses source.now tokens.now result (spec.next_place source.now.end (expr_of source.now.dialect source.now.end depth) all) }
{
    let mut all = all;
    let rest = expect(source, tokens, Symbol::Comma)?;
    let (item, rest) = place(source, rest, depth)?;
    all.push(item)?;
    Ok((all, rest))
}

/// The places after the first.
fn more_places<'t>(
    source: &Source<'_>,
    tokens: &'t [Token],
    depth: u32,
    first: Places,
) -> Result<(Places, &'t [Token]), ParseError>
    ensures { Parses source.now tokens.now result (spec.more_places source.now.end (expr_of source.now.dialect source.now.end depth) first) }
{
    let mut all = first;
    let mut rest = tokens;
    for _turn in 0..tokens.len() {
        if !is(source, rest, Symbol::Comma) {
            return Ok((all, rest));
        }
        let (longer, behind) = next_place(source, rest, depth, all)?;
        all = longer;
        rest = same(behind);
    }
    Ok((all, rest))
}

/// The places of a `with`, with commas between them.
#[tactic(auto, unfolding(crate::specs::Statements::places))]
pub fn places<'t>(
    source: &Source<'_>,
    tokens: &'t [Token],
    depth: u32,
) -> Result<(Places, &'t [Token]), ParseError>
    ensures { Parses source.now tokens.now result (spec.places source.now.end (expr_of source.now.dialect source.now.end depth)) }
{
    let (item, rest) = place(source, tokens, depth)?;
    let mut first = Items::new(source.alloc);
    first.push(item)?;
    more_places(source, rest, depth, first)
}
