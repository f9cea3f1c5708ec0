//! Statements, by recursive descent. `depth` is how many levels may still nest; a statement is one.
ghost use Rattle.std.specs.Prelude.{◌≡◌};
ghost use Rattle.expr_parser.specs.Parsing.{Parses};
ghost use Rattle.expr_parser.specs.Expressions as expressions;
ghost use Rattle.stmt_parser.specs.Statements as statements;
ghost use Rattle.stmt_parser.specs.Cases as cases;
ghost use Rattle.stmt_parser.specs.Levels as levels;

use crate::headers::{between, boxed, for_limits, for_statement, places};
use crate::rests::{is_next_arm, is_rest, optional_semicolon, rest_word};
use crate::simple::{goto_label, named, nothing};
use dialect_lexer::{Symbol, Token, Word};
use expr_parser::constants::{case_labels, optional_label};
use expr_parser::source::{Source, span_between};
use expr_parser::step::{expect, expect_word, identifier, is, is_identifier, is_word, same};
use pascal_tree::{Arm, Arms, Plain, Rest, Stmt, Stmts};
use token_parsing::refusal::{ParseError, too_deep};
use tree_lists::{Boxed, Items};

/// A statement after a semicolon, behind those before it.
#[tactic(auto, unfolding(crate::specs::Statements::next_stmt))]
#[cycle(descent)]
fn next_stmt<'t>(
    source: &Source<'_>,
    tokens: &'t [Token],
    depth: u32,
    all: Stmts,
) -> Result<(Stmts, &'t [Token]), ParseError>
    ensures { Parses source.now tokens.now result (statements.next_stmt (levels.stmt source.now.dialect source.now.end depth) all) }
{
    let mut all = all;
    let rest = expect(source, tokens, Symbol::Semicolon)?;
    let (item, rest) = stmt(source, rest, depth)?;
    all.push(item)?;
    Ok((all, rest))
}

/// The statements after the first.
#[cycle(descent)]
fn more_stmts<'t>(
    source: &Source<'_>,
    tokens: &'t [Token],
    depth: u32,
    first: Stmts,
) -> Result<(Stmts, &'t [Token]), ParseError>
    ensures { Parses source.now tokens.now result (statements.more_stmts (levels.stmt source.now.dialect source.now.end depth) first) }
{
    let mut all = first;
    let mut rest = tokens;
    for _turn in 0..tokens.len() {
        if !is(source, rest, Symbol::Semicolon) {
            return Ok((all, rest));
        }
        let (longer, behind) = next_stmt(source, rest, depth, all)?;
        all = longer;
        rest = same(behind);
    }
    Ok((all, rest))
}

/// Statements with semicolons between them.
#[tactic(auto, unfolding(crate::specs::Statements::stmts))]
#[cycle(descent)]
pub fn stmts<'t>(
    source: &Source<'_>,
    tokens: &'t [Token],
    depth: u32,
) -> Result<(Stmts, &'t [Token]), ParseError>
    ensures { Parses source.now tokens.now result (statements.stmts (levels.stmt source.now.dialect source.now.end depth)) }
{
    let (item, rest) = stmt(source, tokens, depth)?;
    let mut first = Items::new(source.alloc);
    first.push(item)?;
    more_stmts(source, rest, depth, first)
}

/// The statement in another one.
#[cycle(descent)]
fn body<'t>(
    source: &Source<'_>,
    tokens: &'t [Token],
    depth: u32,
) -> Result<(Boxed<Stmt>, &'t [Token]), ParseError>
    ensures { Parses source.now tokens.now result (levels.stmt source.now.dialect source.now.end depth) }
{
    let (stmt, rest) = stmt(source, tokens, depth)?;
    let stmt = Boxed::new(source.alloc, stmt)?;
    Ok((stmt, rest))
}

#[tactic(auto, unfolding(crate::specs::Statements::compound))]
#[cycle(descent)]
fn compound<'t>(
    source: &Source<'_>,
    tokens: &'t [Token],
    depth: u32,
) -> Result<(Plain, &'t [Token]), ParseError>
    ensures { Parses source.now tokens.now result (statements.compound source.now.end (levels.stmt source.now.dialect source.now.end depth)) }
{
    let rest = expect_word(source, tokens, Word::KwBegin)?;
    let (body, rest) = stmts(source, rest, depth)?;
    let rest = expect_word(source, rest, Word::KwEnd)?;
    let span = span_between(source, tokens, rest);
    Ok((Plain::Compound { body, span }, rest))
}

/// The statement after `else`, if that is next.
#[tactic(auto, unfolding(crate::specs::Statements::optional_else))]
#[cycle(descent)]
fn optional_else<'t>(
    source: &Source<'_>,
    tokens: &'t [Token],
    depth: u32,
) -> Result<(Option<Boxed<Stmt>>, &'t [Token]), ParseError>
    ensures { Parses source.now tokens.now result (statements.optional_else (levels.stmt source.now.dialect source.now.end depth)) }
{
    if is_word(source, tokens, Word::KwElse) {
        let rest = expect_word(source, tokens, Word::KwElse)?;
        let (stmt, rest) = body(source, rest, depth)?;
        return Ok((Some(stmt), rest));
    }
    Ok((None, tokens))
}

#[tactic(auto, unfolding(crate::specs::Statements::conditional))]
#[cycle(descent)]
fn conditional<'t>(
    source: &Source<'_>,
    tokens: &'t [Token],
    depth: u32,
) -> Result<(Plain, &'t [Token]), ParseError>
    ensures { Parses source.now tokens.now result (statements.conditional source.now.end (expressions.expr source.now.dialect source.now.end depth) (levels.stmt source.now.dialect source.now.end depth)) }
{
    let (condition, rest) = between(source, tokens, depth, Word::KwIf, Word::KwThen)?;
    let (yes, rest) = body(source, rest, depth)?;
    let (no, rest) = optional_else(source, rest, depth)?;
    let span = span_between(source, tokens, rest);
    Ok((
        Plain::If {
            condition,
            yes,
            no,
            span,
        },
        rest,
    ))
}

#[tactic(auto, unfolding(crate::specs::Statements::while_loop))]
#[cycle(descent)]
fn while_loop<'t>(
    source: &Source<'_>,
    tokens: &'t [Token],
    depth: u32,
) -> Result<(Plain, &'t [Token]), ParseError>
    ensures { Parses source.now tokens.now result (statements.while_loop source.now.end (expressions.expr source.now.dialect source.now.end depth) (levels.stmt source.now.dialect source.now.end depth)) }
{
    let (condition, rest) = between(source, tokens, depth, Word::KwWhile, Word::KwDo)?;
    let (body, rest) = body(source, rest, depth)?;
    let span = span_between(source, tokens, rest);
    Ok((
        Plain::While {
            condition,
            body,
            span,
        },
        rest,
    ))
}

#[tactic(auto, unfolding(crate::specs::Statements::repeat_loop))]
#[cycle(descent)]
fn repeat_loop<'t>(
    source: &Source<'_>,
    tokens: &'t [Token],
    depth: u32,
) -> Result<(Plain, &'t [Token]), ParseError>
    ensures { Parses source.now tokens.now result (statements.repeat_loop source.now.end (expressions.expr source.now.dialect source.now.end depth) (levels.stmt source.now.dialect source.now.end depth)) }
{
    let rest = expect_word(source, tokens, Word::KwRepeat)?;
    let (body, rest) = stmts(source, rest, depth)?;
    let rest = expect_word(source, rest, Word::KwUntil)?;
    let (until, rest) = boxed(source, rest, depth)?;
    let span = span_between(source, tokens, rest);
    Ok((Plain::Repeat { body, until, span }, rest))
}

#[tactic(auto, unfolding(crate::specs::Statements::for_loop))]
#[cycle(descent)]
fn for_loop<'t>(
    source: &Source<'_>,
    tokens: &'t [Token],
    depth: u32,
) -> Result<(Plain, &'t [Token]), ParseError>
    ensures { Parses source.now tokens.now result (statements.for_loop source.now.end (expressions.expr source.now.dialect source.now.end depth) (levels.stmt source.now.dialect source.now.end depth)) }
{
    let rest = expect_word(source, tokens, Word::KwFor)?;
    let (variable, rest) = identifier(source, rest)?;
    let (limits, rest) = for_limits(source, rest, depth)?;
    let (body, rest) = body(source, rest, depth)?;
    let span = span_between(source, tokens, rest);
    Ok((for_statement(variable, limits, body, span), rest))
}

#[tactic(auto, unfolding(crate::specs::Statements::with_places))]
#[cycle(descent)]
fn with_places<'t>(
    source: &Source<'_>,
    tokens: &'t [Token],
    depth: u32,
) -> Result<(Plain, &'t [Token]), ParseError>
    ensures { Parses source.now tokens.now result (statements.with_places source.now.end (expressions.expr source.now.dialect source.now.end depth) (levels.stmt source.now.dialect source.now.end depth)) }
{
    let rest = expect_word(source, tokens, Word::KwWith)?;
    let (places, rest) = places(source, rest, depth)?;
    let rest = expect_word(source, rest, Word::KwDo)?;
    let (body, rest) = body(source, rest, depth)?;
    let span = span_between(source, tokens, rest);
    Ok((Plain::With { places, body, span }, rest))
}

#[tactic(auto, unfolding(crate::specs::Statements::try_block))]
#[cycle(descent)]
fn try_block<'t>(
    source: &Source<'_>,
    tokens: &'t [Token],
    depth: u32,
) -> Result<(Plain, &'t [Token]), ParseError>
    ensures { Parses source.now tokens.now result (statements.try_block source.now.end (levels.stmt source.now.dialect source.now.end depth)) }
{
    let rest = expect_word(source, tokens, Word::KwTry)?;
    let (tried, rest) = stmts(source, rest, depth)?;
    let rest = expect_word(source, rest, Word::KwRecover)?;
    let (recover, rest) = body(source, rest, depth)?;
    let span = span_between(source, tokens, rest);
    Ok((
        Plain::Try {
            body: tried,
            recover,
            span,
        },
        rest,
    ))
}

#[tactic(auto, unfolding(crate::specs::Cases::arm))]
#[cycle(descent)]
fn arm<'t>(
    source: &Source<'_>,
    tokens: &'t [Token],
    depth: u32,
) -> Result<(Arm, &'t [Token]), ParseError>
    ensures { Parses source.now tokens.now result (cases.arm source.now.dialect source.now.end (levels.stmt source.now.dialect source.now.end depth)) }
{
    let (labels, rest) = case_labels(source, tokens)?;
    let rest = expect(source, rest, Symbol::Colon)?;
    let (body, rest) = stmt(source, rest, depth)?;
    let span = span_between(source, tokens, rest);
    Ok((Arm { labels, body, span }, rest))
}

/// An arm after a semicolon, behind those before it.
#[tactic(auto, unfolding(crate::specs::Cases::next_arm))]
#[cycle(descent)]
fn next_arm<'t>(
    source: &Source<'_>,
    tokens: &'t [Token],
    depth: u32,
    all: Arms,
) -> Result<(Arms, &'t [Token]), ParseError>
    ensures { Parses source.now tokens.now result (cases.next_arm source.now.dialect source.now.end (levels.stmt source.now.dialect source.now.end depth) all) }
{
    let mut all = all;
    let rest = expect(source, tokens, Symbol::Semicolon)?;
    let (item, rest) = arm(source, rest, depth)?;
    all.push(item)?;
    Ok((all, rest))
}

/// The arms after the first.
#[cycle(descent)]
fn more_arms<'t>(
    source: &Source<'_>,
    tokens: &'t [Token],
    depth: u32,
    first: Arms,
) -> Result<(Arms, &'t [Token]), ParseError>
    ensures { Parses source.now tokens.now result (cases.more_arms source.now.dialect source.now.end (levels.stmt source.now.dialect source.now.end depth) first) }
{
    let mut all = first;
    let mut rest = tokens;
    for _turn in 0..tokens.len() {
        if !is_next_arm(source, rest) {
            return Ok((all, rest));
        }
        let (longer, behind) = next_arm(source, rest, depth, all)?;
        all = longer;
        rest = same(behind);
    }
    Ok((all, rest))
}

/// Arms with semicolons between them.
#[tactic(auto, unfolding(crate::specs::Cases::arms))]
#[cycle(descent)]
fn arms<'t>(
    source: &Source<'_>,
    tokens: &'t [Token],
    depth: u32,
) -> Result<(Arms, &'t [Token]), ParseError>
    ensures { Parses source.now tokens.now result (cases.arms source.now.dialect source.now.end (levels.stmt source.now.dialect source.now.end depth)) }
{
    let (item, rest) = arm(source, tokens, depth)?;
    let mut first = Items::new(source.alloc);
    first.push(item)?;
    more_arms(source, rest, depth, first)
}

/// What a `case` does without a matching label.
#[tactic(auto, unfolding(crate::specs::Cases::rest_part))]
#[cycle(descent)]
fn rest_part<'t>(
    source: &Source<'_>,
    tokens: &'t [Token],
    depth: u32,
) -> Result<(Rest, &'t [Token]), ParseError>
    ensures { Parses source.now tokens.now result (cases.rest_part source.now.dialect source.now.end (levels.stmt source.now.dialect source.now.end depth)) }
{
    let rest = expect_word(source, tokens, rest_word(source.dialect))?;
    let (body, rest) = stmts(source, rest, depth)?;
    let span = span_between(source, tokens, rest);
    Ok((Rest { body, span }, rest))
}

#[tactic(auto, unfolding(crate::specs::Cases::optional_rest))]
#[cycle(descent)]
fn optional_rest<'t>(
    source: &Source<'_>,
    tokens: &'t [Token],
    depth: u32,
) -> Result<(Option<Rest>, &'t [Token]), ParseError>
    ensures { Parses source.now tokens.now result (cases.optional_rest source.now.dialect source.now.end (levels.stmt source.now.dialect source.now.end depth)) }
{
    if is_rest(source, tokens) {
        let (part, rest) = rest_part(source, tokens, depth)?;
        return Ok((Some(part), rest));
    }
    Ok((None, tokens))
}

#[tactic(auto, unfolding(crate::specs::Cases::case_of))]
#[cycle(descent)]
fn case_of<'t>(
    source: &Source<'_>,
    tokens: &'t [Token],
    depth: u32,
) -> Result<(Plain, &'t [Token]), ParseError>
    ensures { Parses source.now tokens.now result (cases.case_of source.now.dialect source.now.end (expressions.expr source.now.dialect source.now.end depth) (levels.stmt source.now.dialect source.now.end depth)) }
{
    let (selector, rest) = between(source, tokens, depth, Word::KwCase, Word::KwOf)?;
    let (arms, rest) = arms(source, rest, depth)?;
    let (closed, rest) = optional_semicolon(source, rest)?;
    let (otherwise, rest) = optional_rest(source, rest, depth)?;
    let rest = expect_word(source, rest, Word::KwEnd)?;
    let span = span_between(source, tokens, rest);
    Ok((
        Plain::Case {
            selector,
            arms,
            closed,
            rest: otherwise,
            span,
        },
        rest,
    ))
}

/// A statement that begins with the word of its kind, or is empty.
#[tactic(auto, unfolding(crate::specs::Levels::structured))]
#[cycle(descent)]
fn structured<'t>(
    source: &Source<'_>,
    tokens: &'t [Token],
    depth: u32,
) -> Result<(Plain, &'t [Token]), ParseError>
    ensures { Parses source.now tokens.now result (levels.structured source.now.dialect source.now.end (expressions.expr source.now.dialect source.now.end depth) (levels.stmt source.now.dialect source.now.end depth)) }
{
    if is_word(source, tokens, Word::KwBegin) {
        return compound(source, tokens, depth);
    }
    if is_word(source, tokens, Word::KwIf) {
        return conditional(source, tokens, depth);
    }
    if is_word(source, tokens, Word::KwCase) {
        return case_of(source, tokens, depth);
    }
    if is_word(source, tokens, Word::KwWhile) {
        return while_loop(source, tokens, depth);
    }
    if is_word(source, tokens, Word::KwRepeat) {
        return repeat_loop(source, tokens, depth);
    }
    if is_word(source, tokens, Word::KwFor) {
        return for_loop(source, tokens, depth);
    }
    if is_word(source, tokens, Word::KwWith) {
        return with_places(source, tokens, depth);
    }
    if is_word(source, tokens, Word::KwTry) {
        return try_block(source, tokens, depth);
    }
    nothing(source, tokens)
}

/// A statement without its label, whose parts have `depth` levels.
#[tactic(auto, unfolding(crate::specs::Levels::plain_by))]
#[cycle(descent)]
fn plain_by<'t>(
    source: &Source<'_>,
    tokens: &'t [Token],
    depth: u32,
) -> Result<(Plain, &'t [Token]), ParseError>
    ensures { Parses source.now tokens.now result (levels.plain_by source.now.dialect source.now.end (expressions.expr source.now.dialect source.now.end depth) (levels.stmt source.now.dialect source.now.end depth)) }
{
    if is_identifier(source, tokens) {
        return named(source, tokens, depth);
    }
    if is_word(source, tokens, Word::KwGoto) {
        return goto_label(source, tokens);
    }
    structured(source, tokens, depth)
}

/// A statement whose parts have `depth` levels.
#[tactic(auto, unfolding(crate::specs::Levels::stmt_by))]
#[cycle(descent)]
fn stmt_by<'t>(
    source: &Source<'_>,
    tokens: &'t [Token],
    depth: u32,
) -> Result<(Stmt, &'t [Token]), ParseError>
    ensures { Parses source.now tokens.now result (levels.stmt_by source.now.dialect source.now.end (expressions.expr source.now.dialect source.now.end depth) (levels.stmt source.now.dialect source.now.end depth)) }
{
    let (label, rest) = optional_label(source, tokens)?;
    let (plain, rest) = plain_by(source, rest, depth)?;
    let span = span_between(source, tokens, rest);
    Ok((Stmt { label, plain, span }, rest))
}

#[cycle(descent)]
pub fn stmt<'t>(
    source: &Source<'_>,
    tokens: &'t [Token],
    depth: u32,
) -> Result<(Stmt, &'t [Token]), ParseError>
    ensures { Parses source.now tokens.now result (levels.stmt source.now.dialect source.now.end depth) }
{
    if depth == 0 {
        return Err(too_deep(tokens));
    }
    stmt_by(source, tokens, depth - 1)
}
