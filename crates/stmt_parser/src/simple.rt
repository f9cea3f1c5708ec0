//! Statements without statements in them.
ghost use Rattle.std.specs.Prelude.{◌≡◌};
ghost use Rattle.expr_parser.specs.Parsing.{Parses};
ghost use Rattle.expr_parser.specs.Tokens.{seen};
ghost use Rattle.expr_parser.specs.Expressions.{expr as expr_of};
ghost use Rattle.stmt_parser.specs.Statements as spec;

use crate::headers::boxed;
use dialect_lexer::{Symbol, Token, Word};
use expr_parser::constants::label;
use expr_parser::descent::{args, place_from};
use expr_parser::leaves::is_selector;
use expr_parser::source::{Source, span_between};
use expr_parser::step::{expect, expect_word, identifier, is};
use pascal_tree::{Identifier, Plain};
use token_parsing::refusal::ParseError;

/// The statement without tokens.
#[tactic(auto, unfolding(crate::specs::Statements::nothing))]
pub fn nothing<'t>(
    source: &Source<'_>,
    tokens: &'t [Token],
) -> Result<(Plain, &'t [Token]), ParseError>
    ensures { Parses source.now tokens.now result (spec.nothing source.now.end) }
{
    Ok((Plain::Nothing(span_between(source, tokens, tokens)), tokens))
}

#[tactic(auto, unfolding(crate::specs::Statements::goto))]
pub fn goto_label<'t>(
    source: &Source<'_>,
    tokens: &'t [Token],
) -> Result<(Plain, &'t [Token]), ParseError>
    ensures { Parses source.now tokens.now result (spec.goto source.now.dialect source.now.end) }
{
    let rest = expect_word(source, tokens, Word::KwGoto)?;
    let (label, rest) = label(source, rest)?;
    let span = span_between(source, tokens, rest);
    Ok((Plain::Goto { label, span }, rest))
}

/// The assignment to the place that begins with this name, which is the first of the tokens `from`.
#[tactic(auto, unfolding(crate::specs::Statements::assignment))]
fn assignment<'t>(
    source: &Source<'_>,
    tokens: &'t [Token],
    depth: u32,
    from: &[Token],
    name: Identifier,
) -> Result<(Plain, &'t [Token]), ParseError>
    ensures { Parses source.now tokens.now result (spec.assignment source.now.end (expr_of source.now.dialect source.now.end depth) (seen source.now.bytes.now from.now) name) }
{
    let (target, rest) = place_from(source, tokens, depth, from, name)?;
    let rest = expect(source, rest, Symbol::Assign)?;
    let (value, rest) = boxed(source, rest, depth)?;
    let span = span_between(source, from, rest);
    Ok((
        Plain::Assign {
            target,
            value,
            span,
        },
        rest,
    ))
}

/// The call with arguments of this name, which is the first of the tokens `from`.
#[tactic(auto, unfolding(crate::specs::Statements::call_with))]
fn call_with<'t>(
    source: &Source<'_>,
    tokens: &'t [Token],
    depth: u32,
    from: &[Token],
    name: Identifier,
) -> Result<(Plain, &'t [Token]), ParseError>
    ensures { Parses source.now tokens.now result (spec.call_with source.now.dialect source.now.end (expr_of source.now.dialect source.now.end depth) (seen source.now.bytes.now from.now) name) }
{
    let (args, rest) = args(source, tokens, depth)?;
    let span = span_between(source, from, rest);
    Ok((
        Plain::Call {
            name,
            args: Some(args),
            span,
        },
        rest,
    ))
}

/// The call without arguments of this name, which is the first of the tokens `from`.
fn call_alone<'t>(
    source: &Source<'_>,
    tokens: &'t [Token],
    from: &[Token],
    name: Identifier,
) -> Result<(Plain, &'t [Token]), ParseError>
    ensures { Parses source.now tokens.now result (spec.call_alone source.now.end (seen source.now.bytes.now from.now) name) }
{
    let span = span_between(source, from, tokens);
    Ok((
        Plain::Call {
            name,
            args: None,
            span,
        },
        tokens,
    ))
}

/// Whether an assignment goes on here after its name.
fn is_target(source: &Source<'_>, tokens: &[Token]) -> bool
    ensures { result ≡ spec.begins_target (seen source.now.bytes.now tokens.now) }
{
    is_selector(source, tokens) || is(source, tokens, Symbol::Assign)
}

/// The assignment or call of this name, which is the first of the tokens `from`.
#[tactic(auto, unfolding(crate::specs::Statements::after_name))]
fn after_name<'t>(
    source: &Source<'_>,
    tokens: &'t [Token],
    depth: u32,
    from: &[Token],
    name: Identifier,
) -> Result<(Plain, &'t [Token]), ParseError>
    ensures { Parses source.now tokens.now result (spec.after_name source.now.dialect source.now.end (expr_of source.now.dialect source.now.end depth) (seen source.now.bytes.now from.now) name) }
{
    if is(source, tokens, Symbol::Open) {
        return call_with(source, tokens, depth, from, name);
    }
    if is_target(source, tokens) {
        return assignment(source, tokens, depth, from, name);
    }
    call_alone(source, tokens, from, name)
}

/// A statement that begins with a name.
#[tactic(auto, unfolding(crate::specs::Statements::named))]
pub fn named<'t>(
    source: &Source<'_>,
    tokens: &'t [Token],
    depth: u32,
) -> Result<(Plain, &'t [Token]), ParseError>
    ensures { Parses source.now tokens.now result (spec.named source.now.dialect source.now.end (expr_of source.now.dialect source.now.end depth)) }
{
    let (name, rest) = identifier(source, tokens)?;
    after_name(source, rest, depth, tokens, name)
}
