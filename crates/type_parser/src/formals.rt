//! Formal parameters, by recursive descent. `depth` is how many levels of lists of them may still nest.
ghost use Rattle.std.specs.Prelude.{◌≡◌};
ghost use Rattle.expr_parser.specs.Parsing.{Parses};
ghost use Rattle.type_parser.specs.Formals as spec;
ghost use Rattle.type_parser.specs.Levels as levels;

use crate::names::{names, type_name};
use dialect_lexer::{Symbol, Token, Word};
use expr_parser::source::{Source, span_between};
use expr_parser::step::{expect, expect_word, identifier, is, is_word, same};
use pascal_tree::{Formal, FormalList, Formals, TypeName};
use token_parsing::refusal::{ParseError, too_deep};
use tree_lists::{Boxed, Items};

/// Whether `var` is next, and the tokens after it.
#[tactic(auto, unfolding(crate::specs::Formals::optional_var))]
fn optional_var<'t>(
    source: &Source<'_>,
    tokens: &'t [Token],
) -> Result<(bool, &'t [Token]), ParseError>
    ensures { Parses source.now tokens.now result spec.optional_var }
{
    if is_word(source, tokens, Word::KwVar) {
        let rest = expect_word(source, tokens, Word::KwVar)?;
        return Ok((true, rest));
    }
    Ok((false, tokens))
}

/// A colon and the name of a type.
#[tactic(auto, unfolding(crate::specs::Formals::result))]
pub fn result_name<'t>(
    source: &Source<'_>,
    tokens: &'t [Token],
) -> Result<(TypeName, &'t [Token]), ParseError>
    ensures { Parses source.now tokens.now result (spec.result source.now.end) }
{
    let rest = expect(source, tokens, Symbol::Colon)?;
    type_name(source, rest)
}

/// Parameters that are values or variables.
#[tactic(auto, unfolding(crate::specs::Formals::variables))]
fn variables<'t>(
    source: &Source<'_>,
    tokens: &'t [Token],
) -> Result<(Formal, &'t [Token]), ParseError>
    ensures { Parses source.now tokens.now result (spec.variables source.now.end) }
{
    let (by_reference, rest) = optional_var(source, tokens)?;
    let (names, rest) = names(source, rest)?;
    let (of, rest) = result_name(source, rest)?;
    let span = span_between(source, tokens, rest);
    let formal = Formal::Variables {
        by_reference,
        names,
        of,
        span,
    };
    Ok((formal, rest))
}

/// Formal parameters, if a parenthesis is next.
#[tactic(auto, unfolding(crate::specs::Formals::optional_formals))]
pub fn optional_formals<'t>(
    source: &Source<'_>,
    tokens: &'t [Token],
    depth: u32,
) -> Result<(Option<Formals>, &'t [Token]), ParseError>
    ensures { Parses source.now tokens.now result (spec.optional_formals (levels.formals source.now.end depth)) }
{
    if is(source, tokens, Symbol::Open) {
        let (formals, rest) = formals(source, tokens, depth)?;
        return Ok((Some(formals), rest));
    }
    Ok((None, tokens))
}

/// Formal parameters of a formal parameter, if a parenthesis is next.
#[tactic(auto, unfolding(crate::specs::Formals::optional_formals))]
#[cycle(formals)]
fn boxed_formals<'t>(
    source: &Source<'_>,
    tokens: &'t [Token],
    depth: u32,
) -> Result<(Option<Boxed<Formals>>, &'t [Token]), ParseError>
    ensures { Parses source.now tokens.now result (spec.optional_formals (levels.formals source.now.end depth)) }
{
    if is(source, tokens, Symbol::Open) {
        let (formals, rest) = formals(source, tokens, depth)?;
        let formals = Boxed::new(source.alloc, formals)?;
        return Ok((Some(formals), rest));
    }
    Ok((None, tokens))
}

#[tactic(auto, unfolding(crate::specs::Formals::procedure))]
#[cycle(formals)]
fn procedure<'t>(
    source: &Source<'_>,
    tokens: &'t [Token],
    depth: u32,
) -> Result<(Formal, &'t [Token]), ParseError>
    ensures { Parses source.now tokens.now result (spec.procedure source.now.end (levels.formals source.now.end depth)) }
{
    let rest = expect_word(source, tokens, Word::KwProcedure)?;
    let (name, rest) = identifier(source, rest)?;
    let (formals, rest) = boxed_formals(source, rest, depth)?;
    let span = span_between(source, tokens, rest);
    let formal = Formal::Procedure {
        name,
        formals,
        span,
    };
    Ok((formal, rest))
}

#[tactic(auto, unfolding(crate::specs::Formals::function))]
#[cycle(formals)]
fn function<'t>(
    source: &Source<'_>,
    tokens: &'t [Token],
    depth: u32,
) -> Result<(Formal, &'t [Token]), ParseError>
    ensures { Parses source.now tokens.now result (spec.function source.now.end (levels.formals source.now.end depth)) }
{
    let rest = expect_word(source, tokens, Word::KwFunction)?;
    let (name, rest) = identifier(source, rest)?;
    let (formals, rest) = boxed_formals(source, rest, depth)?;
    let (result, rest) = result_name(source, rest)?;
    let span = span_between(source, tokens, rest);
    let formal = Formal::Function {
        name,
        formals,
        result,
        span,
    };
    Ok((formal, rest))
}

#[tactic(auto, unfolding(crate::specs::Formals::formal))]
#[cycle(formals)]
fn formal<'t>(
    source: &Source<'_>,
    tokens: &'t [Token],
    depth: u32,
) -> Result<(Formal, &'t [Token]), ParseError>
    ensures { Parses source.now tokens.now result (spec.formal source.now.end (levels.formals source.now.end depth)) }
{
    if is_word(source, tokens, Word::KwProcedure) {
        return procedure(source, tokens, depth);
    }
    if is_word(source, tokens, Word::KwFunction) {
        return function(source, tokens, depth);
    }
    variables(source, tokens)
}

/// A formal parameter after a semicolon, behind those before it.
#[tactic(auto, unfolding(crate::specs::Formals::next_formal))]
#[cycle(formals)]
fn next_formal<'t>(
    source: &Source<'_>,
    tokens: &'t [Token],
    depth: u32,
    all: FormalList,
) -> Result<(FormalList, &'t [Token]), ParseError>
    ensures { Parses source.now tokens.now result (spec.next_formal source.now.end (levels.formals source.now.end depth) all) }
{
    let mut all = all;
    let rest = expect(source, tokens, Symbol::Semicolon)?;
    let (item, rest) = formal(source, rest, depth)?;
    all.push(item)?;
    Ok((all, rest))
}

/// The formal parameters after the first.
#[cycle(formals)]
fn more_formals<'t>(
    source: &Source<'_>,
    tokens: &'t [Token],
    depth: u32,
    first: FormalList,
) -> Result<(FormalList, &'t [Token]), ParseError>
    ensures { Parses source.now tokens.now result (spec.more_formals source.now.end (levels.formals source.now.end depth) first) }
{
    let mut all = first;
    let mut rest = tokens;
    for _turn in 0..tokens.len() {
        if !is(source, rest, Symbol::Semicolon) {
            return Ok((all, rest));
        }
        let (longer, behind) = next_formal(source, rest, depth, all)?;
        all = longer;
        rest = same(behind);
    }
    Ok((all, rest))
}

/// Formal parameters with semicolons between them.
#[tactic(auto, unfolding(crate::specs::Formals::listed_formals))]
#[cycle(formals)]
fn listed_formals<'t>(
    source: &Source<'_>,
    tokens: &'t [Token],
    depth: u32,
) -> Result<(FormalList, &'t [Token]), ParseError>
    ensures { Parses source.now tokens.now result (spec.listed_formals source.now.end (levels.formals source.now.end depth)) }
{
    let (item, rest) = formal(source, tokens, depth)?;
    let mut first = Items::new(source.alloc);
    first.push(item)?;
    more_formals(source, rest, depth, first)
}

/// Formal parameters of which those of parameters have `depth` levels.
#[tactic(auto, unfolding(crate::specs::Formals::formals_by))]
#[cycle(formals)]
fn formals_by<'t>(
    source: &Source<'_>,
    tokens: &'t [Token],
    depth: u32,
) -> Result<(Formals, &'t [Token]), ParseError>
    ensures { Parses source.now tokens.now result (spec.formals_by source.now.end (levels.formals source.now.end depth)) }
{
    let rest = expect(source, tokens, Symbol::Open)?;
    let (list, rest) = listed_formals(source, rest, depth)?;
    let rest = expect(source, rest, Symbol::Close)?;
    let span = span_between(source, tokens, rest);
    Ok((Formals { list, span }, rest))
}

/// Formal parameters in parentheses, of at most `depth` levels.
#[cycle(formals)]
pub fn formals<'t>(
    source: &Source<'_>,
    tokens: &'t [Token],
    depth: u32,
) -> Result<(Formals, &'t [Token]), ParseError>
    ensures { Parses source.now tokens.now result (levels.formals source.now.end depth) }
{
    if depth == 0 {
        return Err(too_deep(tokens));
    }
    formals_by(source, tokens, depth - 1)
}
