//! Expressions and places, by recursive descent. `depth` is how many levels may still nest.
ghost use Rattle.std.specs.Prelude.{◌≡◌};
ghost use Rattle.c_grammar.specs.Seen.{tokens_of};
ghost use Rattle.c_expr_parser.specs.Expressions as spec;
ghost use Rattle.c_expr_parser.specs.Classes.{cast_words};
ghost use Rattle.token_parsing.specs.Parser.{Gives, begins};

use crate::step::{
    after, binary as binary_operator, expect, expect_word, is, is_name, is_unary, is_word, name,
    number as numeral, same, unary as unary_operator,
};
use crate::types::cast_type;
use c_grammar::token::{CToken, Mark, Word};
use c_tree::expr::{CExpr, CPlace};
use std::alloc::Global;
use token_parsing::refusal::{ParseError, too_deep};

/// `INT64_C(n)`.
#[tactic(auto, unfolding(crate::specs::Expressions::number))]
fn number<'a>(tokens: &'a [CToken<'a>]) -> Result<(CExpr, &'a [CToken<'a>]), ParseError>
    ensures { Gives (λ x. (x.0, tokens_of x.1.now)) result (spec.number (tokens_of tokens.now)) }
{
    let rest = expect_word(tokens, Word::Int64)?;
    let rest = expect(rest, Mark::Open)?;
    let (value, rest) = numeral(rest, 9_223_372_036_854_775_807)?;
    let rest = expect(rest, Mark::Close)?;
    Ok((CExpr::number(value), rest))
}

/// `UINT64_C(n)`.
#[tactic(auto, unfolding(crate::specs::Expressions::word_number))]
fn word_number<'a>(tokens: &'a [CToken<'a>]) -> Result<(CExpr, &'a [CToken<'a>]), ParseError>
    ensures { Gives (λ x. (x.0, tokens_of x.1.now)) result (spec.word_number (tokens_of tokens.now)) }
{
    let rest = expect_word(tokens, Word::Uint64)?;
    let rest = expect(rest, Mark::Open)?;
    let (value, rest) = numeral(rest, 18_446_744_073_709_551_615)?;
    let rest = expect(rest, Mark::Close)?;
    Ok((CExpr::word_number(value), rest))
}

/// `NULL`.
#[tactic(auto, unfolding(crate::specs::Expressions::null))]
fn null<'a>(tokens: &'a [CToken<'a>]) -> Result<(CExpr, &'a [CToken<'a>]), ParseError>
    ensures { Gives (λ x. (x.0, tokens_of x.1.now)) result (spec.null (tokens_of tokens.now)) }
{
    let rest = expect_word(tokens, Word::Null)?;
    Ok((CExpr::null(), rest))
}

/// An expression and `)`.
#[tactic(auto, unfolding(crate::specs::Expressions::closed))]
#[cycle(descent)]
pub fn closed<'a>(
    alloc: Global,
    tokens: &'a [CToken<'a>],
    depth: u32,
) -> Result<(CExpr, &'a [CToken<'a>]), ParseError>
    ensures { Gives (λ x. (x.0, tokens_of x.1.now)) result (spec.closed (spec.expr depth) (tokens_of tokens.now)) }
{
    let (inner, rest) = expr(alloc, tokens, depth)?;
    let rest = expect(rest, Mark::Close)?;
    Ok((inner, rest))
}

/// `.member`, after a place.
#[tactic(auto, unfolding(crate::specs::Expressions::member))]
fn member<'a>(
    alloc: Global,
    tokens: &'a [CToken<'a>],
    place: CPlace,
) -> Result<(CPlace, &'a [CToken<'a>]), ParseError>
    ensures { Gives (λ x. (x.0, tokens_of x.1.now)) result (spec.member place (tokens_of tokens.now)) }
{
    let rest = expect(tokens, Mark::Dot)?;
    let (name, rest) = name(alloc, rest)?;
    Ok((CPlace::member(place, name)?, rest))
}

/// `[index]`, after a place.
#[tactic(auto, unfolding(crate::specs::Expressions::element))]
#[cycle(descent)]
fn element<'a>(
    alloc: Global,
    tokens: &'a [CToken<'a>],
    depth: u32,
    place: CPlace,
) -> Result<(CPlace, &'a [CToken<'a>]), ParseError>
    ensures { Gives (λ x. (x.0, tokens_of x.1.now)) result (spec.element (spec.expr depth) place (tokens_of tokens.now)) }
{
    let rest = expect(tokens, Mark::OpenBracket)?;
    let (index, rest) = expr(alloc, rest, depth)?;
    let rest = expect(rest, Mark::CloseBracket)?;
    Ok((CPlace::index(place, index)?, rest))
}

#[tactic(auto, unfolding(crate::specs::Expressions::selected))]
#[cycle(descent)]
fn selected<'a>(
    alloc: Global,
    tokens: &'a [CToken<'a>],
    depth: u32,
    place: CPlace,
) -> Result<(CPlace, &'a [CToken<'a>]), ParseError>
    ensures { Gives (λ x. (x.0, tokens_of x.1.now)) result (spec.selected (spec.expr depth) place (tokens_of tokens.now)) }
{
    if is(tokens, Mark::Dot) {
        return member(alloc, tokens, place);
    }
    element(alloc, tokens, depth, place)
}

fn is_selector(tokens: &[CToken<'_>]) -> bool
    ensures { result ≡ spec.begins_selector (tokens_of tokens.now) }
{
    is(tokens, Mark::Dot) || is(tokens, Mark::OpenBracket)
}

/// The members and elements that are selected of a place.
#[cycle(descent)]
fn selectors<'a>(
    alloc: Global,
    tokens: &'a [CToken<'a>],
    depth: u32,
    place: CPlace,
) -> Result<(CPlace, &'a [CToken<'a>]), ParseError>
    ensures { Gives (λ x. (x.0, tokens_of x.1.now)) result (spec.selectors (spec.expr depth) place (tokens_of tokens.now)) }
{
    let mut place = place;
    let mut rest = tokens;
    for _turn in 0..tokens.len() {
        if !is_selector(rest) {
            return Ok((place, rest));
        }
        let (part, behind) = selected(alloc, rest, depth, place)?;
        place = part;
        rest = same(behind);
    }
    Ok((place, rest))
}

/// `* pointer)`, after the parenthesis.
#[tactic(auto, unfolding(crate::specs::Expressions::pointee))]
#[cycle(descent)]
fn pointee<'a>(
    alloc: Global,
    tokens: &'a [CToken<'a>],
    depth: u32,
) -> Result<(CPlace, &'a [CToken<'a>]), ParseError>
    ensures { Gives (λ x. (x.0, tokens_of x.1.now)) result (spec.pointee (spec.expr depth) (tokens_of tokens.now)) }
{
    let rest = expect(tokens, Mark::Star)?;
    let (pointer, rest) = closed(alloc, rest, depth)?;
    Ok((CPlace::pointee(alloc, pointer)?, rest))
}

#[tactic(auto, unfolding(crate::specs::Expressions::variable))]
fn variable<'a>(
    alloc: Global,
    tokens: &'a [CToken<'a>],
) -> Result<(CPlace, &'a [CToken<'a>]), ParseError>
    ensures { Gives (λ x. (x.0, tokens_of x.1.now)) result (spec.variable (tokens_of tokens.now)) }
{
    let (name, rest) = name(alloc, tokens)?;
    Ok((CPlace::variable(alloc, name), rest))
}

/// A place before its selectors.
#[tactic(auto, unfolding(crate::specs::Expressions::base_place))]
#[cycle(descent)]
fn base_place<'a>(
    alloc: Global,
    tokens: &'a [CToken<'a>],
    depth: u32,
) -> Result<(CPlace, &'a [CToken<'a>]), ParseError>
    ensures { Gives (λ x. (x.0, tokens_of x.1.now)) result (spec.base_place (spec.expr depth) (tokens_of tokens.now)) }
{
    if is_name(tokens) {
        return variable(alloc, tokens);
    }
    let rest = expect(tokens, Mark::Open)?;
    pointee(alloc, rest, depth)
}

#[tactic(auto, unfolding(crate::specs::Expressions::place))]
#[cycle(descent)]
pub fn place<'a>(
    alloc: Global,
    tokens: &'a [CToken<'a>],
    depth: u32,
) -> Result<(CPlace, &'a [CToken<'a>]), ParseError>
    ensures { Gives (λ x. (x.0, tokens_of x.1.now)) result (spec.place (spec.expr depth) (tokens_of tokens.now)) }
{
    let (base, rest) = base_place(alloc, tokens, depth)?;
    selectors(alloc, rest, depth, base)
}

/// A place that is read, after the parenthesis before its star.
#[tactic(auto, unfolding(crate::specs::Expressions::read_pointee))]
#[cycle(descent)]
fn read_pointee<'a>(
    alloc: Global,
    tokens: &'a [CToken<'a>],
    depth: u32,
) -> Result<(CExpr, &'a [CToken<'a>]), ParseError>
    ensures { Gives (λ x. (x.0, tokens_of x.1.now)) result (spec.read_pointee (spec.expr depth) (tokens_of tokens.now)) }
{
    let (base, rest) = pointee(alloc, tokens, depth)?;
    let (place, rest) = selectors(alloc, rest, depth, base)?;
    Ok((CExpr::read(alloc, place)?, rest))
}

/// `& place)`, after the parenthesis.
#[tactic(auto, unfolding(crate::specs::Expressions::address))]
#[cycle(descent)]
fn address<'a>(
    alloc: Global,
    tokens: &'a [CToken<'a>],
    depth: u32,
) -> Result<(CExpr, &'a [CToken<'a>]), ParseError>
    ensures { Gives (λ x. (x.0, tokens_of x.1.now)) result (spec.address (spec.expr depth) (tokens_of tokens.now)) }
{
    let rest = expect(tokens, Mark::Ampersand)?;
    let (place, rest) = place(alloc, rest, depth)?;
    let rest = expect(rest, Mark::Close)?;
    Ok((CExpr::address(alloc, place)?, rest))
}

/// An operator, its operand and `)`, after the parenthesis.
#[tactic(auto, unfolding(crate::specs::Expressions::unary))]
#[cycle(descent)]
fn unary<'a>(
    alloc: Global,
    tokens: &'a [CToken<'a>],
    depth: u32,
) -> Result<(CExpr, &'a [CToken<'a>]), ParseError>
    ensures { Gives (λ x. (x.0, tokens_of x.1.now)) result (spec.unary (spec.expr depth) (tokens_of tokens.now)) }
{
    let (operator, rest) = unary_operator(tokens)?;
    let (operand, rest) = closed(alloc, rest, depth)?;
    Ok((CExpr::unary(alloc, operator, operand)?, rest))
}

/// Two operands with an operator between them and `)`, after the parenthesis.
#[tactic(auto, unfolding(crate::specs::Expressions::binary))]
#[cycle(descent)]
fn binary<'a>(
    alloc: Global,
    tokens: &'a [CToken<'a>],
    depth: u32,
) -> Result<(CExpr, &'a [CToken<'a>]), ParseError>
    ensures { Gives (λ x. (x.0, tokens_of x.1.now)) result (spec.binary (spec.expr depth) (tokens_of tokens.now)) }
{
    let (left, rest) = expr(alloc, tokens, depth)?;
    let (operator, rest) = binary_operator(rest)?;
    let (right, rest) = closed(alloc, rest, depth)?;
    Ok((CExpr::binary(alloc, operator, left, right)?, rest))
}

/// `(cast) operand)`, after the first parenthesis.
#[tactic(auto, unfolding(crate::specs::Expressions::cast))]
#[cycle(descent)]
fn cast<'a>(
    alloc: Global,
    tokens: &'a [CToken<'a>],
    depth: u32,
) -> Result<(CExpr, &'a [CToken<'a>]), ParseError>
    ensures { Gives (λ x. (x.0, tokens_of x.1.now)) result (spec.cast (spec.expr depth) (tokens_of tokens.now)) }
{
    let rest = expect(tokens, Mark::Open)?;
    let (to, rest) = cast_type(alloc, rest)?;
    let rest = expect(rest, Mark::Close)?;
    let (operand, rest) = closed(alloc, rest, depth)?;
    Ok((CExpr::cast(alloc, to, operand)?, rest))
}

/// Whether the first word of a cast is next.
#[tactic(auto, unfolding(token_parsing::specs::Parser::begins))]
fn is_cast_word(tokens: &[CToken<'_>]) -> bool
    ensures { result ≡ begins cast_words (tokens_of tokens.now) }
{
    match tokens {
        [
            CToken::Quoted(Word::Int64Type | Word::Uint64Type | Word::Void | Word::Struct),
            ..
        ] => true,
        _ => false,
    }
}

/// Whether a parenthesis and the first word of a cast are next.
fn is_cast<'a>(tokens: &'a [CToken<'a>]) -> bool
    ensures { result ≡ spec.begins_cast (tokens_of tokens.now) }
{
    is(tokens, Mark::Open) && is_cast_word(after(tokens))
}

/// What stands in parentheses, after the first of them.
#[tactic(auto, unfolding(crate::specs::Expressions::opened))]
#[cycle(descent)]
fn opened<'a>(
    alloc: Global,
    tokens: &'a [CToken<'a>],
    depth: u32,
) -> Result<(CExpr, &'a [CToken<'a>]), ParseError>
    ensures { Gives (λ x. (x.0, tokens_of x.1.now)) result (spec.opened (spec.expr depth) (tokens_of tokens.now)) }
{
    if is(tokens, Mark::Star) {
        return read_pointee(alloc, tokens, depth);
    }
    if is(tokens, Mark::Ampersand) {
        return address(alloc, tokens, depth);
    }
    if is_unary(tokens) {
        return unary(alloc, tokens, depth);
    }
    if is_cast(tokens) {
        return cast(alloc, tokens, depth);
    }
    binary(alloc, tokens, depth)
}

/// A place that is read and begins with a name.
#[tactic(auto, unfolding(crate::specs::Expressions::read_variable))]
#[cycle(descent)]
fn read_variable<'a>(
    alloc: Global,
    tokens: &'a [CToken<'a>],
    depth: u32,
) -> Result<(CExpr, &'a [CToken<'a>]), ParseError>
    ensures { Gives (λ x. (x.0, tokens_of x.1.now)) result (spec.read_variable (spec.expr depth) (tokens_of tokens.now)) }
{
    let (base, rest) = variable(alloc, tokens)?;
    let (place, rest) = selectors(alloc, rest, depth, base)?;
    Ok((CExpr::read(alloc, place)?, rest))
}

/// An expression whose parts have `depth` levels.
#[tactic(auto, unfolding(crate::specs::Expressions::expr_by))]
#[cycle(descent)]
fn expr_by<'a>(
    alloc: Global,
    tokens: &'a [CToken<'a>],
    depth: u32,
) -> Result<(CExpr, &'a [CToken<'a>]), ParseError>
    ensures { Gives (λ x. (x.0, tokens_of x.1.now)) result (spec.expr_by (spec.expr depth) (tokens_of tokens.now)) }
{
    if is_name(tokens) {
        return read_variable(alloc, tokens, depth);
    }
    if is(tokens, Mark::Open) {
        let rest = expect(tokens, Mark::Open)?;
        return opened(alloc, rest, depth);
    }
    if is_word(tokens, Word::Int64) {
        return number(tokens);
    }
    if is_word(tokens, Word::Uint64) {
        return word_number(tokens);
    }
    null(tokens)
}

#[cycle(descent)]
pub fn expr<'a>(
    alloc: Global,
    tokens: &'a [CToken<'a>],
    depth: u32,
) -> Result<(CExpr, &'a [CToken<'a>]), ParseError>
    ensures { Gives (λ x. (x.0, tokens_of x.1.now)) result (spec.expr depth (tokens_of tokens.now)) }
{
    if depth == 0 {
        return Err(too_deep(tokens));
    }
    expr_by(alloc, tokens, depth - 1)
}
