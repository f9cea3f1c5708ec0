//! Expressions, by recursive descent. `depth` is how many levels may still nest; an expression and
//! its factors are two.
ghost use Rattle.std.specs.Prelude.{◌≡◌};
ghost use Rattle.expr_parser.specs.Parsing.{Parses};
ghost use Rattle.expr_parser.specs.Tokens.{seen};
ghost use Rattle.expr_parser.specs.Places as places;
ghost use Rattle.expr_parser.specs.Factors as factors;
ghost use Rattle.expr_parser.specs.Expressions as expressions;

use crate::leaves::{
    field, follow, is_program, is_selector, nil, number, optional_sign, program_arg, text,
};
use crate::operators::{adding, is_adding, is_multiplying, is_relation, multiplying, relation};
use crate::rows::{row_of, with_item};
use crate::source::{Source, span_between};
use crate::step::{
    expect, expect_word, identifier, is, is_identifier, is_number, is_text, is_word, same,
};
use dialect_lexer::{Symbol, Token, Word};
use pascal_tree::{
    AddedTerm, Arg, Args, Elem, Expr, Factor, Identifier, MultipliedFactor, Place, Relation,
    Selector, Simple, Term,
};
use token_parsing::refusal::{ParseError, too_deep};
use tree_lists::{Boxed, Items};

/// An expression after this symbol, if it is next.
#[tactic(auto, unfolding(crate::specs::Places::optional_after))]
#[cycle(descent)]
fn optional_after<'t>(
    source: &Source<'_>,
    tokens: &'t [Token],
    depth: u32,
    mark: Symbol,
) -> Result<(Option<Boxed<Expr>>, &'t [Token]), ParseError>
    ensures { Parses source.now tokens.now result (places.optional_after mark (expressions.expr source.now.dialect source.now.end depth)) }
{
    if is(source, tokens, mark) {
        let rest = expect(source, tokens, mark)?;
        let (expr, rest) = expr(source, rest, depth)?;
        return Ok((Some(Boxed::new(source.alloc, expr)?), rest));
    }
    Ok((None, tokens))
}

/// An expression after a comma, behind those before it.
#[tactic(auto, unfolding(crate::specs::Places::next_expr))]
#[cycle(descent)]
fn next_expr<'t>(
    source: &Source<'_>,
    tokens: &'t [Token],
    depth: u32,
    all: Items<Expr>,
) -> Result<(Items<Expr>, &'t [Token]), ParseError>
    ensures { Parses source.now tokens.now result (places.next_expr (expressions.expr source.now.dialect source.now.end depth) all) }
{
    let rest = expect(source, tokens, Symbol::Comma)?;
    let (item, rest) = expr(source, rest, depth)?;
    Ok((with_item(all, item)?, rest))
}

/// The expressions after the first.
#[cycle(descent)]
fn more_exprs<'t>(
    source: &Source<'_>,
    tokens: &'t [Token],
    depth: u32,
    first: Items<Expr>,
) -> Result<(Items<Expr>, &'t [Token]), ParseError>
    ensures { Parses source.now tokens.now result (places.more_exprs (expressions.expr source.now.dialect source.now.end depth) first) }
{
    let mut all = first;
    let mut rest = tokens;
    for _turn in 0..tokens.len() {
        if !is(source, rest, Symbol::Comma) {
            return Ok((all, rest));
        }
        let (longer, behind) = next_expr(source, rest, depth, all)?;
        all = longer;
        rest = same(behind);
    }
    Ok((all, rest))
}

/// Expressions with commas between them.
#[tactic(auto, unfolding(crate::specs::Places::exprs))]
#[cycle(descent)]
fn exprs<'t>(
    source: &Source<'_>,
    tokens: &'t [Token],
    depth: u32,
) -> Result<(Items<Expr>, &'t [Token]), ParseError>
    ensures { Parses source.now tokens.now result (places.exprs (expressions.expr source.now.dialect source.now.end depth)) }
{
    let (item, rest) = expr(source, tokens, depth)?;
    let first = row_of(source.alloc, item)?;
    more_exprs(source, rest, depth, first)
}

/// `[index, ..]`.
#[tactic(auto, unfolding(crate::specs::Places::index))]
#[cycle(descent)]
fn index<'t>(
    source: &Source<'_>,
    tokens: &'t [Token],
    depth: u32,
) -> Result<(Selector, &'t [Token]), ParseError>
    ensures { Parses source.now tokens.now result (places.index source.now.end (expressions.expr source.now.dialect source.now.end depth)) }
{
    let rest = expect(source, tokens, Symbol::OpenBracket)?;
    let (indexes, rest) = exprs(source, rest, depth)?;
    let rest = expect(source, rest, Symbol::CloseBracket)?;
    let span = span_between(source, tokens, rest);
    Ok((Selector::Index { indexes, span }, rest))
}

#[tactic(auto, unfolding(crate::specs::Places::selected))]
#[cycle(descent)]
fn selected<'t>(
    source: &Source<'_>,
    tokens: &'t [Token],
    depth: u32,
) -> Result<(Selector, &'t [Token]), ParseError>
    ensures { Parses source.now tokens.now result (places.selected source.now.end (expressions.expr source.now.dialect source.now.end depth)) }
{
    if is(source, tokens, Symbol::Dot) {
        return field(source, tokens);
    }
    if is(source, tokens, Symbol::Caret) {
        return follow(source, tokens);
    }
    index(source, tokens, depth)
}

/// A selector, behind those before it.
#[tactic(auto, unfolding(crate::specs::Places::next_selector))]
#[cycle(descent)]
fn next_selector<'t>(
    source: &Source<'_>,
    tokens: &'t [Token],
    depth: u32,
    all: Items<Selector>,
) -> Result<(Items<Selector>, &'t [Token]), ParseError>
    ensures { Parses source.now tokens.now result (places.next_selector source.now.end (expressions.expr source.now.dialect source.now.end depth) all) }
{
    let (item, rest) = selected(source, tokens, depth)?;
    Ok((with_item(all, item)?, rest))
}

/// Selectors, as many as there are.
#[cycle(descent)]
fn selectors<'t>(
    source: &Source<'_>,
    tokens: &'t [Token],
    depth: u32,
    first: Items<Selector>,
) -> Result<(Items<Selector>, &'t [Token]), ParseError>
    ensures { Parses source.now tokens.now result (places.selectors source.now.end (expressions.expr source.now.dialect source.now.end depth) first) }
{
    let mut all = first;
    let mut rest = tokens;
    for _turn in 0..tokens.len() {
        if !is_selector(source, rest) {
            return Ok((all, rest));
        }
        let (longer, behind) = next_selector(source, rest, depth, all)?;
        all = longer;
        rest = same(behind);
    }
    Ok((all, rest))
}

/// The place that begins with this name, which is the first of the tokens `from`.
#[tactic(auto, unfolding(crate::specs::Places::place_from))]
#[cycle(descent)]
pub fn place_from<'t>(
    source: &Source<'_>,
    tokens: &'t [Token],
    depth: u32,
    from: &[Token],
    name: Identifier,
) -> Result<(Place, &'t [Token]), ParseError>
    ensures { Parses source.now tokens.now result (places.place_from source.now.end (expressions.expr source.now.dialect source.now.end depth) (seen source.now.bytes.now from.now) name) }
{
    let (selectors, rest) = selectors(source, tokens, depth, Items::new(source.alloc))?;
    let span = span_between(source, from, rest);
    Ok((
        Place {
            name,
            selectors,
            span,
        },
        rest,
    ))
}

#[tactic(auto, unfolding(crate::specs::Places::place))]
pub fn place<'t>(
    source: &Source<'_>,
    tokens: &'t [Token],
    depth: u32,
) -> Result<(Place, &'t [Token]), ParseError>
    ensures { Parses source.now tokens.now result (places.place source.now.end (expressions.expr source.now.dialect source.now.end depth)) }
{
    let (name, rest) = identifier(source, tokens)?;
    place_from(source, rest, depth, tokens, name)
}

/// An argument that is a value.
#[tactic(auto, unfolding(crate::specs::Places::value_arg))]
#[cycle(descent)]
fn value_arg<'t>(
    source: &Source<'_>,
    tokens: &'t [Token],
    depth: u32,
) -> Result<(Arg, &'t [Token]), ParseError>
    ensures { Parses source.now tokens.now result (places.value_arg source.now.end (expressions.expr source.now.dialect source.now.end depth)) }
{
    let (value, rest) = expr(source, tokens, depth)?;
    let (width, rest) = optional_after(source, rest, depth, Symbol::Colon)?;
    let (decimals, rest) = optional_after(source, rest, depth, Symbol::Colon)?;
    let span = span_between(source, tokens, rest);
    Ok((
        Arg::Value {
            value,
            width,
            decimals,
            span,
        },
        rest,
    ))
}

#[tactic(auto, unfolding(crate::specs::Places::one_arg))]
#[cycle(descent)]
fn one_arg<'t>(
    source: &Source<'_>,
    tokens: &'t [Token],
    depth: u32,
) -> Result<(Arg, &'t [Token]), ParseError>
    ensures { Parses source.now tokens.now result (places.one_arg source.now.dialect source.now.end (expressions.expr source.now.dialect source.now.end depth)) }
{
    if is_program(source, tokens) {
        return program_arg(source, tokens);
    }
    value_arg(source, tokens, depth)
}

/// An argument after a comma, behind those before it.
#[tactic(auto, unfolding(crate::specs::Places::next_arg))]
#[cycle(descent)]
fn next_arg<'t>(
    source: &Source<'_>,
    tokens: &'t [Token],
    depth: u32,
    all: Items<Arg>,
) -> Result<(Items<Arg>, &'t [Token]), ParseError>
    ensures { Parses source.now tokens.now result (places.next_arg source.now.dialect source.now.end (expressions.expr source.now.dialect source.now.end depth) all) }
{
    let rest = expect(source, tokens, Symbol::Comma)?;
    let (item, rest) = one_arg(source, rest, depth)?;
    Ok((with_item(all, item)?, rest))
}

/// The arguments after the first.
#[cycle(descent)]
fn more_args<'t>(
    source: &Source<'_>,
    tokens: &'t [Token],
    depth: u32,
    first: Items<Arg>,
) -> Result<(Items<Arg>, &'t [Token]), ParseError>
    ensures { Parses source.now tokens.now result (places.more_args source.now.dialect source.now.end (expressions.expr source.now.dialect source.now.end depth) first) }
{
    let mut all = first;
    let mut rest = tokens;
    for _turn in 0..tokens.len() {
        if !is(source, rest, Symbol::Comma) {
            return Ok((all, rest));
        }
        let (longer, behind) = next_arg(source, rest, depth, all)?;
        all = longer;
        rest = same(behind);
    }
    Ok((all, rest))
}

/// Arguments with commas between them.
#[tactic(auto, unfolding(crate::specs::Places::listed_args))]
#[cycle(descent)]
fn listed_args<'t>(
    source: &Source<'_>,
    tokens: &'t [Token],
    depth: u32,
) -> Result<(Items<Arg>, &'t [Token]), ParseError>
    ensures { Parses source.now tokens.now result (places.listed_args source.now.dialect source.now.end (expressions.expr source.now.dialect source.now.end depth)) }
{
    let (item, rest) = one_arg(source, tokens, depth)?;
    let first = row_of(source.alloc, item)?;
    more_args(source, rest, depth, first)
}

/// Arguments in parentheses.
#[tactic(auto, unfolding(crate::specs::Places::args))]
#[cycle(descent)]
pub fn args<'t>(
    source: &Source<'_>,
    tokens: &'t [Token],
    depth: u32,
) -> Result<(Args, &'t [Token]), ParseError>
    ensures { Parses source.now tokens.now result (places.args source.now.dialect source.now.end (expressions.expr source.now.dialect source.now.end depth)) }
{
    let rest = expect(source, tokens, Symbol::Open)?;
    let (list, rest) = listed_args(source, rest, depth)?;
    let rest = expect(source, rest, Symbol::Close)?;
    let span = span_between(source, tokens, rest);
    Ok((Args { list, span }, rest))
}

/// The call of this name, which is the first of the tokens `from`.
#[tactic(auto, unfolding(crate::specs::Factors::call))]
#[cycle(descent)]
fn call<'t>(
    source: &Source<'_>,
    tokens: &'t [Token],
    depth: u32,
    from: &[Token],
    name: Identifier,
) -> Result<(Factor, &'t [Token]), ParseError>
    ensures { Parses source.now tokens.now result (factors.call source.now.dialect source.now.end (expressions.expr source.now.dialect source.now.end depth) (seen source.now.bytes.now from.now) name) }
{
    let (args, rest) = args(source, tokens, depth)?;
    let span = span_between(source, from, rest);
    Ok((Factor::Call { name, args, span }, rest))
}

#[tactic(auto, unfolding(crate::specs::Factors::read_place))]
#[cycle(descent)]
fn read_place<'t>(
    source: &Source<'_>,
    tokens: &'t [Token],
    depth: u32,
    from: &[Token],
    name: Identifier,
) -> Result<(Factor, &'t [Token]), ParseError>
    ensures { Parses source.now tokens.now result (factors.read_place source.now.end (expressions.expr source.now.dialect source.now.end depth) (seen source.now.bytes.now from.now) name) }
{
    let (place, rest) = place_from(source, tokens, depth, from, name)?;
    Ok((Factor::Place(place), rest))
}

/// What begins with a name: a place, or a call with arguments.
#[tactic(auto, unfolding(crate::specs::Factors::named))]
#[cycle(descent)]
fn named<'t>(
    source: &Source<'_>,
    tokens: &'t [Token],
    depth: u32,
) -> Result<(Factor, &'t [Token]), ParseError>
    ensures { Parses source.now tokens.now result (factors.named source.now.dialect source.now.end (expressions.expr source.now.dialect source.now.end depth)) }
{
    let (name, rest) = identifier(source, tokens)?;
    if is(source, rest, Symbol::Open) {
        return call(source, rest, depth, tokens, name);
    }
    read_place(source, rest, depth, tokens, name)
}

/// An expression in parentheses.
#[tactic(auto, unfolding(crate::specs::Factors::group))]
#[cycle(descent)]
fn group<'t>(
    source: &Source<'_>,
    tokens: &'t [Token],
    depth: u32,
) -> Result<(Factor, &'t [Token]), ParseError>
    ensures { Parses source.now tokens.now result (factors.group source.now.end (expressions.expr source.now.dialect source.now.end depth)) }
{
    let rest = expect(source, tokens, Symbol::Open)?;
    let (inner, rest) = expr(source, rest, depth)?;
    let inner = Boxed::new(source.alloc, inner)?;
    let rest = expect(source, rest, Symbol::Close)?;
    let span = span_between(source, tokens, rest);
    Ok((Factor::Group { inner, span }, rest))
}

/// `not` and its operand.
#[tactic(auto, unfolding(crate::specs::Factors::negation))]
#[cycle(descent)]
fn negation<'t>(
    source: &Source<'_>,
    tokens: &'t [Token],
    depth: u32,
) -> Result<(Factor, &'t [Token]), ParseError>
    ensures { Parses source.now tokens.now result (factors.negation source.now.end (expressions.factor source.now.dialect source.now.end depth)) }
{
    let rest = expect_word(source, tokens, Word::KwNot)?;
    let (operand, rest) = factor(source, rest, depth)?;
    let operand = Boxed::new(source.alloc, operand)?;
    let span = span_between(source, tokens, rest);
    Ok((Factor::Not { operand, span }, rest))
}

#[tactic(auto, unfolding(crate::specs::Factors::elem))]
#[cycle(descent)]
fn elem<'t>(
    source: &Source<'_>,
    tokens: &'t [Token],
    depth: u32,
) -> Result<(Elem, &'t [Token]), ParseError>
    ensures { Parses source.now tokens.now result (factors.elem source.now.end (expressions.expr source.now.dialect source.now.end depth)) }
{
    let (first, rest) = expr(source, tokens, depth)?;
    let (last, rest) = optional_after(source, rest, depth, Symbol::DotDot)?;
    let span = span_between(source, tokens, rest);
    Ok((Elem { first, last, span }, rest))
}

/// An element after a comma, behind those before it.
#[tactic(auto, unfolding(crate::specs::Factors::next_elem))]
#[cycle(descent)]
fn next_elem<'t>(
    source: &Source<'_>,
    tokens: &'t [Token],
    depth: u32,
    all: Items<Elem>,
) -> Result<(Items<Elem>, &'t [Token]), ParseError>
    ensures { Parses source.now tokens.now result (factors.next_elem source.now.end (expressions.expr source.now.dialect source.now.end depth) all) }
{
    let rest = expect(source, tokens, Symbol::Comma)?;
    let (item, rest) = elem(source, rest, depth)?;
    Ok((with_item(all, item)?, rest))
}

/// The elements after the first.
#[cycle(descent)]
fn more_elems<'t>(
    source: &Source<'_>,
    tokens: &'t [Token],
    depth: u32,
    first: Items<Elem>,
) -> Result<(Items<Elem>, &'t [Token]), ParseError>
    ensures { Parses source.now tokens.now result (factors.more_elems source.now.end (expressions.expr source.now.dialect source.now.end depth) first) }
{
    let mut all = first;
    let mut rest = tokens;
    for _turn in 0..tokens.len() {
        if !is(source, rest, Symbol::Comma) {
            return Ok((all, rest));
        }
        let (longer, behind) = next_elem(source, rest, depth, all)?;
        all = longer;
        rest = same(behind);
    }
    Ok((all, rest))
}

/// Elements with commas between them, one at least.
#[tactic(auto, unfolding(crate::specs::Factors::some_elems))]
#[cycle(descent)]
fn some_elems<'t>(
    source: &Source<'_>,
    tokens: &'t [Token],
    depth: u32,
) -> Result<(Items<Elem>, &'t [Token]), ParseError>
    ensures { Parses source.now tokens.now result (factors.some_elems source.now.end (expressions.expr source.now.dialect source.now.end depth)) }
{
    let (item, rest) = elem(source, tokens, depth)?;
    let first = row_of(source.alloc, item)?;
    more_elems(source, rest, depth, first)
}

#[tactic(auto, unfolding(crate::specs::Factors::elems))]
#[cycle(descent)]
fn elems<'t>(
    source: &Source<'_>,
    tokens: &'t [Token],
    depth: u32,
) -> Result<(Items<Elem>, &'t [Token]), ParseError>
    ensures { Parses source.now tokens.now result (factors.elems source.now.end (expressions.expr source.now.dialect source.now.end depth)) }
{
    if is(source, tokens, Symbol::CloseBracket) {
        return Ok((Items::new(source.alloc), tokens));
    }
    some_elems(source, tokens, depth)
}

/// A set constructor.
#[tactic(auto, unfolding(crate::specs::Factors::set))]
#[cycle(descent)]
fn set<'t>(
    source: &Source<'_>,
    tokens: &'t [Token],
    depth: u32,
) -> Result<(Factor, &'t [Token]), ParseError>
    ensures { Parses source.now tokens.now result (factors.set source.now.end (expressions.expr source.now.dialect source.now.end depth)) }
{
    let rest = expect(source, tokens, Symbol::OpenBracket)?;
    let (elements, rest) = elems(source, rest, depth)?;
    let rest = expect(source, rest, Symbol::CloseBracket)?;
    let span = span_between(source, tokens, rest);
    Ok((Factor::Set { elements, span }, rest))
}

/// A factor whose parts have `depth` levels.
#[tactic(auto, unfolding(crate::specs::Factors::factor_by))]
#[cycle(descent)]
fn factor_by<'t>(
    source: &Source<'_>,
    tokens: &'t [Token],
    depth: u32,
) -> Result<(Factor, &'t [Token]), ParseError>
    ensures { Parses source.now tokens.now result (factors.factor_by source.now.dialect source.now.end (expressions.expr source.now.dialect source.now.end depth) (expressions.factor source.now.dialect source.now.end depth)) }
{
    if is_identifier(source, tokens) {
        return named(source, tokens, depth);
    }
    if is_number(source, tokens) {
        return number(source, tokens);
    }
    if is_text(source, tokens) {
        return text(source, tokens);
    }
    if is_word(source, tokens, Word::KwNil) {
        return nil(source, tokens);
    }
    if is(source, tokens, Symbol::Open) {
        return group(source, tokens, depth);
    }
    if is_word(source, tokens, Word::KwNot) {
        return negation(source, tokens, depth);
    }
    set(source, tokens, depth)
}

#[cycle(descent)]
fn factor<'t>(
    source: &Source<'_>,
    tokens: &'t [Token],
    depth: u32,
) -> Result<(Factor, &'t [Token]), ParseError>
    ensures { Parses source.now tokens.now result (expressions.factor source.now.dialect source.now.end depth) }
{
    if depth == 0 {
        return Err(too_deep(tokens));
    }
    factor_by(source, tokens, depth - 1)
}

/// An operator and a factor, behind those before them.
#[tactic(auto, unfolding(crate::specs::Expressions::next_factor))]
#[cycle(descent)]
fn next_factor<'t>(
    source: &Source<'_>,
    tokens: &'t [Token],
    depth: u32,
    all: Items<MultipliedFactor>,
) -> Result<(Items<MultipliedFactor>, &'t [Token]), ParseError>
    ensures { Parses source.now tokens.now result (expressions.next_factor (expressions.factor source.now.dialect source.now.end depth) all) }
{
    let (operator, rest) = multiplying(source, tokens)?;
    let (item, rest) = factor(source, rest, depth)?;
    let item = MultipliedFactor {
        operator,
        factor: item,
    };
    Ok((with_item(all, item)?, rest))
}

/// The factors after the first.
#[cycle(descent)]
fn more_factors<'t>(
    source: &Source<'_>,
    tokens: &'t [Token],
    depth: u32,
    first: Items<MultipliedFactor>,
) -> Result<(Items<MultipliedFactor>, &'t [Token]), ParseError>
    ensures { Parses source.now tokens.now result (expressions.more_factors (expressions.factor source.now.dialect source.now.end depth) first) }
{
    let mut all = first;
    let mut rest = tokens;
    for _turn in 0..tokens.len() {
        if !is_multiplying(source, rest) {
            return Ok((all, rest));
        }
        let (longer, behind) = next_factor(source, rest, depth, all)?;
        all = longer;
        rest = same(behind);
    }
    Ok((all, rest))
}

#[tactic(auto, unfolding(crate::specs::Expressions::term))]
#[cycle(descent)]
fn term<'t>(
    source: &Source<'_>,
    tokens: &'t [Token],
    depth: u32,
) -> Result<(Term, &'t [Token]), ParseError>
    ensures { Parses source.now tokens.now result (expressions.term source.now.end (expressions.factor source.now.dialect source.now.end depth)) }
{
    let (first, rest) = factor(source, tokens, depth)?;
    let (others, rest) = more_factors(source, rest, depth, Items::new(source.alloc))?;
    let span = span_between(source, tokens, rest);
    Ok((
        Term {
            first,
            rest: others,
            span,
        },
        rest,
    ))
}

/// An operator and a term, behind those before them.
#[tactic(auto, unfolding(crate::specs::Expressions::next_term))]
#[cycle(descent)]
fn next_term<'t>(
    source: &Source<'_>,
    tokens: &'t [Token],
    depth: u32,
    all: Items<AddedTerm>,
) -> Result<(Items<AddedTerm>, &'t [Token]), ParseError>
    ensures { Parses source.now tokens.now result (expressions.next_term source.now.end (expressions.factor source.now.dialect source.now.end depth) all) }
{
    let (operator, rest) = adding(source, tokens)?;
    let (item, rest) = term(source, rest, depth)?;
    let item = AddedTerm {
        operator,
        term: item,
    };
    Ok((with_item(all, item)?, rest))
}

/// The terms after the first.
#[cycle(descent)]
fn more_terms<'t>(
    source: &Source<'_>,
    tokens: &'t [Token],
    depth: u32,
    first: Items<AddedTerm>,
) -> Result<(Items<AddedTerm>, &'t [Token]), ParseError>
    ensures { Parses source.now tokens.now result (expressions.more_terms source.now.end (expressions.factor source.now.dialect source.now.end depth) first) }
{
    let mut all = first;
    let mut rest = tokens;
    for _turn in 0..tokens.len() {
        if !is_adding(source, rest) {
            return Ok((all, rest));
        }
        let (longer, behind) = next_term(source, rest, depth, all)?;
        all = longer;
        rest = same(behind);
    }
    Ok((all, rest))
}

/// A sum.
#[tactic(auto, unfolding(crate::specs::Expressions::simple))]
#[cycle(descent)]
fn simple<'t>(
    source: &Source<'_>,
    tokens: &'t [Token],
    depth: u32,
) -> Result<(Simple, &'t [Token]), ParseError>
    ensures { Parses source.now tokens.now result (expressions.simple source.now.end (expressions.factor source.now.dialect source.now.end depth)) }
{
    let (sign, rest) = optional_sign(source, tokens)?;
    let (first, rest) = term(source, rest, depth)?;
    let (others, rest) = more_terms(source, rest, depth, Items::new(source.alloc))?;
    let span = span_between(source, tokens, rest);
    Ok((
        Simple {
            sign,
            first,
            rest: others,
            span,
        },
        rest,
    ))
}

/// What is compared with, if a relation is next.
#[tactic(auto, unfolding(crate::specs::Expressions::compared))]
#[cycle(descent)]
fn compared<'t>(
    source: &Source<'_>,
    tokens: &'t [Token],
    depth: u32,
) -> Result<(Option<Boxed<(Relation, Simple)>>, &'t [Token]), ParseError>
    ensures { Parses source.now tokens.now result (expressions.compared source.now.end (expressions.factor source.now.dialect source.now.end depth)) }
{
    if is_relation(source, tokens) {
        let (relation, rest) = relation(source, tokens)?;
        let (simple, rest) = simple(source, rest, depth)?;
        return Ok((Some(Boxed::new(source.alloc, (relation, simple))?), rest));
    }
    Ok((None, tokens))
}

/// An expression whose factors have `depth` levels.
#[tactic(auto, unfolding(crate::specs::Expressions::expr_by))]
#[cycle(descent)]
fn expr_by<'t>(
    source: &Source<'_>,
    tokens: &'t [Token],
    depth: u32,
) -> Result<(Expr, &'t [Token]), ParseError>
    ensures { Parses source.now tokens.now result (expressions.expr_by source.now.end (expressions.factor source.now.dialect source.now.end depth)) }
{
    let (left, rest) = simple(source, tokens, depth)?;
    let (right, rest) = compared(source, rest, depth)?;
    let span = span_between(source, tokens, rest);
    Ok((Expr { left, right, span }, rest))
}

#[cycle(descent)]
pub fn expr<'t>(
    source: &Source<'_>,
    tokens: &'t [Token],
    depth: u32,
) -> Result<(Expr, &'t [Token]), ParseError>
    ensures { Parses source.now tokens.now result (expressions.expr source.now.dialect source.now.end depth) }
{
    if depth == 0 {
        return Err(too_deep(tokens));
    }
    expr_by(source, tokens, depth - 1)
}
