//! Declarations, and the blocks of functions.
ghost use Rattle.std.specs.Prelude.{◌≡◌};
ghost use Rattle.c_grammar.specs.Seen.{tokens_of};
ghost use Rattle.c_grammar.specs.declared.token.Mark.TheVariants as mark;
ghost use Rattle.c_expr_parser.specs.Classes.{marks};
ghost use Rattle.c_parser.specs.Programs as spec;
ghost use Rattle.c_parser.specs.Statements.{no_brace};
ghost use Rattle.token_parsing.specs.Parser.{Gives, begins, repeat};

use crate::statements::statements;
use c_expr_parser::step::{after, expect, expect_word, is, is_name, is_word, name, number, same};
use c_expr_parser::types::{object_type, result_type};
use c_grammar::token::{CToken, Mark, Word};
use c_tree::Name;
use c_tree::program::{CMember, CTypedef, CVariable};
use c_tree::statement::CStatement;
use c_tree::types::CType;
use std::alloc::Global;
use token_parsing::refusal::ParseError;
use tree_lists::Items;

/// How many statements and expressions may nest.
const DEPTH: u32 = 2_400;

#[tactic(auto, unfolding(crate::specs::Programs::variable))]
fn variable<'a>(
    alloc: Global,
    tokens: &'a [CToken<'a>],
) -> Result<(CVariable, &'a [CToken<'a>]), ParseError>
    ensures { Gives (λ x. (x.0, tokens_of x.1.now)) result (spec.variable (tokens_of tokens.now)) }
{
    let (of, rest) = object_type(alloc, tokens)?;
    let (name, rest) = name(alloc, rest)?;
    Ok((CVariable { name, of }, rest))
}

/// The length in brackets of a member that is an array.
#[tactic(auto, unfolding(crate::specs::Programs::array_length))]
fn array_length<'a>(tokens: &'a [CToken<'a>]) -> Result<(Option<u64>, &'a [CToken<'a>]), ParseError>
    ensures { Gives (λ x. (x.0, tokens_of x.1.now)) result (spec.array_length (tokens_of tokens.now)) }
{
    if is(tokens, Mark::OpenBracket) {
        let rest = expect(tokens, Mark::OpenBracket)?;
        let (length, rest) = number(rest, 9_223_372_036_854_775_807)?;
        let rest = expect(rest, Mark::CloseBracket)?;
        return Ok((Some(length), rest));
    }
    Ok((None, tokens))
}

#[tactic(auto, unfolding(crate::specs::Programs::member))]
fn member<'a>(
    alloc: Global,
    tokens: &'a [CToken<'a>],
) -> Result<(CMember, &'a [CToken<'a>]), ParseError>
    ensures { Gives (λ x. (x.0, tokens_of x.1.now)) result (spec.member (tokens_of tokens.now)) }
{
    let (CVariable { name, of }, rest) = variable(alloc, tokens)?;
    let (length, rest) = array_length(rest)?;
    let rest = expect(rest, Mark::Semicolon)?;
    Ok((CMember { name, of, length }, rest))
}

/// A member, behind those before it.
#[tactic(auto, unfolding(crate::specs::Programs::next_member))]
fn next_member<'a>(
    alloc: Global,
    tokens: &'a [CToken<'a>],
    all: Items<CMember>,
) -> Result<(Items<CMember>, &'a [CToken<'a>]), ParseError>
    ensures { Gives (λ x. (x.0, tokens_of x.1.now)) result (spec.next_member all (tokens_of tokens.now)) }
{
    let mut all = all;
    let (member, rest) = member(alloc, tokens)?;
    all.push(member)?;
    Ok((all, rest))
}

/// The members after the first, up to a closing brace.
fn more_members<'a>(
    alloc: Global,
    tokens: &'a [CToken<'a>],
    first: Items<CMember>,
) -> Result<(Items<CMember>, &'a [CToken<'a>]), ParseError>
    ensures { Gives (λ x. (x.0, tokens_of x.1.now)) result (repeat no_brace spec.next_member first (tokens_of tokens.now)) }
{
    let mut all = first;
    let mut rest = tokens;
    for _turn in 0..tokens.len() {
        if is(rest, Mark::CloseBrace) {
            return Ok((all, rest));
        }
        let (longer, behind) = next_member(alloc, rest, all)?;
        all = longer;
        rest = same(behind);
    }
    Ok((all, rest))
}

/// The members of a struct, with the braces and the semicolon.
#[tactic(auto, unfolding(crate::specs::Programs::members))]
pub fn members<'a>(
    alloc: Global,
    tokens: &'a [CToken<'a>],
) -> Result<(Items<CMember>, &'a [CToken<'a>]), ParseError>
    ensures { Gives (λ x. (x.0, tokens_of x.1.now)) result (spec.members (tokens_of tokens.now)) }
{
    let rest = expect(tokens, Mark::OpenBrace)?;
    let (member, rest) = member(alloc, rest)?;
    let mut first = Items::new(alloc);
    first.push(member)?;
    let (all, rest) = more_members(alloc, rest, first)?;
    let rest = expect(rest, Mark::CloseBrace)?;
    let rest = expect(rest, Mark::Semicolon)?;
    Ok((all, rest))
}

/// A type after a comma, behind those before it.
#[tactic(auto, unfolding(crate::specs::Programs::next_type))]
fn next_type<'a>(
    alloc: Global,
    tokens: &'a [CToken<'a>],
    all: Items<CType>,
) -> Result<(Items<CType>, &'a [CToken<'a>]), ParseError>
    ensures { Gives (λ x. (x.0, tokens_of x.1.now)) result (spec.next_type all (tokens_of tokens.now)) }
{
    let mut all = all;
    let rest = expect(tokens, Mark::Comma)?;
    let (of, rest) = object_type(alloc, rest)?;
    all.push(of)?;
    Ok((all, rest))
}

/// The types after the first.
fn more_types<'a>(
    alloc: Global,
    tokens: &'a [CToken<'a>],
    first: Items<CType>,
) -> Result<(Items<CType>, &'a [CToken<'a>]), ParseError>
    ensures { Gives (λ x. (x.0, tokens_of x.1.now)) result (repeat (begins (marks mark.Comma)) spec.next_type first (tokens_of tokens.now)) }
{
    let mut all = first;
    let mut rest = tokens;
    for _turn in 0..tokens.len() {
        if !is(rest, Mark::Comma) {
            return Ok((all, rest));
        }
        let (longer, behind) = next_type(alloc, rest, all)?;
        all = longer;
        rest = same(behind);
    }
    Ok((all, rest))
}

/// The types of parameters in a typedef: `void`, or types with commas.
#[tactic(auto, unfolding(crate::specs::Programs::types))]
fn types<'a>(
    alloc: Global,
    tokens: &'a [CToken<'a>],
) -> Result<(Items<CType>, &'a [CToken<'a>]), ParseError>
    ensures { Gives (λ x. (x.0, tokens_of x.1.now)) result (spec.types (tokens_of tokens.now)) }
{
    let (returned, rest) = result_type(alloc, tokens)?;
    let mut all = Items::new(alloc);
    match returned {
        None => Ok((all, rest)),
        Some(of) => {
            all.push(of)?;
            more_types(alloc, rest, all)
        }
    }
}

/// `(*name)`.
#[tactic(auto, unfolding(crate::specs::Programs::pointer_name))]
fn pointer_name<'a>(
    alloc: Global,
    tokens: &'a [CToken<'a>],
) -> Result<(Name, &'a [CToken<'a>]), ParseError>
    ensures { Gives (λ x. (x.0, tokens_of x.1.now)) result (spec.pointer_name (tokens_of tokens.now)) }
{
    let rest = expect(tokens, Mark::Open)?;
    let rest = expect(rest, Mark::Star)?;
    let (name, rest) = name(alloc, rest)?;
    let rest = expect(rest, Mark::Close)?;
    Ok((name, rest))
}

#[tactic(auto, unfolding(crate::specs::Programs::typedef))]
pub fn typedef<'a>(
    alloc: Global,
    tokens: &'a [CToken<'a>],
) -> Result<(CTypedef, &'a [CToken<'a>]), ParseError>
    ensures { Gives (λ x. (x.0, tokens_of x.1.now)) result (spec.typedef (tokens_of tokens.now)) }
{
    let rest = expect_word(tokens, Word::Typedef)?;
    let (result, rest) = result_type(alloc, rest)?;
    let (name, rest) = pointer_name(alloc, rest)?;
    let rest = expect(rest, Mark::Open)?;
    let (parameters, rest) = types(alloc, rest)?;
    let rest = expect(rest, Mark::Close)?;
    let rest = expect(rest, Mark::Semicolon)?;
    Ok((
        CTypedef {
            name,
            result,
            parameters,
        },
        rest,
    ))
}

/// A parameter after a comma, behind those before it.
#[tactic(auto, unfolding(crate::specs::Programs::next_parameter))]
fn next_parameter<'a>(
    alloc: Global,
    tokens: &'a [CToken<'a>],
    all: Items<CVariable>,
) -> Result<(Items<CVariable>, &'a [CToken<'a>]), ParseError>
    ensures { Gives (λ x. (x.0, tokens_of x.1.now)) result (spec.next_parameter all (tokens_of tokens.now)) }
{
    let mut all = all;
    let rest = expect(tokens, Mark::Comma)?;
    let (parameter, rest) = variable(alloc, rest)?;
    all.push(parameter)?;
    Ok((all, rest))
}

/// The parameters after the first.
fn more_parameters<'a>(
    alloc: Global,
    tokens: &'a [CToken<'a>],
    first: Items<CVariable>,
) -> Result<(Items<CVariable>, &'a [CToken<'a>]), ParseError>
    ensures { Gives (λ x. (x.0, tokens_of x.1.now)) result (repeat (begins (marks mark.Comma)) spec.next_parameter first (tokens_of tokens.now)) }
{
    let mut all = first;
    let mut rest = tokens;
    for _turn in 0..tokens.len() {
        if !is(rest, Mark::Comma) {
            return Ok((all, rest));
        }
        let (longer, behind) = next_parameter(alloc, rest, all)?;
        all = longer;
        rest = same(behind);
    }
    Ok((all, rest))
}

/// The parameters after what may be the type of the first.
fn parameters_after<'a>(
    alloc: Global,
    tokens: &'a [CToken<'a>],
    returned: Option<CType>,
) -> Result<(Items<CVariable>, &'a [CToken<'a>]), ParseError>
    ensures { Gives (λ x. (x.0, tokens_of x.1.now)) result (spec.parameters_after returned (tokens_of tokens.now)) }
{
    let mut all = Items::new(alloc);
    match returned {
        None => Ok((all, tokens)),
        Some(of) => {
            let (name, rest) = name(alloc, tokens)?;
            all.push(CVariable { name, of })?;
            more_parameters(alloc, rest, all)
        }
    }
}

/// The parameters of a function, with the parentheses.
#[tactic(auto, unfolding(crate::specs::Programs::parameters))]
pub fn parameters<'a>(
    alloc: Global,
    tokens: &'a [CToken<'a>],
) -> Result<(Items<CVariable>, &'a [CToken<'a>]), ParseError>
    ensures { Gives (λ x. (x.0, tokens_of x.1.now)) result (spec.parameters (tokens_of tokens.now)) }
{
    let rest = expect(tokens, Mark::Open)?;
    let (returned, rest) = result_type(alloc, rest)?;
    let (all, rest) = parameters_after(alloc, rest, returned)?;
    let rest = expect(rest, Mark::Close)?;
    Ok((all, rest))
}

/// Whether the first word of a type is next.
#[tactic(auto, unfolding(token_parsing::specs::Parser::begins))]
fn is_type_word(tokens: &[CToken<'_>]) -> bool
    ensures { result ≡ begins spec.type_words (tokens_of tokens.now) }
{
    match tokens {
        [
            CToken::Quoted(
                Word::Int64Type | Word::Uint64Type | Word::Unsigned | Word::Struct | Word::Void,
            ),
            ..
        ] => true,
        _ => false,
    }
}

/// Whether a local is next, and no statement.
#[tactic(auto, unfolding(crate::specs::Programs::begins_local))]
fn is_local<'a>(tokens: &'a [CToken<'a>]) -> bool
    ensures { result ≡ spec.begins_local (tokens_of tokens.now) }
{
    if is_name(tokens) {
        let behind = after(tokens);
        return is_name(behind) || is(behind, Mark::Star);
    }
    is_type_word(tokens)
}

/// A local, behind those before it.
#[tactic(auto, unfolding(crate::specs::Programs::next_local))]
fn next_local<'a>(
    alloc: Global,
    tokens: &'a [CToken<'a>],
    all: Items<CVariable>,
) -> Result<(Items<CVariable>, &'a [CToken<'a>]), ParseError>
    ensures { Gives (λ x. (x.0, tokens_of x.1.now)) result (spec.next_local all (tokens_of tokens.now)) }
{
    let mut all = all;
    let (local, rest) = variable(alloc, tokens)?;
    let rest = expect(rest, Mark::Semicolon)?;
    all.push(local)?;
    Ok((all, rest))
}

fn locals<'a>(
    alloc: Global,
    tokens: &'a [CToken<'a>],
) -> Result<(Items<CVariable>, &'a [CToken<'a>]), ParseError>
    ensures { Gives (λ x. (x.0, tokens_of x.1.now)) result (spec.locals (tokens_of tokens.now)) }
{
    let mut all = Items::new(alloc);
    let mut rest = tokens;
    for _turn in 0..tokens.len() {
        if !is_local(rest) {
            return Ok((all, rest));
        }
        let (longer, behind) = next_local(alloc, rest, all)?;
        all = longer;
        rest = same(behind);
    }
    Ok((all, rest))
}

/// The locals and the statements of a function, with the braces.
#[tactic(auto, unfolding(crate::specs::Programs::block))]
pub fn block<'a>(
    alloc: Global,
    tokens: &'a [CToken<'a>],
) -> Result<((Items<CVariable>, Items<CStatement>), &'a [CToken<'a>]), ParseError>
    ensures { Gives (λ x. (x.0, tokens_of x.1.now)) result (spec.block (tokens_of tokens.now)) }
{
    let rest = expect(tokens, Mark::OpenBrace)?;
    let (all, rest) = locals(alloc, rest)?;
    let (body, rest) = statements(alloc, rest, DEPTH)?;
    let rest = expect(rest, Mark::CloseBrace)?;
    Ok(((all, body), rest))
}
