//! Statements, by recursive descent. `depth` is how many levels may still nest.
ghost use Rattle.std.specs.Prelude.{◌≡◌, Option, Some, None, List};
ghost use Rattle.c_tree.specs.Tree.{body_of, Goto};
ghost use Rattle.c_grammar.specs.Seen.{tokens_of};
ghost use Rattle.c_expr_parser.specs.Expressions.{expr as expr_of};
ghost use Rattle.c_parser.specs.Statements as spec;
ghost use Rattle.token_parsing.specs.Parser.{Gives, and_then, begins, repeat};
ghost use Rattle.c_expr_parser.specs.Classes.{marks};
ghost use Rattle.c_expr_parser.specs.Expressions.{place as place_of};
ghost use Rattle.c_grammar.specs.declared.token.Mark.TheVariants as mark;

use c_expr_parser::expressions::{closed, expr, place};
use c_expr_parser::step::{after, expect, expect_word, is, is_name, is_word, name, same};
use c_expr_parser::types::object_type;
use c_grammar::token::{CToken, Mark, Word};
use c_tree::Name;
use c_tree::expr::{CBasePlace, CExpr, CPlace};
use c_tree::statement::{CCallee, CStatement};
use std::alloc::Global;
use token_parsing::refusal::{ParseError, too_deep, unexpected};
use tree_lists::Items;

/// An argument after a comma, behind those before it.
#[tactic(auto, unfolding(crate::specs::Statements::next_argument))]
fn next_argument<'a>(
    alloc: Global,
    tokens: &'a [CToken<'a>],
    depth: u32,
    all: Items<CExpr>,
) -> Result<(Items<CExpr>, &'a [CToken<'a>]), ParseError>
    ensures { Gives (λ x. (x.0, tokens_of x.1.now)) result (spec.next_argument (expr_of depth) all (tokens_of tokens.now)) }
{
    let mut all = all;
    let rest = expect(tokens, Mark::Comma)?;
    let (argument, rest) = expr(alloc, rest, depth)?;
    all.push(argument)?;
    Ok((all, rest))
}

/// The arguments after the first.
fn more_arguments<'a>(
    alloc: Global,
    tokens: &'a [CToken<'a>],
    depth: u32,
    first: Items<CExpr>,
) -> Result<(Items<CExpr>, &'a [CToken<'a>]), ParseError>
    ensures { Gives (λ x. (x.0, tokens_of x.1.now)) result (repeat (begins (marks mark.Comma)) (spec.next_argument (expr_of depth)) first (tokens_of tokens.now)) }
{
    let mut all = first;
    let mut rest = tokens;
    for _turn in 0..tokens.len() {
        if !is(rest, Mark::Comma) {
            return Ok((all, rest));
        }
        let (longer, behind) = next_argument(alloc, rest, depth, all)?;
        all = longer;
        rest = same(behind);
    }
    Ok((all, rest))
}

#[tactic(auto, unfolding(crate::specs::Statements::some_arguments))]
fn some_arguments<'a>(
    alloc: Global,
    tokens: &'a [CToken<'a>],
    depth: u32,
) -> Result<(Items<CExpr>, &'a [CToken<'a>]), ParseError>
    ensures { Gives (λ x. (x.0, tokens_of x.1.now)) result (spec.some_arguments (expr_of depth) (tokens_of tokens.now)) }
{
    let (argument, rest) = expr(alloc, tokens, depth)?;
    let mut first = Items::new(alloc);
    first.push(argument)?;
    more_arguments(alloc, rest, depth, first)
}

/// The arguments between the parentheses of a call.
#[tactic(auto, unfolding(crate::specs::Statements::listed_arguments))]
fn listed_arguments<'a>(
    alloc: Global,
    tokens: &'a [CToken<'a>],
    depth: u32,
) -> Result<(Items<CExpr>, &'a [CToken<'a>]), ParseError>
    ensures { Gives (λ x. (x.0, tokens_of x.1.now)) result (spec.listed_arguments (expr_of depth) (tokens_of tokens.now)) }
{
    if is(tokens, Mark::Close) {
        return Ok((Items::new(alloc), tokens));
    }
    some_arguments(alloc, tokens, depth)
}

/// The arguments of a call, with the parentheses and the semicolon.
#[tactic(auto, unfolding(crate::specs::Statements::arguments))]
fn arguments<'a>(
    alloc: Global,
    tokens: &'a [CToken<'a>],
    depth: u32,
) -> Result<(Items<CExpr>, &'a [CToken<'a>]), ParseError>
    ensures { Gives (λ x. (x.0, tokens_of x.1.now)) result (spec.arguments (expr_of depth) (tokens_of tokens.now)) }
{
    let rest = expect(tokens, Mark::Open)?;
    let (all, rest) = listed_arguments(alloc, rest, depth)?;
    let rest = expect(rest, Mark::Close)?;
    let rest = expect(rest, Mark::Semicolon)?;
    Ok((all, rest))
}

/// A call, after its callee.
#[tactic(auto, unfolding(crate::specs::Statements::call))]
fn call<'a>(
    alloc: Global,
    tokens: &'a [CToken<'a>],
    depth: u32,
    into: Option<CPlace>,
    callee: CCallee,
) -> Result<(CStatement, &'a [CToken<'a>]), ParseError>
    ensures { Gives (λ x. (x.0, tokens_of x.1.now)) result (spec.call (expr_of depth) into callee (tokens_of tokens.now)) }
{
    let (all, rest) = arguments(alloc, tokens, depth)?;
    Ok((CStatement::call(into, callee, all), rest))
}

/// `(* pointer)`, as a callee.
#[tactic(auto, unfolding(crate::specs::Statements::indirect))]
fn indirect<'a>(
    alloc: Global,
    tokens: &'a [CToken<'a>],
    depth: u32,
) -> Result<(CCallee, &'a [CToken<'a>]), ParseError>
    ensures { Gives (λ x. (x.0, tokens_of x.1.now)) result (spec.indirect (expr_of depth) (tokens_of tokens.now)) }
{
    let rest = expect(tokens, Mark::Open)?;
    let rest = expect(rest, Mark::Star)?;
    let (pointer, rest) = closed(alloc, rest, depth)?;
    Ok((CCallee::Indirect(pointer), rest))
}

#[tactic(auto, unfolding(crate::specs::Statements::callee))]
fn callee<'a>(
    alloc: Global,
    tokens: &'a [CToken<'a>],
    depth: u32,
) -> Result<(CCallee, &'a [CToken<'a>]), ParseError>
    ensures { Gives (λ x. (x.0, tokens_of x.1.now)) result (spec.callee (expr_of depth) (tokens_of tokens.now)) }
{
    if is_name(tokens) {
        let (name, rest) = name(alloc, tokens)?;
        return Ok((CCallee::Direct(name), rest));
    }
    indirect(alloc, tokens, depth)
}

/// `malloc(sizeof(`.
#[tactic(auto, unfolding(crate::specs::Statements::malloc_opening))]
fn malloc_opening<'a>(tokens: &'a [CToken<'a>]) -> Result<&'a [CToken<'a>], ParseError>
    ensures { Gives (λ x. (tt, tokens_of x.now)) result (spec.malloc_opening (tokens_of tokens.now)) }
{
    let rest = expect_word(tokens, Word::Malloc)?;
    let rest = expect(rest, Mark::Open)?;
    let rest = expect_word(rest, Word::SizeOf)?;
    expect(rest, Mark::Open)
}

/// `malloc(sizeof(type));`, after the `=`.
#[tactic(auto, unfolding(crate::specs::Statements::malloc))]
fn malloc<'a>(
    alloc: Global,
    tokens: &'a [CToken<'a>],
    into: CPlace,
) -> Result<(CStatement, &'a [CToken<'a>]), ParseError>
    ensures { Gives (λ x. (x.0, tokens_of x.1.now)) result (spec.malloc into (tokens_of tokens.now)) }
{
    let rest = malloc_opening(tokens)?;
    let (of, rest) = object_type(alloc, rest)?;
    let rest = expect(rest, Mark::Close)?;
    let rest = expect(rest, Mark::Close)?;
    let rest = expect(rest, Mark::Semicolon)?;
    Ok((CStatement::malloc(into, of), rest))
}

/// `getchar();`, after the `=`.
#[tactic(auto, unfolding(crate::specs::Statements::get_char))]
fn get_char<'a>(
    tokens: &'a [CToken<'a>],
    into: CPlace,
) -> Result<(CStatement, &'a [CToken<'a>]), ParseError>
    ensures { Gives (λ x. (x.0, tokens_of x.1.now)) result (spec.get_char into (tokens_of tokens.now)) }
{
    let rest = expect_word(tokens, Word::GetChar)?;
    let rest = expect(rest, Mark::Open)?;
    let rest = expect(rest, Mark::Close)?;
    let rest = expect(rest, Mark::Semicolon)?;
    Ok((CStatement::get_char(into), rest))
}

/// A value that is assigned, after the `=`.
#[tactic(auto, unfolding(crate::specs::Statements::value))]
fn value<'a>(
    alloc: Global,
    tokens: &'a [CToken<'a>],
    depth: u32,
    into: CPlace,
) -> Result<(CStatement, &'a [CToken<'a>]), ParseError>
    ensures { Gives (λ x. (x.0, tokens_of x.1.now)) result (spec.value (expr_of depth) into (tokens_of tokens.now)) }
{
    let (value, rest) = expr(alloc, tokens, depth)?;
    let rest = expect(rest, Mark::Semicolon)?;
    Ok((CStatement::assign(into, value), rest))
}

/// A call whose answer is assigned, after the `=`.
#[tactic(auto, unfolding(crate::specs::Statements::call_into))]
fn call_into<'a>(
    alloc: Global,
    tokens: &'a [CToken<'a>],
    depth: u32,
    into: CPlace,
) -> Result<(CStatement, &'a [CToken<'a>]), ParseError>
    ensures { Gives (λ x. (x.0, tokens_of x.1.now)) result (spec.call_into (expr_of depth) into (tokens_of tokens.now)) }
{
    let (callee, rest) = callee(alloc, tokens, depth)?;
    call(alloc, rest, depth, Some(into), callee)
}

/// What is after the parenthesis that closes the one before these tokens.
fn after_group<'a>(tokens: &'a [CToken<'a>]) -> &'a [CToken<'a>]
    ensures { tokens_of result.now ≡ spec.after_group 0 (tokens_of tokens.now) }
{
    let mut opened: usize = 0;
    let mut rest = tokens;
    while !rest.is_empty() {
        if is(rest, Mark::Open) {
            opened += 1;
        } else if is(rest, Mark::Close) {
            if opened == 0 {
                return after(rest);
            }
            opened -= 1;
        }
        rest = after(rest);
    }
    rest
}

/// Whether a callee and an opening parenthesis are next.
#[tactic(auto, unfolding(crate::specs::Statements::calls))]
fn is_call<'a>(tokens: &'a [CToken<'a>]) -> bool
    ensures { result ≡ spec.calls (tokens_of tokens.now) }
{
    if is_name(tokens) {
        return is(after(tokens), Mark::Open);
    }
    if !is(tokens, Mark::Open) {
        return false;
    }
    let inner = after(tokens);
    is(inner, Mark::Star) && is(after_group(inner), Mark::Open)
}

/// An assignment, after its place.
#[tactic(auto, unfolding(crate::specs::Statements::assigned))]
fn assigned<'a>(
    alloc: Global,
    tokens: &'a [CToken<'a>],
    depth: u32,
    into: CPlace,
) -> Result<(CStatement, &'a [CToken<'a>]), ParseError>
    ensures { Gives (λ x. (x.0, tokens_of x.1.now)) result (spec.assigned (expr_of depth) into (tokens_of tokens.now)) }
{
    let rest = expect(tokens, Mark::Assign)?;
    if is_word(rest, Word::Malloc) {
        return malloc(alloc, rest, into);
    }
    if is_word(rest, Word::GetChar) {
        return get_char(rest, into);
    }
    if is_call(rest) {
        return call_into(alloc, rest, depth, into);
    }
    value(alloc, rest, depth, into)
}

/// The place as a callee.
#[tactic(auto, using(crate::proofs::Selected::no_callee))]
fn callee_of(place: CPlace) -> Option<CCallee>
    ensures { result ≡ spec.callee_of place }
{
    let CPlace { base, selectors } = place;
    if !selectors.is_empty() {
        return None;
    }
    match base {
        CBasePlace::Variable(name) => Some(CCallee::Direct(name)),
        CBasePlace::Pointee(pointer) => Some(CCallee::Indirect(pointer.into_inner())),
    }
}

/// The place as a label.
#[tactic(auto, using(crate::proofs::Selected::no_label))]
fn label_of(place: CPlace) -> Option<Name>
    ensures { result ≡ spec.label_of place }
{
    let CPlace { base, selectors } = place;
    if !selectors.is_empty() {
        return None;
    }
    match base {
        CBasePlace::Variable(name) => Some(name),
        CBasePlace::Pointee(_) => None,
    }
}

/// A call without an answer, after what may be its callee.
fn called<'a>(
    alloc: Global,
    tokens: &'a [CToken<'a>],
    depth: u32,
    callee: Option<CCallee>,
) -> Result<(CStatement, &'a [CToken<'a>]), ParseError>
    ensures { Gives (λ x. (x.0, tokens_of x.1.now)) result (spec.called (expr_of depth) callee (tokens_of tokens.now)) }
{
    match callee {
        None => Err(unexpected(tokens)),
        Some(callee) => call(alloc, tokens, depth, None, callee),
    }
}

/// `: ;`, after what may be a label.
fn labelled<'a>(
    tokens: &'a [CToken<'a>],
    label: Option<Name>,
) -> Result<(CStatement, &'a [CToken<'a>]), ParseError>
    ensures { Gives (λ x. (x.0, tokens_of x.1.now)) result (spec.labelled label (tokens_of tokens.now)) }
{
    match label {
        None => Err(unexpected(tokens)),
        Some(label) => {
            let rest = expect(tokens, Mark::Colon)?;
            let rest = expect(rest, Mark::Semicolon)?;
            Ok((CStatement::label(label), rest))
        }
    }
}

/// A statement that begins with a place, after it.
#[tactic(auto, unfolding(crate::specs::Statements::placed))]
fn placed<'a>(
    alloc: Global,
    tokens: &'a [CToken<'a>],
    depth: u32,
    place: CPlace,
) -> Result<(CStatement, &'a [CToken<'a>]), ParseError>
    ensures { Gives (λ x. (x.0, tokens_of x.1.now)) result (spec.placed (expr_of depth) place (tokens_of tokens.now)) }
{
    if is(tokens, Mark::Assign) {
        return assigned(alloc, tokens, depth, place);
    }
    if is(tokens, Mark::Open) {
        return called(alloc, tokens, depth, callee_of(place));
    }
    labelled(tokens, label_of(place))
}

/// An expression in parentheses, as a test.
#[tactic(auto, unfolding(crate::specs::Statements::enclosed))]
fn enclosed<'a>(
    alloc: Global,
    tokens: &'a [CToken<'a>],
    depth: u32,
) -> Result<(CExpr, &'a [CToken<'a>]), ParseError>
    ensures { Gives (λ x. (x.0, tokens_of x.1.now)) result (spec.enclosed (expr_of depth) (tokens_of tokens.now)) }
{
    let rest = expect(tokens, Mark::Open)?;
    closed(alloc, rest, depth)
}

#[tactic(auto, unfolding(crate::specs::Statements::free))]
fn free<'a>(
    alloc: Global,
    tokens: &'a [CToken<'a>],
    depth: u32,
) -> Result<(CStatement, &'a [CToken<'a>]), ParseError>
    ensures { Gives (λ x. (x.0, tokens_of x.1.now)) result (spec.free (expr_of depth) (tokens_of tokens.now)) }
{
    let rest = expect_word(tokens, Word::Free)?;
    let (pointer, rest) = enclosed(alloc, rest, depth)?;
    let rest = expect(rest, Mark::Semicolon)?;
    Ok((CStatement::free(pointer), rest))
}

#[tactic(auto, unfolding(crate::specs::Statements::put_char))]
fn put_char<'a>(
    alloc: Global,
    tokens: &'a [CToken<'a>],
    depth: u32,
) -> Result<(CStatement, &'a [CToken<'a>]), ParseError>
    ensures { Gives (λ x. (x.0, tokens_of x.1.now)) result (spec.put_char (expr_of depth) (tokens_of tokens.now)) }
{
    let rest = expect_word(tokens, Word::PutChar)?;
    let (value, rest) = enclosed(alloc, rest, depth)?;
    let rest = expect(rest, Mark::Semicolon)?;
    Ok((CStatement::put_char(value), rest))
}

#[tactic(auto, unfolding(crate::specs::Statements::goto))]
fn goto_label<'a>(
    alloc: Global,
    tokens: &'a [CToken<'a>],
) -> Result<(CStatement, &'a [CToken<'a>]), ParseError>
    ensures { Gives (λ x. (x.0, tokens_of x.1.now)) result (spec.goto (tokens_of tokens.now)) }
{
    let rest = expect_word(tokens, Word::Goto)?;
    let (label, rest) = name(alloc, rest)?;
    let rest = expect(rest, Mark::Semicolon)?;
    Ok((CStatement::goto(label), rest))
}

#[tactic(auto, unfolding(crate::specs::Statements::returned))]
fn returned<'a>(
    alloc: Global,
    tokens: &'a [CToken<'a>],
    depth: u32,
) -> Result<(Option<CExpr>, &'a [CToken<'a>]), ParseError>
    ensures { Gives (λ x. (x.0, tokens_of x.1.now)) result (spec.returned (expr_of depth) (tokens_of tokens.now)) }
{
    if is(tokens, Mark::Semicolon) {
        return Ok((None, tokens));
    }
    let (value, rest) = expr(alloc, tokens, depth)?;
    Ok((Some(value), rest))
}

#[tactic(auto, unfolding(crate::specs::Statements::return_with))]
fn return_value<'a>(
    alloc: Global,
    tokens: &'a [CToken<'a>],
    depth: u32,
) -> Result<(CStatement, &'a [CToken<'a>]), ParseError>
    ensures { Gives (λ x. (x.0, tokens_of x.1.now)) result (spec.return_with (expr_of depth) (tokens_of tokens.now)) }
{
    let rest = expect_word(tokens, Word::Return)?;
    let (value, rest) = returned(alloc, rest, depth)?;
    let rest = expect(rest, Mark::Semicolon)?;
    Ok((CStatement::return_of(value), rest))
}

/// A statement that begins with a place.
fn by_place<'a>(
    alloc: Global,
    tokens: &'a [CToken<'a>],
    depth: u32,
) -> Result<(CStatement, &'a [CToken<'a>]), ParseError>
    ensures { Gives (λ x. (x.0, tokens_of x.1.now)) result (and_then (place_of (expr_of depth) (tokens_of tokens.now)) (spec.placed (expr_of depth))) }
{
    let (place, rest) = place(alloc, tokens, depth)?;
    placed(alloc, rest, depth, place)
}

/// A statement without a body.
#[tactic(auto, unfolding(crate::specs::Statements::simple))]
fn simple<'a>(
    alloc: Global,
    tokens: &'a [CToken<'a>],
    depth: u32,
) -> Result<(CStatement, &'a [CToken<'a>]), ParseError>
    ensures { Gives (λ x. (x.0, tokens_of x.1.now)) result (spec.simple (expr_of depth) (tokens_of tokens.now)) }
{
    if is_word(tokens, Word::Free) {
        return free(alloc, tokens, depth);
    }
    if is_word(tokens, Word::PutChar) {
        return put_char(alloc, tokens, depth);
    }
    if is_word(tokens, Word::Goto) {
        return goto_label(alloc, tokens);
    }
    if is_word(tokens, Word::Return) {
        return return_value(alloc, tokens, depth);
    }
    by_place(alloc, tokens, depth)
}

/// A statement, behind those before it.
#[tactic(auto, unfolding(crate::specs::Statements::next_statement))]
#[cycle(nesting)]
fn next_statement<'a>(
    alloc: Global,
    tokens: &'a [CToken<'a>],
    depth: u32,
    all: Items<CStatement>,
) -> Result<(Items<CStatement>, &'a [CToken<'a>]), ParseError>
    ensures { Gives (λ x. (x.0, tokens_of x.1.now)) result (spec.next_statement (spec.statement depth) all (tokens_of tokens.now)) }
{
    let mut all = all;
    let (next, rest) = statement(alloc, tokens, depth)?;
    all.push(next)?;
    Ok((all, rest))
}

/// The statements up to a closing brace.
#[cycle(nesting)]
pub fn statements<'a>(
    alloc: Global,
    tokens: &'a [CToken<'a>],
    depth: u32,
) -> Result<(Items<CStatement>, &'a [CToken<'a>]), ParseError>
    ensures { Gives (λ x. (x.0, tokens_of x.1.now)) result (spec.statements (spec.statement depth) (tokens_of tokens.now)) }
{
    let mut all = Items::new(alloc);
    let mut rest = tokens;
    for _turn in 0..tokens.len() {
        if is(rest, Mark::CloseBrace) {
            return Ok((all, rest));
        }
        let (longer, behind) = next_statement(alloc, rest, depth, all)?;
        all = longer;
        rest = same(behind);
    }
    Ok((all, rest))
}

/// The statements between two braces.
#[tactic(auto, unfolding(crate::specs::Statements::body))]
#[cycle(nesting)]
fn body<'a>(
    alloc: Global,
    tokens: &'a [CToken<'a>],
    depth: u32,
) -> Result<(Items<CStatement>, &'a [CToken<'a>]), ParseError>
    ensures { Gives (λ x. (x.0, tokens_of x.1.now)) result (spec.body (spec.statement depth) (tokens_of tokens.now)) }
{
    let rest = expect(tokens, Mark::OpenBrace)?;
    let (all, rest) = statements(alloc, rest, depth)?;
    let rest = expect(rest, Mark::CloseBrace)?;
    Ok((all, rest))
}

/// `else` with its body, after the rest of its `if`.
#[tactic(auto, unfolding(crate::specs::Statements::otherwise))]
#[cycle(nesting)]
fn otherwise<'a>(
    alloc: Global,
    tokens: &'a [CToken<'a>],
    depth: u32,
    test: CExpr,
    first: Items<CStatement>,
) -> Result<(CStatement, &'a [CToken<'a>]), ParseError>
    ensures { Gives (λ x. (x.0, tokens_of x.1.now)) result (spec.otherwise (spec.statement depth) test first (tokens_of tokens.now)) }
{
    let rest = expect_word(tokens, Word::Else)?;
    let (second, rest) = body(alloc, rest, depth)?;
    Ok((CStatement::if_else(test, first, second), rest))
}

#[tactic(auto, unfolding(crate::specs::Statements::conditional))]
#[cycle(nesting)]
fn conditional<'a>(
    alloc: Global,
    tokens: &'a [CToken<'a>],
    depth: u32,
) -> Result<(CStatement, &'a [CToken<'a>]), ParseError>
    ensures { Gives (λ x. (x.0, tokens_of x.1.now)) result (spec.conditional (expr_of depth) (spec.statement depth) (tokens_of tokens.now)) }
{
    let rest = expect_word(tokens, Word::If)?;
    let (test, rest) = enclosed(alloc, rest, depth)?;
    let (first, rest) = body(alloc, rest, depth)?;
    if is_word(rest, Word::Else) {
        return otherwise(alloc, rest, depth, test, first);
    }
    Ok((CStatement::if_then(test, first), rest))
}

#[tactic(auto, unfolding(crate::specs::Statements::while_loop))]
#[cycle(nesting)]
fn while_loop<'a>(
    alloc: Global,
    tokens: &'a [CToken<'a>],
    depth: u32,
) -> Result<(CStatement, &'a [CToken<'a>]), ParseError>
    ensures { Gives (λ x. (x.0, tokens_of x.1.now)) result (spec.while_loop (expr_of depth) (spec.statement depth) (tokens_of tokens.now)) }
{
    let rest = expect_word(tokens, Word::While)?;
    let (test, rest) = enclosed(alloc, rest, depth)?;
    let (all, rest) = body(alloc, rest, depth)?;
    Ok((CStatement::while_do(test, all), rest))
}

/// A statement whose parts have `depth` levels.
#[tactic(auto, unfolding(crate::specs::Statements::statement_by))]
#[cycle(nesting)]
fn statement_by<'a>(
    alloc: Global,
    tokens: &'a [CToken<'a>],
    depth: u32,
) -> Result<(CStatement, &'a [CToken<'a>]), ParseError>
    ensures { Gives (λ x. (x.0, tokens_of x.1.now)) result (spec.statement_by (expr_of depth) (spec.statement depth) (tokens_of tokens.now)) }
{
    if is_word(tokens, Word::If) {
        return conditional(alloc, tokens, depth);
    }
    if is_word(tokens, Word::While) {
        return while_loop(alloc, tokens, depth);
    }
    simple(alloc, tokens, depth)
}

#[cycle(nesting)]
fn statement<'a>(
    alloc: Global,
    tokens: &'a [CToken<'a>],
    depth: u32,
) -> Result<(CStatement, &'a [CToken<'a>]), ParseError>
    ensures { Gives (λ x. (x.0, tokens_of x.1.now)) result (spec.statement depth (tokens_of tokens.now)) }
{
    if depth == 0 {
        return Err(too_deep(tokens));
    }
    statement_by(alloc, tokens, depth - 1)
}
