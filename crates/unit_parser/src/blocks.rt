//! Declarations and blocks, by recursive descent. `depth` is how many levels may still nest; a block is one.
ghost use Rattle.std.specs.Prelude.{◌≡◌};
ghost use Rattle.expr_parser.specs.Parsing.{Parses};
ghost use Rattle.unit_parser.specs.Blocks as spec;

use crate::parts::{const_part, heading, label_part, type_part, var_part};
use crate::words::{is_declaration, is_routine};
use dialect_lexer::{Symbol, Token, Word};
use expr_parser::source::{Source, span_between};
use expr_parser::step::{expect, expect_word, identifier, is_identifier, is_word, same};
use p2c_text::Dialect;
use pascal_tree::{Block, Declaration, Declarations, Routine, RoutineBody};
use stmt_parser::descent::stmts;
use token_parsing::refusal::{ParseError, too_deep};
use tree_lists::{Boxed, Items};

/// A block, or a directive.
#[tactic(auto, unfolding(crate::specs::Blocks::routine_body))]
#[cycle(blocks)]
fn routine_body<'t>(
    source: &Source<'_>,
    tokens: &'t [Token],
    depth: u32,
) -> Result<(RoutineBody, &'t [Token]), ParseError>
    ensures { Parses source.now tokens.now result (spec.routine_body (spec.block source.now.dialect source.now.end depth)) }
{
    if is_identifier(source, tokens) {
        let (name, rest) = identifier(source, tokens)?;
        return Ok((RoutineBody::Directive(name), rest));
    }
    let (block, rest) = block(source, tokens, depth)?;
    let block = Boxed::new(source.alloc, block)?;
    Ok((RoutineBody::Block(block), rest))
}

#[tactic(auto, unfolding(crate::specs::Blocks::routine))]
#[cycle(blocks)]
fn routine<'t>(
    source: &Source<'_>,
    tokens: &'t [Token],
    depth: u32,
) -> Result<(Routine, &'t [Token]), ParseError>
    ensures { Parses source.now tokens.now result (spec.routine source.now.end depth (spec.block source.now.dialect source.now.end depth)) }
{
    let (heading, rest) = heading(source, tokens, depth)?;
    let rest = expect(source, rest, Symbol::Semicolon)?;
    let (body, rest) = routine_body(source, rest, depth)?;
    let rest = expect(source, rest, Symbol::Semicolon)?;
    let span = span_between(source, tokens, rest);
    let routine = Routine {
        heading,
        body,
        span,
    };
    Ok((routine, rest))
}

#[tactic(auto, unfolding(crate::specs::Blocks::labels_declared))]
fn labels_declared<'t>(
    source: &Source<'_>,
    tokens: &'t [Token],
) -> Result<(Declaration, &'t [Token]), ParseError>
    ensures { Parses source.now tokens.now result (spec.labels_declared source.now.dialect source.now.end) }
{
    let (part, rest) = label_part(source, tokens)?;
    Ok((Declaration::Labels(part), rest))
}

#[tactic(auto, unfolding(crate::specs::Blocks::constants_declared))]
fn constants_declared<'t>(
    source: &Source<'_>,
    tokens: &'t [Token],
    depth: u32,
) -> Result<(Declaration, &'t [Token]), ParseError>
    ensures { Parses source.now tokens.now result (spec.constants_declared source.now.dialect source.now.end depth) }
{
    let (part, rest) = const_part(source, tokens, depth)?;
    Ok((Declaration::Constants(part), rest))
}

#[tactic(auto, unfolding(crate::specs::Blocks::types_declared))]
fn types_declared<'t>(
    source: &Source<'_>,
    tokens: &'t [Token],
    depth: u32,
) -> Result<(Declaration, &'t [Token]), ParseError>
    ensures { Parses source.now tokens.now result (spec.types_declared source.now.dialect source.now.end depth) }
{
    let (part, rest) = type_part(source, tokens, depth)?;
    Ok((Declaration::Types(part), rest))
}

#[tactic(auto, unfolding(crate::specs::Blocks::variables_declared))]
fn variables_declared<'t>(
    source: &Source<'_>,
    tokens: &'t [Token],
    depth: u32,
) -> Result<(Declaration, &'t [Token]), ParseError>
    ensures { Parses source.now tokens.now result (spec.variables_declared source.now.dialect source.now.end depth) }
{
    let (part, rest) = var_part(source, tokens, depth)?;
    Ok((Declaration::Variables(part), rest))
}

#[tactic(auto, unfolding(crate::specs::Blocks::routine_declared))]
#[cycle(blocks)]
fn routine_declared<'t>(
    source: &Source<'_>,
    tokens: &'t [Token],
    depth: u32,
) -> Result<(Declaration, &'t [Token]), ParseError>
    ensures { Parses source.now tokens.now result (spec.routine_declared source.now.end depth (spec.block source.now.dialect source.now.end depth)) }
{
    let (part, rest) = routine(source, tokens, depth)?;
    Ok((Declaration::Routine(part), rest))
}

#[tactic(auto, unfolding(crate::specs::Blocks::declaration))]
#[cycle(blocks)]
fn declaration<'t>(
    source: &Source<'_>,
    tokens: &'t [Token],
    depth: u32,
) -> Result<(Declaration, &'t [Token]), ParseError>
    ensures { Parses source.now tokens.now result (spec.declaration source.now.dialect source.now.end depth (spec.block source.now.dialect source.now.end depth)) }
{
    if is_word(source, tokens, Word::KwLabel) {
        return labels_declared(source, tokens);
    }
    if is_word(source, tokens, Word::KwConst) {
        return constants_declared(source, tokens, depth);
    }
    if is_word(source, tokens, Word::KwType) {
        return types_declared(source, tokens, depth);
    }
    if is_word(source, tokens, Word::KwVar) {
        return variables_declared(source, tokens, depth);
    }
    routine_declared(source, tokens, depth)
}

/// A declaration, behind those before it.
#[tactic(auto, unfolding(crate::specs::Blocks::next_declaration))]
#[cycle(blocks)]
fn next_declaration<'t>(
    source: &Source<'_>,
    tokens: &'t [Token],
    depth: u32,
    all: Declarations,
) -> Result<(Declarations, &'t [Token]), ParseError>
    ensures { Parses source.now tokens.now result (spec.next_declaration source.now.dialect source.now.end depth (spec.block source.now.dialect source.now.end depth) all) }
{
    let mut all = all;
    let (item, rest) = declaration(source, tokens, depth)?;
    all.push(item)?;
    Ok((all, rest))
}

/// Routines, as many as there are.
#[cycle(blocks)]
fn routines<'t>(
    source: &Source<'_>,
    tokens: &'t [Token],
    depth: u32,
    first: Declarations,
) -> Result<(Declarations, &'t [Token]), ParseError>
    ensures { Parses source.now tokens.now result (spec.routines source.now.dialect source.now.end depth (spec.block source.now.dialect source.now.end depth) first) }
{
    let mut all = first;
    let mut rest = tokens;
    for _turn in 0..tokens.len() {
        if !is_routine(source, rest) {
            return Ok((all, rest));
        }
        let (longer, behind) = next_declaration(source, rest, depth, all)?;
        all = longer;
        rest = same(behind);
    }
    Ok((all, rest))
}

/// Declarations in any order, as many as there are.
#[cycle(blocks)]
fn any_declarations<'t>(
    source: &Source<'_>,
    tokens: &'t [Token],
    depth: u32,
    first: Declarations,
) -> Result<(Declarations, &'t [Token]), ParseError>
    ensures { Parses source.now tokens.now result (spec.any_declarations source.now.dialect source.now.end depth (spec.block source.now.dialect source.now.end depth) first) }
{
    let mut all = first;
    let mut rest = tokens;
    for _turn in 0..tokens.len() {
        if !is_declaration(source, rest) {
            return Ok((all, rest));
        }
        let (longer, behind) = next_declaration(source, rest, depth, all)?;
        all = longer;
        rest = same(behind);
    }
    Ok((all, rest))
}

/// The declaration that begins with this word, if it is next, behind those before it.
#[tactic(auto, unfolding(crate::specs::Blocks::optional_declaration))]
#[cycle(blocks)]
fn optional_declaration<'t>(
    source: &Source<'_>,
    tokens: &'t [Token],
    depth: u32,
    word: Word,
    all: Declarations,
) -> Result<(Declarations, &'t [Token]), ParseError>
    ensures { Parses source.now tokens.now result (spec.optional_declaration word source.now.dialect source.now.end depth (spec.block source.now.dialect source.now.end depth) all) }
{
    if is_word(source, tokens, word) {
        return next_declaration(source, tokens, depth, all);
    }
    Ok((all, tokens))
}

/// Labels, constants, types, variables and routines, in this order.
#[tactic(auto, unfolding(crate::specs::Blocks::ordered_declarations))]
#[cycle(blocks)]
fn ordered_declarations<'t>(
    source: &Source<'_>,
    tokens: &'t [Token],
    depth: u32,
) -> Result<(Declarations, &'t [Token]), ParseError>
    ensures { Parses source.now tokens.now result (spec.ordered_declarations source.now.dialect source.now.end depth (spec.block source.now.dialect source.now.end depth)) }
{
    let none = Items::new(source.alloc);
    let (labels, rest) = optional_declaration(source, tokens, depth, Word::KwLabel, none)?;
    let (constants, rest) = optional_declaration(source, rest, depth, Word::KwConst, labels)?;
    let (types, rest) = optional_declaration(source, rest, depth, Word::KwType, constants)?;
    let (variables, rest) = optional_declaration(source, rest, depth, Word::KwVar, types)?;
    routines(source, rest, depth, variables)
}

/// The declarations of a block or of an implementation.
#[tactic(auto, unfolding(crate::specs::Blocks::declarations))]
#[cycle(blocks)]
pub fn declarations<'t>(
    source: &Source<'_>,
    tokens: &'t [Token],
    depth: u32,
) -> Result<(Declarations, &'t [Token]), ParseError>
    ensures { Parses source.now tokens.now result (spec.declarations source.now.dialect source.now.end depth (spec.block source.now.dialect source.now.end depth)) }
{
    match source.dialect {
        Dialect::Iso => ordered_declarations(source, tokens, depth),
        Dialect::Turbo | Dialect::Ucsd | Dialect::Hp => {
            any_declarations(source, tokens, depth, Items::new(source.alloc))
        }
    }
}

/// A block whose parts have `depth` levels.
#[tactic(auto, unfolding(crate::specs::Blocks::block_by))]
#[cycle(blocks)]
fn block_by<'t>(
    source: &Source<'_>,
    tokens: &'t [Token],
    depth: u32,
) -> Result<(Block, &'t [Token]), ParseError>
    ensures { Parses source.now tokens.now result (spec.block_by source.now.dialect source.now.end depth (spec.block source.now.dialect source.now.end depth)) }
{
    let (declarations, rest) = declarations(source, tokens, depth)?;
    let rest = expect_word(source, rest, Word::KwBegin)?;
    let (body, rest) = stmts(source, rest, depth)?;
    let rest = expect_word(source, rest, Word::KwEnd)?;
    let span = span_between(source, tokens, rest);
    let block = Block {
        declarations,
        body,
        span,
    };
    Ok((block, rest))
}

/// A block of at most `depth` levels.
#[cycle(blocks)]
pub fn block<'t>(
    source: &Source<'_>,
    tokens: &'t [Token],
    depth: u32,
) -> Result<(Block, &'t [Token]), ParseError>
    ensures { Parses source.now tokens.now result (spec.block source.now.dialect source.now.end depth) }
{
    if depth == 0 {
        return Err(too_deep(tokens));
    }
    block_by(source, tokens, depth - 1)
}
