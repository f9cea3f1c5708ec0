//! Whole texts. `depth` is how many levels may still nest.
ghost use Rattle.std.specs.Prelude.{◌≡◌, []};
ghost use Rattle.token_parsing.specs.Parser.{Gives};
ghost use Rattle.expr_parser.specs.Parsing.{Parses};
ghost use Rattle.expr_parser.specs.Tokens.{seen};
ghost use Rattle.unit_parser.specs.Files as spec;

use crate::blocks::{block, declarations};
use crate::parts::{const_part, heading, type_part, var_part};
use crate::words::{is_public, uses_word};
use dialect_lexer::{Symbol, Token, Word};
use expr_parser::source::{Source, span_between};
use expr_parser::step::{expect, expect_word, identifier, is, is_word, same};
use p2c_text::Dialect;
use pascal_tree::{
    Declarations, Head, Identifier, Identifiers, Module, Program, Public, Publics, SourceFile,
    Stmts, UnitNode, Uses,
};
use stmt_parser::descent::stmts;
use token_parsing::refusal::{ParseError, unexpected};
use tree_lists::Items;
use type_parser::names::names;

/// The names of units that are used.
#[tactic(auto, unfolding(crate::specs::Files::uses))]
fn uses<'t>(source: &Source<'_>, tokens: &'t [Token]) -> Result<(Uses, &'t [Token]), ParseError>
    ensures { Parses source.now tokens.now result (spec.uses source.now.dialect source.now.end) }
{
    let rest = expect_word(source, tokens, uses_word(source.dialect))?;
    let (names, rest) = names(source, rest)?;
    let rest = expect(source, rest, Symbol::Semicolon)?;
    let span = span_between(source, tokens, rest);
    Ok((Uses { names, span }, rest))
}

#[tactic(auto, unfolding(crate::specs::Files::optional_uses))]
fn optional_uses<'t>(
    source: &Source<'_>,
    tokens: &'t [Token],
) -> Result<(Option<Uses>, &'t [Token]), ParseError>
    ensures { Parses source.now tokens.now result (spec.optional_uses source.now.dialect source.now.end) }
{
    if is_word(source, tokens, uses_word(source.dialect)) {
        let (uses, rest) = uses(source, tokens)?;
        return Ok((Some(uses), rest));
    }
    Ok((None, tokens))
}

/// The parameters of a program, if a parenthesis is next.
#[tactic(auto, unfolding(crate::specs::Files::optional_parameters))]
fn optional_parameters<'t>(
    source: &Source<'_>,
    tokens: &'t [Token],
) -> Result<(Option<Identifiers>, &'t [Token]), ParseError>
    ensures { Parses source.now tokens.now result spec.optional_parameters }
{
    if is(source, tokens, Symbol::Open) {
        let rest = expect(source, tokens, Symbol::Open)?;
        let (names, rest) = names(source, rest)?;
        let rest = expect(source, rest, Symbol::Close)?;
        return Ok((Some(names), rest));
    }
    Ok((None, tokens))
}

#[tactic(auto, unfolding(crate::specs::Files::head))]
fn head<'t>(source: &Source<'_>, tokens: &'t [Token]) -> Result<(Head, &'t [Token]), ParseError>
    ensures { Parses source.now tokens.now result (spec.head source.now.end) }
{
    let rest = expect_word(source, tokens, Word::KwProgram)?;
    let (name, rest) = identifier(source, rest)?;
    let (parameters, rest) = optional_parameters(source, rest)?;
    let rest = expect(source, rest, Symbol::Semicolon)?;
    let span = span_between(source, tokens, rest);
    let head = Head {
        name,
        parameters,
        span,
    };
    Ok((head, rest))
}

/// Whether a program begins here without its head.
fn is_headless(source: &Source<'_>, tokens: &[Token]) -> bool
    ensures { result ≡ spec.is_headless source.now.dialect (seen source.now.bytes.now tokens.now) }
{
    match source.dialect {
        Dialect::Turbo => !is_word(source, tokens, Word::KwProgram),
        Dialect::Iso | Dialect::Ucsd | Dialect::Hp => false,
    }
}

#[tactic(auto, unfolding(crate::specs::Files::optional_head))]
fn optional_head<'t>(
    source: &Source<'_>,
    tokens: &'t [Token],
) -> Result<(Option<Head>, &'t [Token]), ParseError>
    ensures { Parses source.now tokens.now result (spec.optional_head source.now.dialect source.now.end) }
{
    if is_headless(source, tokens) {
        return Ok((None, tokens));
    }
    let (head, rest) = head(source, tokens)?;
    Ok((Some(head), rest))
}

#[tactic(auto, unfolding(crate::specs::Files::program))]
fn program<'t>(
    source: &Source<'_>,
    tokens: &'t [Token],
    depth: u32,
) -> Result<(Program, &'t [Token]), ParseError>
    ensures { Parses source.now tokens.now result (spec.program source.now.dialect source.now.end depth) }
{
    let (head, rest) = optional_head(source, tokens)?;
    let (uses, rest) = optional_uses(source, rest)?;
    let (block, rest) = block(source, rest, depth)?;
    let rest = expect(source, rest, Symbol::Dot)?;
    let span = span_between(source, tokens, rest);
    let program = Program {
        head,
        uses,
        block,
        span,
    };
    Ok((program, rest))
}

#[tactic(auto, unfolding(crate::specs::Files::constants_public))]
fn constants_public<'t>(
    source: &Source<'_>,
    tokens: &'t [Token],
    depth: u32,
) -> Result<(Public, &'t [Token]), ParseError>
    ensures { Parses source.now tokens.now result (spec.constants_public source.now.dialect source.now.end depth) }
{
    let (part, rest) = const_part(source, tokens, depth)?;
    Ok((Public::Constants(part), rest))
}

#[tactic(auto, unfolding(crate::specs::Files::types_public))]
fn types_public<'t>(
    source: &Source<'_>,
    tokens: &'t [Token],
    depth: u32,
) -> Result<(Public, &'t [Token]), ParseError>
    ensures { Parses source.now tokens.now result (spec.types_public source.now.dialect source.now.end depth) }
{
    let (part, rest) = type_part(source, tokens, depth)?;
    Ok((Public::Types(part), rest))
}

#[tactic(auto, unfolding(crate::specs::Files::variables_public))]
fn variables_public<'t>(
    source: &Source<'_>,
    tokens: &'t [Token],
    depth: u32,
) -> Result<(Public, &'t [Token]), ParseError>
    ensures { Parses source.now tokens.now result (spec.variables_public source.now.dialect source.now.end depth) }
{
    let (part, rest) = var_part(source, tokens, depth)?;
    Ok((Public::Variables(part), rest))
}

#[tactic(auto, unfolding(crate::specs::Files::heading_public))]
fn heading_public<'t>(
    source: &Source<'_>,
    tokens: &'t [Token],
    depth: u32,
) -> Result<(Public, &'t [Token]), ParseError>
    ensures { Parses source.now tokens.now result (spec.heading_public source.now.end depth) }
{
    let (heading, rest) = heading(source, tokens, depth)?;
    let rest = expect(source, rest, Symbol::Semicolon)?;
    let span = span_between(source, tokens, rest);
    Ok((Public::Heading { heading, span }, rest))
}

/// A declaration of an interface.
#[tactic(auto, unfolding(crate::specs::Files::public))]
fn public_part<'t>(
    source: &Source<'_>,
    tokens: &'t [Token],
    depth: u32,
) -> Result<(Public, &'t [Token]), ParseError>
    ensures { Parses source.now tokens.now result (spec.public source.now.dialect source.now.end depth) }
{
    if is_word(source, tokens, Word::KwConst) {
        return constants_public(source, tokens, depth);
    }
    if is_word(source, tokens, Word::KwType) {
        return types_public(source, tokens, depth);
    }
    if is_word(source, tokens, Word::KwVar) {
        return variables_public(source, tokens, depth);
    }
    heading_public(source, tokens, depth)
}

/// A declaration of an interface, behind those before it.
#[tactic(auto, unfolding(crate::specs::Files::next_public))]
fn next_public<'t>(
    source: &Source<'_>,
    tokens: &'t [Token],
    depth: u32,
    all: Publics,
) -> Result<(Publics, &'t [Token]), ParseError>
    ensures { Parses source.now tokens.now result (spec.next_public source.now.dialect source.now.end depth all) }
{
    let mut all = all;
    let (item, rest) = public_part(source, tokens, depth)?;
    all.push(item)?;
    Ok((all, rest))
}

/// Declarations of an interface, as many as there are.
fn publics<'t>(
    source: &Source<'_>,
    tokens: &'t [Token],
    depth: u32,
    first: Publics,
) -> Result<(Publics, &'t [Token]), ParseError>
    ensures { Parses source.now tokens.now result (spec.publics source.now.dialect source.now.end depth first) }
{
    let mut all = first;
    let mut rest = tokens;
    for _turn in 0..tokens.len() {
        if !is_public(source, rest) {
            return Ok((all, rest));
        }
        let (longer, behind) = next_public(source, rest, depth, all)?;
        all = longer;
        rest = same(behind);
    }
    Ok((all, rest))
}

/// The name after this word, with its semicolon.
#[tactic(auto, unfolding(crate::specs::Files::name_after))]
fn name_after<'t>(
    source: &Source<'_>,
    tokens: &'t [Token],
    word: Word,
) -> Result<(Identifier, &'t [Token]), ParseError>
    ensures { Parses source.now tokens.now result (spec.name_after word) }
{
    let rest = expect_word(source, tokens, word)?;
    let (name, rest) = identifier(source, rest)?;
    let rest = expect(source, rest, Symbol::Semicolon)?;
    Ok((name, rest))
}

/// The interface of a unit.
#[tactic(auto, unfolding(crate::specs::Files::interface))]
fn interface<'t>(
    source: &Source<'_>,
    tokens: &'t [Token],
    depth: u32,
) -> Result<((Option<Uses>, Publics), &'t [Token]), ParseError>
    ensures { Parses source.now tokens.now result (spec.interface source.now.dialect source.now.end depth) }
{
    let rest = expect_word(source, tokens, Word::KwInterface)?;
    let (uses, rest) = optional_uses(source, rest)?;
    let (publics, rest) = publics(source, rest, depth, Items::new(source.alloc))?;
    Ok(((uses, publics), rest))
}

/// The interface of a module.
#[tactic(auto, unfolding(crate::specs::Files::exports))]
fn exports<'t>(
    source: &Source<'_>,
    tokens: &'t [Token],
    depth: u32,
) -> Result<((Option<Uses>, Publics), &'t [Token]), ParseError>
    ensures { Parses source.now tokens.now result (spec.exports source.now.dialect source.now.end depth) }
{
    let (uses, rest) = optional_uses(source, tokens)?;
    let rest = expect_word(source, rest, Word::KwExport)?;
    let (publics, rest) = publics(source, rest, depth, Items::new(source.alloc))?;
    Ok(((uses, publics), rest))
}

/// The implementation after this word.
#[tactic(auto, unfolding(crate::specs::Files::implementation))]
fn implementation<'t>(
    source: &Source<'_>,
    tokens: &'t [Token],
    depth: u32,
    word: Word,
) -> Result<((Option<Uses>, Declarations), &'t [Token]), ParseError>
    ensures { Parses source.now tokens.now result (spec.implementation word source.now.dialect source.now.end depth) }
{
    let rest = expect_word(source, tokens, word)?;
    let (uses, rest) = optional_uses(source, rest)?;
    let (declarations, rest) = declarations(source, rest, depth)?;
    Ok(((uses, declarations), rest))
}

/// The statements that a unit begins with, if `begin` is next.
#[tactic(auto, unfolding(crate::specs::Files::optional_initial))]
fn optional_initial<'t>(
    source: &Source<'_>,
    tokens: &'t [Token],
    depth: u32,
) -> Result<(Option<Stmts>, &'t [Token]), ParseError>
    ensures { Parses source.now tokens.now result (spec.optional_initial source.now.dialect source.now.end depth) }
{
    if is_word(source, tokens, Word::KwBegin) {
        let rest = expect_word(source, tokens, Word::KwBegin)?;
        let (body, rest) = stmts(source, rest, depth)?;
        return Ok((Some(body), rest));
    }
    Ok((None, tokens))
}

/// The tokens after `end` and the last dot.
#[tactic(auto, unfolding(crate::specs::Files::last_end))]
fn last_end<'t>(source: &Source<'_>, tokens: &'t [Token]) -> Result<&'t [Token], ParseError>
    ensures { Gives (λ x. (tt, seen source.now.bytes.now x.now)) result (spec.last_end (seen source.now.bytes.now tokens.now)) }
{
    let rest = expect_word(source, tokens, Word::KwEnd)?;
    expect(source, rest, Symbol::Dot)
}

#[tactic(auto, unfolding(crate::specs::Files::unit))]
fn unit<'t>(
    source: &Source<'_>,
    tokens: &'t [Token],
    depth: u32,
) -> Result<(UnitNode, &'t [Token]), ParseError>
    ensures { Parses source.now tokens.now result (spec.unit source.now.dialect source.now.end depth) }
{
    let (name, rest) = name_after(source, tokens, Word::KwUnit)?;
    let ((interface_uses, publics), rest) = interface(source, rest, depth)?;
    let ((implementation_uses, declarations), rest) = implementation(
        source,
        rest,
        depth,
        Word::KwImplementation,
    )?;
    let (initial, rest) = optional_initial(source, rest, depth)?;
    let rest = last_end(source, rest)?;
    let span = span_between(source, tokens, rest);
    let unit = UnitNode {
        name,
        interface_uses,
        publics,
        implementation_uses,
        declarations,
        initial,
        span,
    };
    Ok((unit, rest))
}

#[tactic(auto, unfolding(crate::specs::Files::module_text))]
fn module<'t>(
    source: &Source<'_>,
    tokens: &'t [Token],
    depth: u32,
) -> Result<(Module, &'t [Token]), ParseError>
    ensures { Parses source.now tokens.now result (spec.module_text source.now.dialect source.now.end depth) }
{
    let (name, rest) = name_after(source, tokens, Word::KwModule)?;
    let ((interface_uses, publics), rest) = exports(source, rest, depth)?;
    let ((implementation_uses, declarations), rest) = implementation(
        source,
        rest,
        depth,
        Word::KwImplement,
    )?;
    let rest = last_end(source, rest)?;
    let span = span_between(source, tokens, rest);
    let module = Module {
        name,
        interface_uses,
        publics,
        implementation_uses,
        declarations,
        span,
    };
    Ok((module, rest))
}

#[tactic(auto, unfolding(crate::specs::Files::source_file))]
fn source_file<'t>(
    source: &Source<'_>,
    tokens: &'t [Token],
    depth: u32,
) -> Result<(SourceFile, &'t [Token]), ParseError>
    ensures { Parses source.now tokens.now result (spec.source_file source.now.dialect source.now.end depth) }
{
    if is_word(source, tokens, Word::KwUnit) {
        let (unit, rest) = unit(source, tokens, depth)?;
        return Ok((SourceFile::UnitText(unit), rest));
    }
    if is_word(source, tokens, Word::KwModule) {
        let (module, rest) = module(source, tokens, depth)?;
        return Ok((SourceFile::Module(module), rest));
    }
    let (program, rest) = program(source, tokens, depth)?;
    Ok((SourceFile::Program(program), rest))
}

/// The tree, where no token is left.
fn end_of(source: &Source<'_>, tokens: &[Token], file: SourceFile) -> Result<SourceFile, ParseError>
    ensures { Gives (λ x. (x, [])) result (spec.end_of file (seen source.now.bytes.now tokens.now)) }
{
    match tokens {
        [] => Ok(file),
        [_, ..] => Err(unexpected(tokens)),
    }
}

/// The tree of the tokens, of at most `depth` levels.
#[tactic(auto, unfolding(crate::specs::Files::file))]
pub fn file(source: &Source<'_>, tokens: &[Token], depth: u32) -> Result<SourceFile, ParseError>
    ensures { Gives (λ x. (x, [])) result (spec.file source.now.dialect source.now.end depth (seen source.now.bytes.now tokens.now)) }
{
    let (file, rest) = source_file(source, tokens, depth)?;
    end_of(source, rest, file)
}
