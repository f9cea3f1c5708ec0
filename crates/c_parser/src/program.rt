//! The parts of a program, and whole programs.
ghost use Rattle.std.specs.Prelude.{◌≡◌, [], IfOk};
ghost use Rattle.c_grammar.specs.Seen.{tokens_of};
ghost use Rattle.c_parser.specs.Programs as spec;
ghost use Rattle.token_parsing.specs.Parser.{Gives};

use crate::declarations::{block, members, parameters, typedef};
use c_expr_parser::step::{expect, expect_word, is, is_word, name, same};
use c_expr_parser::types::{result_type, stars};
use c_grammar::token::{CToken, Mark, Word};
use c_tree::Name;
use c_tree::program::{CDeclaration, CFunction, CMain, CProgram, CPrototype, CStruct, CVariable};
use c_tree::types::CType;
use std::alloc::{AllocError, Global};
use token_parsing::refusal::{ParseError, unexpected};
use tree_lists::Items;

/// The parts of a program before its `main`.
#[derive(Drop)]
pub struct Parts {
    pub forwards: Items<Name>,
    pub declarations: Items<CDeclaration>,
    pub globals: Items<CVariable>,
    pub prototypes: Items<CPrototype>,
    pub functions: Items<CFunction>,
}

/// Whether there are none.
fn is_none<T>(all: &Items<T>) -> bool
    ensures { result ≡ spec.is_empty all.now }
{
    match all.as_slice() {
        [] => true,
        [_, ..] => false,
    }
}

fn no_functions(parts: &Parts) -> bool
    ensures { result ≡ spec.no_functions parts.now }
{
    is_none(&parts.functions)
}

fn no_prototypes(parts: &Parts) -> bool
    ensures { result ≡ spec.no_prototypes parts.now }
{
    is_none(&parts.prototypes) && no_functions(parts)
}

fn no_globals(parts: &Parts) -> bool
    ensures { result ≡ spec.no_globals parts.now }
{
    is_none(&parts.globals) && no_prototypes(parts)
}

fn no_declarations(parts: &Parts) -> bool
    ensures { result ≡ spec.no_declarations parts.now }
{
    is_none(&parts.declarations) && no_globals(parts)
}

fn with_forward(parts: Parts, name: Name) -> Result<Parts, AllocError>
    ensures { IfOk result (λ more. more ≡ spec.with_forward parts name) }
{
    let mut parts = parts;
    parts.forwards.push(name)?;
    Ok(parts)
}

fn with_declaration(parts: Parts, declaration: CDeclaration) -> Result<Parts, AllocError>
    ensures { IfOk result (λ more. more ≡ spec.with_declaration parts declaration) }
{
    let mut parts = parts;
    parts.declarations.push(declaration)?;
    Ok(parts)
}

fn with_global(parts: Parts, global: CVariable) -> Result<Parts, AllocError>
    ensures { IfOk result (λ more. more ≡ spec.with_global parts global) }
{
    let mut parts = parts;
    parts.globals.push(global)?;
    Ok(parts)
}

fn with_prototype(parts: Parts, prototype: CPrototype) -> Result<Parts, AllocError>
    ensures { IfOk result (λ more. more ≡ spec.with_prototype parts prototype) }
{
    let mut parts = parts;
    parts.prototypes.push(prototype)?;
    Ok(parts)
}

fn with_function(parts: Parts, function: CFunction) -> Result<Parts, AllocError>
    ensures { IfOk result (λ more. more ≡ spec.with_function parts function) }
{
    let mut parts = parts;
    parts.functions.push(function)?;
    Ok(parts)
}

/// `;` after `struct name`.
#[tactic(auto, unfolding(crate::specs::Programs::forward))]
fn forward<'a>(
    tokens: &'a [CToken<'a>],
    parts: Parts,
    name: Name,
) -> Result<(Parts, &'a [CToken<'a>]), ParseError>
    ensures { Gives (λ x. (x.0, tokens_of x.1.now)) result (spec.forward parts name (tokens_of tokens.now)) }
{
    if !no_declarations(&parts) {
        return Err(unexpected(tokens));
    }
    let rest = expect(tokens, Mark::Semicolon)?;
    Ok((with_forward(parts, name)?, rest))
}

/// The members after `struct name`.
#[tactic(auto, unfolding(crate::specs::Programs::structure))]
fn structure<'a>(
    alloc: Global,
    tokens: &'a [CToken<'a>],
    parts: Parts,
    name: Name,
) -> Result<(Parts, &'a [CToken<'a>]), ParseError>
    ensures { Gives (λ x. (x.0, tokens_of x.1.now)) result (spec.structure parts name (tokens_of tokens.now)) }
{
    if !no_globals(&parts) {
        return Err(unexpected(tokens));
    }
    let (members, rest) = members(alloc, tokens)?;
    let structure = CDeclaration::Struct(CStruct { name, members });
    Ok((with_declaration(parts, structure)?, rest))
}

#[tactic(auto, unfolding(crate::specs::Programs::type_definition))]
fn type_definition<'a>(
    alloc: Global,
    tokens: &'a [CToken<'a>],
    parts: Parts,
) -> Result<(Parts, &'a [CToken<'a>]), ParseError>
    ensures { Gives (λ x. (x.0, tokens_of x.1.now)) result (spec.type_definition parts (tokens_of tokens.now)) }
{
    if !no_globals(&parts) {
        return Err(unexpected(tokens));
    }
    let (typedef, rest) = typedef(alloc, tokens)?;
    Ok((
        with_declaration(parts, CDeclaration::Typedef(typedef))?,
        rest,
    ))
}

/// `;` after what may be the type and the name of a global.
fn global<'a>(
    tokens: &'a [CToken<'a>],
    parts: Parts,
    returned: Option<CType>,
    name: Name,
) -> Result<(Parts, &'a [CToken<'a>]), ParseError>
    ensures { Gives (λ x. (x.0, tokens_of x.1.now)) result (spec.global parts returned name (tokens_of tokens.now)) }
{
    match returned {
        None => Err(unexpected(tokens)),
        Some(of) => {
            if !no_prototypes(&parts) {
                return Err(unexpected(tokens));
            }
            let rest = expect(tokens, Mark::Semicolon)?;
            Ok((with_global(parts, CVariable { name, of })?, rest))
        }
    }
}

/// What a function is known by.
#[derive(Drop)]
struct Heading {
    name: Name,
    result: Option<CType>,
    parameters: Items<CVariable>,
}

/// `;` after the heading of a function.
#[tactic(auto, unfolding(crate::specs::Programs::prototype))]
fn prototype<'a>(
    tokens: &'a [CToken<'a>],
    parts: Parts,
    heading: Heading,
) -> Result<(Parts, &'a [CToken<'a>]), ParseError>
    ensures { Gives (λ x. (x.0, tokens_of x.1.now)) result (spec.prototype parts heading.result heading.name heading.parameters (tokens_of tokens.now)) }
{
    if !no_functions(&parts) {
        return Err(unexpected(tokens));
    }
    let rest = expect(tokens, Mark::Semicolon)?;
    let Heading {
        name,
        result,
        parameters,
    } = heading;
    Ok((
        with_prototype(
            parts,
            CPrototype {
                name,
                result,
                parameters,
            },
        )?,
        rest,
    ))
}

/// The block of a function after its heading.
#[tactic(auto, unfolding(crate::specs::Programs::function))]
fn function<'a>(
    alloc: Global,
    tokens: &'a [CToken<'a>],
    parts: Parts,
    heading: Heading,
) -> Result<(Parts, &'a [CToken<'a>]), ParseError>
    ensures { Gives (λ x. (x.0, tokens_of x.1.now)) result (spec.function parts heading.result heading.name heading.parameters (tokens_of tokens.now)) }
{
    let ((locals, body), rest) = block(alloc, tokens)?;
    let Heading {
        name,
        result,
        parameters,
    } = heading;
    Ok((
        with_function(
            parts,
            CFunction {
                name,
                result,
                parameters,
                locals,
                body,
            },
        )?,
        rest,
    ))
}

#[tactic(auto, unfolding(crate::specs::Programs::after_parameters))]
fn after_parameters<'a>(
    alloc: Global,
    tokens: &'a [CToken<'a>],
    parts: Parts,
    heading: Heading,
) -> Result<(Parts, &'a [CToken<'a>]), ParseError>
    ensures { Gives (λ x. (x.0, tokens_of x.1.now)) result (spec.after_parameters parts heading.result heading.name heading.parameters (tokens_of tokens.now)) }
{
    if is(tokens, Mark::Semicolon) {
        return prototype(tokens, parts, heading);
    }
    function(alloc, tokens, parts, heading)
}

/// What stands after a result and a name.
#[tactic(auto, unfolding(crate::specs::Programs::after_name))]
fn after_name<'a>(
    alloc: Global,
    tokens: &'a [CToken<'a>],
    parts: Parts,
    returned: Option<CType>,
    name: Name,
) -> Result<(Parts, &'a [CToken<'a>]), ParseError>
    ensures { Gives (λ x. (x.0, tokens_of x.1.now)) result (spec.after_name parts returned name (tokens_of tokens.now)) }
{
    if is(tokens, Mark::Semicolon) {
        return global(tokens, parts, returned, name);
    }
    let (parameters, rest) = parameters(alloc, tokens)?;
    after_parameters(
        alloc,
        rest,
        parts,
        Heading {
            name,
            result: returned,
            parameters,
        },
    )
}

#[tactic(auto, unfolding(crate::specs::Programs::after_result))]
fn after_result<'a>(
    alloc: Global,
    tokens: &'a [CToken<'a>],
    parts: Parts,
    returned: Option<CType>,
) -> Result<(Parts, &'a [CToken<'a>]), ParseError>
    ensures { Gives (λ x. (x.0, tokens_of x.1.now)) result (spec.after_result parts returned (tokens_of tokens.now)) }
{
    let (name, rest) = name(alloc, tokens)?;
    after_name(alloc, rest, parts, returned, name)
}

#[tactic(auto, unfolding(crate::specs::Programs::after_struct_name))]
fn after_struct_name<'a>(
    alloc: Global,
    tokens: &'a [CToken<'a>],
    parts: Parts,
    name: Name,
) -> Result<(Parts, &'a [CToken<'a>]), ParseError>
    ensures { Gives (λ x. (x.0, tokens_of x.1.now)) result (spec.after_struct_name parts name (tokens_of tokens.now)) }
{
    if is(tokens, Mark::Semicolon) {
        return forward(tokens, parts, name);
    }
    if is(tokens, Mark::OpenBrace) {
        return structure(alloc, tokens, parts, name);
    }
    let (of, rest) = stars(tokens, CType::structure(name))?;
    after_result(alloc, rest, parts, Some(of))
}

#[tactic(auto, unfolding(crate::specs::Programs::after_struct))]
fn after_struct<'a>(
    alloc: Global,
    tokens: &'a [CToken<'a>],
    parts: Parts,
) -> Result<(Parts, &'a [CToken<'a>]), ParseError>
    ensures { Gives (λ x. (x.0, tokens_of x.1.now)) result (spec.after_struct parts (tokens_of tokens.now)) }
{
    let rest = expect_word(tokens, Word::Struct)?;
    let (name, rest) = name(alloc, rest)?;
    after_struct_name(alloc, rest, parts, name)
}

/// One part more of a program, before its `main`.
#[tactic(auto, unfolding(crate::specs::Programs::next_part))]
fn next_part<'a>(
    alloc: Global,
    tokens: &'a [CToken<'a>],
    parts: Parts,
) -> Result<(Parts, &'a [CToken<'a>]), ParseError>
    ensures { Gives (λ x. (x.0, tokens_of x.1.now)) result (spec.next_part parts (tokens_of tokens.now)) }
{
    if is_word(tokens, Word::Typedef) {
        return type_definition(alloc, tokens, parts);
    }
    if is_word(tokens, Word::Struct) {
        return after_struct(alloc, tokens, parts);
    }
    let (returned, rest) = result_type(alloc, tokens)?;
    after_result(alloc, rest, parts, returned)
}

fn no_parts(alloc: Global) -> Parts
    ensures { result ≡ spec.no_parts }
{
    Parts {
        forwards: Items::new(alloc),
        declarations: Items::new(alloc),
        globals: Items::new(alloc),
        prototypes: Items::new(alloc),
        functions: Items::new(alloc),
    }
}

/// All that stands before `int`.
fn all_parts<'a>(
    alloc: Global,
    tokens: &'a [CToken<'a>],
) -> Result<(Parts, &'a [CToken<'a>]), ParseError>
    ensures { Gives (λ x. (x.0, tokens_of x.1.now)) result (spec.parts (tokens_of tokens.now)) }
{
    let mut all = no_parts(alloc);
    let mut rest = tokens;
    for _turn in 0..tokens.len() {
        if is_word(rest, Word::Int) {
            return Ok((all, rest));
        }
        let (longer, behind) = next_part(alloc, rest, all)?;
        all = longer;
        rest = same(behind);
    }
    Ok((all, rest))
}

/// `int main(void)` with its block.
#[tactic(auto, unfolding(crate::specs::Programs::main))]
fn main_function<'a>(
    alloc: Global,
    tokens: &'a [CToken<'a>],
) -> Result<(CMain, &'a [CToken<'a>]), ParseError>
    ensures { Gives (λ x. (x.0, tokens_of x.1.now)) result (spec.main (tokens_of tokens.now)) }
{
    let rest = expect_word(tokens, Word::Int)?;
    let rest = expect_word(rest, Word::Main)?;
    let rest = expect(rest, Mark::Open)?;
    let rest = expect_word(rest, Word::Void)?;
    let rest = expect(rest, Mark::Close)?;
    let ((locals, body), rest) = block(alloc, rest)?;
    Ok((CMain { locals, body }, rest))
}

fn program_of(parts: Parts, main: CMain) -> CProgram
    ensures { result ≡ spec.program_of parts main }
{
    let Parts {
        forwards,
        declarations,
        globals,
        prototypes,
        functions,
    } = parts;
    CProgram {
        forwards,
        declarations,
        globals,
        prototypes,
        functions,
        main,
    }
}

/// The program, where no token is left.
fn end_of(tokens: &[CToken<'_>], program: CProgram) -> Result<CProgram, ParseError>
    ensures { Gives (λ x. (x, [])) result (spec.end_of program (tokens_of tokens.now)) }
{
    match tokens {
        [] => Ok(program),
        [_, ..] => Err(unexpected(tokens)),
    }
}

#[tactic(auto, unfolding(crate::specs::Programs::program))]
pub fn program<'a>(alloc: Global, tokens: &'a [CToken<'a>]) -> Result<CProgram, ParseError>
    ensures { Gives (λ x. (x, [])) result (spec.program (tokens_of tokens.now)) }
{
    let (parts, rest) = all_parts(alloc, tokens)?;
    let (main, rest) = main_function(alloc, rest)?;
    end_of(rest, program_of(parts, main))
}
