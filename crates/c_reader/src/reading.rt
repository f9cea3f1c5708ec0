//! Reading a text.
ghost use Rattle.std.specs.Prelude.{◌≡◌, ◌<◌, ◌≤◌, length, Some, Ok, Err, IfOk, IfErr, slice_get};
ghost use Rattle.c_grammar.specs.Demands.{program_demands};
ghost use Rattle.c_grammar.specs.Seen.{token_of, tokens_of};
ghost use Rattle.c_grammar.specs.Text.{Begins, CText, Spells};
ghost use Rattle.c_grammar.specs.Token.{Placed};
ghost use Rattle.c_scanner.specs.Scan.{IsRefused};
ghost use Rattle.c_scanner.specs.Seen.{seen};
ghost use Rattle.c_parser.specs.Parsed.{IsParsed};
ghost use Rattle.c_conditions.specs.Conditions.{IsFailure};
ghost use Rattle.c_reader.specs.Main as spec;
ghost use Rattle.c_reader.specs.Read.{line_at, IsCut, IsFault, IsTree};

use crate::fault::CTextFault;
use c_conditions::{ConditionFault, check};
use c_grammar::fault::CTextKind;
use c_grammar::token::{CToken, Word};
use c_parser::fault::ParseFault;
use c_parser::parse;
use c_scanner::{LONGEST_INPUT, PlacedTokens, ScanFault, tokens};
use c_tree::program::CProgram;
use p2c_text::line_of;
use std::alloc::Global;

/// The fault of this kind at a place.
fn fault_at(bytes: &[u8], kind: CTextKind, place: u32) -> CTextFault
    requires short { length bytes.now ≤ LONGEST_INPUT }
    requires within { place ≤ length bytes.now }
    ensures { result ≡ CTextFault.At kind (line_at bytes.now place) }
{
    CTextFault::At {
        kind,
        line: line_of(bytes, place),
    }
}

/// The fault of this kind at a token, by the number of tokens before it.
fn fault_at_token(
    bytes: &[u8],
    text: &PlacedTokens<'_>,
    kind: CTextKind,
    token: usize,
) -> CTextFault
    requires short { length bytes.now ≤ LONGEST_INPUT }
    requires cut { IsCut bytes.now text.now }
    requires within { token < length text.now.tokens.items }
    ensures { (t : Placed) → slice_get (seen text.now) token ≡ Some t → result ≡ CTextFault.At kind (line_at bytes.now t.place) }
{
    fault_at(bytes, kind, text.places[token])
}

fn is_main(token: &CToken<'_>) -> bool
    ensures { result ≡ spec.is_main (token_of token.now) }
{
    matches!(token, CToken::Quoted(Word::Main))
}

fn has_main(tokens: &[CToken<'_>]) -> bool
    ensures { result ≡ spec.has_main (tokens_of tokens.now) }
{
    let mut rest = tokens;
    while let [token, after @ ..] = rest {
        if is_main(token) {
            return true;
        }
        rest = after;
    }
    false
}

/// The fault at the end of tokens that are no text.
fn fault_at_end(bytes: &[u8], text: &PlacedTokens<'_>) -> CTextFault
    requires short { length bytes.now ≤ LONGEST_INPUT }
    requires cut { IsCut bytes.now text.now }
    requires none { (c : CProgram) → Spells c (tokens_of text.now.tokens.items) → ⊥ }
    requires begun { Begins (tokens_of text.now.tokens.items) }
    ensures { IsFault bytes.now result }
{
    let end = bytes.len() as u32;
    if has_main(text.tokens.as_slice()) {
        fault_at(bytes, CTextKind::Unexpected, end)
    } else {
        fault_at(bytes, CTextKind::NoMain, end)
    }
}

fn unexpected(bytes: &[u8], text: &PlacedTokens<'_>, token: usize) -> CTextFault
    requires short { length bytes.now ≤ LONGEST_INPUT }
    requires cut { IsCut bytes.now text.now }
    requires refused { IsParsed (tokens_of text.now.tokens.items) (Err (ParseFault.Unexpected token)) }
    ensures { IsFault bytes.now result }
{
    if token < text.tokens.len() {
        fault_at_token(bytes, text, CTextKind::Unexpected, token)
    } else {
        fault_at_end(bytes, text)
    }
}

fn too_deep(bytes: &[u8], text: &PlacedTokens<'_>, token: usize) -> CTextFault
    requires short { length bytes.now ≤ LONGEST_INPUT }
    requires cut { IsCut bytes.now text.now }
    requires refused { IsParsed (tokens_of text.now.tokens.items) (Err (ParseFault.TooDeep token)) }
    ensures { IsFault bytes.now result }
{
    if token < text.tokens.len() {
        fault_at_token(bytes, text, CTextKind::TooDeep, token)
    } else {
        fault_at_end(bytes, text)
    }
}

/// The fault of bytes without tokens.
fn uncut(bytes: &[u8], fault: ScanFault) -> CTextFault
    requires short { length bytes.now ≤ LONGEST_INPUT }
    requires refused { IsRefused bytes.now fault }
    ensures { IsFault bytes.now result }
{
    match fault {
        ScanFault::At { place } => fault_at(bytes, CTextKind::BadByte, place),
        ScanFault::Memory(error) => CTextFault::Memory(error),
    }
}

/// The fault of tokens without a tree.
fn unparsed(bytes: &[u8], text: &PlacedTokens<'_>, fault: ParseFault) -> CTextFault
    requires short { length bytes.now ≤ LONGEST_INPUT }
    requires cut { IsCut bytes.now text.now }
    requires refused { IsParsed (tokens_of text.now.tokens.items) (Err fault) }
    ensures { IsFault bytes.now result }
{
    match fault {
        ParseFault::Unexpected { token } => unexpected(bytes, text, token),
        ParseFault::TooDeep { token } => too_deep(bytes, text, token),
        ParseFault::Memory(error) => CTextFault::Memory(error),
    }
}

/// The fault of a tree of which a further condition fails.
fn unmet(
    bytes: &[u8],
    text: &PlacedTokens<'_>,
    program: &CProgram,
    fault: ConditionFault,
) -> CTextFault
    requires short { length bytes.now ≤ LONGEST_INPUT }
    requires cut { IsCut bytes.now text.now }
    requires parsed { IsParsed (tokens_of text.now.tokens.items) (Ok program.now) }
    requires failure { IsFailure (program_demands program.now) fault }
    ensures { IsFault bytes.now result }
{
    match fault {
        ConditionFault::At { kind, token } => fault_at_token(bytes, text, kind, token),
        ConditionFault::Memory(error) => CTextFault::Memory(error),
    }
}

/// The tree of a text that is cut into tokens.
fn tree_of(alloc: Global, bytes: &[u8], text: &PlacedTokens<'_>) -> Result<CProgram, CTextFault>
    requires short { length bytes.now ≤ LONGEST_INPUT }
    requires cut { IsCut bytes.now text.now }
    ensures ok { IfOk result (CText bytes.now) }
    ensures fault { IfErr result (IsFault bytes.now) }
{
    let program = match parse(alloc, text.tokens.as_slice()) {
        Ok(program) => program,
        Err(fault) => return Err(unparsed(bytes, text, fault)),
    };
    match check(alloc, &program) {
        Ok(()) => Ok(program),
        Err(fault) => Err(unmet(bytes, text, &program, fault)),
    }
}

/// The tree of a text.
pub fn read(alloc: Global, bytes: &[u8]) -> Result<CProgram, CTextFault>
    requires { length bytes.now ≤ LONGEST_INPUT }
    ensures ok { IfOk result (CText bytes.now) }
    ensures fault { IfErr result (IsFault bytes.now) }
    ensures tree { (c : CProgram) → CText bytes.now c → IsTree c result }
{
    match tokens(alloc, bytes) {
        Ok(text) => tree_of(alloc, bytes, &text),
        Err(fault) => Err(uncut(bytes, fault)),
    }
}
