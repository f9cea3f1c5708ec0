//! The tokens and the trees of texts, file by file.

ghost use Rattle.std.specs.Prelude.{◌≤◌, ◌↔◌, IfErr, IfOk, IsTrue, length};
ghost use Rattle.dialect_lexer.specs.Tokens.{Lexes};
ghost use Rattle.translate_core.specs.Accepted.{AllDerive, AllLex, DerivesText, size};
ghost use Rattle.translate_core.specs.Reading.{IsLexed, LexRefusal, LexRefuses, ParseRefusal, ParseRefuses};

use crate::refusal::Refusal;
use dialect_lexer::{LONGEST_INPUT, LexFault, TokenList, tokens};
use p2c_text::{Dialect, Text};
use pascal_tree::SourceFile;
use std::alloc::Global;
use tree_lists::Items;
use unit_parser::{SyntaxFault, parse};

/// Whether the texts have at most 8,388,608 bytes together.
pub fn are_short(texts: &[Text]) -> bool
    ensures { IsTrue result ↔ (size texts.now ≤ LONGEST_INPUT) }
{
    let mut left = LONGEST_INPUT;
    let mut rest = texts;
    while let [text, after @ ..] = rest {
        if left < text.bytes.len() {
            return false;
        }
        left -= text.bytes.len();
        rest = after;
    }
    true
}

/// The tokens of a text.
fn lexed(alloc: Global, dialect: Dialect, file: u32, bytes: &[u8]) -> Result<TokenList, Refusal>
    requires { length bytes.now ≤ LONGEST_INPUT }
    ensures ok { IfOk result (IsLexed dialect file bytes.now) }
    ensures err { IfErr result (LexRefusal dialect file bytes.now) }
{
    match tokens(alloc, dialect, file, bytes) {
        Ok(list) => Ok(list),
        Err(LexFault::Memory(error)) => Err(Refusal::Memory(error)),
        Err(fault) => Err(Refusal::Lex(fault)),
    }
}

/// The tokens of each text.
pub fn lex(alloc: Global, dialect: Dialect, texts: &[Text]) -> Result<Items<TokenList>, Refusal>
    requires short { size texts.now ≤ LONGEST_INPUT }
    requires few { length texts.now ≤ 64 }
    ensures ok { IfOk result (λ lists. AllLex dialect 0 texts.now lists) }
    ensures err { IfErr result (LexRefuses dialect texts.now) }
{
    let mut lists = Items::new(alloc);
    let mut file = 0;
    let mut rest = texts;
    while let Some((text, after)) = rest.split_first() {
        lists.push(lexed(alloc, dialect, file, &text.bytes)?)?;
        file += 1;
        rest = after;
    }
    Ok(lists)
}

/// The tree of a text with these tokens.
fn parsed(
    alloc: Global,
    dialect: Dialect,
    text: &Text,
    list: &TokenList,
) -> Result<SourceFile, Refusal>
    requires short { length text.now.bytes ≤ LONGEST_INPUT }
    requires lexed { Lexes dialect text.now.bytes list.now }
    ensures ok { IfOk result (DerivesText dialect text.now list.now) }
    ensures err { IfErr result (ParseRefusal dialect text.now list.now) }
{
    match parse(alloc, dialect, &text.bytes, list) {
        Ok(tree) => Ok(tree),
        Err(SyntaxFault::Memory(error)) => Err(Refusal::Memory(error)),
        Err(fault) => Err(Refusal::Syntax(fault)),
    }
}

/// The tree of each text with these tokens.
pub fn trees(
    alloc: Global,
    dialect: Dialect,
    texts: &[Text],
    lists: &[TokenList],
) -> Result<Items<SourceFile>, Refusal>
    requires short { size texts.now ≤ LONGEST_INPUT }
    requires lexed { AllLex dialect 0 texts.now lists.now }
    ensures ok { IfOk result (λ trees. AllDerive dialect texts.now lists.now trees) }
    ensures err { IfErr result (ParseRefuses dialect texts.now) }
{
    let mut all = Items::new(alloc);
    let mut rest = texts;
    let mut left = lists;
    while let Some((text, after)) = rest.split_first() {
        let Some((list, more)) = left.split_first() else {
            unreachable!()
        };
        all.push(parsed(alloc, dialect, text, list)?)?;
        rest = after;
        left = more;
    }
    Ok(all)
}
