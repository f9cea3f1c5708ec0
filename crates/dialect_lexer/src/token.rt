ghost use Rattle.std.specs.Prelude.{◌≡◌};

use p2c_text::Span;
use std::marker::Model;
use tree_lists::Items;

/// The word symbols of all dialects.
#[derive(Clone, Copy)]
pub enum Word {
    KwAnd,
    KwArray,
    KwBegin,
    KwCase,
    KwConst,
    KwDiv,
    KwDo,
    KwDownto,
    KwElse,
    KwEnd,
    KwExport,
    KwFile,
    KwFor,
    KwFunction,
    KwGoto,
    KwIf,
    KwImplement,
    KwImplementation,
    KwImport,
    KwIn,
    KwInterface,
    KwLabel,
    KwMod,
    KwModule,
    KwNil,
    KwNot,
    KwOf,
    KwOr,
    KwOtherwise,
    KwPacked,
    KwProcedure,
    KwProgram,
    KwRecord,
    KwRecover,
    KwRepeat,
    KwSet,
    KwShl,
    KwShr,
    KwString,
    KwThen,
    KwTo,
    KwTry,
    KwType,
    KwUnit,
    KwUntil,
    KwUses,
    KwVar,
    KwWhile,
    KwWith,
    KwXor,
}

/// The special symbols. `(.`, `.)` and `@` are other spellings of `OpenBracket`, `CloseBracket` and
/// `Caret`.
#[derive(Clone, Copy)]
pub enum Symbol {
    Plus,
    Minus,
    Star,
    Slash,
    Equal,
    Less,
    Greater,
    AtMost,
    AtLeast,
    NotEqual,
    Assign,
    Open,
    Close,
    OpenBracket,
    CloseBracket,
    Comma,
    Semicolon,
    Colon,
    Dot,
    DotDot,
    Caret,
}

/// What a token is.
#[derive(Clone, Copy)]
pub enum TokenKind {
    Word(Word),
    Name,
    /// A number, with its value.
    Number(i64),
    /// A text. What it stands for is `text_bytes` of its slice.
    Text,
    Symbol(Symbol),
}

/// A token, and where it stands.
#[derive(Clone, Copy)]
pub struct Token {
    pub kind: TokenKind,
    pub span: Span,
}

/// The tokens of a file, in order, and the number of the file.
#[derive(Drop)]
pub struct TokenList {
    number: u32,
    list: Items<Token>,
}

impl Model for TokenList {
    ghost use Rattle.dialect_lexer.specs.FileTokens.{FileTokens};

    ghost Value = { FileTokens };

    ghost view = { λ a. record { file = a.number; tokens = a.list } };
}

impl TokenList {
    pub(crate) fn new(file: u32, tokens: Vec<Token>) -> TokenList
        ensures file { result.file ≡ file }
        ensures tokens { result.tokens ≡ tokens.items }
    {
        TokenList {
            number: file,
            list: Items::from_vec(tokens),
        }
    }

    /// The number of the file.
    pub fn file(&self) -> u32
        ensures { result ≡ self.now.file }
    {
        self.number
    }

    pub fn as_slice(&self) -> &[Token]
        ensures { result.now ≡ self.now.tokens }
    {
        self.list.as_slice()
    }
}
