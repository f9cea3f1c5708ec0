//! The words and marks that the grammar quotes.

/// The words that the grammar quotes. No name is one of them.
#[derive(Clone, Copy)]
pub enum Word {
    Struct,
    Typedef,
    Void,
    /// `int64_t`
    Int64Type,
    /// `uint64_t`
    Uint64Type,
    Unsigned,
    Char,
    Int,
    Main,
    Malloc,
    SizeOf,
    Free,
    GetChar,
    PutChar,
    If,
    Else,
    While,
    Goto,
    Return,
    /// `INT64_C`
    Int64,
    /// `UINT64_C`
    Uint64,
    Null,
}

/// The marks that the grammar quotes.
#[derive(Clone, Copy)]
pub enum Mark {
    OpenBrace,
    CloseBrace,
    Open,
    Close,
    OpenBracket,
    CloseBracket,
    Semicolon,
    Comma,
    Dot,
    Colon,
    Assign,
    Plus,
    Minus,
    Star,
    Slash,
    Percent,
    Equal,
    NotEqual,
    Less,
    AtMost,
    Greater,
    AtLeast,
    AndAnd,
    OrOr,
    Ampersand,
    Bar,
    Caret,
    ShiftLeft,
    ShiftRight,
    Tilde,
    Exclamation,
}

/// A token that lies in the bytes from which it was cut: a name by its bytes, a number by its digits,
/// and a quoted word or mark. `token_of` of `specs/Seen.antt` says which token of the grammar it is.
#[derive(Clone, Copy)]
pub enum CToken<'a> {
    Identifier(&'a [u8]),
    Numeral(&'a [u8]),
    Quoted(Word),
    Sign(Mark),
}
