//! Word symbols.

ghost use Rattle.std.specs.Prelude.{◌≡◌, ◌&&◌, ◌∷◌, find};
ghost use Rattle.std.specs.Str.{bytes_eq, str_to_ascii_lowercase};
ghost use Rattle.dialect_lexer.specs.Words as spec;

use crate::token::Word;
use p2c_text::Dialect;

/// How a word symbol is spelled in small letters.
fn spelling(word: Word) -> &'static [u8]
    ensures { result.now ≡ spec.word_bytes word }
{
    match word {
        Word::KwAnd => b"and",
        Word::KwArray => b"array",
        Word::KwBegin => b"begin",
        Word::KwCase => b"case",
        Word::KwConst => b"const",
        Word::KwDiv => b"div",
        Word::KwDo => b"do",
        Word::KwDownto => b"downto",
        Word::KwElse => b"else",
        Word::KwEnd => b"end",
        Word::KwExport => b"export",
        Word::KwFile => b"file",
        Word::KwFor => b"for",
        Word::KwFunction => b"function",
        Word::KwGoto => b"goto",
        Word::KwIf => b"if",
        Word::KwImplement => b"implement",
        Word::KwImplementation => b"implementation",
        Word::KwImport => b"import",
        Word::KwIn => b"in",
        Word::KwInterface => b"interface",
        Word::KwLabel => b"label",
        Word::KwMod => b"mod",
        Word::KwModule => b"module",
        Word::KwNil => b"nil",
        Word::KwNot => b"not",
        Word::KwOf => b"of",
        Word::KwOr => b"or",
        Word::KwOtherwise => b"otherwise",
        Word::KwPacked => b"packed",
        Word::KwProcedure => b"procedure",
        Word::KwProgram => b"program",
        Word::KwRecord => b"record",
        Word::KwRecover => b"recover",
        Word::KwRepeat => b"repeat",
        Word::KwSet => b"set",
        Word::KwShl => b"shl",
        Word::KwShr => b"shr",
        Word::KwString => b"string",
        Word::KwThen => b"then",
        Word::KwTo => b"to",
        Word::KwTry => b"try",
        Word::KwType => b"type",
        Word::KwUnit => b"unit",
        Word::KwUntil => b"until",
        Word::KwUses => b"uses",
        Word::KwVar => b"var",
        Word::KwWhile => b"while",
        Word::KwWith => b"with",
        Word::KwXor => b"xor",
    }
}

/// The word symbols that begin with this small letter.
#[tactic(auto, unfolding(crate::specs::Words::words_with))]
fn words_with(letter: u8) -> &'static [Word]
    ensures { result.now ≡ spec.words_with letter }
{
    match letter {
        b'a' => &[Word::KwAnd, Word::KwArray],
        b'b' => &[Word::KwBegin],
        b'c' => &[Word::KwCase, Word::KwConst],
        b'd' => &[Word::KwDiv, Word::KwDo, Word::KwDownto],
        b'e' => &[Word::KwElse, Word::KwEnd, Word::KwExport],
        b'f' => &[Word::KwFile, Word::KwFor, Word::KwFunction],
        b'g' => &[Word::KwGoto],
        b'i' => &[
            Word::KwIf,
            Word::KwImplement,
            Word::KwImplementation,
            Word::KwImport,
            Word::KwIn,
            Word::KwInterface,
        ],
        b'l' => &[Word::KwLabel],
        b'm' => &[Word::KwMod, Word::KwModule],
        b'n' => &[Word::KwNil, Word::KwNot],
        b'o' => &[Word::KwOf, Word::KwOr, Word::KwOtherwise],
        b'p' => &[Word::KwPacked, Word::KwProcedure, Word::KwProgram],
        b'r' => &[Word::KwRecord, Word::KwRecover, Word::KwRepeat],
        b's' => &[Word::KwSet, Word::KwShl, Word::KwShr, Word::KwString],
        b't' => &[Word::KwThen, Word::KwTo, Word::KwTry, Word::KwType],
        b'u' => &[Word::KwUnit, Word::KwUntil, Word::KwUses],
        b'v' => &[Word::KwVar],
        b'w' => &[Word::KwWhile, Word::KwWith],
        b'x' => &[Word::KwXor],
        _ => &[],
    }
}

fn is_word_in(dialect: Dialect, word: Word) -> bool
    ensures { result ≡ spec.is_word_in dialect word }
{
    match word {
        Word::KwShl | Word::KwShr | Word::KwXor => matches!(dialect, Dialect::Turbo),
        Word::KwImplementation | Word::KwInterface | Word::KwUnit | Word::KwUses => {
            matches!(dialect, Dialect::Turbo | Dialect::Ucsd)
        }
        Word::KwExport
        | Word::KwImplement
        | Word::KwImport
        | Word::KwModule
        | Word::KwOtherwise
        | Word::KwRecover
        | Word::KwTry => matches!(dialect, Dialect::Hp),
        Word::KwString => !matches!(dialect, Dialect::Iso),
        _ => true,
    }
}

/// Whether `name` is spelled so, in capital or small letters.
pub fn is_same(spelling: &[u8], name: &[u8]) -> bool
    ensures { result ≡ bytes_eq spelling.now (str_to_ascii_lowercase name.now) }
{
    let mut left = spelling;
    let mut rest = name;
    while let [small, more_left @ ..] = left {
        match rest {
            [byte, more @ ..] if *small == byte.to_ascii_lowercase() => {
                left = more_left;
                rest = more;
            }
            _ => return false,
        }
    }
    rest.is_empty()
}

fn is_spelled(word: Word, first: u8, rest: &[u8]) -> bool
    ensures { result ≡ bytes_eq (spec.word_bytes word) (str_to_ascii_lowercase (first ∷ rest.now)) }
{
    match spelling(word) {
        [small, more @ ..] => *small == first.to_ascii_lowercase() && is_same(more, rest),
        [] => false,
    }
}

/// The word symbol of the dialect that the name is, whose first byte is `first`.
#[tactic(auto, unfolding(crate::specs::Words::word_of))]
pub fn word_of(dialect: Dialect, first: u8, rest: &[u8]) -> Option<Word>
    ensures { result ≡ spec.word_of dialect first rest.now }
{
    words_with(first.to_ascii_lowercase()).iter().copied().find(|word| is_word_in(dialect, *word)
        && is_spelled(*word, first, rest))
}
