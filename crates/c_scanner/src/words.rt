//! The words that the grammar quotes.

ghost use Rattle.std.specs.Prelude.{◌≡◌};
ghost use Rattle.c_grammar.specs.Token as grammar;
ghost use Rattle.c_scanner.specs.Words as spec;

use c_grammar::token::Word;

fn spelling(word: Word) -> &'static [u8]
    ensures { result.now ≡ grammar.word_bytes word }
{
    match word {
        Word::Struct => b"struct",
        Word::Typedef => b"typedef",
        Word::Void => b"void",
        Word::Int64Type => b"int64_t",
        Word::Uint64Type => b"uint64_t",
        Word::Unsigned => b"unsigned",
        Word::Char => b"char",
        Word::Int => b"int",
        Word::Main => b"main",
        Word::Malloc => b"malloc",
        Word::SizeOf => b"sizeof",
        Word::Free => b"free",
        Word::GetChar => b"getchar",
        Word::PutChar => b"putchar",
        Word::If => b"if",
        Word::Else => b"else",
        Word::While => b"while",
        Word::Goto => b"goto",
        Word::Return => b"return",
        Word::Int64 => b"INT64_C",
        Word::Uint64 => b"UINT64_C",
        Word::Null => b"NULL",
    }
}

/// The words that begin with this letter.
#[tactic(auto, unfolding(crate::specs::Words::words_with))]
fn words_with(letter: u8) -> &'static [Word]
    ensures { result.now ≡ spec.words_with letter }
{
    match letter {
        b's' => &[Word::Struct, Word::SizeOf],
        b't' => &[Word::Typedef],
        b'v' => &[Word::Void],
        b'i' => &[Word::Int64Type, Word::Int, Word::If],
        b'u' => &[Word::Uint64Type, Word::Unsigned],
        b'c' => &[Word::Char],
        b'm' => &[Word::Main, Word::Malloc],
        b'f' => &[Word::Free],
        b'g' => &[Word::GetChar, Word::Goto],
        b'p' => &[Word::PutChar],
        b'e' => &[Word::Else],
        b'w' => &[Word::While],
        b'r' => &[Word::Return],
        b'I' => &[Word::Int64],
        b'U' => &[Word::Uint64],
        b'N' => &[Word::Null],
        _ => &[],
    }
}

/// The word that the name is.
#[tactic(auto, unfolding(crate::specs::Words::word_of))]
pub fn word_of(name: &[u8]) -> Option<Word>
    ensures { result ≡ spec.word_of name.now }
{
    match name {
        [] => None,
        [first, ..] => words_with(*first)
            .iter()
            .copied()
            .find(|word| spelling(*word) == name),
    }
}
