//! Files read whole.

ghost use Rattle.std.specs.Prelude.{◌≡◌, ◌≢◌, ◌<◌, ◌≤◌, IfErr, IfOk, Some, length, map, vec_len};
ghost use Rattle.p2c_outside.specs.Counts.{Rose};
ghost use Rattle.p2c_outside.specs.Told.{WhereTold};
ghost use Rattle.p2c_top.specs.Reading.{AddsFile, AreTexts, Lacks, LacksFirst, Passes, outcome_of, refusal_of};

use crate::outcome::Outcome;
use held_bytes::writing::PIECE;
use p2c_outside::{FileFault, Files};
use p2c_text::Text;
use std::alloc::Global;
use translate_core::LONGEST_INPUT;
use tree_lists::Items;

/// Why a file was not read whole.
#[derive(Clone, Copy)]
pub enum ReadRefusal {
    Missing,
    Failed,
    /// It is over the limit.
    TooLong,
    OutOfMemory,
}

/// The bytes of the file, of at most so many.
pub fn read_whole<F: Files>(
    alloc: Global,
    files: &mut F,
    name: &str,
    limit: usize,
) -> Result<Vec<u8>, ReadRefusal>
    requires { limit ≤ 67108864 }
    ensures whole { IfOk result (λ bytes. WhereTold (F.told files.old) name.now (λ b. bytes.items ≡ b)) }
    ensures bounded { IfOk result (λ bytes. vec_len bytes ≤ limit) }
    ensures too_long { result ≡ Err ReadRefusal.TooLong →
        WhereTold (F.told files.old) name.now (λ b. limit < length b) }
    ensures missing { result ≡ Err ReadRefusal.Missing → Rose (F.missing files.old) (F.missing files.new) }
    ensures absent { result ≡ Err ReadRefusal.Missing → Lacks (F.told files.old) name.now }
    ensures failed { result ≡ Err ReadRefusal.Failed → Rose (F.faults files.old) (F.faults files.new) }

    ensures none_missing { result ≢ Err ReadRefusal.Missing → result ≢ Err ReadRefusal.Failed →
        F.missing files.new ≡ F.missing files.old }
    ensures no_fault { result ≢ Err ReadRefusal.Missing → result ≢ Err ReadRefusal.Failed →
        F.faults files.new ≡ F.faults files.old }
    ensures same { F.told files.new ≡ F.told files.old }
{
    let mut bytes = Vec::new(alloc);
    let mut piece = [0u8; PIECE];
    loop {
        let count = match files.read(name, bytes.len() as u64, &mut piece) {
            Ok(count) => count,
            Err(FileFault::Missing) => return Err(ReadRefusal::Missing),
            Err(FileFault::Failed) => return Err(ReadRefusal::Failed),
        };
        if count == 0 {
            return Ok(bytes);
        }
        if bytes.len() + count > limit {
            return Err(ReadRefusal::TooLong);
        }
        let Ok(()) = bytes.extend_from_slice(&piece[..count]) else {
            return Err(ReadRefusal::OutOfMemory);
        };
    }
}

/// The file that was not read, by its number, and why.
#[derive(Clone, Copy)]
pub struct Unread {
    pub file: usize,
    pub refusal: ReadRefusal,
}

/// The text of the file of this name.
fn read_text<F: Files>(
    alloc: Global,
    files: &mut F,
    name: &str,
    most: usize,
) -> Result<Text, ReadRefusal>
    requires { most ≤ LONGEST_INPUT }
    ensures name { IfOk result (λ text. text.name ≡ name.now) }
    ensures whole { IfOk result (λ text. WhereTold (F.told files.old) name.now (λ b. text.bytes ≡ b)) }
    ensures bounded { IfOk result (λ text. length text.bytes ≤ most) }
    ensures too_long { result ≡ Err ReadRefusal.TooLong → WhereTold (F.told files.old) name.now (λ b. most < length b) }
    ensures missing { result ≡ Err ReadRefusal.Missing → Rose (F.missing files.old) (F.missing files.new) }
    ensures absent { result ≡ Err ReadRefusal.Missing → Lacks (F.told files.old) name.now }
    ensures failed { result ≡ Err ReadRefusal.Failed → Rose (F.faults files.old) (F.faults files.new) }

    ensures none_missing { result ≢ Err ReadRefusal.Missing → result ≢ Err ReadRefusal.Failed →
        F.missing files.new ≡ F.missing files.old }
    ensures no_fault { result ≢ Err ReadRefusal.Missing → result ≢ Err ReadRefusal.Failed →
        F.faults files.new ≡ F.faults files.old }
    ensures same { F.told files.new ≡ F.told files.old }
{
    let bytes = read_whole(alloc, files, name, most)?;
    match String::from_str(alloc, name) {
        Ok(name) => Ok(Text { name, bytes }),
        Err(_) => Err(ReadRefusal::OutOfMemory),
    }
}

/// Puts the text of the file of this name behind the others. What it leaves of the room is given.
fn read_next<F: Files>(
    alloc: Global,
    files: &mut F,
    name: &str,
    room: usize,
    texts: &mut Items<Text>,
) -> Result<usize, ReadRefusal>
    requires { room ≤ LONGEST_INPUT }
    ensures added { IfOk result (AddsFile (F.told files.old) name.now room texts.old texts.new) }
    ensures too_long { result ≡ Err ReadRefusal.TooLong → WhereTold (F.told files.old) name.now (λ b. room < length b) }
    ensures missing { result ≡ Err ReadRefusal.Missing → Rose (F.missing files.old) (F.missing files.new) }
    ensures absent { result ≡ Err ReadRefusal.Missing → Lacks (F.told files.old) name.now }
    ensures failed { result ≡ Err ReadRefusal.Failed → Rose (F.faults files.old) (F.faults files.new) }

    ensures none_missing { result ≢ Err ReadRefusal.Missing → result ≢ Err ReadRefusal.Failed →
        F.missing files.new ≡ F.missing files.old }
    ensures no_fault { result ≢ Err ReadRefusal.Missing → result ≢ Err ReadRefusal.Failed →
        F.faults files.new ≡ F.faults files.old }
    ensures same { F.told files.new ≡ F.told files.old }
{
    let text = read_text(alloc, files, name, room)?;
    let left = room - text.bytes.len();
    match texts.push(text) {
        Ok(()) => Ok(left),
        Err(_) => Err(ReadRefusal::OutOfMemory),
    }
}

/// The same names: a loop takes on what `split_first` gave by this call.
fn same<'s, 'a>(names: &'s [&'a str]) -> &'s [&'a str]
    ensures { result.now ≡ names.now }
{
    names
}

/// The texts of the files of these names, of at most 8,388,608 bytes together.
pub fn read_all<'s, 'a, F: Files>(
    alloc: Global,
    files: &mut F,
    names: &'s [&'a str],
) -> Result<Items<Text>, Unread>
    ensures whole { IfOk result (AreTexts (F.told files.old) (map (λ name. name.now) names.now)) }
    ensures too_long { refusal_of result ≡ Some ReadRefusal.TooLong → Passes (F.told files.old) LONGEST_INPUT (map (λ name. name.now) names.now) }
    ensures absent { IfErr result (λ unread. unread.refusal ≡ ReadRefusal.Missing →
        LacksFirst (F.told files.old) (map (λ name. name.now) names.now) unread.file) }
    ensures missing { refusal_of result ≡ Some ReadRefusal.Missing → Rose (F.missing files.old) (F.missing files.new) }
    ensures failed { refusal_of result ≡ Some ReadRefusal.Failed → Rose (F.faults files.old) (F.faults files.new) }

    ensures none_missing { refusal_of result ≢ Some ReadRefusal.Missing → refusal_of result ≢ Some ReadRefusal.Failed →
        F.missing files.new ≡ F.missing files.old }
    ensures no_fault { refusal_of result ≢ Some ReadRefusal.Missing → refusal_of result ≢ Some ReadRefusal.Failed →
        F.faults files.new ≡ F.faults files.old }
    ensures same { F.told files.new ≡ F.told files.old }
{
    let mut texts = Items::new(alloc);
    let mut room = LONGEST_INPUT;
    let mut rest = names;
    while let Some((name, after)) = rest.split_first() {
        let file = names.len() - rest.len();
        match read_next(alloc, files, *name, room, &mut texts) {
            Ok(left) => room = left,
            Err(refusal) => return Err(Unread { file, refusal }),
        }
        rest = same(after);
    }
    Ok(texts)
}

/// The answer to a refusal of the file with this number.
pub fn refused(file: usize, refusal: ReadRefusal) -> Outcome
    ensures { result ≡ outcome_of file refusal }
{
    match refusal {
        ReadRefusal::Missing => Outcome::Missing { file },
        ReadRefusal::Failed => Outcome::ReadFault,
        ReadRefusal::TooLong => Outcome::TooLong,
        ReadRefusal::OutOfMemory => Outcome::OutOfMemory,
    }
}
