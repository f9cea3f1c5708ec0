//! The trusted edge: adapters over the runtime's readers, writers and files. No clause says what
//! stands behind them.
ghost use Rattle.std.specs.Prelude.{◌≡◌, ◌≢◌, ◌<◌, ◌≤◌, None, IfOk, OnOk, OnErr, length, take};
ghost use Rattle.std.specs.Io.KnownBytes.{Appends, ReadConsumes};
ghost use Rattle.p2c_outside.specs.Counts.{next_count};

use crate::outside::{Failed, FileFault, Files, Sink, Source};
use std::alloc::Global;
use std::io::{ErrorKind, Read, Seek, SeekFrom, Write};
use std::{fs, rt};

/// A source over a reader, as standard input.
#[derive(Drop)]
pub struct StdSource<R> {
    pub input: R,
    /// How many calls failed. The count stops at its last value.
    pub faults: u64,
}

/// A sink over a writer, as standard output or standard error.
#[derive(Drop)]
pub struct StdSink<W> {
    pub output: W,
    /// How many calls failed. The count stops at its last value.
    pub faults: u64,
}

/// A file that is open, and where the next read of it begins.
#[derive(Drop)]
struct Opened<F> {
    name: String,
    at: u64,
    file: F,
}

/// The files that the runtime reaches. A file stays open between its reads where each begins at the
/// end of the one before; at most one is open.
#[derive(Drop)]
pub struct RealFiles<R: rt::Files> {
    runtime: R,
    alloc: Global,
    opened: Option<Opened<R::File>>,
    /// How many calls found no file. The count stops at its last value.
    pub missing: u64,
    /// How many calls failed. The count stops at its last value.
    pub faults: u64,
}

impl<R: rt::Files> RealFiles<R> {
    /// No file is open yet, and no call was made.
    pub fn new(runtime: R, alloc: Global) -> RealFiles<R>
        ensures none_missing { result.missing ≡ 0 }
        ensures no_fault { result.faults ≡ 0 }
    {
        RealFiles {
            runtime,
            alloc,
            opened: None,
            missing: 0,
            faults: 0,
        }
    }
}

/// Reads once, and again where a signal interrupts the read.
fn read_some<R: Read>(reader: &mut R, into: &mut [u8]) -> Result<usize, Failed>
    ensures within { IfOk result (λ n. n ≤ length into.new) }
    ensures bytes { ReadConsumes (R.remaining reader.old) (R.remaining reader.new) result into.new }
{
    for _ in 0..u64::MAX {
        match reader.read(into) {
            Ok(count) => return Ok(count),
            Err(error) if error.kind() == ErrorKind::Interrupted => {}
            Err(_) => return Err(Failed),
        }
    }
    Err(Failed)
}

impl<R: Read> Source for StdSource<R> {
    ghost left = { λ _. None };

    ghost faults = { λ source. source.faults };

    fn take(&mut self, into: &mut [u8]) -> Result<usize, Failed>
        requires { 0 < length into.old }

        ensures never_falls { self.old.faults ≤ self.new.faults }
        ensures fault { OnErr result (self.new.faults ≡ next_count self.old.faults) }
        ensures no_fault { OnOk result (self.new.faults ≡ self.old.faults) }

        ensures within { IfOk result (λ n. n ≤ length into.new) }
        ensures bytes { ReadConsumes (R.remaining self.old.input) (R.remaining self.new.input)
            result into.new }
    {
        let taken = read_some(&mut self.input, into);
        if taken.is_err() {
            self.faults = self.faults.saturating_add(1);
        }
        taken
    }
}

/// Writes all bytes of the piece, and lets none wait in a buffer.
fn write_whole<W: Write>(writer: &mut W, piece: &[u8]) -> Result<(), Failed>
    ensures { OnOk result (Appends (W.contents writer.old) (W.contents writer.new) piece.now) }
{
    writer.write_all(piece).map_err(|_| Failed)?;
    writer.flush().map_err(|_| Failed)
}

impl<W: Write> Sink for StdSink<W> {
    ghost written = { λ _. None };

    ghost faults = { λ sink. sink.faults };

    fn put(&mut self, piece: &[u8]) -> Result<usize, Failed>
        requires { 0 < length piece.now }

        ensures never_falls { self.old.faults ≤ self.new.faults }
        ensures fault { OnErr result (self.new.faults ≡ next_count self.old.faults) }
        ensures no_fault { OnOk result (self.new.faults ≡ self.old.faults) }

        ensures whole { IfOk result (λ n. n ≡ length piece.now) }
        ensures bytes { OnOk result
            (Appends (W.contents self.old.output) (W.contents self.new.output) piece.now) }
    {
        match write_whole(&mut self.output, piece) {
            Ok(()) => Ok(piece.len()),
            Err(Failed) => {
                self.faults = self.faults.saturating_add(1);
                Err(Failed)
            }
        }
    }
}

/// Opens a file, to be read from this place on.
fn open_at<R: rt::Files>(runtime: &R, name: &str, at: u64) -> Result<R::File, FileFault> {
    let mut file = match fs::open(runtime, name) {
        Ok(file) => file,
        Err(error) if error.kind() == ErrorKind::NotFound => return Err(FileFault::Missing),
        Err(_) => return Err(FileFault::Failed),
    };
    if at > 0 && file.seek(SeekFrom::Start(at)).is_err() {
        return Err(FileFault::Failed);
    }
    Ok(file)
}

/// The file that is open, where it has this name and its next read begins at this place.
fn reopened<F: Drop>(opened: Option<Opened<F>>, name: &str, at: u64) -> Option<F> {
    let Opened {
        name: open,
        at: next,
        file,
    } = opened?;
    if next == at && open.as_str() == name {
        Some(file)
    } else {
        None
    }
}

/// The file, to be read on behind `count` bytes; none where its end was met, or memory is wanting for
/// its name.
fn kept_open<F: Drop>(
    alloc: Global,
    name: &str,
    at: u64,
    count: usize,
    file: F,
) -> Option<Opened<F>> {
    let at = at.checked_add(count as u64)?;
    if count == 0 {
        return None;
    }
    let name = String::from_str(alloc, name).ok()?;
    Some(Opened { name, at, file })
}

impl<R: rt::Files> RealFiles<R> {
    /// Reads on in the file that is open, or opens the file.
    fn read_on(&mut self, name: &str, at: u64, into: &mut [u8]) -> Result<usize, FileFault>
        ensures within { IfOk result (λ n. n ≤ length into.new) }
        ensures missing { self.new.missing ≡ self.old.missing }
        ensures faults { self.new.faults ≡ self.old.faults }
    {
        let mut file = match reopened(self.opened.take(), name, at) {
            Some(file) => file,
            None => open_at(&self.runtime, name, at)?,
        };
        let Ok(count) = read_some(&mut file, into) else {
            return Err(FileFault::Failed);
        };
        self.opened = kept_open(self.alloc, name, at, count, file);
        Ok(count)
    }
}

impl<R: rt::Files> Files for RealFiles<R> {
    ghost told = { λ _. None };

    ghost missing = { λ files. files.missing };

    ghost faults = { λ files. files.faults };

    fn read(&mut self, name: &str, at: u64, into: &mut [u8]) -> Result<usize, FileFault>
        requires { 0 < length into.old }

        ensures missing_never_falls { self.old.missing ≤ self.new.missing }
        ensures faults_never_fall { self.old.faults ≤ self.new.faults }
        ensures missed { result ≡ Err FileFault.Missing →
            self.new.missing ≡ next_count self.old.missing }
        ensures none_missing { result ≢ Err FileFault.Missing →
            self.new.missing ≡ self.old.missing }
        ensures failed { result ≡ Err FileFault.Failed →
            self.new.faults ≡ next_count self.old.faults }
        ensures no_fault { result ≢ Err FileFault.Failed →
            self.new.faults ≡ self.old.faults }

        ensures within { IfOk result (λ n. n ≤ length into.new) }
    {
        let given = self.read_on(name, at, into);
        match given {
            Ok(_) => {}
            Err(FileFault::Missing) => self.missing = self.missing.saturating_add(1),
            Err(FileFault::Failed) => self.faults = self.faults.saturating_add(1),
        }
        given
    }
}
