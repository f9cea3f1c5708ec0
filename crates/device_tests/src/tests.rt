use p2c_outside::{Failed, FileFault, Files, RealFiles, Sink, Source, StdSink, StdSource};
use std::alloc::{AllocError, Global};
use std::io::{ErrorKind, Read, Write};
use std::process::Abort;
use std::test::Fail;
use std::{fs, io, process};

/// What some takes of up to four bytes give: of each the bytes, or `!` for a refusal, and then `|`.
fn takes<S: Source>(alloc: Global, source: &mut S, calls: usize) -> Result<Vec<u8>, AllocError> {
    let mut log = Vec::new(alloc);
    for _ in 0..calls {
        let mut into = [0u8; 4];
        match source.take(&mut into) {
            Ok(count) => log.extend_from_slice(&into[..count])?,
            Err(Failed) => log.push(b'!')?,
        }
        log.push(b'|')?;
    }
    Ok(log)
}

/// How much of `abc` some puts write: of each the number, or `!` for a refusal.
fn puts<S: Sink>(alloc: Global, sink: &mut S, calls: usize) -> Result<String, AllocError> {
    let mut log = String::new(alloc);
    for _ in 0..calls {
        match sink.put(b"abc") {
            Ok(count) => write!(log, "{count}")?,
            Err(Failed) => log.push('!')?,
        }
    }
    Ok(log)
}

/// What a read of up to four bytes gives: the bytes, `?` for a missing file, or `!`.
fn read_from<F: Files>(
    alloc: Global,
    files: &mut F,
    name: &str,
    at: u64,
) -> Result<Vec<u8>, AllocError> {
    let mut into = [0u8; 4];
    match files.read(name, at, &mut into) {
        Ok(count) => Vec::from_slice(alloc, &into[..count]),
        Err(FileFault::Missing) => Vec::from_slice(alloc, b"?"),
        Err(FileFault::Failed) => Vec::from_slice(alloc, b"!"),
    }
}

/// A reader that is interrupted, gives a byte, fails, gives another and ends.
#[derive(Drop)]
struct ShakyReader {
    calls: u64,
}

impl Read for ShakyReader {
    fn read(&mut self, into: &mut [u8]) -> io::Result<usize> {
        self.calls = self.calls.saturating_add(1);
        match (self.calls, into.first_mut()) {
            (1, _) => Err(io::Error::from(ErrorKind::Interrupted)),
            (3, _) => Err(io::Error::from(ErrorKind::UnexpectedEof)),
            (2 | 4, Some(first)) => {
                *first = b'a';
                Ok(1)
            }
            _ => Ok(0),
        }
    }
}

#[test]
fn a_read_that_fails_is_a_fault_and_the_next_goes_on(rt: HostRuntime) -> Result<(), Fail> {
    let mut source = StdSource {
        input: ShakyReader { calls: 0 },
        faults: 0,
    };
    let log = takes(rt.alloc(), &mut source, 4)?;
    assert_eq!(rt; log.as_slice(), b"a|!|a||".as_slice());
    assert_eq!(rt; source.faults, 1);
    Ok(())
}

/// A writer that writes a byte at a time into a buffer, and fails once `room` bytes are written.
#[derive(Drop)]
struct NarrowWriter {
    room: usize,
    waiting: usize,
    out: usize,
    can_flush: bool,
}

impl Write for NarrowWriter {
    fn write(&mut self, piece: &[u8]) -> io::Result<usize> {
        if self.room == 0 {
            return Err(io::Error::from(ErrorKind::StorageFull));
        }
        self.room -= 1;
        self.waiting = self.waiting.saturating_add(1);
        Ok(piece.len().min(1))
    }

    fn flush(&mut self) -> io::Result<()> {
        if !self.can_flush {
            return Err(io::Error::from(ErrorKind::BrokenPipe));
        }
        self.out = self.out.saturating_add(self.waiting);
        self.waiting = 0;
        Ok(())
    }
}

#[test]
fn a_put_writes_the_whole_piece_or_fails(rt: HostRuntime) -> Result<(), Fail> {
    for (room, can_flush, want, out, faults) in [
        (99, true, "33", 6, 0),
        (5, true, "3!", 3, 1),
        (99, false, "!!", 0, 2),
    ] {
        let mut sink = StdSink {
            output: NarrowWriter {
                room,
                waiting: 0,
                out: 0,
                can_flush,
            },
            faults: 0,
        };
        assert_eq!(rt;
            puts(rt.alloc(), &mut sink, 2)?.as_str(),
            want,
            "with room for {room}"
        );
        assert_eq!(rt; sink.output.out, out);
        assert_eq!(rt; sink.faults, faults);
    }
    Ok(())
}

/// Reads from these places on, one after another, and what each read is to give.
fn check_reads<F: Files>(
    rt: &(impl Abort + AllocGlobal),
    files: &mut F,
    name: &str,
    reads: &[(u64, &'static [u8])],
) -> Result<(), Fail> {
    for (at, want) in reads {
        let given = read_from(rt.alloc(), files, name, *at)?;
        assert_eq!(rt; given.as_slice(), *want, "{name} at {at}");
    }
    Ok(())
}

/// Two files are read by turns, on from where the last read ended and from other places; what is no
/// file and what is not there is a fault, and the next read goes on.
#[test]
fn real_files_are_read_and_the_rest_is_a_fault(rt: HostRuntime) -> Result<(), Fail> {
    let number = process::id(rt.process());
    let first = format!(in rt.alloc(); "/tmp/p2c_reads_{number}_first")?;
    let second = format!(in rt.alloc(); "/tmp/p2c_reads_{number}_second")?;
    fs::write(&rt, first.as_str(), b"hello world")?;
    fs::write(&rt, second.as_str(), b"again")?;
    let mut files = RealFiles::new(&rt, rt.alloc());
    let on: [(u64, &'static [u8]); 5] = [
        (0, b"hell"),
        (4, b"o wo"),
        (8, b"rld"),
        (11, b""),
        (11, b""),
    ];
    check_reads(&rt, &mut files, first.as_str(), &on)?;
    check_reads(&rt, &mut files, second.as_str(), &[(0, b"agai")])?;
    check_reads(&rt, &mut files, first.as_str(), &[(4, b"o wo")])?;
    check_reads(&rt, &mut files, second.as_str(), &[(4, b"n")])?;
    check_reads(&rt, &mut files, "/", &[(0, b"!")])?;
    check_reads(&rt, &mut files, "/no such file", &[(0, b"?")])?;
    check_reads(&rt, &mut files, "", &[(0, b"?")])?;
    let other: [(u64, &'static [u8]); 3] = [(u64::MAX, b"!"), (1, b"gain"), (1, b"gain")];
    check_reads(&rt, &mut files, second.as_str(), &other)?;
    assert_eq!(rt; files.missing, 2);
    assert_eq!(rt; files.faults, 2);
    fs::remove_file(&rt, first.as_str())?;
    fs::remove_file(&rt, second.as_str())?;
    Ok(())
}
