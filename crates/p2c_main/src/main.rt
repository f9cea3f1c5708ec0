//! p2c: old Pascal programs carried to C.
#![tactic(auto)]

use p2c_outside::{RealFiles, StdSink, StdSource};
use p2c_top::outcome::Outcome;
use p2c_top::{Words, p2c};
use std::io::ErrorKind;
use std::process::ExitCode;
use std::{env, io};

fn main(rt: HostRuntime) -> ExitCode {
    match words_of(&rt) {
        Ok(words) => ExitCode::from(on_devices(rt, &words)),
        Err(_) => ExitCode::from(Outcome::OutOfMemory.status()),
    }
}

/// The words after the program's name; none where one is no text.
fn words_of(rt: &HostRuntime) -> io::Result<Words> {
    let mut list = Vec::new(rt.alloc());
    match env::args(rt) {
        Ok(words) => {
            for word in words.skip(1) {
                list.push(word)?;
            }
        }
        Err(error) if error.kind() == ErrorKind::InvalidData => {}
        Err(error) => return Err(error),
    }
    Ok(Words { list })
}

fn on_devices(rt: HostRuntime, words: &Words) -> u8 {
    let alloc = rt.alloc();
    let mut input = StdSource {
        input: rt.stdin(),
        faults: 0,
    };
    let mut out = StdSink {
        output: rt.stdout(),
        faults: 0,
    };
    let mut err = StdSink {
        output: rt.stderr(),
        faults: 0,
    };
    let mut files = RealFiles::new(rt, alloc);
    p2c(alloc, words, &mut files, &mut input, &mut out, &mut err)
}
