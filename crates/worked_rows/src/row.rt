//! What a row says.

use p2c_text::Text;
use std::alloc::{AllocError, Global};

/// The number of the call that fails, of each of the three; 0 where none does.
#[derive(Clone, Copy)]
pub struct Failing {
    /// A read of the files.
    pub read: u64,
    /// A `take` of the input.
    pub take: u64,
    /// A `put` of the output.
    pub put: u64,
}

/// What is to come.
#[derive(Drop)]
pub struct Wanted {
    pub status: u8,
    pub error: Vec<u8>,
    pub output: Vec<u8>,
    /// Whether any output will do, but none at all.
    pub any_output: bool,
}

#[derive(Drop)]
pub struct Row {
    pub name: String,
    /// The words after the program's name, with a space between each two.
    pub words: String,
    pub files: Vec<Text>,
    /// Whether the files are those of the folder in which the program runs, which tell nothing.
    pub real: bool,
    pub input: Vec<u8>,
    /// The most bytes that one call of the files, the input and the output moves.
    pub piece: usize,
    pub failing: Failing,
    pub wanted: Wanted,
}

impl Row {
    /// A row that says nothing yet.
    pub fn new(alloc: Global, name: &str) -> Result<Row, AllocError> {
        let name = String::from_str(alloc, name)?;
        Ok(Row {
            name,
            words: String::new(alloc),
            files: Vec::new(alloc),
            real: false,
            input: Vec::new(alloc),
            piece: 4096,
            failing: Failing {
                read: 0,
                take: 0,
                put: 0,
            },
            wanted: Wanted {
                status: 0,
                error: Vec::new(alloc),
                output: Vec::new(alloc),
                any_output: false,
            },
        })
    }

    /// One more file, with no bytes.
    pub fn add_file(&mut self, alloc: Global, name: &str) -> Result<(), AllocError> {
        let name = String::from_str(alloc, name)?;
        let bytes = Vec::new(alloc);
        self.files.push(Text { name, bytes })?;
        Ok(())
    }
}
