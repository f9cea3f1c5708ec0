//! The outside as traits: sources, sinks and files, in memory and of the system.
#![tactic(auto)]

mod calm;
mod memory_files;
mod memory_sink;
mod memory_source;
mod outside;
mod pieces;
mod system;

pub use calm::{CalmSink, CalmSource};
pub use memory_files::MemoryFiles;
pub use memory_sink::MemorySink;
pub use memory_source::MemorySource;
pub use outside::{Failed, FileFault, Files, Sink, Source};
pub use system::{RealFiles, StdSink, StdSource};
