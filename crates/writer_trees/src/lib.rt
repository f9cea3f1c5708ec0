//! Programs that write literal texts and nothing else, as trees, in the four dialects.
//!
//! `IsWriterFile d file ws` of `specs/Files.antt` says that a tree is such a program with the
//! statements `ws`, and `FirstUnbuilt d file span` of `specs/Unbuilt.antt` where the first node
//! stands that no such program has. `written_by_file` gives the bytes that the program writes, or
//! that place.
#![tactic(auto)]

mod fault;
mod file;
mod nodes;
mod statements;

pub use fault::WriterFault;
pub use file::written_by_file;
