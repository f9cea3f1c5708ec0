//! Why a name is not declared.

use p2c_text::Name;

/// Why a name could not be declared. It comes back.
#[derive(Drop)]
pub enum DeclareFault {
    /// The innermost scope has the name.
    Double(Name),
    Memory(Name),
}
