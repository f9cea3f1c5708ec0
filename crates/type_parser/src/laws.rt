//! Laws of the parsers as they stand in `specs/`. Each function does nothing, and its contract is the law.
ghost use Rattle.type_parser.specs.Laws.{FormalsAreUnique, LongestFormalsAreRead, LongestTypeIsRead, TypeIsUnique};

/// A type's tokens have one tree.
pub fn type_is_unique()
    ensures { TypeIsUnique }
{}

/// Where the longest run has a type within the levels, that type is read.
pub fn longest_type_is_read()
    ensures { LongestTypeIsRead }
{}

/// The tokens of formal parameters have one tree.
pub fn formals_are_unique()
    ensures { FormalsAreUnique }
{}

/// Where the longest run has formal parameters within the levels, those are read.
pub fn longest_formals_are_read()
    ensures { LongestFormalsAreRead }
{}
