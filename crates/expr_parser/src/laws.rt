//! Laws of the parser as it stands in `specs/`. Each function does nothing, and its contract is the law.
ghost use Rattle.expr_parser.specs.Laws.{LongestIsRead, ReadIsLongest, TooDeepIsDeep, TreeIsUnique, UnexpectedIsAfter};

/// What is read is the longest run with which an expression begins, and its tree.
pub fn read_is_longest()
    ensures { ReadIsLongest }
{}

/// An unexpected token is the one after the longest run, which is no expression.
pub fn unexpected_is_after()
    ensures { UnexpectedIsAfter }
{}

/// Where something is too deep, a node of the next level may begin there, and the longest run has no
/// tree within the levels.
pub fn too_deep_is_deep()
    ensures { TooDeepIsDeep }
{}

/// An expression's tokens have one tree.
pub fn tree_is_unique()
    ensures { TreeIsUnique }
{}

/// Where the longest run has a tree within the levels, that tree is read.
pub fn longest_is_read()
    ensures { LongestIsRead }
{}
