//! Laws of the parser as it stands in `specs/`. Each function does nothing, and its contract is the law.
ghost use Rattle.c_parser.specs.Laws.{ReadIsSpelled, UnexpectedIsFirst, TooDeepIsDeep, SpelledIsRead};

/// The tree that is read spells the tokens, and is nested no deeper than it may be.
pub fn read_is_spelled()
    ensures { ReadIsSpelled }
{}

/// An unexpected token is the first with which no text begins.
pub fn unexpected_is_first()
    ensures { UnexpectedIsFirst }
{}

/// Where something is too deep, some text is nested so deep there, and the tokens are no text within
/// the levels.
pub fn too_deep_is_deep()
    ensures { TooDeepIsDeep }
{}

/// Each tree within the levels is read from its tokens.
pub fn spelled_is_read()
    ensures { SpelledIsRead }
{}
