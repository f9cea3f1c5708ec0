//! Laws of the scope rule. Each function does nothing, and its contract is the law.
ghost use Rattle.scope_tables.specs.Laws.{InnermostIsFound, OutsideIsFound, DeclaredIsFound, OthersAreFound};

/// What the innermost scope declares hides what is outside.
pub fn innermost_is_found()
    ensures { InnermostIsFound }
{}

/// A name that the innermost scope has not is found further out.
pub fn outside_is_found()
    ensures { OutsideIsFound }
{}

/// A name is found as it was declared last.
pub fn declared_is_found()
    ensures { DeclaredIsFound }
{}

/// A declaration leaves other names as they were.
pub fn others_are_found()
    ensures { OthersAreFound }
{}
