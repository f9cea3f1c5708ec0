//! What holds of every program: each statement is the contract of a function that does nothing, so
//! that a proof elsewhere cites its `ensures`.
ghost use Rattle.pascal_meaning.specs.Laws.{CutIsExtended, FinalStays, TemporariesAreUnseen};

/// A final answer at a bound is the answer at each greater one.
pub fn final_answer_stays()
    ensures { FinalStays }
{}

/// Where the bound cuts a program off, its output and its routine entries stay at the front of those
/// at each greater bound.
pub fn cut_answer_is_extended()
    ensures { CutIsExtended }
{}

/// What a program does is the same whatever temporaries stand beside its variables, and it leaves
/// them as they are.
pub fn temporaries_are_unseen()
    ensures { TemporariesAreUnseen }
{}
