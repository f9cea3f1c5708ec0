//! What holds of every run and every step: each statement is the contract of a function that does
//! nothing, so that a proof elsewhere cites its `ensures`.
ghost use Rattle.c_meaning.specs.Laws.{FinalStays, GoingIsExtended, FollowsByThree, StepAdds, StepChanges, StartIsState, StateStays, ReachedIsState};

/// A run that ended or is stuck stays so.
pub fn final_answer_stays()
    ensures { FinalStays }
{}

/// What a run has written and entered stays at the front of every later answer.
pub fn going_is_extended()
    ensures { GoingIsExtended }
{}

/// A step only adds to output and calls.
pub fn step_only_adds()
    ensures { StepAdds }
{}

/// For a well-formed tree, that C ends only so, is never stuck, and writes no more than the Pascal
/// program follows from the other points.
pub fn follows_by_three()
    ensures { FollowsByThree }
{}

/// A step changes at most the blocks that it names, and gives no number twice.
pub fn step_changes_what_it_names()
    ensures { StepChanges }
{}

/// A run begins in a state of its program.
pub fn start_is_a_state()
    ensures { StartIsState }
{}

/// A step leads from a state of the program to a state of it.
pub fn state_stays_one()
    ensures { StateStays }
{}

/// Every state that a run reaches is one of its program.
pub fn reached_is_a_state()
    ensures { ReachedIsState }
{}
