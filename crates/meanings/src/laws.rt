//! What holds of every program: the statement is the contract of a function that does nothing, so
//! that a proof elsewhere cites its `ensures`.
ghost use Rattle.meanings.specs.Bounds.{BoundsAgree};

/// A final answer of steady code stays at each greater bound, and a cut one is extended there.
pub fn bounds_agree()
    ensures { BoundsAgree }
{}
