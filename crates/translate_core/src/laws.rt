//! What holds of refusals. The function does nothing, and its contract is the law.
ghost use Rattle.translate_core.specs.Laws.{RefusedAreNotAccepted};

/// Texts that are refused are not accepted.
pub fn refused_are_not_accepted()
    ensures { RefusedAreNotAccepted }
{}
