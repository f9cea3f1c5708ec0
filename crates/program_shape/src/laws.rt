//! What holds of all programs of a form. Each function does nothing, and its contract is the law.
ghost use Rattle.program_shape.specs.Laws.{WritersHaveShape};

/// The C program that writes the bytes of literal texts has the form of a translation of a Pascal
/// program that writes literal texts: it has no function but `main`, no loop and no jump back.
pub fn writers_have_shape()
    ensures { WritersHaveShape }
{}
