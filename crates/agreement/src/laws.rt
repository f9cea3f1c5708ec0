//! What holds of all programs of a form. Each function does nothing, and its contract is the law.
ghost use Rattle.agreement.specs.Laws.{WritersEnd, WritersFollow};

/// The C program that writes the bytes of literal texts follows the Pascal program that writes the
/// texts.
pub fn writers_follow()
    ensures { WritersFollow }
{}

/// The Pascal program that writes literal texts ends on every input, and its output is their bytes.
pub fn writers_end()
    ensures { WritersEnd }
{}
