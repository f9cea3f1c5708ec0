//! Laws of the definitions. Each function does nothing, and its contract is the law.

ghost use Rattle.dialect_lexer.specs.Laws.{TokensAreUnique, FaultsHaveNoTokens, FaultsAreUnique, TokensAreInside};

/// A text has at most one list of tokens.
pub fn tokens_are_unique()
    ensures { TokensAreUnique }
{}

/// A text with a fault has no tokens.
pub fn faults_have_no_tokens()
    ensures { FaultsHaveNoTokens }
{}

/// A text fails at one place, with one kind.
pub fn faults_are_unique()
    ensures { FaultsAreUnique }
{}

/// The places of tokens lie in their text.
pub fn tokens_are_inside()
    ensures { TokensAreInside }
{}
