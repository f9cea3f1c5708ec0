//! Laws of the relations. Each function does nothing, and its contract is the law.
ghost use Rattle.type_rules.specs.Laws.{CompatibleIsSymmetric, CompatibleIsReflexive, CompatibleIsAssignable};

/// Two types are compatible in either order.
pub fn compatible_is_symmetric()
    ensures { CompatibleIsSymmetric }
{}

/// A type is compatible with itself.
pub fn compatible_is_reflexive()
    ensures { CompatibleIsReflexive }
{}

/// A value of a compatible type can be assigned.
pub fn compatible_is_assignable()
    ensures { CompatibleIsAssignable }
{}
