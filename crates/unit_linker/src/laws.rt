//! Laws of the order of units. Each function does nothing, and its contract is the law.
ghost use Rattle.unit_linker.specs.Laws.{OrdersAreOne, UnitsStandOnce, UsesStandBefore};

/// There is at most one order.
pub fn orders_are_one()
    ensures { OrdersAreOne }
{}

/// No unit stands in the order twice.
pub fn units_stand_once()
    ensures { UnitsStandOnce }
{}

/// What a unit uses in its interface stands before it.
pub fn uses_stand_before()
    ensures { UsesStandBefore }
{}
