//! The law of orders that were found, proved by a function that does nothing.

ghost use Rattle.clr_merge_orders.specs.Laws.{FoundOrderLaw};

/// Where an order of members was found, the plan of the members in this order is cleared, if memory is found for it.
pub fn found_orders_are_cleared()
    ensures { FoundOrderLaw }
{}
