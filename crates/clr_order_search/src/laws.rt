//! Laws of orders, each proved by a function that does nothing.

ghost use Rattle.clr_order_search.specs.Laws.{HelpLaw, TrailingLaw, WaitingLaw};

/// An order of all members breaks no need before the first merge or after any exactly where each need
/// whose blockers are all members has a helper in it that comes before one of its blockers, or that
/// is itself a blocker.
pub fn working_orders_help_in_time()
    ensures { HelpLaw }
{}

/// No order works where each of some members alone breaks a need that only others of them help: the
/// first of them to come breaks its need. None works either where each of some members alone helps a
/// need that only others of them block: before the last of them comes, its need is broken.
pub fn circles_of_members_have_no_order()
    ensures waiting { WaitingLaw }
    ensures trailing { TrailingLaw }
{}
