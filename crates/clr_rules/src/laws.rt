//! Laws of needs, each proved by a function that does nothing.

ghost use Rattle.clr_rules.specs.Laws.{BrokenLaw, NewlyBrokenLaw, HeldBeforeLaw, CrossingSubjects, CrossingServers, SubjectsHaveRoles, ServersHaveRoles};

/// The broken needs of a content are listed exactly, ascending, each once. Every rule holds where
/// none is listed, and otherwise the first of the list is the least.
pub fn broken_needs_are_listed()
    ensures { BrokenLaw }
{}

/// The needs that one content breaks and another doesn't are listed exactly, ascending, each once. A
/// need of other rows at the same cells counts as another.
pub fn newly_broken_needs_are_listed()
    ensures { NewlyBrokenLaw }
{}

/// Where every rule holds before, the newly broken needs are all broken needs, and where nothing more
/// is broken every rule holds after too.
pub fn newly_broken_needs_are_all_where_rules_held()
    ensures { HeldBeforeLaw }
{}

/// Rows that fit a schema call a crossing exactly where they are of its sides, in either
/// arrangement, and the parts of the ask have a common point.
pub fn crossing_subjects_have_common_points()
    ensures { CrossingSubjects }
{}

/// Where two rows fit a schema, a row serves them under a crossing exactly where it is of the
/// server's side and a point of both parts of the ask, which have no two common points that differ.
pub fn crossing_servers_are_common_points()
    ensures { CrossingServers }
{}

/// The subjects of a rule have a role in it.
pub fn subjects_have_roles()
    ensures { SubjectsHaveRoles }
{}

/// A row that serves subjects of a rule has a role in it.
pub fn servers_have_roles()
    ensures { ServersHaveRoles }
{}
