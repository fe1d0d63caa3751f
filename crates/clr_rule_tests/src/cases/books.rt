//! Books, each of a good rule and of another where nothing else is said, and which rule doesn't fit the network.

/// Tables and columns of uniques.
pub(crate) const UNIQUES: &str = "book unique 1 0;unique 1 0 => fits
book unique 1 0;unique 3 1+0+1 => fits
book unique 1 0;unique 5 0 => 1 NoTable
book unique 1 0;unique 5 - => 1 NoTable
book unique 1 0;unique 1 - => 1 NoColumn
book unique 1 0;unique 1 1 => 1 NoColumn
book unique 1 0;unique 3 0+2 => 1 NoColumn
book unique 1 0;unique 1 K => 1 NoColumn
book unique 1 0;unique 3 0+K => 1 NoColumn";

/// Tables, columns and kinds of partners.
pub(crate) const PARTNERS: &str = "book unique 1 0;partner 2 0 1 K => fits
book unique 1 0;partner 1 0+K 3 0+1 => fits
book unique 1 0;partner 5 - 1 K => 1 NoTable
book unique 1 0;partner 2 - 5 K => 1 NoTable
book unique 1 0;partner 2 - 1 - => 1 NoColumn
book unique 1 0;partner 2 0 1 - => 1 NoColumn
book unique 1 0;partner 2 - 1 K => 1 NoColumn
book unique 1 0;partner 2 1 1 K => 1 NoColumn
book unique 1 0;partner 2 0 1 1+K => 1 NoColumn
book unique 1 0;partner 3 0+1 3 0+1 => fits
book unique 1 0;partner 3 0+1 3 0+K => fits
book unique 1 0;partner 3 0+1 3 1+0 => 1 KindsDiffer
book unique 1 0;partner 3 0+1 3 0 => 1 KindsDiffer
book unique 1 0;partner 3 1 3 K+1 => 1 KindsDiffer
book unique 1 0;partner 3 K 3 0 => 1 KindsDiffer";

/// Tables and shapes of nodes at ends.
pub(crate) const END_NODES: &str = "book unique 1 0;second 1 0 => fits
book unique 1 0;second 1 2 => fits
book unique 1 0;second 4 0 => fits
book unique 1 0;second 1 4 => 1 WrongShape
book unique 1 0;second 5 0 => 1 NoTable
book unique 1 0;second 0 5 => 1 NoTable
book unique 1 0;second 0 0 => 1 WrongShape
book unique 1 0;second 1 1 => 1 WrongShape
book unique 1 0;second 3 0 => 1 WrongShape";

/// Tables and shapes of crossings.
pub(crate) const CROSSINGS: &str = "book unique 1 0;crossing 1 1 0 => fits
book unique 1 0;crossing 4 1 0 => fits
book unique 1 0;crossing 1 4 2 => fits
book unique 1 0;crossing 1 1 4 => 1 WrongShape
book unique 1 0;crossing 5 1 0 => 1 NoTable
book unique 1 0;crossing 0 5 0 => 1 NoTable
book unique 1 0;crossing 0 1 5 => 1 NoTable
book unique 1 0;crossing 0 1 0 => 1 WrongShape
book unique 1 0;crossing 1 3 0 => 1 WrongShape
book unique 1 0;crossing 1 1 1 => 1 WrongShape";

/// Tables, shapes and distances of nearness.
pub(crate) const DISTANCES: &str = "book unique 1 0;near 0 2 1 => fits
book unique 1 0;near 0 0 1000000 => fits
book unique 1 0;near 5 0 0 => 1 NoTable
book unique 1 0;near 1 5 1 => 1 NoTable
book unique 1 0;near 1 0 0 => 1 WrongShape
book unique 1 0;near 0 3 1 => 1 WrongShape
book unique 1 0;near 4 0 1 => 1 WrongShape
book unique 1 0;near 0 2 0 => 1 BadDistance
book unique 1 0;near 0 2 -1 => 1 BadDistance
book unique 1 0;near 2 0 1000001 => 1 BadDistance";

/// Literals of filters, on each side of each kind of rule. A distance is judged before a filter.
pub(crate) const FILTERS: &str = "book unique 1 0;unique 3:0='0 0 => fits
book unique 1 0;unique 3:1=0 0 => fits
book unique 1 0;unique 3:0=0 0 => 1 BadFilter
book unique 1 0;unique 3:1='0 0 => 1 BadFilter
book unique 1 0;unique 3:2=0 0 => 1 BadFilter
book unique 1 0;unique 1 0 => fits
book unique 1 0;unique 1:0=0 0 => 1 BadFilter
book unique 1 0;partner 1 0 0 0 => fits
book unique 1 0;partner 1:0=0 0 0 0 => 1 BadFilter
book unique 1 0;partner 1 0 0:0=0 0 => 1 BadFilter
book unique 1 0;first 1 0 => fits
book unique 1 0;first 1:0=0 0 => 1 BadFilter
book unique 1 0;first 1 0:0=0 => 1 BadFilter
book unique 1 0;crossing 1 1 0 => fits
book unique 1 0;crossing 1:0=0 1 0 => 1 BadFilter
book unique 1 0;crossing 1 1:0=0 0 => 1 BadFilter
book unique 1 0;crossing 1 1 0:0=0 => 1 BadFilter
book unique 1 0;near 0 0 1 => fits
book unique 1 0;near 0:0=0 0 1 => 1 BadFilter
book unique 1 0;near 0 0:0=0 1 => 1 BadFilter
book unique 1 0;near 0:0=0 0 0 => 1 BadDistance";

/// The first bad rule counts; a rule too many comes before each.
pub(crate) const ORDER: &str = "book 3*unique 1 0;near 0 2 0;unique 5 - => 3 BadDistance
book 63*unique 1 0;near 0 2 0 => 63 BadDistance
book 64*unique 1 0 => fits
book near 0 2 1;64*unique 1 0 => 64 TooMany
book near 0 2 0;64*unique 1 0 => 64 TooMany";
