//! The database for which SQL is written.

use clr_rows::Place;

/// The dialect of a spatial database.
#[derive(Clone, Copy, Debug, PartialEq, Eq)]
pub enum Dialect {
    /// PostgreSQL with PostGIS, as `psql` runs it.
    PostGis,
    /// SQLite with SpatiaLite, as `sqlite3` runs it.
    SpatiaLite,
}

/// The database for which SQL is written.
#[derive(Clone, Copy, Debug)]
pub struct Target {
    pub dialect: Dialect,
    /// The number of the system of coordinates in the register of EPSG, or 0 for none.
    pub system: u32,
    /// Where the place (0, 0) of the office is in that system, in millimetres.
    pub origin: Place,
}
