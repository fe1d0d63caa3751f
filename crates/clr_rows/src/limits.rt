//! The limits of schemas, names, texts, keys, coordinates and paths, and the words `KEY` and
//! `LIVE`.

ghost use Rattle.std.specs.Prelude.{◌≡◌, codes, pos};

/// The most tables of a schema.
pub const MOST_TABLES: usize = 32;

/// The most columns of a table.
pub const MOST_COLUMNS: usize = 16;

/// The most bytes of a name.
pub const MOST_NAME_BYTES: usize = 30;

/// The word that stands for the primary key where a column is named. No column has this name.
pub const KEY: &str = "KEY";

/// The name of the top workspace.
pub const LIVE: &str = "LIVE";

/// The most bytes of a text in a row.
pub const MOST_TEXT_BYTES: usize = 200;

/// The greatest primary key. The least is 1.
pub const GREATEST_KEY: i64 = 999_999_999_999_999;

/// The greatest size of a coordinate, in millimetres.
pub const GREATEST_COORDINATE: u64 = 1_000_000_000;

/// The fewest vertices of a path.
pub const LEAST_VERTICES: usize = 2;

/// The most vertices of a path.
pub const MOST_VERTICES: usize = 32;

/// The limits and the two words are these.
pub fn limits_of_rows()
    ensures tables { MOST_TABLES ≡ 32 }
    ensures columns { MOST_COLUMNS ≡ 16 }
    ensures names { MOST_NAME_BYTES ≡ 30 }
    ensures key { KEY.now ≡ codes "KEY" }
    ensures live { LIVE.now ≡ codes "LIVE" }
    ensures texts { MOST_TEXT_BYTES ≡ 200 }
    ensures keys { GREATEST_KEY ≡ pos 999_999_999_999_999 }
    ensures coordinates { GREATEST_COORDINATE ≡ 1_000_000_000 }
    ensures least { LEAST_VERTICES ≡ 2 }
    ensures most { MOST_VERTICES ≡ 32 }
{}
