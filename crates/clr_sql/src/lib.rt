//! What SQL of a spatial database has of an office: names and texts in quotes, values, shapes as geometries, the conditions that a row as it stands
//! fulfils, and the query of a table's rows as a layer. The statements are those of PostGIS and of SpatiaLite.
//!
//! - `Target`: the dialect, the system of coordinates, and the origin of the office in it.
//! - `add_name`, `add_text`, `add_value`, `add_geometry`, `add_key_condition`, `add_column_condition`, `add_row_condition`, `add_columns`, `add_layer_query`
//!   and `add_titled_query` each add just their bytes to a text.
//! - `is_sayable`, `has_lost_byte`: whether the texts of a row are handed on as they are, and whether a value isn't.
//! - `quoted_texts_are_read_back`: the law that SQL reads a text in quotes as that text, whatever it holds.
#![tactic(auto)]

mod conditions;
mod laws;
mod quoting;
mod relations;
mod shape_conditions;
mod shapes;
mod targets;
mod values;

pub use conditions::{add_column_condition, add_key_condition, add_row_condition};
pub use laws::quoted_texts_are_read_back;
pub use quoting::{add_name, add_text};
pub use relations::{add_columns, add_layer_query, add_titled_query};
pub use shapes::add_geometry;
pub use targets::{Dialect, Target};
pub use values::{add_value, has_lost_byte, is_sayable};
