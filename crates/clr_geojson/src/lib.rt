//! Features and how they are written, as GeoJSON (RFC 7946) with coordinates in metres.
//!
//! - `begin_collection`, `add_feature` and `end_collection`: together they write exactly `collection_text` of the features, one a line.
//! - `texts_are_read_back`: a text that is written as a string is read as the same text. That the whole is JSON is tested.
#![tactic(auto)]

mod collections;
mod features;
mod laws;
mod marks;
mod properties;
mod shapes;
mod strings;

pub use collections::{add_feature, begin_collection, end_collection};
pub use features::{Feature, Properties, Property, PropertyValue};
pub use laws::texts_are_read_back;
pub use marks::marks_of_features;
