//! The answers of the second program that list the errors of LIVE.
//!
//! - `answer_errors`: each broken need of LIVE with its rule as a sentence, its rows, its place, and whether it is known (`IsErrorsPrint`).
//! - `answer_error_features`: the same as GeoJSON, with a point for each (`IsErrorFeaturesAnswer`).
#![tactic(auto)]

mod error_features;
mod error_lines;

pub use error_features::answer_error_features;
pub use error_lines::answer_errors;
