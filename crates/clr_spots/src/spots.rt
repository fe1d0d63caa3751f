//! What rows are found by under a rule.

use clr_rows::{List, Values};

/// What rows are found by under a rule: a square of the plane, by its position in steps of 100,000
/// millimetres, or the values in some columns.
#[derive(Debug, Drop)]
pub enum Spot {
    Square(i64, i64),
    Values(Values),
}

/// Spots in an order.
pub type SpotList = List<Spot>;

/// The spots of a row under a rule. A row with more than 64 is wide, and its list is empty.
#[derive(Debug, Drop)]
pub struct Spots {
    pub list: SpotList,
    pub wide: bool,
}
