//! Why tables make no schema, and why a rule or a row doesn't fit a schema: the steps to the value, a sentence and a hint.
//!
//! - `explain_schema`, `explain_rule_fault` and `explain_row_fault`: the name of the fault that is given, and exactly what has it: the
//!   first table, column, value or coordinate, and else the item (`wrong_of_schema`, `wrong_of_rule`, `wrong_of_row`).
//! - `unknown_name_slip` and `unknown_table_slip` [`none`, `told`]: the first table or column that a rule names and the schema hasn't, the table
//!   of a row that it hasn't, and none where it has them all.
#![tactic(auto)]

mod row_faults;
mod rule_faults;
mod rule_names;
mod schemas;
mod unknown_names;

pub use row_faults::explain_row_fault;
pub use rule_faults::explain_rule_fault;
pub use schemas::explain_schema;
pub use unknown_names::{unknown_name_slip, unknown_table_slip};
