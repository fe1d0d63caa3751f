//! The answers of the second program that read or write layers: tables as layers, and offices and designs that are made of layers.
//!
//! - `answer_layer`: the layer of a table's rows in LIVE or in a workspace of the office of a text (`IsLayerPrint`).
//! - `answer_design`: the office of a text with one more workspace, which has the rows of layers (`IsDesignPrint`); `answer_design_script`: the
//!   script that makes this design (`IsDesignScriptPrint`); `answer_design_since`: the office with the design that has the rows of layers which were
//!   copied before, from which LIVE has moved on since (`IsDesignSincePrint`); `answer_office`: the office of a text with the rows of layers in LIVE
//!   (`IsOfficePrint`), and `answer_accepted_office` the same with its errors accepted (`IsAcceptedOfficePrint`).
//! - `printed_layers_change_nothing`: the law that layers which `answer_layer` gives of LIVE, each of another table, change nothing when they are
//!   given back to these three. `a_base_may_be_the_office_itself`: the law that layers which were copied from the office itself are those of LIVE.
//! - What crates above share of this: `print_of_fault`, `print_of_refusal`, `other_schema`, `removal`, `unfit_print` print exactly one line as a
//!   note; `first_other` finds the first table that isn't the same in two schemas; `removal_in` and
//!   `with_counts` look at the edits of a design and count them; `since_print` prints what `answer_design_since` does, of an opened office and a
//!   draft; `draft_with_live` gives the draft of a text another content of LIVE.
#![tactic(auto)]

mod design_counts;
mod design_prints;
mod designs;
mod laws;
mod layer_fault_lines;
mod layer_refusals;
mod layers;
mod relaid_drafts;
mod schemas;
mod since_drafts;
mod since_prints;

pub use clr_layer_changes::{GivenLayer, LayerOptions};
pub use design_counts::{removal_in, with_counts};
pub use design_prints::{print_of_fault, print_of_refusal};
pub use designs::{
    answer_accepted_office, answer_design, answer_design_script, answer_design_since, answer_office,
};
pub use laws::{a_base_may_be_the_office_itself, printed_layers_change_nothing};
pub use layer_refusals::{other_schema, removal, unfit_print};
pub use layers::answer_layer;
pub use relaid_drafts::draft_with_live;
pub use schemas::first_other;
pub use since_prints::since_print;
