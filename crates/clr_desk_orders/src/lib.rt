//! The answers of the second program that say in which order designs can be merged.
//!
//! - Over the office of a text, `answer_order` gives an order of the members that names ask for, with the pairs of which one goes before the
//!   other, or why none was found (`IsMergeOrderPrint`), and `answer_order_certificate` the certificate of that order
//!   (`IsOrderCertificatePrint`). Where no memory is found for an order, these answer OutOfMemory.
//! - `answer_certificate_in_order` gives the certificate of the members in the order of their names, or why there is none
//!   (`IsCertificateInOrderPrint`), and `answer_keep_in_order` which of them are taken, where each is that can be merged next behind those
//!   taken before it (`IsChoiceInOrderPrint`).
//! - `plan_print`, `choice_print`, `names_line`: what is printed of a plan and of members that are taken, also where these are for every order.
#![tactic(auto)]

mod certificates;
mod choice_prints;
mod choices;
mod merge_orders;
mod names_lines;
mod order_certificates;
mod plan_prints;

pub use certificates::answer_certificate_in_order;
pub use choice_prints::{answer_keep_in_order, choice_print};
pub use merge_orders::answer_order;
pub use names_lines::names_line;
pub use order_certificates::answer_order_certificate;
pub use plan_prints::plan_print;
