//! What is wrong with a record: where the first fault of a script or a certificate is, and what is said of it.
//!
//! - `find_script_fault` and `find_certificate_fault` [`told`, `at`, `fields`]: none where a text can be
//!   read; else the reader's own fault with the number that it tells, and the record of this number. It
//!   is the first whose own reading answers just this fault, the records before it being read. One fault
//!   of a script is no record's own: an `apply` asks for more edits than records follow. It is told only
//!   where all records can be read.
//! - `script_faults_are_first` and `certificate_faults_are_first`: the same as laws of the two readings,
//!   for every text.
//! - `explain_script` and `explain_certificate` [`none`, `told`, `at`]: whether a text can be read; else
//!   that fault and its number, and a remark on the record: its number, and the sentence that its fault,
//!   its role and its fields give, exactly. The byte at which the field begins and the hint are tested.
//! - `script_fault_words`, `certificate_fault_words`: the kind of the text, and the number and the name
//!   of a fault.
#![tactic(auto)]

mod certificate_faults;
mod certificates;
mod edits;
mod entries;
mod fault_words;
mod laws;
mod numbered_records;
mod numbers;
mod record_slips;
mod records;
mod references;
mod roles;
mod script_faults;
mod scripts;
mod steps;
mod tables;

pub use certificate_faults::{CertificateFault, find_certificate_fault};
pub use certificates::{ExplainedCertificateFault, explain_certificate};
pub use fault_words::{certificate_fault_words, script_fault_words};
pub use laws::{certificate_faults_are_first, script_faults_are_first};
pub use roles::Role;
pub use script_faults::{ScriptFault, find_script_fault};
pub use scripts::{ExplainedScriptFault, explain_script};
