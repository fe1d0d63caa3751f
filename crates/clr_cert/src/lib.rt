//! Certificates of a clearance: the entries that show that members can be merged in every order, or
//! in every order in which some go before others, read from CSV and written as CSV.
//!
//! - `read_certificate` [`value`, `named`] gives the certificate that the records mean, or the
//!   first fault with its record's number, memory aside. What is read has good names, cells that
//!   the schema names and parts from 1 to 31; nothing more is asked of it, and nothing that it says
//!   is taken to be true.
//! - `write_certificate` [`written`, `read_back`] gives the exact bytes of every certificate.
//!   Reading them gives the same one where the names are good, the schema names the cells, and the
//!   parts are 1 to 31, and 1 where there is no second subject.
//! - `add_subject` [`ok`, `begun`] adds the bytes of a subject to a text. If memory runs out, what
//!   stood in the text still stands there, and behind it at most a beginning of these bytes.
#![tactic(auto)]

mod certificates;
mod faults;
mod items;
mod limits;
mod reading;
mod versions;
mod writing;

pub use certificates::{Certificate, Entries, Entry, Precedence, Precedences};
pub use faults::CertFault;
pub use limits::{GREATEST_PART, limits_of_certificates};
pub use reading::read_certificate;
pub use writing::{add_subject, write_certificate};
