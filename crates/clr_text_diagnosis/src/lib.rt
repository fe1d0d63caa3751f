//! Why an office text, a script or a certificate can't be used, and where its fault is.
//!
//! - `why_office` [`why`]: no fault only where the text is an office in which nothing is broken; the number of old errors, in all and by rule,
//!   only where some are and it names each of them as known; lines of a need only where it is an office in which one is broken that it doesn't
//!   name, the least of the first content with such a need; lines of a fault only where it is none: they begin with the reader's own fault,
//!   and their line, column and path are those of the item that has it.
//! - `why_script`, `why_certificate` [`why`]: the same of these texts over an office, whose own fault comes first.
//! - `short_office_fault`, `short_certificate_fault` [`line`]: the file, line, column and sentence of the fault.
#![tactic(auto)]

mod needs;
mod offices;
mod shorts;
mod texts;
mod whys;

pub use offices::why_office;
pub use shorts::{short_certificate_fault, short_office_fault};
pub use texts::{why_certificate, why_script};
pub use whys::Why;
