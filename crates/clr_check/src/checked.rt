//! What is said of an office and of a certificate, both given as texts.

use clr_cert::CertFault;
use clr_clearance::Verdict;
use clr_engine::Broken;
use clr_office_texts::TextFault;

/// What is said of an office and of a certificate, both given as texts.
#[derive(Clone, Copy, Debug, PartialEq, Eq)]
pub enum Checked {
    /// The verdict on the certificate in the office.
    Answer(Verdict),
    /// The office text is no office.
    BadOffice(TextFault),
    /// The second text is no certificate: the number of the first record that can't be read,
    /// counted from 1, and why.
    BadCertificate(usize, CertFault),
    /// A rule doesn't hold: the position of the first workspace that breaks one, and its least
    /// broken need. LIVE has position 0, and then come those that are kept, in order of creation.
    Unheld { position: usize, need: Broken },
    /// No memory was found before there was something to check. This may come in place of any other
    /// answer.
    OutOfMemory,
}
