//! The checker of certificates, given as values or as texts: whether children of a kept workspace may be
//! merged into it in every order, or in every order in which some go before others, between other work;
//! and runs of commands where it says so.
//!
//! - `check` [`answer`, `cleared`, `every_order`, `admitted`] gives the verdict on the certificate's
//!   root, members, precedences and entries, or want of memory; it is never want of memory where a
//!   test of names fails. Where it is Clear, the following holds of members that have come in turn,
//!   each behind those that go before it. The root with the changes of more of them over it breaks no
//!   need but those that it breaks with fewer; no other member is in conflict with those rows; the
//!   members are *safe*, and the headline holds of them: in every list of commands that are quiet for
//!   them, and in which merges come in turn, no merge of a member meets a conflict or breaks a need
//!   anew, nor does a refresh of a member whose turn it is. After any two quiet lists that merge the
//!   same members the root has the same rows. If every rule holds in the root, it does after each
//!   command. The members can be merged as they are listed. What `Office::perform_all` answers to
//!   quiet commands in which merges come in turn is then a cleared run. Without precedences all this
//!   holds of merges in every order. Nothing is asked of the certificate: an entry that fits no need,
//!   or names no version, covers nothing and does no harm.
//! - `perform_cleared` [`refused`, `unchanged`, `clear`, `start`, `run`]: an error is an answer of
//!   the check that isn't Clear, and the office is unchanged. Otherwise the verdict was Clear.
//!   `stopped` is the number of the first command that isn't quiet in the office in which it would
//!   be given, or that merges a member before its turn, or none. The commands before it are
//!   performed; that command and the rest aren't. No merge of a member among them is answered
//!   Conflict or RuleBroken, nor a refresh of one whose turn it is, and the root has the changes of
//!   the merged members over its first rows. Nothing is promised of commands after one that isn't
//!   quiet.
//!
//! A certificate and an office may also be given as texts, and are then checked in the same way:
//!
//! - `read_case` [`case`, `fault`] gives the office of a text, in which every rule holds that is to
//!   hold, with the certificate of another; or why the texts don't give both, memory aside: the
//!   first of the office's text, the rules and the certificate's text that fails.
//! - `check_texts` says, memory aside, exactly which of these fails first, and otherwise gives the
//!   verdict, which may be want of memory. Where it is clear, all holds that `check` promises of a
//!   clear one. `judge_texts` [`case`, `verdict`, `fault`] gives besides the office and the
//!   certificate, which a line names; by it the program answers `check`.
//! - `is_one_of`: whether a name is one of some.
#![tactic(auto)]

mod cases;
mod checked;
mod checks;
mod covers;
mod entries;
mod lives;
mod quiet;
mod runs;
mod text_checks;
mod turns;

pub use cases::{CaseFault, read_case};
pub use checked::Checked;
pub use checks::check;
pub use clr_clearance::Verdict;
pub use clr_office_texts::TextFault;
pub use runs::{ClearedRun, perform_cleared};
pub use text_checks::{TextCheck, check_texts, judge_texts};
pub use turns::is_one_of;
