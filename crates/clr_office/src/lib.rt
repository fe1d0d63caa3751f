//! The program's run: from the bytes of a source to the bytes of a sink.
//!
//! - `run_office` [`answers`]: where reader and writer tell their bytes and there is a status, the
//!   whole input was read, it is within the limit, and the status and the bytes written are a
//!   *session* of that input, as docs/MODEL.md defines it. Where they tell their bytes, NoSeparator,
//!   BadOffice and BadScript are answered only where the session is that fault, and TooLong only
//!   where the reader gave more than the limit; ReadFailed and WriteFailed are answered only where
//!   the reader or the writer failed.
//! - `answer` [`hints`]: what goes out as notes are hints at the names that are asked for and that no workspace has, each at the workspace
//!   whose name is most like it, where one is like enough (`hint_lines`).
//! - `answer` [`answers`, `keeps`]: the same for what words ask of one or two texts: where the
//!   writer tells its bytes and there is a status, bytes and status are what `IsAnswerTo` says
//!   (`clr_office: Answers`), and each fault is answered only where the texts have it, in its
//!   order, want of memory aside. So: of `audit` the broken needs of LIVE; of `run` the script's
//!   lines; of `plan` and `planunder` the lines of a plan that is `clr_plan: IsPlan`, or `IsPlanInOrder`
//!   for the order of the names; of `check`
//!   the line of the verdict on the certificate (`clr_ordered_clearance: IsVerdictInTurn`), with status 0 exactly
//!   where it is Clear; of `merge`, where the verdict isn't Clear, its line, and else the replies,
//!   the stop and the text of the office of a run as `perform_cleared` promises it: the merges
//!   before the first that isn't quiet or comes before its turn, none of a member answered Conflict or RuleBroken, and the
//!   root with the changes of the merged members over its first rows. Where a rule doesn't hold in
//!   the office, that line in place of any of these but the audit.
//! - What is printed says what it is worth. With the line `clear` of `check` all holds of the office of the text
//!   that a clear verdict promises (`clr_ordered_clearance: IsClearedInTurn`); a plan that is printed as
//!   cleared says that its members are safe, one that is printed as blocked that in its order a
//!   merge is refused, and, memory aside and where the names fit, it is cleared exactly where they
//!   are safe (`clr_office: Outcomes: IsPlanned`). A plan in the order of the names is cleared exactly
//!   where none of these merges is refused, if the members are mergeable (`IsPlannedInOrder`). So it is of each plan in a
//!   script, in the office of its turn.
//! - Status 3 is the status exactly where a command, a plan, a verdict or a merge is answered
//!   OutOfMemory, and the lines are those of the same steps with just these lost: a lost command
//!   has its line and leaves the office, and Remove, Unmark and Release are never lost; a plan and
//!   a verdict aren't where a test of names fails.
//! - `inputs_have_one_session` [`answer`, `session`]: no input has two sessions, and what words ask
//!   of two texts has no two answers. Where the status of neither is 3, their lines are the same,
//!   and so is the status, or the fault. So with a status other than 3 what is printed is told by
//!   the input alone, also of plans, verdicts, merges and independence. Of an input with a plan in the order
//!   of the names the status is; which certificate clears it isn't (`plans_in_order_are_alike`).
//! - `Disposal` says what is done with an office when its lines are known. No promise depends on it.
//! - [`keeps`]: with any fault but WriteFailed nothing was written; after a failed write it isn't
//!   known how much was.
//! - For other programs: the lines of parts, `verdict_output`, `fault_output`, `replies_output` and
//!   `stop_output`, by which what such a program prints is the same, and `merge_commands`. What is
//!   printed of an office without its plans is in `clr_office_reports`, of which `open_office`, `dump_text`
//!   and `Output` are handed on, as are `texts_of_names`, `read_input` and `RunFault` of others.
//! - `Source`, `Sink`, `Text`, `Page` and `Port`, what a run reads from and writes to, are those of
//!   `clr_streams`.
#![tactic(auto)]

mod answers;
mod certificates;
mod disposals;
mod laws;
mod merges;
mod name_hints;
mod plans;
mod run;
mod run_script;

pub use answers::answer;
pub use certificates::{fault_output, verdict_output};
pub use clr_cert::{CertFault, Certificate, Entries, Entry};
pub use clr_check::{Checked, check_texts};
pub use clr_clearance::Verdict;
pub use clr_command_line::{Ask, AskFault, Orders, ask_of};
pub use clr_engine::Office;
pub use clr_merge_sets::{is_child, texts_of_names};
pub use clr_needs::{Need, VersionId};
pub use clr_office_reports::{Output, dump_text, open_office};
pub use clr_office_texts::TextFault;
pub use clr_plan::{Plan, plan};
pub use clr_process_io::{MOST_INPUT_BYTES, RunFault, read_input};
pub use clr_rows::{CellId, Names, Words};
pub use clr_rules::Broken;
pub use clr_scripts::RecordFault;
pub use clr_streams::{DeviceFault, Page, Port, Sink, Source, Text};
pub use disposals::Disposal;
pub use laws::{inputs_have_one_session, plans_in_order_are_alike};
pub use merges::{merge_commands, replies_output, stop_output};
pub use name_hints::hint_lines;
pub use run::run_office;
