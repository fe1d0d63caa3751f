//! The command line, as it is described to `clap`.

ghost use Rattle.std.specs.Prelude.{◌≡◌, IfOk};
ghost use Rattle.clap.specs.Words.{app_of};
ghost use Rattle.clr_command_line.specs.Program.{program};

use crate::described::command_of;
use crate::tables::{Argument, DATABASE, ProgramTable, Subcommand};
use clap::Command;
use std::alloc::{AllocError, Global};

/// The version of both programs, and of a release of them.
pub const VERSION: &str = "1.0.0";

const ABOUT: &str =
    "Says which workspaces of a utility network can be merged in every order, and merges them";

const WITHOUT_WORDS: &str =
    "Without words it reads an office text, a line --- and a script from standard input.
It ends with status 0 where all is done, 1 where something is refused, 2 where its words or its input can't be read,
and 3 for want of memory.";

const AUDIT_PRINTS: &str = "It prints `broken N` and the N broken needs, a line each.
The status is 0 where there is none, and 1 where there are some.";

const RUN_PRINTS: &str = "It prints what each step answers.
The status is 0 where all was done, cleared or clear, and 1 where something was refused.";

const PLAN_PRINTS: &str = "It prints one of these:
  cleared N  and the lines of a certificate with N needs, with status 0; without names it is cleared
  blocked N  and the names of N workspaces: merged in this order, one of them is refused;
             then the cause, with status 1
  unfit      and what is wrong with a name, with status 1
With --in-order it is cleared where no merge is refused when they are merged as they are named.";

const CHECK_PRINTS: &str =
    "It prints `clear`, with status 0, or the first test that the certificate fails, with status 1.";

const MERGE_PRINTS: &str =
    "It prints a line for each merge and, in the last line, the office text. It writes no file.
The status is 0 where all merges were done, and 1 where one was refused, or where the certificate
says nothing of one, which ends the merges. Where the certificate isn't clear, it merges nothing
and prints the test that fails, with status 1.";

const CERTIFICATE: Argument<'static> = Argument::Value(
    "CERT",
    "The file of the certificate, as plan prints it below its first line",
);

const SCRIPT: Argument<'static> = Argument::Value(
    "SCRIPT",
    "The file of the script, a CSV record for each step: create, remove, apply, mark, unmark, rollto, \
     rollall, refresh, merge, resolve, hold, release, show, changes, conflicts, audit, workspaces, \
     dump, plan, planunder, planinorder, planinorderunder, independence, independenceunder",
);

const ROOT: Argument<'static> = Argument::Value(
    "ROOT",
    "The workspace above them, which keeps every rule",
);

const IN_ORDER: Argument<'static> = Argument::Flag(
    "in-order",
    "Ask only for the order in which they are named",
);

const PLANNED: Argument<'static> = Argument::Values("NAME", "The workspaces that are to be merged");

const MERGED: Argument<'static> = Argument::Values(
    "NAME",
    "The workspaces to merge, in this order",
);

/// The program with its subcommands.
const OFFICE: ProgramTable<'static> = ProgramTable {
    name: "clr_office",
    version: VERSION,
    about: ABOUT,
    statuses: WITHOUT_WORDS,
    subcommands: &[
        Subcommand {
            name: "audit",
            about: "Prints the rules that the rows of LIVE break",
            prints: AUDIT_PRINTS,
            arguments: &[DATABASE],
        },
        Subcommand {
            name: "run",
            about: "Performs a script, and prints what its steps answer",
            prints: RUN_PRINTS,
            arguments: &[DATABASE, SCRIPT],
        },
        Subcommand {
            name: "plan",
            about: "Says whether children of LIVE can be merged in every order, and prints a certificate if so",
            prints: PLAN_PRINTS,
            arguments: &[DATABASE, IN_ORDER, PLANNED],
        },
        Subcommand {
            name: "planunder",
            about: "Says whether children of another workspace can be merged into it in every order",
            prints: PLAN_PRINTS,
            arguments: &[DATABASE, ROOT, IN_ORDER, PLANNED],
        },
        Subcommand {
            name: "check",
            about: "Says whether a certificate shows that its workspaces can be merged in every order",
            prints: CHECK_PRINTS,
            arguments: &[DATABASE, CERTIFICATE],
        },
        Subcommand {
            name: "merge",
            about: "Merges workspaces if a certificate holds, and prints the office text that is left",
            prints: MERGE_PRINTS,
            arguments: &[DATABASE, CERTIFICATE, MERGED],
        },
    ],
};

/// Returns the whole command line.
pub fn whole_command<'a>(alloc: Global) -> Result<Command<'a>, AllocError>
    ensures { IfOk result (λ c. app_of c ≡ program) }
{
    command_of(alloc, OFFICE)
}
