//! Reading the words of a command line.

ghost use Rattle.std.specs.Prelude.{◌≡◌, Some, IfOk, IfErr, codes, is_some, map, true};
ghost use Rattle.clap.specs.Words.{found_of, rows_of, subcommand_of, takes};
ghost use Rattle.clr_command_line.specs.Asks.{IsMemory, ask_of, ask_by_name, plan_ask, plan_under_ask};
ghost use Rattle.clr_command_line.specs.Program.{program};

use crate::asks::{Ask, AskFault};
use crate::command::whole_command;
use crate::values::{database, database_with, names, orders, value};
use clap::ArgMatches;
use clr_rows::Words;
use std::alloc::{AllocError, Global};

/// Returns what `plan` asks for.
fn plan(alloc: Global, matches: &ArgMatches) -> Result<Ask, AllocError>
    ensures { IfOk result (λ ask. ask ≡ plan_ask (rows_of (found_of matches.now))) }
{
    let names = names(alloc, matches)?;
    Ok(Ask::Plan(orders(matches), names))
}

/// Returns what `planunder` asks for.
fn plan_under(alloc: Global, matches: &ArgMatches) -> Result<Ask, AllocError>
    ensures { IfOk result (λ ask. ask ≡ plan_under_ask (rows_of (found_of matches.now))) }
{
    let root = value(alloc, matches, "ROOT")?;
    let names = names(alloc, matches)?;
    Ok(Ask::PlanUnder(orders(matches), root, names))
}

/// Returns what a subcommand asks for, and its files.
#[tactic(auto, unfolding(crate::specs::Asks::ask_by_name))]
fn ask_of_subcommand(
    alloc: Global,
    name: &str,
    matches: &ArgMatches,
) -> Result<(Ask, Vec<Words>), AllocError>
    requires { is_some (ask_by_name name.now (rows_of (found_of matches.now))) ≡ true }
    ensures { IfOk result (λ r. ask_by_name name.now (rows_of (found_of matches.now)) ≡ Some (r.0, r.1.items)) }
{
    let (ask, files) = match name {
        "audit" => (Ask::Audit, database(alloc, matches)),
        "run" => (Ask::Run, database_with(alloc, matches, "SCRIPT")),
        "plan" => (plan(alloc, matches)?, database(alloc, matches)),
        "planunder" => (plan_under(alloc, matches)?, database(alloc, matches)),
        "check" => (Ask::Check, database_with(alloc, matches, "CERT")),
        "merge" => (
            Ask::Merge(names(alloc, matches)?),
            database_with(alloc, matches, "CERT"),
        ),
        _ => unreachable!(),
    };
    Ok((ask, files?))
}

/// Returns what the words of a command line ask for, with the program's name first, and the names of
/// the files that it is asked of: that of the office text, and then that of the script or the
/// certificate where there is one. The subcommands are `audit DB`, `run DB SCRIPT`, `plan DB NAME..`,
/// `planunder DB ROOT NAME..`, `check DB CERT` and `merge DB CERT NAME..`, each with none or more
/// names. In `plan` and `planunder` the option `--in-order` asks for the order of the names alone.
///
/// Fails with `Refused` where the words name no subcommand or another count of values than it has,
/// or ask for help, as `help`, `--help` and `-h`, or for the version, as `--version` and `-V`; and
/// with `OutOfMemory` for want of memory, which may come in place of any other answer.
pub fn ask_of<'a>(alloc: Global, words: &'a [&'a str]) -> Result<(Ask, Vec<Words>), AskFault>
    ensures asks { IfOk result (λ r. ask_of (subcommand_of program (map (λ s. s.now) words.entry.now)) ≡ Some (r.0, r.1.items)) }
    ensures takes { takes program (map (λ s. s.now) words.entry.now) ≡ true → IfErr result IsMemory }
{
    let command = whole_command(alloc)?;
    let matches = match command.try_get_matches_from(words) {
        Ok(matches) => matches,
        Err(error) => return Err(AskFault::of(error)),
    };
    let Some((name, values)) = matches.subcommand() else {
        unreachable!();
    };
    Ok(ask_of_subcommand(alloc, name, values)?)
}
