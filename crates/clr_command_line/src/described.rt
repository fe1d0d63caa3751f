//! Programs in tables, as they are described to `clap`.

ghost use Rattle.std.specs.Prelude.{◌≡◌, false, map, IfOk};
ghost use Rattle.clap.specs.Words.{app_of, rule_of};
ghost use Rattle.clap.specs.declared.builder.command.Command.TheViews.{out-Command as fields_of};
ghost use Rattle.clr_command_line.specs.Tables.{argument_rule, demanding, program_app, subcommand_app, with_rules, with_subcommands};

use crate::tables::{Argument, ProgramTable, Subcommand};
use clap::{Arg, ArgAction, Command};
use std::alloc::{AllocError, Global};

/// Returns the argument.
fn described<'a>(alloc: Global, argument: Argument<'a>) -> Arg<'a>
    ensures rule { rule_of result ≡ argument_rule argument.entry }
    ensures local { result.global ≡ false }
{
    match argument {
        Argument::Value(name, about) => Arg::new(alloc, name).required(true).help(about),
        Argument::Values(name, about) => Arg::new(alloc, name).num_args(0..).help(about),
        Argument::RequiredValues(name, about) => {
            Arg::new(alloc, name)
                .required(true)
                .num_args(1..)
                .help(about)
        }
        Argument::ValueOption(name, value, about) => {
            Arg::new(alloc, name)
                .long(name)
                .value_name(value)
                .help(about)
        }
        Argument::Flag(name, about) => {
            Arg::new(alloc, name)
                .long(name)
                .action(ArgAction::SetTrue)
                .help(about)
        }
    }
}

/// Returns the command with arguments at its end.
fn with_arguments<'a>(
    alloc: Global,
    command: Command<'a>,
    arguments: &'a [Argument<'a>],
) -> Result<Command<'a>, AllocError>
    requires { (fields_of command).has_globals ≡ false }
    ensures shape { IfOk result (λ c. app_of c ≡ with_rules (app_of command.entry) (map argument_rule arguments.now)) }
    ensures plain { IfOk result (λ c. (fields_of c).has_globals ≡ false) }
{
    let mut whole = command;
    for argument in arguments {
        whole = whole.arg(described(alloc, *argument))?;
    }
    Ok(whole)
}

/// Returns the subcommand.
fn subcommand_of<'a>(
    alloc: Global,
    subcommand: &'a Subcommand<'a>,
) -> Result<Command<'a>, AllocError>
    ensures shape { IfOk result (λ c. app_of c ≡ subcommand_app subcommand.now) }
    ensures plain { IfOk result (λ c. (fields_of c).has_globals ≡ false) }
{
    let command = Command::new(alloc, subcommand.name)
        .about(subcommand.about)
        .after_help(subcommand.prints);
    with_arguments(alloc, command, subcommand.arguments)
}

/// Returns the command without its subcommands, of which it requires one.
fn start<'a>(alloc: Global, table: ProgramTable<'a>) -> Command<'a>
    ensures { app_of result ≡ demanding table.entry.name.now }
{
    Command::new(alloc, table.name)
        .version(table.version)
        .about(table.about)
        .after_help(table.statuses)
        .subcommand_required(true)
}

/// Returns the command with subcommands at its end, in this order.
pub fn with_subcommands<'a>(
    alloc: Global,
    command: Command<'a>,
    subcommands: &'a [Subcommand<'a>],
) -> Result<Command<'a>, AllocError>
    ensures { IfOk result (λ c. app_of c ≡ with_subcommands (app_of command.entry) subcommands.now) }
{
    let mut whole = command;
    for subcommand in subcommands {
        whole = whole.subcommand(subcommand_of(alloc, subcommand)?)?;
    }
    Ok(whole)
}

/// Returns the command line of a program.
pub fn command_of<'a>(alloc: Global, table: ProgramTable<'a>) -> Result<Command<'a>, AllocError>
    ensures { IfOk result (λ c. app_of c ≡ program_app table.entry) }
{
    with_subcommands(alloc, start(alloc, table), table.subcommands)
}
