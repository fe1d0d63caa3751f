//! The steps of a script, performed one after another, and the lines that they print.
ghost use Rattle.std.specs.Prelude.{◌≡◌, drop, Ok, IfOk, IfErr};
ghost use Rattle.clr_scripts.specs.Scripts.{script_in_text};
ghost use Rattle.clr_office.specs.Outcomes.{IsCommandOutcome, IsOutcome, IsScriptOutcome, first_name as first_of_names};
ghost use Rattle.clr_office_reports.specs.Outcomes.{outcome_of};
ghost use Rattle.clr_office.specs.Scripts.{IsScriptFault, IsScriptPrint};
ghost use Rattle.clr_office_reports.specs.Printing.{IsOutput};

use crate::plans::plan_output;
use clr_command_line::Orders;
use clr_engine::Office;
use clr_independence::independence_output;
use clr_office_reports::{
    Output, audit_output, changes_output, conflicts_output, dump_output, reply_output, rows_output,
    workspaces_output,
};
use clr_process_io::RunFault;
use clr_rows::{LIVE, Names, Schema, Words};
use clr_scripts::{RecordFault, Step, Word, read_script};
use clr_steps::Command;
use std::alloc::{AllocError, Global};

/// Performs a command. Its line is that of the reply.
fn perform(alloc: Global, office: &mut Office, command: &Command) -> Result<Output, AllocError>
    ensures { IfOk result (λ o. IsCommandOutcome office.old command.now (outcome_of o office.new)) }
{
    let reply = office.perform(command);
    reply_output(alloc, office.schema(), &reply)
}

fn first_name(names: &Names) -> &str
    ensures { result.now ≡ first_of_names names.now }
{
    match names.as_slice() {
        [name, ..] => name.as_str(),
        [] => "",
    }
}

/// Returns the names behind the first.
fn later_names(names: &Names) -> &[Words]
    ensures { result.now ≡ drop 1 names.now }
{
    match names.as_slice() {
        [_, later @ ..] => later,
        [] => &[],
    }
}

fn run_step(alloc: Global, office: &mut Office, step: &Step) -> Result<Output, AllocError>
    ensures { IfOk result (λ o. IsOutcome office.old step.now (outcome_of o office.new)) }
{
    match step {
        Step::Act(command) => perform(alloc, office, command),
        Step::Report(Word::Show, names) => rows_output(alloc, office, first_name(names)),
        Step::Report(Word::Changes, names) => changes_output(alloc, office, first_name(names)),
        Step::Report(Word::Conflicts, names) => conflicts_output(alloc, office, first_name(names)),
        Step::Report(Word::Audit, names) => audit_output(alloc, office, first_name(names)),
        Step::Report(Word::Workspaces, _) => workspaces_output(alloc, office),
        Step::Report(Word::Dump, _) => dump_output(alloc, office),
        Step::Report(Word::Plan, names) => {
            plan_output(alloc, office, Orders::Every, LIVE, names.as_slice())
        }
        Step::Report(Word::PlanUnder, names) => {
            plan_output(
                alloc,
                office,
                Orders::Every,
                first_name(names),
                later_names(names),
            )
        }
        Step::Report(Word::PlanInOrder, names) => {
            plan_output(alloc, office, Orders::AsNamed, LIVE, names.as_slice())
        }
        Step::Report(Word::PlanInOrderUnder, names) => {
            plan_output(
                alloc,
                office,
                Orders::AsNamed,
                first_name(names),
                later_names(names),
            )
        }
        Step::Report(Word::Independence, names) => {
            independence_output(alloc, office, LIVE, names.as_slice())
        }
        Step::Report(Word::IndependenceUnder, names) => {
            independence_output(alloc, office, first_name(names), later_names(names))
        }
    }
}

/// Performs the steps of a script one after another. It fails if no memory is found for a line, or
/// for what a report shows; a plan that finds none has its line.
pub fn run_script(alloc: Global, office: &mut Office, steps: &[Step]) -> Result<Output, AllocError>
    ensures { IfOk result (λ o. IsScriptOutcome office.old steps.now (outcome_of o office.new)) }
{
    let mut all = Output::of_lines(Vec::new(alloc));
    for step in steps {
        let output = run_step(alloc, office, step)?;
        all.append(&output)?;
    }
    Ok(all)
}

/// Reads a script. Fails with `BadScript` where it is none, and with `OutOfMemory` if memory runs
/// out.
fn steps_of(alloc: Global, schema: &Schema, script: &[u8]) -> Result<Vec<Step>, RunFault>
    ensures steps { IfOk result (λ steps. script_in_text schema.now script.now ≡ Ok steps.items) }
    ensures fault { IfErr result (λ e. IsScriptFault (script_in_text schema.now script.now) e) }
{
    match read_script(alloc, schema, script) {
        Ok(steps) => Ok(steps),
        Err((_, RecordFault::OutOfMemory)) => Err(RunFault::OutOfMemory),
        Err((number, fault)) => Err(RunFault::BadScript(number, fault)),
    }
}

/// Performs the script of a text, all of which is read before its first step. Fails with `BadScript`
/// where it is none, and with `OutOfMemory` where no memory is found for it, for a line, or for what a
/// report other than a plan shows.
pub fn run_text(alloc: Global, office: &mut Office, script: &[u8]) -> Result<Output, RunFault>
    ensures { IsOutput (IsScriptPrint script.now office.old) result }
{
    let steps = match steps_of(alloc, office.schema(), script) {
        Ok(steps) => steps,
        Err(fault) => return Err(fault),
    };
    Ok(run_script(alloc, office, steps.as_slice())?)
}
