//! The steps of a script but `apply`.

ghost use Rattle.std.specs.Prelude.{◌≡◌, length};
ghost use Rattle.csv.specs.Records.{fields_of};
ghost use Rattle.clr_readings.specs.Readings.{Gives};
ghost use Rattle.clr_scripts.specs.Records.{record_lacks_memory};
ghost use Rattle.clr_scripts.specs.Scripts.{can_have_fields as can_have, cell_of, command_of, command_word_of, create_of, keep_of, mark_of, merge_of};
ghost use Rattle.clr_scripts.specs.Scripts.{plain_step_of, removal_of, report_of, report_word_of, resolve_of, roll_to_of, unmark_of};

use crate::edits::number;
use crate::faults::RecordFault;
use crate::record_names::{names, only_name, two_names, words};
use crate::steps::{Step, Word};
use clr_records::field;
use clr_rows::{CellId, Schema};
use clr_steps::{Command, Keep};
use csv::StringRecord;
use std::alloc::Global;

/// The command that a step asks for, but `apply`.
#[derive(Clone, Copy, Debug, PartialEq, Eq)]
enum CommandWord {
    Create,
    Remove,
    Mark,
    Unmark,
    RollTo,
    RollAll,
    Refresh,
    Merge,
    Resolve,
    Hold,
    Release,
}

fn command_word(word: &str) -> Option<CommandWord>
    ensures { result ≡ command_word_of word.now }
{
    match word {
        "create" => Some(CommandWord::Create),
        "remove" => Some(CommandWord::Remove),
        "mark" => Some(CommandWord::Mark),
        "unmark" => Some(CommandWord::Unmark),
        "rollto" => Some(CommandWord::RollTo),
        "rollall" => Some(CommandWord::RollAll),
        "refresh" => Some(CommandWord::Refresh),
        "merge" => Some(CommandWord::Merge),
        "resolve" => Some(CommandWord::Resolve),
        "hold" => Some(CommandWord::Hold),
        "release" => Some(CommandWord::Release),
        _ => None,
    }
}

fn report_word(word: &str) -> Option<Word>
    ensures { result ≡ report_word_of word.now }
{
    match word {
        "show" => Some(Word::Show),
        "changes" => Some(Word::Changes),
        "conflicts" => Some(Word::Conflicts),
        "audit" => Some(Word::Audit),
        "workspaces" => Some(Word::Workspaces),
        "dump" => Some(Word::Dump),
        "plan" => Some(Word::Plan),
        "planunder" => Some(Word::PlanUnder),
        "planinorder" => Some(Word::PlanInOrder),
        "planinorderunder" => Some(Word::PlanInOrderUnder),
        "independence" => Some(Word::Independence),
        "independenceunder" => Some(Word::IndependenceUnder),
        _ => None,
    }
}

/// Returns whether a merge takes the workspace away.
fn removal(word: &str) -> Result<bool, RecordFault>
    ensures { result ≡ removal_of word.now }
{
    match word {
        "keep" => Ok(false),
        "remove" => Ok(true),
        _ => Err(RecordFault::BadWord),
    }
}

fn merge(alloc: Global, fields: &StringRecord) -> Result<Command, RecordFault>
    ensures { Gives record_lacks_memory (λ x. x) result (merge_of (fields_of fields.now)) }
{
    if fields.len() != 3 {
        return Err(RecordFault::FieldCount);
    }
    let remove = removal(field(fields, 2))?;
    let ws = words(alloc, fields, 1)?;
    Ok(Command::Merge { ws, remove })
}

/// Returns whose row a `resolve` keeps.
fn keep(word: &str) -> Result<Keep, RecordFault>
    ensures { result ≡ keep_of word.now }
{
    match word {
        "PARENT" => Ok(Keep::Parent),
        "CHILD" => Ok(Keep::Child),
        "BASE" => Ok(Keep::Base),
        _ => Err(RecordFault::BadWord),
    }
}

/// Returns the cell that the name of a table and a key are.
#[tactic(auto, unfolding(crate::specs::Scripts::cell_of))]
fn cell(schema: &Schema, table: &str, key: &str) -> Result<CellId, RecordFault>
    ensures { result ≡ cell_of schema.now table.now key.now }
{
    let Some(table) = schema.table(table) else {
        return Err(RecordFault::NoTable);
    };
    let key = number(key)?;
    Ok(CellId { table, key })
}

fn resolve(alloc: Global, schema: &Schema, fields: &StringRecord) -> Result<Command, RecordFault>
    ensures { Gives record_lacks_memory (λ x. x) result (resolve_of schema.now (fields_of fields.now)) }
{
    if fields.len() != 5 {
        return Err(RecordFault::FieldCount);
    }
    let cell = cell(schema, field(fields, 2), field(fields, 3))?;
    let keep = keep(field(fields, 4))?;
    let ws = words(alloc, fields, 1)?;
    Ok(Command::Resolve { ws, cell, keep })
}

fn create(alloc: Global, fields: &StringRecord) -> Result<Command, RecordFault>
    ensures { Gives record_lacks_memory (λ x. x) result (create_of (fields_of fields.now)) }
{
    let (name, parent) = two_names(alloc, fields)?;
    Ok(Command::Create { name, parent })
}

fn mark(alloc: Global, fields: &StringRecord) -> Result<Command, RecordFault>
    ensures { Gives record_lacks_memory (λ x. x) result (mark_of (fields_of fields.now)) }
{
    let (ws, name) = two_names(alloc, fields)?;
    Ok(Command::Mark { ws, name })
}

fn unmark(alloc: Global, fields: &StringRecord) -> Result<Command, RecordFault>
    ensures { Gives record_lacks_memory (λ x. x) result (unmark_of (fields_of fields.now)) }
{
    let (ws, name) = two_names(alloc, fields)?;
    Ok(Command::Unmark { ws, name })
}

fn roll_to(alloc: Global, fields: &StringRecord) -> Result<Command, RecordFault>
    ensures { Gives record_lacks_memory (λ x. x) result (roll_to_of (fields_of fields.now)) }
{
    let (ws, name) = two_names(alloc, fields)?;
    Ok(Command::RollTo { ws, name })
}

/// Returns the command of a record that begins with its word.
#[tactic(auto, unfolding(crate::specs::Scripts::command_of))]
fn command(
    alloc: Global,
    schema: &Schema,
    word: CommandWord,
    fields: &StringRecord,
) -> Result<Command, RecordFault>
    ensures { Gives record_lacks_memory (λ x. x) result (command_of schema.now word (fields_of fields.now)) }
{
    match word {
        CommandWord::Create => create(alloc, fields),
        CommandWord::Mark => mark(alloc, fields),
        CommandWord::Unmark => unmark(alloc, fields),
        CommandWord::RollTo => roll_to(alloc, fields),
        CommandWord::Merge => merge(alloc, fields),
        CommandWord::Resolve => resolve(alloc, schema, fields),
        CommandWord::Remove => Ok(Command::Remove {
            ws: only_name(alloc, fields)?,
        }),
        CommandWord::RollAll => Ok(Command::RollAll {
            ws: only_name(alloc, fields)?,
        }),
        CommandWord::Refresh => Ok(Command::Refresh {
            ws: only_name(alloc, fields)?,
        }),
        CommandWord::Hold => Ok(Command::Hold {
            ws: only_name(alloc, fields)?,
        }),
        CommandWord::Release => Ok(Command::Release {
            ws: only_name(alloc, fields)?,
        }),
    }
}

/// Returns whether a report can have so many fields, from its word on.
fn can_have_fields(word: Word, count: usize) -> bool
    ensures { result ≡ can_have word count }
{
    match word {
        Word::Show | Word::Changes | Word::Conflicts | Word::Audit => count == 2,
        Word::Workspaces | Word::Dump => count == 1,
        Word::Plan | Word::PlanInOrder | Word::Independence => true,
        Word::PlanUnder | Word::PlanInOrderUnder | Word::IndependenceUnder => count >= 2,
    }
}

fn report(alloc: Global, word: Word, fields: &StringRecord) -> Result<Step, RecordFault>
    ensures { Gives record_lacks_memory (λ x. x) result (report_of word (fields_of fields.now)) }
{
    if !can_have_fields(word, fields.len()) {
        return Err(RecordFault::FieldCount);
    }
    Ok(Step::Report(word, names(alloc, fields)?))
}

/// Returns the step of a record that is no `apply`.
#[tactic(auto, unfolding(crate::specs::Scripts::plain_step_of))]
pub fn plain_step(
    alloc: Global,
    schema: &Schema,
    fields: &StringRecord,
) -> Result<Step, RecordFault>
    ensures { Gives record_lacks_memory (λ x. x) result (plain_step_of schema.now (fields_of fields.now)) }
{
    let word = field(fields, 0);
    match command_word(word) {
        Some(command_word) => Ok(Step::Act(command(alloc, schema, command_word, fields)?)),
        None => match report_word(word) {
            Some(report_word) => report(alloc, report_word, fields),
            None => Err(RecordFault::BadWord),
        },
    }
}
