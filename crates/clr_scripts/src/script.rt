//! Scripts, read step by step.

ghost use Rattle.std.specs.Prelude.{◌≡◌, ◌+◌, ◌<◌, ◌^◌, ◌++◌, ◌∷◌, [], IfErr, OnErr, OnOk, length, map};
ghost use Rattle.csv.specs.Records.{fields_of};
ghost use Rattle.clr_readings.specs.Readings.{GivesAt};
ghost use Rattle.clr_scripts.specs.Records.{record_lacks_memory};
ghost use Rattle.clr_scripts.specs.Scripts.{apply_of, edit_count, edits_in, script_in_text, script_of, step_of};
ghost use Rattle.clr_scripts.specs.declared.faults.RecordFault.TheVariants as fault;

use crate::edits::{edits, number};
use crate::faults::RecordFault;
use crate::plain_steps::plain_step;
use crate::record_names::words;
use crate::records::{records_in_text, with_number};
use crate::steps::Step;
use clr_records::field;
use clr_rows::Schema;
use clr_steps::Command;
use csv::StringRecord;
use std::alloc::Global;

/// Returns the count of edits that an `apply` gives.
fn count_of_edits(fields: &StringRecord) -> Result<usize, RecordFault>
    ensures { result ≡ edit_count (fields_of fields.now) }
{
    if fields.len() != 3 {
        return Err(RecordFault::FieldCount);
    }
    let count = number(field(fields, 2))?;
    if count < 0 {
        return Err(RecordFault::BadNumber);
    }
    Ok(count as usize)
}

/// Returns the `apply` that stands at record `at`. It is given the records after it, which begin
/// with its edits.
#[tactic(auto, unfolding(crate::specs::Scripts::apply_of))]
fn apply(
    alloc: Global,
    schema: &Schema,
    at: usize,
    fields: &StringRecord,
    rest: &[StringRecord],
) -> Result<Step, (usize, RecordFault)>
    requires { at + 1 + length rest.now < 2 ^ 64 }
    ensures { GivesAt record_lacks_memory (λ s. s) result (apply_of schema.now at (fields_of fields.now) (map fields_of rest.now)) }
{
    let count = match count_of_edits(fields) {
        Ok(count) => count,
        Err(fault) => return Err(with_number(at, fault)),
    };
    let there = count.min(rest.len());
    let edits = edits(alloc, schema, at + 1, &rest[..there])?;
    if there < count {
        return Err((at, RecordFault::FieldCount));
    }
    match words(alloc, fields, 1) {
        Ok(ws) => Ok(Step::Act(Command::Apply { ws, edits })),
        Err(fault) => Err(with_number(at, fault)),
    }
}

/// Returns the step that stands at record `at`. It is given the records after it.
#[tactic(auto, unfolding(crate::specs::Scripts::step_of))]
fn step(
    alloc: Global,
    schema: &Schema,
    at: usize,
    fields: &StringRecord,
    rest: &[StringRecord],
) -> Result<Step, (usize, RecordFault)>
    requires { at + 1 + length rest.now < 2 ^ 64 }
    ensures { GivesAt record_lacks_memory (λ s. s) result (step_of schema.now at (fields_of fields.now) (map fields_of rest.now)) }
{
    if field(fields, 0) == "apply" {
        return apply(alloc, schema, at, fields, rest);
    }
    match plain_step(alloc, schema, fields) {
        Ok(step) => Ok(step),
        Err(fault) => Err(with_number(at, fault)),
    }
}

/// Returns how many of the records after a step are its own.
fn edits_within(step: &Step) -> usize
    ensures { result ≡ edits_in step.now }
{
    match step {
        Step::Act(Command::Apply { ws: _, edits }) => edits.as_slice().len(),
        _ => 0,
    }
}

/// Adds a step behind the others. It fails only with `OutOfMemory` at 0, and then nothing changes.
fn add(list: &mut Vec<Step>, step: Step) -> Result<(), (usize, RecordFault)>
    ensures ok { OnOk result (list.new.items ≡ list.old.items ++ step ∷ []) }
    ensures err { OnErr result (list.new.items ≡ list.old.items) }
    ensures fault { IfErr result (λ e. e ≡ (0, fault.OutOfMemory)) }
{
    match list.push(step) {
        Ok(()) => Ok(()),
        Err(_) => Err((0, RecordFault::OutOfMemory)),
    }
}

/// Returns the steps of all records.
fn steps(
    alloc: Global,
    schema: &Schema,
    records: &[StringRecord],
) -> Result<Vec<Step>, (usize, RecordFault)>
    ensures { GivesAt record_lacks_memory (λ v. v.items) result (script_of schema.now (map fields_of records.now)) }
{
    let mut list = Vec::new(alloc);
    let mut edits_left = 0;
    for (i, fields) in records.iter().enumerate() {
        if edits_left > 0 {
            edits_left -= 1;
        } else {
            let next = step(alloc, schema, i + 1, fields, &records[i + 1..])?;
            edits_left = edits_within(&next);
            add(&mut list, next)?;
        }
    }
    Ok(list)
}

/// Reads a script, a CSV record for each step. A step is a command, as `create,NAME,PARENT`,
/// `remove,WS`, `apply,WS,n` with the next n records, which are edits, `mark,WS,SP`,
/// `unmark,WS,SP`, `rollto,WS,SP`, `rollall,WS`, `refresh,WS`, `merge,WS,keep`, `merge,WS,remove`,
/// `resolve,WS,TABLE,KEY,KEEP` where KEEP is `PARENT`, `CHILD` or `BASE`, `hold,WS` or
/// `release,WS`; or a report, as `show,WS`, `changes,WS`, `conflicts,WS`, `audit,WS`, `workspaces`,
/// `dump`, `plan,NAME..`, `planunder,ROOT,NAME..`, `planinorder,NAME..`,
/// `planinorderunder,ROOT,NAME..`, `independence,NAME..` or `independenceunder,ROOT,NAME..`, where
/// `NAME..` is none or more names. Names of workspaces and savepoints are taken as they stand. The
/// fault is that of the first record that has one, beside the record's number, counted from 1. In
/// each record the word is tested first, then the count of fields, and then the fields from left to
/// right.
///
/// For example, this script has three steps, and the second of them makes one edit:
///
/// ```text
/// create,W1,LIVE
/// apply,W1,1
/// insert,node,10,tee,7,7
/// merge,W1,keep
/// ```
///
/// Fails with `NotCsv` at 1 where the bytes aren't UTF-8, with `BadWord` where the first field is
/// no step's word, the third field of a `merge` or the last of a `resolve` is none of those that
/// stand there, or an edit begins with another word than `insert`, `update` or `delete`, with
/// `FieldCount` where there is another count of fields than the word asks for, and at an `apply`
/// where fewer than n records follow and those that are there have no fault, with `NoTable` where a
/// `resolve` or an edit names a table that the schema hasn't, and with `BadNumber` where n is
/// negative, or n, a key or another number of an edit isn't decimal in its one form, or isn't
/// within 64 bits. Fails with `OutOfMemory` at 0 if memory runs out, which may come in place of any
/// other answer.
pub fn read_script(
    alloc: Global,
    schema: &Schema,
    bytes: &[u8],
) -> Result<Vec<Step>, (usize, RecordFault)>
    ensures { GivesAt record_lacks_memory (λ v. v.items) result (script_in_text schema.now bytes.now) }
{
    let records = records_in_text(alloc, bytes)?;
    steps(alloc, schema, records.as_slice())
}
