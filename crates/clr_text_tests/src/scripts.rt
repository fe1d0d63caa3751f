//! Edits and scripts as they are read, or why they aren't.

use crate::networks::schema;
use crate::questions::{check, is_answer};
use crate::script_cases::{
    COMMANDS, COUNTS, EDIT_FAULTS, EDITS, REPORTS, SCRIPT_FAULTS, SCRIPTS, TURNS,
};
use crate::texts::{edits_text, steps_text, unfold};
use clr_row_test_kit::coordinates;
use clr_rows::{Names, Words};
use clr_scripts::{RecordFault, read_edits, read_script};
use std::alloc::Global;
use std::test::Fail;

/// Returns why a record is bad, behind its number.
fn fault_text(alloc: Global, number: usize, fault: RecordFault) -> Option<String> {
    format!(in alloc; "{number} {fault:?}").ok()
}

/// Returns edits, or the number of the record that is bad, and why.
fn read_edits_text(alloc: Global, text: &str) -> Option<String> {
    let schema = schema(alloc)?;
    match read_edits(alloc, &schema, text.as_bytes()) {
        Ok(edits) => edits_text(alloc, edits.as_slice()),
        Err((number, fault)) => fault_text(alloc, number, fault),
    }
}

/// Returns steps, or the number of the record that is bad, and why.
fn read_script_text(alloc: Global, text: &str) -> Option<String> {
    let schema = schema(alloc)?;
    match read_script(alloc, &schema, text.as_bytes()) {
        Ok(steps) => steps_text(alloc, steps.as_slice()),
        Err((number, fault)) => fault_text(alloc, number, fault),
    }
}

/// Returns `read`, or why a route isn't that has so many coordinates.
fn route_text(alloc: Global, count: &str) -> Option<String> {
    let coordinates = coordinates(alloc, count)?;
    let text = format!(in alloc; "insert,route,5,R{}", coordinates.as_str()).ok()?;
    let schema = schema(alloc)?;
    match read_edits(alloc, &schema, text.as_bytes()) {
        Ok(_) => String::from_str(alloc, "read").ok(),
        Err((number, fault)) => fault_text(alloc, number, fault),
    }
}

/// Returns what is read of edits, of a script, or of a route.
pub(crate) fn answer(alloc: Global, word: &str, line: &str) -> Option<String> {
    match word {
        "edits" => read_edits_text(alloc, unfold(alloc, line)?.as_str()),
        "script" => read_script_text(alloc, unfold(alloc, line)?.as_str()),
        _ => route_text(alloc, line),
    }
}

#[test]
fn edits_and_their_rows(rt: HostRuntime) {
    check(&rt, rt.alloc(), EDITS);
}

#[test]
fn faults_of_edits(rt: HostRuntime) {
    check(&rt, rt.alloc(), EDIT_FAULTS);
}

#[test]
fn commands(rt: HostRuntime) {
    check(&rt, rt.alloc(), COMMANDS);
}

#[test]
fn reports(rt: HostRuntime) {
    check(&rt, rt.alloc(), REPORTS);
}

#[test]
fn scripts_of_several_steps(rt: HostRuntime) {
    check(&rt, rt.alloc(), SCRIPTS);
}

#[test]
fn counts_of_fields(rt: HostRuntime) {
    for line in COUNTS.split("; ") {
        assert!(rt;
            is_answer(rt.alloc(), "script", line, "1 FieldCount"),
            "{line}"
        );
    }
}

#[test]
fn words_and_fields_in_turn(rt: HostRuntime) {
    check(&rt, rt.alloc(), TURNS);
}

#[test]
fn faults_of_scripts(rt: HostRuntime) {
    check(&rt, rt.alloc(), SCRIPT_FAULTS);
}

#[test]
fn bytes_that_are_no_text(rt: HostRuntime) -> Result<(), Fail> {
    let schema = schema(rt.alloc()).ok_or("no schema")?;
    let fault = Some((1, RecordFault::NotCsv));
    assert!(rt; read_edits(rt.alloc(), &schema, b"move\n\xff").err() == fault);
    assert!(rt; read_script(rt.alloc(), &schema, b"open\n\xff").err() == fault);
    Ok(())
}

fn two_names(alloc: Global) -> Option<Names> {
    let mut list = Vec::new(alloc);
    for name in ["W1", "W2"] {
        list.push(Words::from_str(alloc, name).ok()?).ok()?;
    }
    Some(Names::new(list))
}

#[test]
fn names_as_a_list(rt: HostRuntime) -> Result<(), Fail> {
    let list = two_names(rt.alloc()).ok_or("no names")?.into_vec();
    assert!(rt; list.len() == 2);
    assert!(rt; list[1].as_str() == "W2");
    Ok(())
}
