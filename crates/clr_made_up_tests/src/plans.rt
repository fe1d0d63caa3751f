//! Offices that dice make, with members whose merges are planned and then given.

use crate::edits::edit;
use clr_call_test_kit::Dice;
use clr_check::{Verdict, check};
use clr_engine::{Office, Reply};
use clr_office_test_kit::{commands_of, office_of, perform_script, rows_of};
use clr_plan::{Plan, plan};
use std::alloc::{AllocError, Global};
use std::test::Fail;

const NAMES: [&str; 3] = ["W1", "W2", "W3"];

const RULES: [&str; 6] = [
    r#"{"kind":"UNIQUE","subject":{"table":"main"},"columns":["code"]}"#,
    r#"{"kind":"CROSSING","a":{"table":"main"},"b":{"table":"main"},"server":{"table":"node"}}"#,
    r#"{"kind":"PARTNER","subject":{"table":"hydrant"},"columns":["main"],"server":{"table":"main"},"server_columns":["KEY"]}"#,
    r#"{"kind":"ENDNODE","subject":{"table":"main"},"tip":"FIRST","server":{"table":"node"}}"#,
    r#"{"kind":"ENDNODE","subject":{"table":"main","where":[["code","A"]]},"tip":"SECOND","server":{"table":"node"}}"#,
    r#"{"kind":"NEAR","a":{"table":"hydrant"},"b":{"table":"hydrant"},"d":2}"#,
];

/// Returns two rules, as dice choose.
pub(crate) fn rules(alloc: Global, dice: &mut Dice) -> Result<String, AllocError> {
    let first = RULES[dice.throw(6) as usize];
    let second = RULES[dice.throw(6) as usize];
    format!(in alloc; "{first},{second}")
}

/// Returns an empty network under rules.
pub(crate) fn network(alloc: Global, rules: &str) -> Result<String, AllocError> {
    format!(in alloc;
        r#"{{"format":1,"tables":[{{"name":"node","columns":[["kind","TEXT"]],"shape":"POINT"}},
{{"name":"main","columns":[["code","TEXT"]],"shape":"SEGMENT"}},
{{"name":"hydrant","columns":[["main","INT"]],"shape":"POINT"}}],"rules":[{rules}],"live":[]}}"#
    )
}

/// Adds edits of a workspace, each in a command of its own, so that one that is refused leaves the
/// others.
pub(crate) fn add_edits(
    alloc: Global,
    dice: &mut Dice,
    script: &mut String,
    name: &str,
    count: u64,
) -> Result<(), AllocError> {
    for _ in 0..count {
        let edit = edit(alloc, dice)?;
        let step = format!(in alloc; "apply,{name},1\n{edit}")?;
        script.push_str(step.as_str())?;
    }
    Ok(())
}

/// Returns edits of LIVE, and then of each of three workspaces under it.
pub(crate) fn script(alloc: Global, dice: &mut Dice) -> Result<String, AllocError> {
    let mut script = String::new(alloc);
    add_edits(alloc, dice, &mut script, "LIVE", 14)?;
    for name in NAMES {
        script.push_str("create,")?;
        script.push_str(name)?;
        script.push_str(",LIVE\n")?;
    }
    for name in NAMES {
        add_edits(alloc, dice, &mut script, name, 2)?;
    }
    Ok(script)
}

/// Returns the numbers of three members in an order that dice choose.
fn order(dice: &mut Dice) -> [u8; 3] {
    match dice.throw(6) {
        0 => [1, 2, 3],
        1 => [1, 3, 2],
        2 => [2, 1, 3],
        3 => [2, 3, 1],
        4 => [3, 1, 2],
        _ => [3, 2, 1],
    }
}

/// Merges of the first members in an order that dice choose, each after a refresh of one of them.
fn merges(alloc: Global, dice: &mut Dice, members: u8) -> Result<String, AllocError> {
    let mut script = String::new(alloc);
    for member in order(dice) {
        if member <= members {
            let refreshed = dice.throw(2) + 1;
            let step = format!(in alloc; "refresh,W{refreshed}\nmerge,W{member},keep\n")?;
            script.push_str(step.as_str())?;
        }
    }
    Ok(script)
}

/// Returns the rows of LIVE after a script, whatever it is answered, and merges, if all are done.
fn rows_in(alloc: Global, office: &mut Office, script: &str, merges: &str) -> Option<Vec<u8>> {
    perform_script(alloc, office, script)?;
    if perform_script(alloc, office, merges)? {
        rows_of(alloc, office, "LIVE")
    } else {
        None
    }
}

/// Returns the rows of LIVE after such merges in a made-up office, if all are done.
fn rows_after_merges(
    alloc: Global,
    dice: &mut Dice,
    (network, script): (&str, &str),
    members: u8,
) -> Result<Vec<u8>, Fail> {
    let merges = merges(alloc, dice, members)?;
    let rows = match office_of(alloc, network) {
        Some(mut office) => rows_in(alloc, &mut office, script, merges.as_str()),
        None => None,
    };
    Ok(rows.ok_or("a merge is refused")?)
}

/// Returns whether all members of a cleared office can be merged in three orders, with the same rows.
pub(crate) fn are_alike(
    alloc: Global,
    dice: &mut Dice,
    texts: (&str, &str),
    members: u8,
) -> Result<bool, Fail> {
    let first = rows_after_merges(alloc, dice, texts, members)?;
    let second = rows_after_merges(alloc, dice, texts, members)?;
    let third = rows_after_merges(alloc, dice, texts, members)?;
    Ok(first.as_slice() == second.as_slice() && first.as_slice() == third.as_slice())
}

/// How the plan for members of a made-up office turns out.
#[derive(Clone, Copy, Debug, PartialEq, Eq)]
pub(crate) enum Outcome {
    /// The plan is blocked, and one of the merges in its order is refused.
    Refused,
    /// The plan is cleared, its certificate is clear, and all merges are done in whatever order.
    Alike,
    /// The plan is neither.
    Wrong,
}

/// Returns the merges of members in the order of a plan.
fn merges_in(alloc: Global, members: &[&str], order: &[usize]) -> Option<String> {
    let mut script = String::new(alloc);
    for position in order {
        let step = format!(in alloc; "merge,{},keep\n", members.get(*position)?).ok()?;
        script.push_str(step.as_str()).ok()?;
    }
    Some(script)
}

/// Returns whether merges in the order of a plan are refused for a conflict or a broken rule.
fn is_refused(
    alloc: Global,
    office: &mut Office,
    members: &[&str],
    order: &[usize],
) -> Option<bool> {
    let script = merges_in(alloc, members, order)?;
    let commands = commands_of(alloc, office, script.as_str())?;
    let replies = office.perform_all(commands.as_slice()).ok()?;
    Some(replies.iter().any(|reply| matches!(reply, Reply::Conflict(..) | Reply::RuleBroken(_))))
}

/// Returns how the plan for members of LIVE turns out in an office after a script; alike where its certificate is clear.
fn outcome_in(
    alloc: Global,
    office: &mut Office,
    script: &str,
    members: &[&str],
) -> Option<Outcome> {
    perform_script(alloc, office, script)?;
    let (is_so, outcome) = match plan(alloc, office, "LIVE", members) {
        Plan::Cleared(certificate) => {
            let is_clear = check(alloc, office, &certificate) == Verdict::Clear;
            (is_clear, Outcome::Alike)
        }
        Plan::Blocked { order, .. } => {
            let is_refused = is_refused(alloc, office, members, order.as_slice())?;
            (is_refused, Outcome::Refused)
        }
        _ => return None,
    };
    Some(if is_so { outcome } else { Outcome::Wrong })
}

/// Returns how the plan for members of LIVE turns out in the office of a text after a script.
pub(crate) fn outcome_over(
    alloc: Global,
    (network, script): (&str, &str),
    members: &[&str],
) -> Option<Outcome> {
    match office_of(alloc, network) {
        Some(mut office) => outcome_in(alloc, &mut office, script, members),
        None => None,
    }
}

/// Returns how the plan of the office that a seed makes turns out.
fn plan_outcome(alloc: Global, seed: u64) -> Result<Outcome, Fail> {
    let mut dice = Dice::new(seed);
    let rules = rules(alloc, &mut dice)?;
    let network = network(alloc, rules.as_str())?;
    let script = script(alloc, &mut dice)?;
    let texts = (network.as_str(), script.as_str());
    let members: u8 = if seed % 2 == 0 { 2 } else { 3 };
    let names: &[&str] = if members == 2 { &["W1", "W2"] } else { &NAMES };
    let outcome = outcome_over(alloc, texts, names).ok_or("nothing is planned")?;
    if outcome == Outcome::Alike && !are_alike(alloc, &mut dice, texts, members)? {
        return Ok(Outcome::Wrong);
    }
    Ok(outcome)
}

/// Returns how the plans of a hundred offices turn out.
fn outcomes(alloc: Global) -> Result<Vec<Outcome>, Fail> {
    let mut list = Vec::new(alloc);
    for seed in 0..100 {
        list.push(plan_outcome(alloc, seed)?)?;
    }
    Ok(list)
}

/// Returns how many turn out so.
fn count(outcomes: &[Outcome], wanted: Outcome) -> usize {
    outcomes
        .iter()
        .filter(|outcome| **outcome == wanted)
        .count()
}

#[test]
fn plans_of_made_up_offices(rt: HostRuntime) -> Result<(), Fail> {
    let list = outcomes(rt.alloc())?;
    let refused = count(list.as_slice(), Outcome::Refused);
    let alike = count(list.as_slice(), Outcome::Alike);
    let wrong = count(list.as_slice(), Outcome::Wrong);
    assert!(rt;
        refused > 20 && alike > 20 && wrong == 0,
        "{refused} refused, {alike} alike, {wrong} wrong"
    );
    Ok(())
}
