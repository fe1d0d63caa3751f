//! Offices that dice make, in which LIVE and kept workspaces break rules from the start.

use crate::plans::{add_edits, network, script};
use clr_call_test_kit::Dice;
use clr_change::are_same;
use clr_engine::{Broken, Office};
use clr_office_test_kit::{office_of, perform_script};
use clr_office_texts::{read_office, write_draft, write_office};
use clr_rows::CellId;
use std::alloc::Global;

pub(crate) const NAMES: [&str; 3] = ["W1", "W2", "W3"];

/// Commands after which no workspace is kept.
const RELEASES: &str = "release,W1\nrelease,W2\nrelease,W3\n";

fn text_of(alloc: Global, bytes: &[u8]) -> Option<String> {
    String::from_str(alloc, str::from_utf8(bytes).ok()?).ok()
}

/// Returns the text of an office.
pub(crate) fn written(alloc: Global, office: &Office) -> Option<String> {
    let bytes = write_office(alloc, office).ok()?;
    text_of(alloc, bytes.as_slice())
}

/// Adds commands by which some of the workspaces are kept, as dice choose.
fn add_holds(alloc: Global, dice: &mut Dice, script: &mut String) -> Option<()> {
    for name in NAMES {
        if dice.throw(2) == 0 {
            let hold = format!(in alloc; "hold,{name}\n").ok()?;
            script.push_str(hold.as_str()).ok()?;
        }
    }
    Some(())
}

/// Returns the text of an office without rules, as dice choose: LIVE, and three workspaces, of which some are kept. LIVE has had one
/// more edit since they were made.
pub(crate) fn plain_text(alloc: Global, dice: &mut Dice) -> Option<String> {
    let network = network(alloc, "").ok()?;
    let mut script = script(alloc, dice).ok()?;
    add_edits(alloc, dice, &mut script, "LIVE", 1).ok()?;
    add_holds(alloc, dice, &mut script)?;
    let mut office = office_of(alloc, network.as_str())?;
    perform_script(alloc, &mut office, script.as_str())?;
    written(alloc, &office)
}

/// Returns the text of an office under rules, in which each broken need is known, where its text without rules is given.
pub(crate) fn known_text(alloc: Global, plain: &str, rules: &str) -> Option<String> {
    let (before, behind) = plain.split_once("\"rules\":[]")?;
    let text = format!(in alloc; "{before}\"rules\":[{rules}]{behind}").ok()?;
    let draft = read_office(alloc, text.as_str().as_bytes()).ok()?.draft;
    let bytes = write_draft(alloc, draft).ok()?;
    text_of(alloc, bytes.as_slice())
}

/// Returns the office of a text, once only LIVE is kept.
pub(crate) fn live_of(alloc: Global, text: &str) -> Option<Office> {
    let mut office = office_of(alloc, text)?;
    perform_script(alloc, &mut office, RELEASES)?;
    Some(office)
}

fn are_same_at(before: &Office, after: &Office, cell: CellId) -> bool {
    are_same(before.read("LIVE", cell), after.read("LIVE", cell))
}

/// Returns whether a need is one of those that were broken before, and its rows in LIVE are the same.
fn was_broken(before: &Office, after: &Office, broken: &[Broken], need: &Broken) -> bool {
    let beside = match need.second {
        None => true,
        Some(cell) => are_same_at(before, after, cell),
    };
    broken.iter().any(|it| it == need) && are_same_at(before, after, need.first) && beside
}

/// Returns whether LIVE breaks no need but those that it breaks in another office, with the same rows. In both only LIVE is kept.
pub(crate) fn breaks_no_more(before: &Office, after: &Office) -> Option<bool> {
    let broken = before.broken_needs().ok()?;
    let left = after.broken_needs().ok()?;
    Some(
        left.iter()
            .all(|need| was_broken(before, after, broken.as_slice(), need)),
    )
}
