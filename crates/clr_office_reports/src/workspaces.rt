//! The lines of all workspaces of an office.
ghost use Rattle.std.specs.Prelude.{◌≡◌, ◌++◌, [], true, IfOk, OnOk, unwrap_or};
ghost use Rattle.clr_steps.specs.Offices.{stands};
ghost use Rattle.clr_steps.specs.Readings.{parent_in};
ghost use Rattle.clr_office_reports.specs.Workspaces.{workspace_line, workspaces_text};

use clr_engine::Office;
use clr_lines::{add_workspace, count_line};
use std::alloc::{AllocError, Global};

/// Returns the name of the parent of a workspace under LIVE.
fn parent_name<'a>(office: &'a Office, name: &str) -> &'a str
    ensures { result.now ≡ unwrap_or (parent_in office.now name.now) [] }
{
    match office.parent_of(name) {
        Some(parent) => parent,
        None => "",
    }
}

/// Adds the line of a workspace.
fn add_workspace_line(lines: &mut Vec<u8>, office: &Office, name: &str) -> Result<(), AllocError>
    requires { stands office.now name.now ≡ true }
    ensures { OnOk result (lines.new.items ≡ lines.old.items ++ workspace_line office.now name.now) }
{
    let changes = office.changes(name)?.unwrap();
    let conflicts = office.conflicts(name)?.unwrap();
    let is_kept = office.kept(name).unwrap();
    let parent = parent_name(office, name);
    add_workspace(lines, name, parent, changes.len(), conflicts.len(), is_kept)
}

/// Returns the lines of all workspaces under LIVE, each ended by `\n`. The first says how many
/// there are. Then, in order of creation, come the name of each, that of its parent, how many cells
/// it changed, at how many of them it is in conflict with its parent, and `kept` where every rule
/// is to hold in it.
///
/// For example, in these lines `W1` changed two cells, of which one is in conflict, `K` is kept, and `V` is a child
/// of `K`:
///
/// ```text
/// workspaces 3
/// W1 LIVE 2 1
/// K LIVE 0 0 kept
/// V K 1 0
/// ```
#[tactic(auto, unfolding(crate::specs::Workspaces::workspaces_text))]
pub fn workspaces_lines(alloc: Global, office: &Office) -> Result<Vec<u8>, AllocError>
    ensures { IfOk result (λ lines. lines.items ≡ workspaces_text office.now) }
{
    let mut lines = count_line(alloc, "workspaces", office.len() - 1)?;
    for position in 1..office.len() {
        let name = office.name_at(position).unwrap();
        add_workspace_line(&mut lines, office, name)?;
    }
    Ok(lines)
}
