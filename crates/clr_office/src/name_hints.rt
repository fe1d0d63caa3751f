//! Hints at names that no workspace has.
ghost use Rattle.std.specs.Prelude.{◌≡◌, ◌∷◌, map, option_map, IfOk, OnOk};
ghost use Rattle.clr_office.specs.NameHints.{AddsHint, AreNameHints, IsMeant, hint_text, workspace_names};

use clr_engine::Office;
use clr_hints::nearest;
use clr_rows::{LIVE, Words};
use clr_streams::show_on_one_line;
use std::alloc::{AllocError, Global};

/// Returns the names of all workspaces, that of LIVE first.
fn names_of_workspaces<'a>(alloc: Global, office: &'a Office) -> Result<Vec<&'a str>, AllocError>
    ensures { IfOk result (λ names. map (λ name. name.now) names.items ≡ workspace_names office.now) }
{
    let mut names = Vec::new(alloc);
    for at in 0..office.len() {
        if let Some(name) = office.name_at(at) {
            names.push(name)?;
        }
    }
    Ok(names)
}

/// Returns the name of a workspace that may be meant by a name, or none where a workspace has it or none is like it.
fn nearest_name<'a>(
    alloc: Global,
    office: &Office,
    known: &[&'a str],
    name: &str,
) -> Result<Option<&'a str>, AllocError>
    requires { map (λ other. other.now) known.now ≡ workspace_names office.now }
    ensures { IfOk result (λ near. IsMeant office.now name.now (option_map (λ other. other.now) near)) }
{
    if name == LIVE || office.parent_of(name).is_some() {
        return Ok(None);
    }
    nearest(alloc, name, known)
}

/// Returns the line of a hint at a name, and at the one that may be meant by it.
fn hint_line(alloc: Global, name: &str, near: &str) -> Result<Vec<u8>, AllocError>
    ensures { IfOk result (λ line. line.items ≡ hint_text (record { name = name.now; near = near.now })) }
{
    let mut line = Vec::from_slice(alloc, b"hint: no workspace is named '")?;
    let shown = show_on_one_line(alloc, name.as_bytes())?;
    line.extend_from_slice(shown.as_slice())?;
    line.extend_from_slice(b"'; did you mean '")?;
    line.extend_from_slice(near.as_bytes())?;
    line.extend_from_slice(b"'?\n")?;
    Ok(line)
}

/// Adds the line of a hint at a name, where no workspace has it and one has a name like it.
fn add_hint(
    alloc: Global,
    office: &Office,
    known: &[&str],
    name: &str,
    lines: &mut Vec<u8>,
) -> Result<(), AllocError>
    requires { map (λ other. other.now) known.now ≡ workspace_names office.now }
    ensures { OnOk result (AddsHint office.now name.now lines.old.items lines.new.items) }
{
    if let Some(near) = nearest_name(alloc, office, known, name)? {
        let line = hint_line(alloc, name, near)?;
        lines.extend_from_slice(line.as_slice())?;
    }
    Ok(())
}

/// Returns the lines of hints at names that no workspace has, where one has a name like them: the root, and the
/// others.
pub fn hint_lines(
    alloc: Global,
    office: &Office,
    root: &str,
    names: &[Words],
) -> Result<Vec<u8>, AllocError>
    ensures { IfOk result (λ lines. AreNameHints office.now (root.now ∷ names.now) lines.items) }
{
    let known = names_of_workspaces(alloc, office)?;
    let mut lines = Vec::new(alloc);
    add_hint(alloc, office, known.as_slice(), root, &mut lines)?;
    for name in names {
        add_hint(alloc, office, known.as_slice(), name.as_str(), &mut lines)?;
    }
    Ok(lines)
}
