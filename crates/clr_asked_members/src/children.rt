//! The members that names ask for.
ghost use Rattle.std.specs.Prelude.{◌≡◌, ◌++◌, IfOk, OnOk};
ghost use Rattle.clr_steps.specs.Readings.{name_at};
ghost use Rattle.clr_asked_members.specs.Members.{child_in, children_of_root, members_or_children};

use clr_engine::Office;
use clr_merge_sets::is_child;
use clr_rows::{Names, Words};
use std::alloc::{AllocError, Global};

/// Adds the name of the workspace at a position, LIVE having position 0, where it is a child of the root.
fn add_child(
    alloc: Global,
    office: &Office,
    root: &str,
    at: usize,
    names: &mut Vec<Words>,
) -> Result<(), AllocError>
    ensures { OnOk result (names.new.items ≡ names.old.items ++ child_in office.now root.now (name_at office.now at)) }
{
    let Some(name) = office.name_at(at) else {
        return Ok(());
    };
    if !is_child(office, root, name) {
        return Ok(());
    }
    names.push(Words::from_str(alloc, name)?)?;
    Ok(())
}

/// Returns the children of a root, in order of creation.
fn children_of(alloc: Global, office: &Office, root: &str) -> Result<Names, AllocError>
    ensures { IfOk result (λ names. names ≡ children_of_root office.now root.now) }
{
    let mut names = Vec::new(alloc);
    let count = office.len() - 1;
    for below in 0..count {
        add_child(alloc, office, root, below + 1, &mut names)?;
    }
    Ok(Names::new(names))
}

/// Returns these names, or where there are none those of all children of a root, in order of
/// creation.
pub fn members_asked(
    alloc: Global,
    office: &Office,
    root: &str,
    names: &[Words],
) -> Result<Names, AllocError>
    ensures { IfOk result (λ members. members ≡ members_or_children office.now root.now names.now) }
{
    if names.is_empty() {
        return children_of(alloc, office, root);
    }
    let mut members = Vec::with_capacity(alloc, names.len())?;
    for name in names {
        members.push(name.copy()?)?;
    }
    Ok(Names::new(members))
}
