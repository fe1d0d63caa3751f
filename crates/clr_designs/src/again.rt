//! Workspaces that are rolled back or taken away by name, and LIVE or a workspace with another content.

ghost use Rattle.std.specs.Prelude.{◌≡◌, IfOk, OnErr};
ghost use Rattle.clr_rows.specs.Schemas.{FitsSchema};
ghost use Rattle.clr_steps.specs.declared.commands.Command.TheVariants as command;
ghost use Rattle.clr_designs.specs.Again.{IsContentSet, IsPerformed};

use crate::designs::{apply_edits, perform};
use clr_engine::Office;
use clr_layer_changes::edits_between;
use clr_rows::{Sheet, Words};
use clr_steps::{Command, Reply};
use std::alloc::{AllocError, Global};

/// Rolls a workspace back to its base, so that it changes nothing and has no savepoints. Returns why it can't be rolled back, if it can't:
/// `LiveIsFixed`, `NoWorkspace`, `NotLeaf` or `RuleBroken`; then nothing changes. If memory runs out, nothing changes.
pub fn roll_back(
    alloc: Global,
    office: &mut Office,
    name: &str,
) -> Result<Option<Reply>, AllocError>
    ensures performed { IfOk result (λ refused. IsPerformed office.old (command.RollAll name.now) refused office.new) }
    ensures err { OnErr result (office.new ≡ office.old) }
{
    let ws = Words::from_str(alloc, name)?;
    perform(office, &Command::RollAll { ws })
}

/// Takes a workspace away. Returns why it can't be taken away, if it can't: `LiveIsFixed`, `NoWorkspace` or `NotLeaf`; then nothing changes. If memory
/// runs out, nothing changes.
pub fn take_away(
    alloc: Global,
    office: &mut Office,
    name: &str,
) -> Result<Option<Reply>, AllocError>
    ensures performed { IfOk result (λ refused. IsPerformed office.old (command.Remove name.now) refused office.new) }
    ensures err { OnErr result (office.new ≡ office.old) }
{
    let ws = Words::from_str(alloc, name)?;
    perform(office, &Command::Remove { ws })
}

/// Puts another content in place of that of LIVE or a workspace. Returns why it can't have it, if it can't: `NoWorkspace`, or `RuleBroken` with the
/// least need that the content breaks and that isn't broken now, where every rule is to hold; then nothing changes. If memory runs out, nothing
/// changes.
pub fn set_content(
    alloc: Global,
    office: &mut Office,
    name: &str,
    content: &Sheet,
) -> Result<Option<Reply>, AllocError>
    requires { FitsSchema office.old.schema content.now }
    ensures set { IfOk result (λ refused. IsContentSet office.old name.now content.now refused office.new) }
    ensures err { OnErr result (office.new ≡ office.old) }
{
    let _fit = office.live();
    let Some(seen) = office.rows(name)? else {
        return Ok(Some(Reply::NoWorkspace));
    };
    let edits = edits_between(alloc, &seen, content)?;
    apply_edits(alloc, office, name, edits)
}
