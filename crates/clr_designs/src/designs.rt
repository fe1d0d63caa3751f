//! A design that has a wanted content, and LIVE with another content.

ghost use Rattle.std.specs.Prelude.{◌≡◌, IfOk, OnErr};
ghost use Rattle.clr_rows.specs.Contents.{Content};
ghost use Rattle.clr_rows.specs.Names.{live_name};
ghost use Rattle.clr_rows.specs.Schemas.{FitsSchema};
ghost use Rattle.clr_steps.specs.declared.commands.Command.TheVariants as command;
ghost use Rattle.clr_layer_changes.specs.Changes.{edits_between};
ghost use Rattle.clr_designs.specs.Designs.{IsDesignBegun, IsDesignMade, IsLiveReplaced, IsCommandAnswer};

use clr_engine::Office;
use clr_layer_changes::edits_between;
use clr_rows::{LIVE, Sheet, Words};
use clr_steps::{Command, Edits, Reply};
use std::alloc::{AllocError, Global};

/// Performs a command, and returns why it is refused, if it is; then nothing changes. If memory runs out, nothing changes.
pub(crate) fn perform(office: &mut Office, command: &Command) -> Result<Option<Reply>, AllocError>
    ensures performed { IfOk result (λ refused. IsCommandAnswer office.old command.now refused office.new) }
    ensures err { OnErr result (office.new ≡ office.old) }
{
    match office.perform(command) {
        Reply::Done => Ok(None),
        Reply::OutOfMemory => Err(AllocError),
        reply => Ok(Some(reply)),
    }
}

/// Creates a workspace under LIVE, or returns why it can't be created. If memory runs out, nothing changes.
fn create_workspace(
    alloc: Global,
    office: &mut Office,
    name: &str,
) -> Result<Option<Reply>, AllocError>
    ensures performed { IfOk result (λ refused. IsCommandAnswer office.old (command.Create name.now live_name) refused office.new) }
    ensures err { OnErr result (office.new ≡ office.old) }
{
    let command = Command::Create {
        name: Words::from_str(alloc, name)?,
        parent: Words::from_str(alloc, LIVE)?,
    };
    perform(office, &command)
}

/// Makes edits in LIVE or in a workspace, or returns why they can't be made. If memory runs out, nothing changes.
pub(crate) fn apply_edits(
    alloc: Global,
    office: &mut Office,
    ws: &str,
    edits: Edits,
) -> Result<Option<Reply>, AllocError>
    ensures performed { IfOk result (λ refused. IsCommandAnswer office.old (command.Apply ws.now edits) refused office.new) }
    ensures err { OnErr result (office.new ≡ office.old) }
{
    let command = Command::Apply {
        ws: Words::from_str(alloc, ws)?,
        edits,
    };
    perform(office, &command)
}

/// Makes a design: a workspace of this name under LIVE, whose base is LIVE's content and whose current content is the one to which edits lead. These are
/// the edits between LIVE's content and one that fits the schema. Returns why its workspace can't be created, if it can't: `BadName`, `NameTaken` or
/// `TooMany`, in this order; then nothing changes. Nothing else is refused. If memory runs out, nothing changes, or the workspace stands with LIVE's content.
pub fn make_edited_design(
    alloc: Global,
    office: &mut Office,
    name: &str,
    edits: Edits,
) -> Result<Option<Reply>, AllocError>
    requires { (content : Content) × FitsSchema office.old.schema content × (edits ≡ edits_between office.old.live content) }
    ensures made { IfOk result (λ refused. (content : Content) → FitsSchema office.old.schema content → edits ≡ edits_between office.old.live content
        → IsDesignMade office.old name.now content refused office.new) }
    ensures err { OnErr result (IsDesignBegun office.old name.now office.new) }
{
    let _sound = office.len();
    let _admitted = office.live();
    if let Some(reply) = create_workspace(alloc, office, name)? {
        return Ok(Some(reply));
    }
    apply_edits(alloc, office, name, edits)
}

/// Makes a design: a workspace of this name under LIVE, whose base is LIVE's content and whose current content is this one. Returns why its
/// workspace can't be created, if it can't: `BadName`, `NameTaken` or `TooMany`, in this order; then nothing changes. Nothing else is refused.
/// If memory runs out, nothing changes, or the workspace stands with LIVE's content.
pub fn make_design(
    alloc: Global,
    office: &mut Office,
    name: &str,
    content: &Sheet,
) -> Result<Option<Reply>, AllocError>
    requires { FitsSchema office.old.schema content.now }
    ensures made { IfOk result (λ refused. IsDesignMade office.old name.now content.now refused office.new) }
    ensures err { OnErr result (IsDesignBegun office.old name.now office.new) }
{
    let edits = edits_between(alloc, office.live(), content)?;
    make_edited_design(alloc, office, name, edits)
}

/// Puts another content in place of LIVE's. Where it breaks a need that isn't broken in LIVE now, `RuleBroken` with the least such need is returned, and
/// nothing changes.
/// Nothing else is refused. If memory runs out, nothing changes.
pub fn replace_live(
    alloc: Global,
    office: &mut Office,
    content: &Sheet,
) -> Result<Option<Reply>, AllocError>
    requires { FitsSchema office.old.schema content.now }
    ensures replaced { IfOk result (λ refused. IsLiveReplaced office.old content.now refused office.new) }
    ensures err { OnErr result (office.new ≡ office.old) }
{
    let edits = edits_between(alloc, office.live(), content)?;
    apply_edits(alloc, office, LIVE, edits)
}
