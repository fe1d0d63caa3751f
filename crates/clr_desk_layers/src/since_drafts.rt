//! Drafts with one more design, which took over another content than LIVE's.

ghost use Rattle.std.specs.Prelude.{◌≡◌, Ok, IfOk};
ghost use Rattle.clr_rows.specs.Names.{live_name};
ghost use Rattle.clr_rows.specs.Schemas.{FitsSchema};
ghost use Rattle.clr_deltas.specs.Deltas.{whole_of};
ghost use Rattle.clr_deltas.specs.Differences.{seen_over};
ghost use Rattle.clr_deltas.specs.NamedDeltas.{stored_delta};
ghost use Rattle.clr_steps.specs.Offices.{Office as WholeOffice};
ghost use Rattle.clr_designs.specs.Designs.{design_of, with_design_over};
ghost use Rattle.clr_office_texts.specs.Drafts.{draft_in};
ghost use Rattle.clr_desk_layers.specs.Since.{IsDraftFitting};

use clr_change::ChangeSet;
use clr_deltas::{Delta, Differences, StoredPart};
use clr_engine::Draft;
use clr_office_reading::{OfficeParts, read_office};
use clr_rows::{LIVE, Sheet, Words};
use clr_tree::Tree;
use std::alloc::{AllocError, Global};

/// Returns the differences between a content and the one that it lies over.
fn differences_between(
    alloc: Global,
    below: &Sheet,
    above: &Sheet,
) -> Result<Differences, AllocError>
    ensures { IfOk result (λ differences. seen_over below.now differences ≡ above.now) }
{
    let rows = ChangeSet::between(alloc, below, above)?.rows_after()?;
    let differences = Differences::of_rows(alloc, rows)?;
    Ok(differences)
}

/// Returns what is stored of a design under LIVE: a workspace that took over a copied content, and has another.
fn stored_design(
    alloc: Global,
    live: &Sheet,
    name: &str,
    copied: &Sheet,
    content: &Sheet,
) -> Result<StoredPart, AllocError>
    ensures whole { IfOk result (λ part. whole_of live.now (stored_delta part) ≡ design_of name.now copied.now content.now) }
    ensures under { IfOk result (λ part. part.delta.parent ≡ live_name) }
{
    let base = differences_between(alloc, live, copied)?;
    let current = differences_between(alloc, copied, content)?;
    let parent = Words::from_str(alloc, LIVE)?;
    let named = Words::from_str(alloc, name)?;
    let delta = Delta {
        parent,
        base,
        current,
        marks: Vec::new(alloc),
        kept: false,
    };
    Ok(StoredPart { name: named, delta })
}

/// Returns the draft of an office text with one more design behind the workspaces, which took over a copied content, and has another. The text is read
/// once more for that. The workspace of the design can be created.
pub(crate) fn draft_with_design(
    alloc: Global,
    text: &[u8],
    name: &str,
    copied: &Sheet,
    content: &Sheet,
) -> Result<Draft, AllocError>
    requires { IsDraftFitting text.now copied.now content.now }
    ensures { IfOk result (λ draft. (o : WholeOffice) → draft_in text.now ≡ Ok o → draft ≡ with_design_over o name.now copied.now content.now) }
{
    // (a text that was read, and a design that can be created, fail only for want of memory)
    let Ok(parts) = read_office(alloc, text) else {
        return Err(AllocError);
    };
    let OfficeParts {
        schema,
        book,
        known: _,
        live,
        mut workspaces,
    } = parts;
    let part = stored_design(alloc, &live, name, copied, content)?;
    workspaces.push(part)?;
    let Ok(tree) = Tree::of_deltas(alloc, live, workspaces) else {
        return Err(AllocError);
    };
    Ok(Draft::of_tree(alloc, schema, book, tree))
}
