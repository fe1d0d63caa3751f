//! Drafts with another content of LIVE.

ghost use Rattle.std.specs.Prelude.{◌≡◌, Ok, IfOk};
ghost use Rattle.clr_rows.specs.Schemas.{FitsSchema};
ghost use Rattle.clr_designs.specs.Designs.{with_live};
ghost use Rattle.clr_office_texts.specs.Drafts.{draft_in};

use clr_change::ChangeSet;
use clr_engine::Draft;
use clr_office_reading::{OfficeParts, read_office};
use clr_rows::Sheet;
use clr_tree::Tree;
use std::alloc::{AllocError, Global};

/// Returns the draft of an office text with another content in place of LIVE's, whatever it breaks. The text is read once more for that.
pub fn draft_with_live(
    alloc: Global,
    text: &[u8],
    draft: &Draft,
    content: &Sheet,
) -> Result<Draft, AllocError>
    requires read { draft_in text.now ≡ Ok draft.now }
    requires fits { FitsSchema draft.now.schema content.now }
    ensures { IfOk result (λ relaid. relaid ≡ with_live draft.now content.now) }
{
    let _fit = draft.schema();
    // (a text that was read fails only for want of memory)
    let Ok(parts) = read_office(alloc, text) else {
        return Err(AllocError);
    };
    let OfficeParts {
        schema,
        book,
        known: _,
        live,
        workspaces,
    } = parts;
    let Ok(mut tree) = Tree::of_deltas(alloc, live, workspaces) else {
        return Err(AllocError);
    };
    let changed = ChangeSet::between(alloc, tree.live(), content)?;
    tree.write_all(0, &changed)?;
    Ok(Draft::of_tree(alloc, schema, book, tree))
}
