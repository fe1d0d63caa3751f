//! Reading office texts as drafts.

ghost use Rattle.std.specs.Prelude.{◌≡◌, ◌∷◌, IfOk};
ghost use Rattle.clr_workspaces.specs.Workspaces.{live_workspace};
ghost use Rattle.clr_workspace_parts.specs.Parts.{spaces_of};
ghost use Rattle.clr_steps.specs.Offices.{office_of};
ghost use Rattle.clr_engine.specs.Fitting.{IsFitting};
ghost use Rattle.clr_readings.specs.Readings.{Gives};
ghost use Rattle.clr_rule_text.specs.Fields.{text_lacks_memory};
ghost use Rattle.clr_office_reading.specs.Fits.{FitsOffice};
ghost use Rattle.clr_office_reading.specs.Offices.{known_in, office_read};
ghost use Rattle.clr_office_texts.specs.Drafts.{draft_in, if_standing, text_fault_of, whole_office};

use clr_engine::{Draft, PartFault};
use clr_office_reading::{KnownNeeds, OfficeParts, StoredPart, TextFault};
use clr_rows::{Schema, Sheet};
use clr_rules::RuleBook;
use clr_tree::{MOST_WORKSPACES, Tree};
use std::alloc::Global;

/// Returns what is said of a text whose workspaces can't stand.
fn text_fault(fault: PartFault) -> TextFault
    ensures { result ≡ text_fault_of fault }
{
    match fault {
        PartFault::OutOfMemory => TextFault::OutOfMemory,
        _ => TextFault::BadPart,
    }
}

fn draft_of_deltas(
    alloc: Global,
    schema: Schema,
    book: RuleBook,
    live: Sheet,
    parts: Vec<StoredPart>,
) -> Result<Draft, TextFault>
    requires { IsFitting (office_of schema book (live_workspace live ∷ spaces_of live parts.items)) }
    ensures { Gives text_lacks_memory (λ draft. draft) result (if_standing (office_of schema book (live_workspace live ∷ spaces_of live parts.items))) }
{
    match Tree::of_deltas(alloc, live, parts) {
        Ok(tree) => Ok(Draft::of_tree(alloc, schema, book, tree)),
        Err(refused) => Err(text_fault(refused.1)),
    }
}

/// Returns the draft of what was read of a text, and its known needs. Its workspaces stay as they are written, by their
/// differences; those that are too many are refused before any of them is made.
fn draft_text(alloc: Global, read: OfficeParts) -> Result<DraftText, TextFault>
    requires { FitsOffice (office_read read) }
    ensures draft { Gives text_lacks_memory (λ text. text.draft) result (if_standing (whole_office (office_read read))) }
    ensures known { IfOk result (λ text. text.known ≡ read.known) }
{
    let OfficeParts {
        schema,
        book,
        known,
        live,
        workspaces,
    } = read;
    if workspaces.len() >= MOST_WORKSPACES {
        return Err(TextFault::BadPart);
    }
    let draft = draft_of_deltas(alloc, schema, book, live, workspaces)?;
    Ok(DraftText { draft, known })
}

/// What an office text says: a draft, and the needs of its rules that the text names as known to be broken.
#[derive(Drop)]
pub struct DraftText {
    pub draft: Draft,
    pub known: KnownNeeds,
}

/// Reads an office text of format 1 to 4: a draft with its schema, its rules, LIVE and the
/// workspaces under LIVE with whole contents, in order of creation, and the needs that are known to be broken, rule by rule
/// in the order in which they are written. Formats 1 to 3 name none. Whether these are all that are broken is
/// tested when the draft is admitted. The fault is the first of the parts of the text, in the order
/// format, tables, rules, live, and then each workspace in turn (its name, its parent and its flag,
/// then its base, its rows and its marks), and at last of the workspaces as a whole. In each of
/// these parts `BadField` comes before the other faults, and at one cell `BadRow` before
/// `RepeatedCell`.
///
/// For example, this text gives a draft of one table, without rules or workspaces, and with one row in LIVE:
///
/// ```text
/// {"format":1,"tables":[{"name":"node","columns":[["kind","TEXT"]],"shape":"POINT"}],
/// "live":[{"t":"node","k":9,"v":["valve"],"s":[5,5]}]}
/// ```
///
/// With `[5,1.5]` for `[5,5]` it fails with `BadField`.
///
/// Fails with `NotJson` where the bytes aren't JSON, with `BadField` where a key is missing or a
/// value is none of those that may stand there (a list of rules, known needs, workspaces, cells of a base, of
/// rows, marks or literals that is missing is empty), with `BadSchema` where the tables make no
/// schema, with `BadRule` where a rule names a table or a column that the schema hasn't, the
/// rules make no book over it, or a known need is one that its rule can't have (a key isn't 1 to 999,999,999,999,999, a part
/// isn't 1 to 31, or the cells don't ascend), with `BadRow` where a cell's table isn't known, the row doesn't fit
/// it, or no row could stand where one is gone, with `RepeatedCell` where a cell stands twice in
/// one list, and with `BadPart` where the parent of a workspace is neither LIVE nor an earlier one,
/// as it is met, or where the workspaces as a whole can't stand: a name that isn't good or is
/// taken, more than 255 workspaces or 8 levels, or marks that aren't exactly the children and
/// savepoints with good, different names, at most 64. Fails with `OutOfMemory` if memory runs out,
/// which may come in place of any other answer.
#[tactic(auto, unfolding(crate::specs::Drafts::draft_in))]
pub fn read_office(alloc: Global, bytes: &[u8]) -> Result<DraftText, TextFault>
    ensures draft { Gives text_lacks_memory (λ text. text.draft) result (draft_in bytes.now) }
    ensures known { IfOk result (λ text. text.known ≡ known_in bytes.now) }
{
    draft_text(alloc, clr_office_reading::read_office(alloc, bytes)?)
}
