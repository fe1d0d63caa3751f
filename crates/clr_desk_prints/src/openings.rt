//! Answers over the office of a text: what a call prints of it, and hints at names behind its notes.
ghost use Rattle.std.specs.Prelude.{◌∷◌, IfOk};
ghost use Rattle.clr_office.specs.Drafts.{opened_in};
ghost use Rattle.clr_desk_prints.specs.Calls.{PrintsAsked, PrintsOf, PrintsOffice};
ghost use Rattle.clr_desk_prints.specs.Members.{members_or_children};
ghost use Rattle.clr_desk_prints.specs.NameHints.{IsHinted};
ghost use Rattle.clr_desk_prints.specs.Printing.{IsMadePrintout, IsPrintoutIn, printed};

use crate::prints::{Print, notes_of};
use crate::unknown_names::has_unknown;
use clr_asked_members::members_asked;
use clr_office::{Office, RunFault, Words, hint_lines, open_office, texts_of_names};
use std::alloc::{AllocError, Global};

/// Returns what a call prints of an office, and behind its notes hints at those of a root and names that no workspace has. If there is such a
/// name, a refusal has a status of its own.
fn hinted_print<F: FnOnce(&mut Office) -> Result<Print, AllocError>>(
    alloc: Global,
    office: &mut Office,
    root: &str,
    names: &[Words],
    print: F,
) -> Result<Print, AllocError>
    requires { F.IsAlwaysCallable print }
    ensures { IfOk result (λ p. IsHinted (PrintsOffice (F.post print)) (root.now ∷ names.now) office.old (printed p)) }
{
    let is_unknown = has_unknown(office, root, names);
    let lines = hint_lines(alloc, office, root, names)?;
    let bare = print(office)?;
    let told = bare.refused_for(is_unknown);
    told.with_notes(lines.as_slice())
}

/// Returns what a call prints of the office of a text, and behind its notes hints at those of a root and names that no workspace has,
/// as the office was before the call. Where a rule doesn't hold, the line that says so is the only note, and there is no text. Fails with
/// `BadOffice` if the text is no office, and with `OutOfMemory` for want of memory, that of the call too.
pub fn answer_over_office<F: FnOnce(&mut Office) -> Result<Print, AllocError>>(
    alloc: Global,
    office: &[u8],
    root: &str,
    names: &[Words],
    print: F,
) -> Result<Print, RunFault>
    requires { F.IsAlwaysCallable print }
    ensures { IsMadePrintout (IsPrintoutIn (IsHinted (PrintsOffice (F.post print)) (root.now ∷ names.now)) (opened_in office.now)) result }
{
    match open_office(alloc, office) {
        Ok(mut office) => Ok(hinted_print(alloc, &mut office, root, names, print)?),
        Err(answer) => notes_of(alloc, answer),
    }
}

/// Returns what a call prints of an office and of the members that names ask for.
fn print_of_members<F: FnOnce(&mut Office, &[&str]) -> Result<Print, AllocError>>(
    alloc: Global,
    office: &mut Office,
    root: &str,
    names: &[Words],
    print: F,
) -> Result<Print, AllocError>
    requires { F.IsAlwaysCallable print }
    ensures { IfOk result (λ p. PrintsOf (F.post print) (members_or_children office.old root.now names.now) office.old (printed p)) }
{
    let asked = members_asked(alloc, office, root, names)?;
    let members = texts_of_names(alloc, asked.as_slice())?;
    print(office, members.as_slice())
}

/// Returns what a call prints of the office of a text and of the members that names ask for, which are all children of the root
/// where no name is given. All else is as for `answer_over_office`.
pub fn answer_over_members<F: FnOnce(&mut Office, &[&str]) -> Result<Print, AllocError>>(
    alloc: Global,
    office: &[u8],
    root: &str,
    names: &[Words],
    print: F,
) -> Result<Print, RunFault>
    requires { F.IsAlwaysCallable print }
    ensures { IsMadePrintout (IsPrintoutIn (IsHinted (PrintsAsked (F.post print) root.now names.now) (root.now ∷ names.now)) (opened_in office.now)) result }
{
    answer_over_office(alloc, office, root, names, |office| {
        print_of_members(alloc, office, root, names, print)
    })
}
