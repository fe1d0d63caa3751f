//! Names that can't be looked at, in words.

ghost use Rattle.std.specs.Prelude.{◌≡◌, ◌++◌, OnOk, string_bytes};
ghost use Rattle.clr_plan_answers.specs.Answers.{name_fault_text, unfit_text};
ghost use Rattle.clr_merge_sets.specs.MemberChanges.{set_of};

use clr_clearance::Verdict;
use clr_member_changes::MemberChanges;
use std::alloc::AllocError;

/// Adds what is wrong with a name.
fn add_name_fault(
    text: &mut String,
    members: &MemberChanges<'_>,
    verdict: &Verdict,
) -> Result<(), AllocError>
    ensures { OnOk result (string_bytes text.new ≡ string_bytes text.old ++ name_fault_text (set_of members.now) verdict.now) }
{
    match verdict {
        Verdict::NotKept => {
            text.push_str(members.root)?;
            text.push_str(" isn't a workspace in which every rule is kept.\n")
        }
        Verdict::RepeatedMember(at) => {
            text.push_str(members.name(*at))?;
            text.push_str(" stands twice among the designs.\n")
        }
        Verdict::NoWorkspace(at) => {
            text.push_str("No workspace is named ")?;
            text.push_str(members.name(*at))?;
            text.push_str(".\n")?;
            Ok(())
        }
        Verdict::NotUnderRoot(at) => {
            text.push_str(members.name(*at))?;
            text.push_str(" wasn't made from ")?;
            text.push_str(members.root)?;
            text.push_str(".\n")?;
            Ok(())
        }
        _ => Ok(()),
    }
}

/// Adds which name has to be mended before a plan can be made, and why. Of a verdict that isn't on a name
/// nothing more is told.
pub(crate) fn add_unfit(
    text: &mut String,
    members: &MemberChanges<'_>,
    verdict: &Verdict,
) -> Result<(), AllocError>
    ensures { OnOk result (string_bytes text.new ≡ string_bytes text.old ++ unfit_text (set_of members.now) verdict.now) }
{
    text.push_str("A name has to be mended first.\n")?;
    add_name_fault(text, members, verdict)
}
