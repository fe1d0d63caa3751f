//! One more name beside those that are taken.
ghost use Rattle.std.specs.Prelude.{◌≡◌, ◌∷◌, [], ◌++◌, map, take, IfOk, IfSome};
ghost use Rattle.clr_merge_sets.specs.MergeSetNames.{merge_set};
ghost use Rattle.clr_choices.specs.ChoiceLines.{refusal_text};
ghost use Rattle.clr_choices.specs.Clearable.{IsPlanOf};
ghost use Rattle.clr_choices.specs.Looked.{IsLookedAt};
ghost use Rattle.clr_choices.specs.Progress.{IsTried};

use crate::looked::{Looked, known_plan};
use clr_cert::Certificate;
use clr_engine::Office;
use clr_merge_sets::texts_of_names;
use clr_plan::{Plan, plan, plan_lines};
use clr_rows::{Schema, Words};
use std::alloc::{AllocError, Global};

/// What is said of one more name that is tried with those taken.
#[derive(Drop)]
pub enum TriedName {
    /// It is taken, by this certificate of them all.
    Taken(Certificate),
    /// It is left, and these lines say why.
    Left(Vec<u8>),
}

/// Returns the first of some names, and one more.
fn members_with<'a>(
    alloc: Global,
    cleared: &'a [Words],
    count: usize,
    name: &'a Words,
) -> Result<Vec<&'a str>, AllocError>
    ensures { IfOk result (λ texts. map (λ text. text.now) texts.items ≡ take count cleared.entry.now ++ name.entry.now ∷ []) }
{
    let mut members = texts_of_names(alloc, cleared)?;
    members.truncate(count);
    members.push(name.as_str())?;
    Ok(members)
}

/// Returns the plan of members of a root, with what it promises.
pub fn plan_members(alloc: Global, office: &Office, root: &str, members: &[&str]) -> Plan
    ensures { IsPlanOf office.now (merge_set root.now (map (λ name. name.now) members.now)) result }
{
    plan(alloc, office, root, members)
}

/// Returns the line that a name is left, and the lines of the plan that says why. It fails only for want of memory.
///
/// For example, `left W2`, and then `blocked 1 W2` and the line of the cause.
pub fn refusal_lines(
    alloc: Global,
    schema: &Schema,
    root: &str,
    members: &[&str],
    name: &str,
    plan: &Plan,
) -> Result<Vec<u8>, AllocError>
    ensures { IfOk result (λ lines. lines.items ≡ refusal_text schema.now root.now (map (λ name. name.now) members.now) name.now plan.now) }
{
    let mut lines = Vec::from_slice(alloc, b"left ")?;
    lines.extend_from_slice(name.as_bytes())?;
    lines.extend_from_slice(b"\n")?;
    let told = plan_lines(alloc, schema, members, root, plan)?;
    lines.extend_from_slice(told.as_slice())?;
    Ok(lines)
}

/// Returns the plan of members: what is known of it by names that were looked at, or else what is planned.
fn plan_of(
    alloc: Global,
    office: &Office,
    root: &str,
    looked: &Option<Looked>,
    members: &[&str],
) -> Result<Plan, AllocError>
    requires { IfSome looked.now (IsLookedAt office.now root.now) }
    ensures { IfOk result (IsPlanOf office.now (merge_set root.now (map (λ name. name.now) members.now))) }
{
    if let Some(names) = looked {
        if let Some(plan) = known_plan(alloc, office, root, names, members)? {
            return Ok(plan);
        }
    }
    Ok(plan_members(alloc, office, root, members))
}

/// Tries members, of which the last is a name that is tried. Where the plan has no memory, this call fails too.
fn try_members(
    alloc: Global,
    office: &Office,
    root: &str,
    looked: &Option<Looked>,
    members: &[&str],
    name: &str,
) -> Result<TriedName, AllocError>
    requires { IfSome looked.now (IsLookedAt office.now root.now) }
    ensures { IfOk result (IsTried office.now root.now (map (λ name. name.now) members.now) name.now) }
{
    match plan_of(alloc, office, root, looked, members)? {
        Plan::Cleared(certificate) => Ok(TriedName::Taken(certificate)),
        Plan::OutOfMemory => Err(AllocError),
        plan => {
            let lines = refusal_lines(alloc, office.schema(), root, members, name, &plan)?;
            Ok(TriedName::Left(lines))
        }
    }
}

/// Tries one more name with the first of some names. What is known by names that were looked at isn't planned.
pub(crate) fn try_name(
    alloc: Global,
    office: &Office,
    root: &str,
    looked: &Option<Looked>,
    cleared: &[Words],
    count: usize,
    name: &Words,
) -> Result<TriedName, AllocError>
    requires { IfSome looked.now (IsLookedAt office.now root.now) }
    ensures { IfOk result (IsTried office.now root.now (take count cleared.now ++ name.now ∷ []) name.now) }
{
    let members = members_with(alloc, cleared, count, name)?;
    try_members(
        alloc,
        office,
        root,
        looked,
        members.as_slice(),
        name.as_str(),
    )
}
