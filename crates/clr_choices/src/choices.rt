//! Names that are gone through in their order.
ghost use Rattle.std.specs.Prelude.{◌≡◌, List, [], false, IfOk, IfSome};
ghost use Rattle.clr_workspaces.specs.Marks.{Name};
ghost use Rattle.clr_merge_sets.specs.MergeSetNames.{merge_set};
ghost use Rattle.clr_merge_sets.specs.declared.plans.Plan.TheVariants as plan;
ghost use Rattle.clr_choices.specs.Clearable.{IsPlanOf};
ghost use Rattle.clr_choices.specs.Looked.{IsLookedAt};
ghost use Rattle.clr_choices.specs.Progress.{IsChosen, IsProgress};

use crate::guesses::{apart, apart_again, fitting, guess};
use crate::looked::{Looked, look_at};
use crate::progress::{Progress, go_on};
use crate::trials::plan_members;
use clr_cert::Certificate;
use clr_engine::Office;
use clr_merge_sets::texts_of_names;
use clr_plan::Plan;
use clr_rows::Words;
use std::alloc::{AllocError, Global};

/// Of some names those that are taken, the certificate of them, the lines of the others, and whether there
/// are any.
#[derive(Drop)]
pub struct Choice {
    pub taken: Vec<Words>,
    pub certificate: Certificate,
    pub left: Vec<u8>,
    pub is_any_left: bool,
}

/// Returns that none of the names that are cleared together by a certificate is taken yet.
fn none_taken(alloc: Global, cleared: Vec<Words>, certificate: Certificate) -> Progress
    ensures cleared { result.cleared.items ≡ cleared.items }
    ensures count { result.count ≡ 0 }
    ensures certificate { result.certificate ≡ certificate }
    ensures left { result.left.items ≡ [] }
    ensures is_any_left { result.is_any_left ≡ false }
{
    Progress {
        cleared,
        count: 0,
        certificate,
        left: Vec::new(alloc),
        is_any_left: false,
    }
}

/// Returns copies of names.
fn copies(alloc: Global, names: &[Words]) -> Result<Vec<Words>, AllocError>
    ensures { IfOk result (λ list. list.items ≡ names.now) }
{
    let mut list = Vec::with_capacity(alloc, names.len())?;
    for text in names {
        list.push(text.copy()?)?;
    }
    Ok(list)
}

/// Returns the plan of names.
fn plan_names(
    alloc: Global,
    office: &Office,
    root: &str,
    names: &[Words],
) -> Result<Plan, AllocError>
    ensures { IfOk result (IsPlanOf office.now (merge_set root.now names.now)) }
{
    let members = texts_of_names(alloc, names)?;
    Ok(plan_members(alloc, office, root, members.as_slice()))
}

/// Begins with names that are perhaps cleared together, where a plan clears them.
fn begin_with(
    alloc: Global,
    office: &Office,
    root: &str,
    names: &[Words],
) -> Result<Option<Progress>, AllocError>
    ensures { IfOk result (λ progress. IfSome progress (IsProgress office.now root.now [])) }
{
    match plan_names(alloc, office, root, names)? {
        Plan::Cleared(certificate) => {
            let cleared = copies(alloc, names)?;
            Ok(Some(none_taken(alloc, cleared, certificate)))
        }
        _ => Ok(None),
    }
}

/// How a choice begins: names that are cleared together, and names that were looked at together, if any were.
#[derive(Drop)]
struct Beginning {
    progress: Progress,
    looked: Option<Looked>,
}

/// Looks at names once more where others are guessed to be taken of those that were looked at: at these, and beside them at as many as can be
/// of the names that weren't. It answers what was looked at before where there are none of these.
fn look_again(
    alloc: Global,
    office: &Office,
    root: &str,
    names: &[Words],
    looked: Looked,
) -> Result<Option<Looked>, AllocError>
    requires { IsLookedAt office.now root.now looked }
    ensures { IfOk result (λ found. IfSome found (IsLookedAt office.now root.now)) }
{
    if looked.names.len() >= names.len() {
        return Ok(Some(looked));
    }
    let guessed = guess(alloc, &looked)?;
    let again = apart_again(
        alloc,
        office,
        root,
        names,
        looked.names.as_slice(),
        guessed.as_slice(),
    )?;
    look_at(alloc, office, root, again)
}

/// Looks together at as many of some names as can be.
fn look(
    alloc: Global,
    office: &Office,
    root: &str,
    names: &[Words],
) -> Result<Option<Looked>, AllocError>
    ensures { IfOk result (λ found. IfSome found (IsLookedAt office.now root.now)) }
{
    let first = apart(alloc, office, root, names)?;
    match look_at(alloc, office, root, first)? {
        Some(looked) => look_again(alloc, office, root, names, looked),
        None => Ok(None),
    }
}

/// Begins with names that are guessed to be taken of those that were looked at, where a plan clears them; and else with nobody, who is cleared by
/// this certificate.
fn begin_with_guessed(
    alloc: Global,
    office: &Office,
    root: &str,
    looked: &Looked,
    nobody: Certificate,
) -> Result<Progress, AllocError>
    requires { IsPlanOf office.now (merge_set root.now []) (plan.Cleared nobody) }
    ensures { IfOk result (IsProgress office.now root.now []) }
{
    let guessed = guess(alloc, looked)?;
    match begin_with(alloc, office, root, guessed.as_slice())? {
        Some(progress) => Ok(progress),
        None => Ok(none_taken(alloc, Vec::new(alloc), nobody)),
    }
}

/// Begins with all names that fit, where a plan clears them; else it looks at them, and begins with those that are guessed to be taken, where a
/// plan clears these; and else with nobody, who is cleared by this certificate.
fn begin(
    alloc: Global,
    office: &Office,
    root: &str,
    names: &[Words],
    nobody: Certificate,
) -> Result<Beginning, AllocError>
    requires { IsPlanOf office.now (merge_set root.now []) (plan.Cleared nobody) }
    ensures progress { IfOk result (λ beginning. IsProgress office.now root.now [] beginning.progress) }
    ensures looked { IfOk result (λ beginning. IfSome beginning.looked (IsLookedAt office.now root.now)) }
{
    let all = fitting(alloc, office, root, names)?;
    if let Some(progress) = begin_with(alloc, office, root, all.as_slice())? {
        return Ok(Beginning {
            progress,
            looked: None,
        });
    }
    match look(alloc, office, root, all.as_slice())? {
        Some(looked) => Ok(Beginning {
            progress: begin_with_guessed(alloc, office, root, &looked, nobody)?,
            looked: Some(looked),
        }),
        None => Ok(Beginning {
            progress: none_taken(alloc, Vec::new(alloc), nobody),
            looked: None,
        }),
    }
}

/// Returns the certificate of names that are taken. They are cleared together, so that it fails only for want of memory.
fn certificate_of(
    alloc: Global,
    office: &Office,
    root: &str,
    names: &[Words],
) -> Result<Certificate, AllocError>
    ensures { IfOk result (λ c. IsPlanOf office.now (merge_set root.now names.now) (plan.Cleared c)) }
{
    match plan_names(alloc, office, root, names)? {
        Plan::Cleared(certificate) => Ok(certificate),
        _ => Err(AllocError),
    }
}

/// Returns the choice of names that are all gone through.
fn end(alloc: Global, office: &Office, root: &str, progress: Progress) -> Result<Choice, AllocError>
    ensures { IfOk result (λ choice. (names : List Name) → IsProgress office.now root.now names progress → IsChosen office.now root.now names choice) }
{
    let Progress {
        cleared,
        count,
        certificate,
        left,
        is_any_left,
    } = progress;
    if cleared.len() <= count {
        return Ok(Choice {
            taken: cleared,
            certificate,
            left,
            is_any_left,
        });
    }
    let mut taken = cleared;
    taken.truncate(count);
    let certificate = certificate_of(alloc, office, root, taken.as_slice())?;
    Ok(Choice {
        taken,
        certificate,
        left,
        is_any_left,
    })
}

/// Goes through names in their order where nothing is tried yet, by what is known of names that were looked at.
fn go_through(
    alloc: Global,
    office: &Office,
    root: &str,
    names: &[Words],
    looked: &Option<Looked>,
    begun: Progress,
) -> Result<Progress, AllocError>
    requires looked { IfSome looked.now (IsLookedAt office.now root.now) }
    requires begun { IsProgress office.now root.now [] begun }
    ensures { IfOk result (IsProgress office.now root.now names.now) }
{
    let mut progress = begun;
    for name in names {
        go_on(alloc, office, root, looked, &mut progress, name)?;
    }
    Ok(progress)
}

/// Goes through names in their order, and takes each that is clearable with those taken before it; of each other the
/// lines say `left` and its name, and then why: the plan of those taken before it and of it. Nobody is to be cleared, by
/// this certificate. It fails only for want of memory.
pub fn choose(
    alloc: Global,
    office: &Office,
    root: &str,
    names: &[Words],
    nobody: Certificate,
) -> Result<Choice, AllocError>
    requires nobody { IsPlanOf office.now (merge_set root.now []) (plan.Cleared nobody) }
    ensures chosen { IfOk result (IsChosen office.now root.now names.now) }
{
    let beginning = begin(alloc, office, root, names, nobody)?;
    let Beginning { progress, looked } = beginning;
    let tried = go_through(alloc, office, root, names, &looked, progress)?;
    end(alloc, office, root, tried)
}
