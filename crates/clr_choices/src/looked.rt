//! Names that are looked at together, with all needs that they break. By these it is known of some of them which need they break first, without a plan.
ghost use Rattle.std.specs.Prelude.{map, IfOk, IfSome};
ghost use Rattle.clr_merge_sets.specs.MergeSetNames.{merge_set};
ghost use Rattle.std.specs.List.Sorted.{IsStrictlySortedBy};
ghost use Rattle.clr_clashes.specs.ListedClashes.{listed_clash_of, listed_cmp};
ghost use Rattle.clr_choices.specs.Looked.{AreLookedAt, IsBlockedAt, IsLookedAt};
ghost use Rattle.clr_choices.specs.Trials.{IsRefusal};

use crate::held::{first_held, places_of, positions_of};
use clr_clashes::{Clash, broken_needs, parts_break_listed_needs};
use clr_clearance::Verdict;
use clr_engine::Office;
use clr_merge_sets::{read_changes, read_merge_set, texts_of_names};
use clr_plan::Plan;
use clr_rows::Words;
use std::alloc::{AllocError, Global};

/// Names that can be looked at together, and all needs that they break, each with the positions of those that break it.
#[derive(Drop)]
pub(crate) struct Looked {
    pub(crate) names: Vec<Words>,
    pub(crate) broken: Vec<Clash>,
}

/// Returns all needs that names break, where no test of these members fails and no cell is changed by two.
fn needs_broken_by(
    alloc: Global,
    office: &Office,
    root: &str,
    names: &[Words],
) -> Result<Option<Vec<Clash>>, AllocError>
    ensures { IfOk result (λ found. IfSome found (λ broken. AreLookedAt office.now root.now names.now (map listed_clash_of broken.items))) }
{
    let texts = texts_of_names(alloc, names)?;
    let members = texts.as_slice();
    let changes = read_changes(alloc, office, &members)?;
    let Ok(parts) = read_merge_set(alloc, office, root, &members, changes.as_slice()) else {
        return Ok(None);
    };
    let Ok(scene) = parts.scene(alloc, office) else {
        return Ok(None);
    };
    let broken = broken_needs(alloc, &scene)?;
    Ok(Some(broken))
}

/// Looks at names together, where no test of these members fails and no cell is changed by two.
pub(crate) fn look_at(
    alloc: Global,
    office: &Office,
    root: &str,
    names: Vec<Words>,
) -> Result<Option<Looked>, AllocError>
    ensures { IfOk result (λ found. IfSome found (IsLookedAt office.now root.now)) }
{
    match needs_broken_by(alloc, office, root, names.as_slice())? {
        None => Ok(None),
        Some(broken) => Ok(Some(Looked { names, broken })),
    }
}

/// Returns the plan of the members at some positions, where they break one of some needs.
fn blocked_at(
    alloc: Global,
    broken: &[Clash],
    positions: &[usize],
) -> Result<Option<Plan>, AllocError>
    requires { IsStrictlySortedBy listed_cmp (map listed_clash_of broken.now) }
    ensures { IfOk result (λ blocked. IfSome blocked (IsBlockedAt (map listed_clash_of broken.now) positions.now)) }
{
    let Some(clash) = first_held(broken, positions) else {
        return Ok(None);
    };
    let breakers = clash.members.as_slice();
    let order = places_of(alloc, positions, breakers)?;
    let cause = Verdict::Uncovered(clash.need);
    Ok(Some(Plan::Blocked { order, cause }))
}

/// Returns the plan of members that stand in their order among names which were looked at, where they break a need. Else it returns none.
pub(crate) fn known_plan(
    alloc: Global,
    office: &Office,
    root: &str,
    looked: &Looked,
    members: &[&str],
) -> Result<Option<Plan>, AllocError>
    requires { IsLookedAt office.now root.now looked.now }
    ensures { IfOk result (λ known. IfSome known (IsRefusal office.now (merge_set root.now (map (λ name. name.now) members.now)))) }
{
    parts_break_listed_needs();
    let _office = office;
    let _root = root;
    let names = looked.names.as_slice();
    let broken = looked.broken.as_slice();
    let Some(positions) = positions_of(alloc, names, members)? else {
        return Ok(None);
    };
    let found = positions.as_slice();
    let blocked = blocked_at(alloc, broken, found)?;
    Ok(blocked)
}
