//! Lines that are split by one or two members, each behind a savepoint of its own, on the opened office.

ghost use Rattle.std.specs.Prelude.{◌≡◌, Some, map, IfOk};
ghost use Rattle.clr_merge_clashes.specs.Laws.{merge_set_of_part};
ghost use Rattle.clr_merge_sets.specs.MergeSetNames.{merge_set};
ghost use Rattle.clr_work_orders.specs.declared.actions.Action.TheVariants as action;
ghost use Rattle.clr_work_orders.specs.Making.{IsActionTried, IsOtherTried, IsSplitJudged, IsSplitTried};

use crate::answers::{Answer, answer_at};
use crate::trials::{go_back, make_edits, set_savepoint, try_edits};
use clr_engine::Office;
use clr_tips::{Piece, Split};
use std::alloc::{AllocError, Global};

/// Tries what another member does where lines are split. The office is as before, unless memory runs out.
fn try_piece(
    alloc: Global,
    office: &mut Office,
    root: &str,
    names: &[&str],
    order: &[usize],
    piece: &Piece,
) -> Result<Option<Answer>, AllocError>
    ensures told { IfOk result (IsOtherTried office.old (merge_set root.now (map (λ name. name.now) names.now))
        (merge_set_of_part (merge_set root.now (map (λ name. name.now) names.now)) order.now) (Some piece.now)) }
    ensures back { IfOk result (λ told. office.new ≡ office.old) }
{
    match names.get(piece.member) {
        Some(ws) => try_edits(alloc, office, root, names, order, ws, &piece.edits),
        None => Ok(None),
    }
}

/// Tries what another member does where lines are split, if there is another: what is told then of the members in an order. The office is as before,
/// unless memory runs out.
fn try_other(
    alloc: Global,
    office: &mut Office,
    root: &str,
    names: &[&str],
    order: &[usize],
    other: &Option<Piece>,
) -> Result<Option<Answer>, AllocError>
    ensures told { IfOk result (IsOtherTried office.old (merge_set root.now (map (λ name. name.now) names.now))
        (merge_set_of_part (merge_set root.now (map (λ name. name.now) names.now)) order.now) other.now) }
    ensures back { IfOk result (λ told. office.new ≡ office.old) }
{
    match other {
        Some(piece) => try_piece(alloc, office, root, names, order, piece),
        None => {
            let answer = answer_at(alloc, office, root, names, order)?;
            Ok(Some(answer))
        }
    }
}

/// Splits lines in a workspace, and then tries the other member; or answers none where the edits can't be made.
fn judge_split(
    alloc: Global,
    office: &mut Office,
    root: &str,
    names: &[&str],
    order: &[usize],
    ws: &str,
    split: &Split,
) -> Result<Option<Answer>, AllocError>
    ensures { IfOk result (λ told. IsSplitJudged office.old (merge_set root.now (map (λ name. name.now) names.now))
        (merge_set_of_part (merge_set root.now (map (λ name. name.now) names.now)) order.now) ws.now split.now told office.new) }
{
    if !make_edits(alloc, office, ws, &split.first.edits)? {
        return Ok(None);
    }
    let told = try_other(alloc, office, root, names, order, &split.other)?;
    Ok(told)
}

/// Tries to split lines in a workspace behind a savepoint: what is told then of the members in an order, or none where it can't be tried. The office is as
/// before, unless memory runs out.
fn try_split_in(
    alloc: Global,
    office: &mut Office,
    root: &str,
    names: &[&str],
    order: &[usize],
    ws: &str,
    split: &Split,
) -> Result<Option<Answer>, AllocError>
    ensures told { IfOk result (IsSplitTried office.old (merge_set root.now (map (λ name. name.now) names.now))
        (merge_set_of_part (merge_set root.now (map (λ name. name.now) names.now)) order.now) ws.now split.now) }
    ensures back { IfOk result (λ told. office.new ≡ office.old) }
{
    let _sound = office.len();
    if !set_savepoint(alloc, office, ws)? {
        return Ok(None);
    }
    let told = judge_split(alloc, office, root, names, order, ws, split)?;
    go_back(alloc, office, ws)?;
    Ok(told)
}

/// Tries to split lines: what is told then of the members in an order, or none where it can't be tried. The office is as before, unless memory runs out.
pub(crate) fn try_split(
    alloc: Global,
    office: &mut Office,
    root: &str,
    names: &[&str],
    order: &[usize],
    split: &Split,
) -> Result<Option<Answer>, AllocError>
    ensures told { IfOk result (IsActionTried office.old (merge_set root.now (map (λ name. name.now) names.now)) order.now (action.Split split.now)) }
    ensures back { IfOk result (λ told. office.new ≡ office.old) }
{
    match names.get(split.first.member) {
        Some(ws) => try_split_in(alloc, office, root, names, order, ws, split),
        None => Ok(None),
    }
}
