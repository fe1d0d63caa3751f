//! The cells that the cause of a plan names.

ghost use Rattle.std.specs.Prelude.{◌≡◌, ◌∷◌, IfOk};
ghost use Rattle.clr_plan_features.specs.PlanFeatures.{cause_cells, cells_of_verdict, second_cell};

use clr_clearance::Verdict;
use clr_merge_sets::Plan;
use clr_needs::Need;
use clr_rows::CellId;
use std::alloc::{AllocError, Global};

/// Returns the cells of the rows that need something.
fn cells_of_need(alloc: Global, need: &Need) -> Result<Vec<CellId>, AllocError>
    ensures { IfOk result (λ cells. cells.items ≡ need.now.first.cell ∷ second_cell need.now.second) }
{
    let mut cells = Vec::new(alloc);
    cells.push(need.first.cell)?;
    if let Some(second) = need.second {
        cells.push(second.cell)?;
    }
    Ok(cells)
}

/// Returns the cells that a verdict names.
fn named_cells(alloc: Global, verdict: &Verdict) -> Result<Vec<CellId>, AllocError>
    ensures { IfOk result (λ cells. cells.items ≡ cells_of_verdict verdict.now) }
{
    match verdict {
        Verdict::Uncovered(need) => cells_of_need(alloc, need),
        Verdict::Conflict { cell, .. } | Verdict::SharedCell { cell, .. } => {
            Ok(Vec::from_slice(alloc, &[*cell])?)
        }
        _ => Ok(Vec::new(alloc)),
    }
}

/// Returns the cells that the cause of a plan names: none where the plan isn't blocked.
pub(crate) fn cause_cells(alloc: Global, plan: &Plan) -> Result<Vec<CellId>, AllocError>
    ensures { IfOk result (λ cells. cells.items ≡ cause_cells plan.now) }
{
    match plan {
        Plan::Blocked { cause, .. } => named_cells(alloc, cause),
        _ => Ok(Vec::new(alloc)),
    }
}
