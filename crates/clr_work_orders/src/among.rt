//! Among whom trials are made: the designs of the cause.

ghost use Rattle.std.specs.Prelude.{◌≡◌, ◌∷◌, length, map, slice_get, string_bytes, IfOk};
ghost use Rattle.std.specs.List.{filter_map};
ghost use Rattle.clr_work_orders.specs.Among.{among_front, among_text, blocked_order, positions_without};

use clr_merge_sets::names_at;
use clr_phrases::add_names;
use clr_plan::Plan;
use std::alloc::{AllocError, Global};

/// Returns the order of a plan that is blocked, and nothing of any other plan.
pub(crate) fn order_of(plan: &Plan) -> &[usize]
    ensures { result.now ≡ blocked_order plan.now }
{
    match plan {
        Plan::Blocked { order, .. } => order.as_slice(),
        _ => &[],
    }
}

/// Returns positions but this one.
pub(crate) fn positions_without(
    alloc: Global,
    positions: &[usize],
    left_out: usize,
) -> Result<Vec<usize>, AllocError>
    ensures { IfOk result (λ rest. rest.items ≡ positions_without positions.now left_out) }
{
    let mut rest = Vec::from_slice(alloc, positions)?;
    rest.retain(|at| *at != left_out);
    Ok(rest)
}

/// Returns a position, and those that follow it.
pub(crate) fn positions_behind(
    alloc: Global,
    first: usize,
    others: &[usize],
) -> Result<Vec<usize>, AllocError>
    ensures { IfOk result (λ all. all.items ≡ first ∷ others.now) }
{
    let mut all = Vec::new(alloc);
    all.push(first)?;
    all.extend_from_slice(others)?;
    Ok(all)
}

/// Returns the words before the names of designs.
fn among_front(names: &[&str]) -> &'static str
    ensures { result.now ≡ among_front (length (map (λ name. name.now) names.now)) }
{
    if names.len() == 1 {
        "Tried with "
    } else {
        "Tried among "
    }
}

/// Returns among which designs trials are made, on a line.
fn words_among(alloc: Global, names: &[&str]) -> Result<String, AllocError>
    ensures { IfOk result (λ text. string_bytes text ≡ among_text (map (λ name. name.now) names.now)) }
{
    let mut text = String::new(alloc);
    text.push_str(among_front(names))?;
    add_names(&mut text, names)?;
    text.push_str(", each by itself:\n")?;
    Ok(text)
}

/// Returns among which designs the trials of a blocked plan are made, on a line: those at the positions of its order, as `Tried among East and West,
/// each by itself:`.
pub fn among_words(alloc: Global, names: &[&str], order: &[usize]) -> Result<String, AllocError>
    ensures { IfOk result (λ text. string_bytes text ≡ among_text (filter_map (slice_get (map (λ name. name.now) names.now)) order.now)) }
{
    let part = names_at(alloc, names, order)?;
    words_among(alloc, part.as_slice())
}
