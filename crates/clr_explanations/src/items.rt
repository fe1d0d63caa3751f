//! The items of an office text that a fault stands at.
ghost use Rattle.std.specs.Prelude.{◌≡◌, Ok, IfOk, IsErr, MatchOption};
ghost use Rattle.serde_json.specs.View.{view};
ghost use Rattle.clr_explanations.specs.Items.{item_at_spot, item_beside, item_in_workspace, place_in_list, saved_item};

use clr_faults::{FaultyItem, item_in};
use serde_json::Value as Json;
use std::alloc::AllocError;

/// Returns an item of a list of a workspace, or none.
fn item_in_workspace<'a>(
    json: &'a Json,
    at: usize,
    key: &str,
    item: usize,
) -> Result<Option<&'a Json>, AllocError>
    ensures { let meant = item_in_workspace at key.now item (view json.now) in
        IfOk result (λ found. MatchOption found (IsErr meant) (λ v. meant ≡ Ok (view v.now))) }
{
    match item_in(json, "workspaces", at)? {
        Some(one) => item_in(one, key, item),
        None => Ok(None),
    }
}

/// Returns a cell of a savepoint, or none.
fn saved_item<'a>(
    json: &'a Json,
    at: usize,
    mark: usize,
    cell: usize,
) -> Result<Option<&'a Json>, AllocError>
    ensures { let meant = saved_item at mark cell (view json.now) in IfOk result (λ found. MatchOption found (IsErr meant) (λ v. meant ≡ Ok (view v.now))) }
{
    match item_in_workspace(json, at, "marks", mark)? {
        Some(one) => item_in(one, "rows", cell),
        None => Ok(None),
    }
}

/// Returns the item at which a fault stands, or none where there is no such item.
pub fn item_at(json: &Json, spot: FaultyItem) -> Result<Option<&Json>, AllocError>
    ensures { let meant = item_at_spot spot (view json.now) in IfOk result (λ found. MatchOption found (IsErr meant) (λ v. meant ≡ Ok (view v.now))) }
{
    match spot {
        FaultyItem::Whole => Ok(Some(json)),
        FaultyItem::Table(at) => item_in(json, "tables", at),
        FaultyItem::Rule(at) => item_in(json, "rules", at),
        FaultyItem::Live(at) => item_in(json, "live", at),
        FaultyItem::Workspace(at) => item_in(json, "workspaces", at),
        FaultyItem::Base(at, cell) => item_in_workspace(json, at, "base", cell),
        FaultyItem::Row(at, cell) => item_in_workspace(json, at, "rows", cell),
        FaultyItem::Mark(at, mark) => item_in_workspace(json, at, "marks", mark),
        FaultyItem::Saved(at, mark, cell) => saved_item(json, at, mark, cell),
    }
}

/// Returns the place of an item in its list. The whole text is in none.
pub fn place_in_list(spot: FaultyItem) -> usize
    ensures { result ≡ place_in_list spot }
{
    match spot {
        FaultyItem::Whole => 0,
        FaultyItem::Table(at)
        | FaultyItem::Rule(at)
        | FaultyItem::Live(at)
        | FaultyItem::Workspace(at)
        | FaultyItem::Base(_, at)
        | FaultyItem::Row(_, at)
        | FaultyItem::Mark(_, at)
        | FaultyItem::Saved(_, _, at) => at,
    }
}

/// Returns the item at a place of the list that an item is in.
pub fn item_beside(spot: FaultyItem, place: usize) -> FaultyItem
    ensures { result ≡ item_beside spot place }
{
    match spot {
        FaultyItem::Whole => FaultyItem::Whole,
        FaultyItem::Table(_) => FaultyItem::Table(place),
        FaultyItem::Rule(_) => FaultyItem::Rule(place),
        FaultyItem::Live(_) => FaultyItem::Live(place),
        FaultyItem::Workspace(_) => FaultyItem::Workspace(place),
        FaultyItem::Base(at, _) => FaultyItem::Base(at, place),
        FaultyItem::Row(at, _) => FaultyItem::Row(at, place),
        FaultyItem::Mark(at, _) => FaultyItem::Mark(at, place),
        FaultyItem::Saved(at, mark, _) => FaultyItem::Saved(at, mark, place),
    }
}
