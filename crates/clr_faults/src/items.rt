//! An item of a list by its place.

ghost use Rattle.std.specs.Prelude.{◌≡◌, Ok, IfOk, IsErr, MatchOption};
ghost use Rattle.serde_json.specs.View.{view};
ghost use Rattle.clr_faults.specs.Stages.{list_item_of};

use crate::memory::unless_lost;
use clr_office_reading::fields::optional_list;
use serde_json::Value as Json;
use std::alloc::AllocError;

/// Returns an item of the list at a key, counted from 0, or none where there is no such list or item.
#[tactic(auto, unfolding(crate::specs::Stages::list_item_of))]
pub fn item_in<'a>(json: &'a Json, key: &str, at: usize) -> Result<Option<&'a Json>, AllocError>
    ensures { IfOk result (λ found. MatchOption found (IsErr (list_item_of key.now at (view json.now)))
        (λ v. list_item_of key.now at (view json.now) ≡ Ok (view v.now))) }
{
    match optional_list(json, key) {
        Ok(items) => Ok(items.get(at)),
        Err(fault) => {
            unless_lost(fault, ())?;
            Ok(None)
        }
    }
}
