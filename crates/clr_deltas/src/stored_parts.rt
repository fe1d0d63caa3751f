//! Workspaces as they are stored, outside a map.

use crate::workspace_maps::Delta;
use clr_rows::Words;

/// A workspace other than LIVE by its differences, outside a map: its name, and what is stored
/// under it.
#[derive(Drop)]
pub struct StoredPart {
    pub name: Words,
    pub delta: Delta,
}
