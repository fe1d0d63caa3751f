//! The limits of workspaces, of their levels and of their savepoints.

ghost use Rattle.std.specs.Prelude.{◌≡◌};

/// The most workspaces, LIVE included.
pub const MOST_WORKSPACES: usize = 256;

/// The most workspaces that may be above one.
pub const MOST_LEVELS: usize = 8;

/// The most savepoints of a workspace.
pub const MOST_SAVEPOINTS: usize = 64;

/// The limits of workspaces are these.
pub fn limits_of_workspaces()
    ensures workspaces { MOST_WORKSPACES ≡ 256 }
    ensures levels { MOST_LEVELS ≡ 8 }
    ensures savepoints { MOST_SAVEPOINTS ≡ 64 }
{}
