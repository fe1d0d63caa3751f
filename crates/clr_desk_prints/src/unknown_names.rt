//! Whether a name is asked for that no workspace has.
ghost use Rattle.std.specs.Prelude.{◌≡◌, ◌∷◌};
ghost use Rattle.clr_desk_prints.specs.NameHints.{has_unknown, is_unknown};

use clr_office::{Office, Words};
use clr_rows::LIVE;

/// Returns whether no workspace has this name.
fn is_unknown(office: &Office, name: &str) -> bool
    ensures { result ≡ is_unknown office.now name.now }
{
    name != LIVE && office.parent_of(name).is_none()
}

/// Returns whether no workspace has one of these names.
fn has_unknown_among(office: &Office, names: &[Words]) -> bool
    ensures { result ≡ has_unknown office.now names.now }
{
    names.iter().any(|name| is_unknown(office, name.as_str()))
}

/// Returns whether no workspace has one of these names: the root, and the others.
pub fn has_unknown(office: &Office, root: &str, names: &[Words]) -> bool
    ensures { result ≡ has_unknown office.now (root.now ∷ names.now) }
{
    is_unknown(office, root) || has_unknown_among(office, names)
}
