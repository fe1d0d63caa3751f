//! What is stored of a workspace, seen under its name.

ghost use Rattle.std.specs.Prelude.{◌≡◌};
ghost use Rattle.clr_deltas.specs.NamedDeltas.{delta_under};

use crate::differences::Differences;
use crate::stored_marks::StoredMark;
use crate::workspace_maps::Delta;
use std::marker::Model;

/// What is stored of a workspace, seen under its name and not copied.
#[derive(Drop)]
pub struct DeltaView<'a> {
    name: &'a str,
    delta: &'a Delta,
}

impl<'a> Model for DeltaView<'a> {
    ghost use Rattle.clr_deltas.specs.NamedDeltas.{delta_under};
    ghost use Rattle.clr_deltas.specs.Deltas.{Delta as WholeDelta, coded_delta};

    ghost Value = { WholeDelta };

    ghost coded = { coded_delta };

    ghost view = { λ v. delta_under v.name.now v.delta.now };
}

impl<'a> DeltaView<'a> {
    /// Returns a delta, seen under a name.
    pub(crate) fn new(name: &'a str, delta: &'a Delta) -> DeltaView<'a>
        ensures { result ≡ delta_under name.now delta.now }
    {
        DeltaView { name, delta }
    }

    /// Returns the name of the workspace.
    pub fn name(&self) -> &'a str
        ensures { result.now ≡ self.now.name }
    {
        self.name
    }

    /// Returns the name of the workspace's parent.
    pub fn parent(&self) -> &'a str
        ensures { result.now ≡ self.now.parent }
    {
        self.delta.parent.as_str()
    }

    /// Returns the differences of the workspace's base from the content of its parent.
    pub fn base(&self) -> &'a Differences
        ensures { result.now ≡ self.now.base }
    {
        &self.delta.base
    }

    /// Returns the differences of the workspace's current content from its base.
    pub fn current(&self) -> &'a Differences
        ensures { result.now ≡ self.now.current }
    {
        &self.delta.current
    }

    /// Returns the workspace's marks in their order, savepoints by their differences from the base.
    pub fn marks(&self) -> &'a [StoredMark]
        ensures { result.now ≡ self.now.marks }
    {
        self.delta.marks.as_slice()
    }

    /// Returns whether every rule is to hold in the workspace.
    pub fn is_kept(&self) -> bool
        ensures { result ≡ self.now.kept }
    {
        self.delta.kept
    }
}
