//! Whether one version may serve another: under a crossing only if it lies on it.

ghost use Rattle.std.specs.Prelude.{◌≡◌, ◌<◌, ℕ, false, length, Some, IfSome};
ghost use Rattle.clr_rows.specs.Parts.{part_of};
ghost use Rattle.clr_rows.specs.Places.{InRange};
ghost use Rattle.clr_rules.specs.Fitting.{IsSoundShape, IsSoundSegment};
ghost use Rattle.clr_row_versions.specs.RootVersions.{setting_in};
ghost use Rattle.clr_row_versions.specs.Serving.{IsNeverServed, LiesOnNoPart, is_on_part};
ghost use Rattle.clr_row_versions.specs.Versions.{FitsSetting, IsAt, row_of};

use crate::root_versions::RootVersions;
use crate::versions::Version;
use clr_rows::{Place, RowView, Shape};
use clr_rules::{Rule, point_in};
use clr_segments::{lies_on, part, parts};

/// Returns whether a place is a point of a part, if there is one.
fn is_on_part(place: Place, part: Option<(Place, Place)>) -> bool
    requires place { InRange place }
    requires part { IfSome part IsSoundSegment }
    ensures { result ≡ is_on_part (Some place) part }
{
    match part {
        None => false,
        Some((first, second)) => lies_on(place, first, second),
    }
}

/// Returns whether a place is a point of some part of a shape.
fn is_on_shape(place: Place, shape: &Shape) -> bool
    requires place { InRange place }
    requires sound { IsSoundShape shape.now }
    ensures { result ≡ false → (number : ℕ) → is_on_part (Some place) (part_of shape.now number) ≡ false }
{
    for position in 0..parts(shape) {
        if is_on_part(place, part(shape, position + 1)) {
            return true;
        }
    }
    false
}

/// Returns whether a shape is a point of some part of another one.
fn lies_on_shape(server: &Shape, shape: &Shape) -> bool
    requires server { IsSoundShape server.now }
    requires shape { IsSoundShape shape.now }
    ensures { result ≡ false → LiesOnNoPart server.now shape.now }
{
    match point_in(server) {
        None => false,
        Some(place) => is_on_shape(place, shape),
    }
}

impl<V: RowView> RootVersions<'_, '_, V> {
    /// Tests whether a server may serve a need of which a version is a subject.
    pub fn may_be_served(&self, rule: u16, server: Version, subject: Version) -> bool
        requires number { rule < length self.now.book.now }
        requires fit { FitsSetting (setting_in V.content self.now) }
        requires server { IsAt (setting_in V.content self.now) server }
        requires subject { IsAt (setting_in V.content self.now) subject }
        ensures { result ≡ false → IsNeverServed self.now.book.now rule (row_of server.entry) (row_of subject.entry) }
    {
        match self.book.rule(rule) {
            Rule::Crossing { .. } => lies_on_shape(&server.row.shape, &subject.row.shape),
            _ => true,
        }
    }
}
