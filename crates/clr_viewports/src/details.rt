//! How much detail there is room for.

ghost use Rattle.std.specs.Prelude.{◌≡◌, pos};
ghost use Rattle.clr_svg.specs.Lengths.{stopped};
ghost use Rattle.clr_viewports.specs.Details.{detail_of, has_pixels_for_rows, is_coarse, is_fine, pixels_of};

use crate::areas::Area;

/// How much detail there is room for.
#[derive(Clone, Copy)]
pub enum Detail {
    /// Thin lines, and no signs.
    Coarse,
    /// Lines and small signs.
    Middle,
    /// Broad lines and signs that are told apart.
    Fine,
}

/// The side of a square for each row, in pixels, from which on there is room for small signs.
const MIDDLE_SIDE: i64 = 11;

/// The side of a square for each row, in pixels, from which on there is room for everything.
const FINE_SIDE: i64 = 26;

/// Returns the whole pixels of an area.
#[tactic(auto, unfolding(crate::specs::Details::pixels_of))]
fn pixels_of(area: Area) -> i64
    ensures { result ≡ pixels_of area }
{
    let width = area.width().tenths / 10;
    let height = area.height().tenths / 10;
    width.saturating_mul(height)
}

/// Returns a number, or the greatest of 64 bits where it is greater.
fn number_of(rows: usize) -> i64
    ensures { result ≡ stopped (pos rows) }
{
    i64::try_from(rows).unwrap_or(i64::MAX)
}

/// Returns whether an area has more pixels than a square of this many for each row.
#[tactic(auto, unfolding(crate::specs::Details::has_pixels_for_rows))]
fn has_pixels_for_rows(area: Area, rows: usize, square: i64) -> bool
    ensures { result ≡ has_pixels_for_rows area rows square }
{
    number_of(rows).saturating_mul(square) < pixels_of(area)
}

impl Detail {
    /// Returns how much detail an area has room for where it shows this many rows.
    pub fn of(area: Area, rows: usize) -> Detail
        ensures { result ≡ detail_of area rows }
    {
        if has_pixels_for_rows(area, rows, FINE_SIDE * FINE_SIDE) {
            Detail::Fine
        } else if has_pixels_for_rows(area, rows, MIDDLE_SIDE * MIDDLE_SIDE) {
            Detail::Middle
        } else {
            Detail::Coarse
        }
    }

    /// Returns whether there is room for everything.
    pub fn is_fine(self) -> bool
        ensures { result ≡ is_fine self }
    {
        matches!(self, Detail::Fine)
    }

    /// Returns whether there is room for no signs.
    pub fn is_coarse(self) -> bool
        ensures { result ≡ is_coarse self }
    {
        matches!(self, Detail::Coarse)
    }
}
