//! What comes of designs that are to be made in an office.

use clr_desk_prints::Print;

/// What comes of designs that are to be made in an office.
#[derive(Drop)]
pub enum MadeDesigns {
    /// They are made: how much each of them changes, as notes.
    Made(Vec<u8>),
    /// One of them can't be made: what is printed then.
    Refused(Print),
}
