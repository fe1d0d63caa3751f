//! Segments between places of whole millimetres: the side of a line that a place is on, the places
//! on a segment, the meeting of two segments, the parts of a path, nearness, and boxes. Nothing here
//! takes memory or rounds a number.
//!
//! - `parts` and `part`: how many parts a shape has, and the ends of each by its number; of a path
//!   that is too long for every schema the first 65,535 parts have one, and are counted.
//!   `box_of_shape`: the least box of a shape.
//! - `turn`, `lies_on`, `near`, `meet`, `box_of` [`value`, `least`] and `boxes_touch` agree with
//!   definitions by common points, for all coordinates in range: two segments are apart, meet once
//!   (also at no whole place) or overlap.
//! - Thirteen laws, among them `meet_is_one` (the three answers exclude one another),
//!   `meeting_boxes_touch`, and `parts_are_boxed` (a shape's box holds each point of each part).
//!   `points_are_found`, `common_points_are_found` and `two_common_points_are_found`: searches of
//!   shares up to a limit, in which other definitions can speak of common points by tests, agree
//!   with these.
#![tactic(auto)]

mod axis;
mod boxes;
mod crossing;
mod laws;
mod limits;
mod meeting;
mod points;
mod shape_parts;
mod sides;

pub use boxes::{Bounds, box_of, box_of_shape, boxes_touch};
pub use crossing::meet;
pub use laws::{
    common_points_are_found, common_points_are_whole, ends_in_either_order, meet_is_one,
    meeting_boxes_touch, meeting_shapes_touch, near_boxes_touch, parts_are_boxed, points_are_boxed,
    points_are_found, segments_in_either_order, shapes_are_boxed, two_common_points_are_found,
};
pub use limits::{GREATEST_DISTANCE, limit_of_distances};
pub use meeting::Meet;
pub use points::{lies_on, near};
pub use shape_parts::{part, parts};
pub use sides::turn;
