//! Laws of segments and boxes, each proved by a function that does nothing.

ghost use Rattle.clr_segments.specs.Laws.{CommonPointsAreWhole, MeetingBoxesTouch, PointsAreBoxed};
ghost use Rattle.clr_segments.specs.Laws.{ShapesAreBoxed, PartsAreBoxed, MeetingShapesTouch, NearBoxesTouch};
ghost use Rattle.clr_segments.specs.Laws.{MeetIsOne, SegmentsInEitherOrder, EndsInEitherOrder};
ghost use Rattle.clr_segments.specs.Laws.{PointsAreFound, CommonPointsAreFound, TwoCommonPointsAreFound};

/// Two boxes with a common point have one with whole coordinates.
#[tactic(auto, using(crate::proofs::BoxLemmas::shared_whole))]
pub fn common_points_are_whole()
    ensures { CommonPointsAreWhole }
{}

/// The boxes of two segments with a common point touch.
#[tactic(auto, using(crate::proofs::BoxLemmas::segments_touch))]
pub fn meeting_boxes_touch()
    ensures { MeetingBoxesTouch }
{}

/// A point of a segment is in the segment's box.
pub fn points_are_boxed()
    ensures { PointsAreBoxed }
{}

/// A shape's box is the least that holds its vertices.
pub fn shapes_are_boxed()
    ensures { ShapesAreBoxed }
{}

/// A part's box, and so each point of the part, is in its shape's box.
pub fn parts_are_boxed()
    ensures { PartsAreBoxed }
{}

/// The boxes of two shapes touch where parts of them have a common point.
pub fn meeting_shapes_touch()
    ensures { MeetingShapesTouch }
{}

/// The boxes of two points nearer than d, grown by d, touch.
#[tactic(auto, using(crate::proofs::BoxLemmas::near_touch))]
pub fn near_boxes_touch()
    ensures { NearBoxesTouch }
{}

/// Two segments meet in only one of the three ways.
pub fn meet_is_one()
    ensures { MeetIsOne }
{}

/// Two segments meet in the same way whichever of them is named first.
#[tactic(auto, using(crate::proofs::MeetLaws::segments_swapped))]
pub fn segments_in_either_order()
    ensures { SegmentsInEitherOrder }
{}

/// Two segments meet in the same way whichever end of each is named first.
#[tactic(auto, using(crate::proofs::MeetLaws::ends_swapped))]
pub fn ends_in_either_order()
    ensures { EndsInEitherOrder }
{}

/// A search of a segment's shares finds each place of the segment, and no other.
#[tactic(auto, using(crate::proofs::SearchLemmas::points_found))]
pub fn points_are_found()
    ensures { PointsAreFound }
{}

/// A search of two segments' shares finds a common point exactly where there is one.
#[tactic(auto, using(crate::proofs::SearchLemmas::common_points_found))]
pub fn common_points_are_found()
    ensures { CommonPointsAreFound }
{}

/// A search of two segments' shares finds two common points exactly where there are two that
/// differ.
#[tactic(auto, using(crate::proofs::SearchLemmas::two_common_points_found))]
pub fn two_common_points_are_found()
    ensures { TwoCommonPointsAreFound }
{}
