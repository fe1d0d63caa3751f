//! Where a cause is: the place that the rule of a need asks for.

ghost use Rattle.std.specs.Prelude.{◌≡◌};
ghost use Rattle.clr_steps.specs.Quiet.{MergeSet};
ghost use Rattle.clr_merge_sets.specs.MemberChanges.{AreMembers};
ghost use Rattle.clr_plan_causes.specs.CauseMarks.{DoMeet, IsMeetingPlace, IsNear, IsNeedPlace, MeetsSo, meeting_parts, middle_of_first};
ghost use Rattle.clr_plan_causes.specs.CauseRows.{subject_rows};

use crate::near_places::place_near;
use clr_drawing::middle_of;
use clr_engine::Office;
use clr_map_scenes::{CausePlace, CauseRow};
use clr_member_changes::MemberChanges;
use clr_needs::Need;
use clr_phrases::Meeting;
use clr_rows::Place;
use clr_segments::part;
use clr_serving_rows::need_place;

/// Returns the parts of a need's two rows at which they meet, if both are there.
fn meeting_parts(need: &Need, rows: &[CauseRow]) -> Option<((Place, Place), (Place, Place))>
    ensures { result ≡ meeting_parts rows.now need.now }
{
    let first = part(&rows.first()?.row.shape, need.first_part)?;
    let second = part(&rows.get(1)?.row.shape, need.second_part)?;
    Some((first, second))
}

/// Returns the middle of the first of some rows, where it has one.
pub(crate) fn middle_of_first(rows: &[CauseRow]) -> Option<CausePlace>
    ensures { result ≡ middle_of_first rows.now }
{
    Some(CausePlace {
        place: middle_of(&rows.first()?.row.shape)?,
        is_whole: true,
    })
}

/// Returns a place near where the subjects of a need meet, at which no row can stand.
fn ring_near(meeting: Meeting, need: &Need, rows: &[CauseRow]) -> Option<CausePlace>
    ensures { DoMeet (meeting_parts rows.now need.now) → IsNear (meeting_parts rows.now need.now) result }
{
    let (first, second) = meeting_parts(need, rows)?;
    Some(CausePlace {
        place: place_near(meeting, first, second),
        is_whole: false,
    })
}

/// Returns where rows of a need meet that are told to meet so.
fn meeting_place(meeting: Meeting, need: &Need, rows: &[CauseRow]) -> Option<CausePlace>
    ensures { MeetsSo rows.now need.now meeting → IsMeetingPlace rows.now need.now meeting result }
{
    match meeting {
        Meeting::Whole(place) => Some(CausePlace {
            place,
            is_whole: true,
        }),
        Meeting::Apart | Meeting::NoParts => middle_of_first(rows),
        Meeting::Between | Meeting::Overlap => ring_near(meeting, need, rows),
    }
}

/// Returns where a need with these subjects fails, or none where they have no place.
pub(crate) fn place_of_need(
    office: &Office,
    members: &MemberChanges<'_>,
    need: &Need,
    rows: &[CauseRow],
) -> Option<CausePlace>
    ensures { (s : MergeSet) → AreMembers office.now s members.now
        → rows.now ≡ subject_rows office.now s need.now → IsNeedPlace office.now s need.now rows.now result }
{
    let meeting = need_place(office, members, need);
    meeting_place(meeting, need, rows)
}
