//! How the ranges of two segments of one line meet along an axis.

ghost use Rattle.std.specs.Prelude.{◌≡◌, ◌≢◌};
ghost use Rattle.clr_segments.specs.Axis.{RangesMeet, greater_low, lesser_high};

use crate::meeting::Meet;

// The greater of the lower ends of the ranges between p and q and between r and u.
fn common_start(p: i64, q: i64, r: i64, u: i64) -> i64
    ensures { result ≡ greater_low p q r u }
{
    p.min(q).max(r.min(u))
}

// The lesser of the upper ends of the ranges between p and q and between r and u.
fn common_end(p: i64, q: i64, r: i64, u: i64) -> i64
    ensures { result ≡ lesser_high p q r u }
{
    p.max(q).min(r.max(u))
}

// How the range between p and q meets the one between r and u.
pub(crate) fn meet_on_axis(p: i64, q: i64, r: i64, u: i64) -> Meet
    requires first_ends { p ≢ q }
    requires second_ends { r ≢ u }
    ensures { RangesMeet result p q r u }
{
    let start = common_start(p, q, r, u);
    let end = common_end(p, q, r, u);
    if start < end {
        Meet::Overlap
    } else if start == end {
        Meet::Once
    } else {
        Meet::Apart
    }
}
