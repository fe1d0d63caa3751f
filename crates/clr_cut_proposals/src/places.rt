//! Squares round a geometry.

ghost use Rattle.std.specs.Prelude.{◌≡◌, ◌++◌, OnOk};
ghost use Rattle.clr_cut_proposals.specs.RoleModels.{mark_of};
ghost use Rattle.clr_cut_proposals.specs.Places.{box_function, geometry_of, least_x, least_y, meets_by, meets_in_index, most_x, most_y, reach_of};
ghost use Rattle.clr_cut_proposals.specs.Places.{from_origin, lower_corner, lower_edge, square_above, square_below, squares_box, upper_corner, upper_edge};

use crate::roles::RoleMark;
use crate::squares::add_side;
use clr_metres::add_metres;
use clr_rules::Tip;
use clr_sql::{Dialect, Target};
use itoa::Buffer;
use std::alloc::AllocError;

/// Returns the function that gives the least x of a geometry.
pub(crate) fn least_x(dialect: Dialect) -> &'static str
    ensures { result.now ≡ least_x dialect }
{
    match dialect {
        Dialect::PostGis => "ST_XMin",
        Dialect::SpatiaLite => "ST_MinX",
    }
}

/// Returns the function that gives the least y of a geometry.
pub(crate) fn least_y(dialect: Dialect) -> &'static str
    ensures { result.now ≡ least_y dialect }
{
    match dialect {
        Dialect::PostGis => "ST_YMin",
        Dialect::SpatiaLite => "ST_MinY",
    }
}

/// Returns the function that gives the greatest x of a geometry.
pub(crate) fn most_x(dialect: Dialect) -> &'static str
    ensures { result.now ≡ most_x dialect }
{
    match dialect {
        Dialect::PostGis => "ST_XMax",
        Dialect::SpatiaLite => "ST_MaxX",
    }
}

/// Returns the function that gives the greatest y of a geometry.
pub(crate) fn most_y(dialect: Dialect) -> &'static str
    ensures { result.now ≡ most_y dialect }
{
    match dialect {
        Dialect::PostGis => "ST_YMax",
        Dialect::SpatiaLite => "ST_MaxY",
    }
}

/// Returns the function that gives a box.
fn box_function(dialect: Dialect) -> &'static str
    ensures { result.now ≡ box_function dialect }
{
    match dialect {
        Dialect::PostGis => "ST_MakeEnvelope",
        Dialect::SpatiaLite => "BuildMbr",
    }
}

/// Returns how much a box is grown, in millimetres.
fn reach_of(mark: RoleMark<'_>) -> i64
    ensures { result ≡ reach_of (mark_of mark.entry) }
{
    match mark {
        RoleMark::Within(d) => d,
        _ => 0,
    }
}

/// Returns the place of a version by which it is found.
fn geometry_of(mark: RoleMark<'_>) -> &'static str
    ensures { result.now ≡ geometry_of (mark_of mark.entry) }
{
    match mark {
        RoleMark::AtEnd(Tip::First) => "ST_StartPoint(v.\"WKT\")",
        RoleMark::AtEnd(Tip::Second) => "ST_EndPoint(v.\"WKT\")",
        _ => "v.\"WKT\"",
    }
}

/// Adds how far a coordinate of a geometry is from that of the origin, by the squares.
fn add_from_origin(
    text: &mut Vec<u8>,
    function: &str,
    geometry: &str,
    origin: i64,
) -> Result<(), AllocError>
    ensures { OnOk result (text.new.items ≡ text.old.items ++ from_origin function.now geometry.now origin) }
{
    text.extend_from_slice(b"floor((")?;
    text.extend_from_slice(function.as_bytes())?;
    text.extend_from_slice(b"(")?;
    text.extend_from_slice(geometry.as_bytes())?;
    text.extend_from_slice(b") - (")?;
    add_metres(text, origin)?;
    text.extend_from_slice(b")")
}

/// Adds the lower edge of the square of a coordinate that is reduced by the reach.
fn add_square_below(
    text: &mut Vec<u8>,
    function: &str,
    geometry: &str,
    origin: i64,
    reach: i64,
) -> Result<(), AllocError>
    ensures { OnOk result (text.new.items ≡ text.old.items ++ square_below function.now geometry.now origin reach) }
{
    add_from_origin(text, function, geometry, origin)?;
    text.extend_from_slice(b" - ")?;
    add_metres(text, reach)?;
    text.extend_from_slice(b" - 0.001) / ")?;
    add_side(text)?;
    text.extend_from_slice(b") * ")?;
    add_side(text)
}

/// Adds that edge reduced by the reach again.
fn add_lower_edge(
    text: &mut Vec<u8>,
    function: &str,
    geometry: &str,
    origin: i64,
    reach: i64,
) -> Result<(), AllocError>
    ensures { OnOk result (text.new.items ≡ text.old.items ++ lower_edge function.now geometry.now origin reach) }
{
    add_square_below(text, function, geometry, origin, reach)?;
    text.extend_from_slice(b" + (")?;
    add_metres(text, origin)?;
    text.extend_from_slice(b") - ")?;
    add_metres(text, reach)?;
    text.extend_from_slice(b" - 0.001")
}

/// Adds the upper edge of the square of a coordinate that is raised by the reach.
fn add_square_above(
    text: &mut Vec<u8>,
    function: &str,
    geometry: &str,
    origin: i64,
    reach: i64,
) -> Result<(), AllocError>
    ensures { OnOk result (text.new.items ≡ text.old.items ++ square_above function.now geometry.now origin reach) }
{
    add_from_origin(text, function, geometry, origin)?;
    text.extend_from_slice(b" + ")?;
    add_metres(text, reach)?;
    text.extend_from_slice(b" + 0.001) / ")?;
    add_side(text)?;
    text.extend_from_slice(b") * ")?;
    add_side(text)?;
    text.extend_from_slice(b" + ")?;
    add_side(text)
}

/// Adds that edge raised by the reach again.
fn add_upper_edge(
    text: &mut Vec<u8>,
    function: &str,
    geometry: &str,
    origin: i64,
    reach: i64,
) -> Result<(), AllocError>
    ensures { OnOk result (text.new.items ≡ text.old.items ++ upper_edge function.now geometry.now origin reach) }
{
    add_square_above(text, function, geometry, origin, reach)?;
    text.extend_from_slice(b" + (")?;
    add_metres(text, origin)?;
    text.extend_from_slice(b") + ")?;
    add_metres(text, reach)?;
    text.extend_from_slice(b" + 0.001")
}

fn add_lower_corner(
    text: &mut Vec<u8>,
    target: &Target,
    mark: RoleMark<'_>,
) -> Result<(), AllocError>
    ensures { OnOk result (text.new.items ≡ text.old.items ++ lower_corner target.now (mark_of mark.entry)) }
{
    let (dialect, origin) = (target.dialect, target.origin);
    let (geometry, reach) = (geometry_of(mark), reach_of(mark));
    add_lower_edge(text, least_x(dialect), geometry, origin.x, reach)?;
    text.extend_from_slice(b", ")?;
    add_lower_edge(text, least_y(dialect), geometry, origin.y, reach)
}

fn add_upper_corner(
    text: &mut Vec<u8>,
    target: &Target,
    mark: RoleMark<'_>,
) -> Result<(), AllocError>
    ensures { OnOk result (text.new.items ≡ text.old.items ++ upper_corner target.now (mark_of mark.entry)) }
{
    let (dialect, origin) = (target.dialect, target.origin);
    let (geometry, reach) = (geometry_of(mark), reach_of(mark));
    add_upper_edge(text, most_x(dialect), geometry, origin.x, reach)?;
    text.extend_from_slice(b", ")?;
    add_upper_edge(text, most_y(dialect), geometry, origin.y, reach)
}

/// Adds the box of all squares in which a version may be, grown by the reach again.
pub(crate) fn add_squares_box(
    text: &mut Vec<u8>,
    target: &Target,
    mark: RoleMark<'_>,
) -> Result<(), AllocError>
    ensures { OnOk result (text.new.items ≡ text.old.items ++ squares_box target.now (mark_of mark.entry)) }
{
    text.extend_from_slice(box_function(target.dialect).as_bytes())?;
    text.extend_from_slice(b"(")?;
    add_lower_corner(text, target, mark)?;
    text.extend_from_slice(b", ")?;
    add_upper_corner(text, target, mark)?;
    text.extend_from_slice(b", ")?;
    text.extend_from_slice(Buffer::new().format(target.system).as_bytes())?;
    text.extend_from_slice(b")")
}

/// Adds that the box of a row of a table meets another, by the index of SpatiaLite.
fn add_meets_in_index(text: &mut Vec<u8>, table: &str, around: &[u8]) -> Result<(), AllocError>
    ensures { OnOk result (text.new.items ≡ text.old.items ++ meets_in_index table.now around.now) }
{
    text.extend_from_slice(
        b" AND m.ROWID IN (SELECT ROWID FROM SpatialIndex WHERE f_table_name = '",
    )?;
    text.extend_from_slice(table.as_bytes())?;
    text.extend_from_slice(b"' AND f_geometry_column = 'WKT' AND search_frame = ")?;
    text.extend_from_slice(around)?;
    text.extend_from_slice(b")")
}

/// Adds that the box of a row of a table meets another, by the index of its geometries.
pub(crate) fn add_meets(
    text: &mut Vec<u8>,
    dialect: Dialect,
    table: &str,
    around: &[u8],
) -> Result<(), AllocError>
    ensures { OnOk result (text.new.items ≡ text.old.items ++ meets_by dialect table.now around.now) }
{
    match dialect {
        Dialect::PostGis => {
            text.extend_from_slice(b" AND m.\"WKT\" && ")?;
            text.extend_from_slice(around)
        }
        Dialect::SpatiaLite => add_meets_in_index(text, table, around),
    }
}
