//! Layers as lines, with strokes in place of line ends, each behind the name of its table, and what is read of them: the
//! lines of the rows as they are written, or the number of a bad record, and why.

/// Points: words and numbers in the forms of several programs.
pub(crate) const POINTS: &str =
    r#"valve KEY,kind,WKT/1,gate,POINT (1 2) => 1,gate,POINT (1.000 2.000)
valve KEY,kind,WKT/1,gate,POINT(1.5 -2.25) => 1,gate,POINT (1.500 -2.250)
valve KEY,kind,WKT/1,gate,  Point  ( -0.001   0.0 )   => 1,gate,POINT (-0.001 0.000)
valve KEY,kind,WKT/1,gate,POINT (-0 -0.000) => 1,gate,POINT (0.000 0.000)
valve KEY,kind,WKT/1,gate,POINT (1.50000 2.) => 1,gate,POINT (1.500 2.000)
valve KEY,kind,WKT/1,gate,MULTIPOINT (1 2) => 1,gate,POINT (1.000 2.000)
valve KEY,kind,WKT/1,gate,multipoint ((1 2) ) => 1,gate,POINT (1.000 2.000)
valve KEY,kind,WKT/1,gate,POINT (1000000 -1000000.000) => 1,gate,POINT (1000000.000 -1000000.000)
valve KEY,kind,WKT/,gate,POINT (1 2)//7,,POINT (3 4) => ,gate,POINT (1.000 2.000)/7,,POINT (3.000 4.000)"#;

/// Lines, as segments and as paths.
pub(crate) const LINES: &str =
    r#"main KEY,code,size,WKT/1,A,-7,"LINESTRING (0 0, 10 10)" => 1,A,-7,"LINESTRING (0.000 0.000, 10.000 10.000)"
main KEY,code,size,WKT/1,A,0,"LINESTRING(0 0,10 10)" => 1,A,0,"LINESTRING (0.000 0.000, 10.000 10.000)"
main WKT,KEY,code,size/"LINESTRING (0 0,10.0 10)","1",A,"0" => 1,A,0,"LINESTRING (0.000 0.000, 10.000 10.000)"
main KEY,code,size,WKT/1,A,0,"linestring(0 0,10 10)" => 1,A,0,"LINESTRING (0.000 0.000, 10.000 10.000)"
main KEY,code,size,WKT/1,A,0,"MULTILINESTRING((0 0,10 10))" => 1,A,0,"LINESTRING (0.000 0.000, 10.000 10.000)"
main KEY,code,size,WKT/1,A,0,"MULTILINESTRING ((0 0, 10 10))" => 1,A,0,"LINESTRING (0.000 0.000, 10.000 10.000)"
main KEY,code,size,WKT/1,"a,""b",0,"LINESTRING (0 0, 10 10)" => 1,"a,""b",0,"LINESTRING (0.000 0.000, 10.000 10.000)"
road KEY,WKT/1,"LINESTRING (0 0, 0 1, 1 1)" => 1,"LINESTRING (0.000 0.000, 0.000 1.000, 1.000 1.000)"
road KEY,WKT/1,"LINESTRING (0 0, 0 1)" => 1,"LINESTRING (0.000 0.000, 0.000 1.000)""#;

/// Headers: names in any order, and names that are passed over, also twice.
pub(crate) const HEADERS: &str =
    r#"valve WKT,fid,kind,fid,KEY/POINT (1 2),9,gate,8,1 => 1,gate,POINT (1.000 2.000)
note text,KEY,WKT/x,1,POLYGON EMPTY => 1,x
note KEY,text =>
valve KEY,kind => 1 NoColumn
valve KEY,WKT/1,POINT (1 2) => 1 NoColumn
valve kind,WKT => 1 NoColumn
valve key,kind,WKT => 1 NoColumn
valve KEY,kind,kind,WKT => 1 ColumnTwice
valve KEY,kind,WKT,WKT => 1 ColumnTwice
valve KEY,kind,WKT,KEY => 1 ColumnTwice
none KEY => 1 Unfit(NoTable)
valve  => 1 NoColumn"#;

/// Records that can't be read.
pub(crate) const FAULTS: &str = r#"valve KEY,kind,WKT/1,gate => 2 FieldCount
valve KEY,kind,WKT/1,gate,POINT (1 2)/2,gate,POINT (1 2),x => 3 FieldCount
valve KEY,kind,WKT/01,gate,POINT (1 2) => 2 BadNumber
main KEY,code,size,WKT/1,A,,"LINESTRING (0 0, 1 1)" => 2 BadNumber
main KEY,code,size,WKT/1,A,1.0,"LINESTRING (0 0, 1 1)" => 2 BadNumber
valve KEY,kind,WKT/1,gate, => 2 NotWkt
valve KEY,kind,WKT/1,gate,POINT EMPTY => 2 NotWkt
valve KEY,kind,WKT/1,gate,POINT Z EMPTY => 2 NotWkt
valve KEY,kind,WKT/1,gate,MULTIPOINT EMPTY => 2 NotWkt
valve KEY,kind,WKT/1,gate,MULTIPOINT (EMPTY) => 2 NotWkt
valve KEY,kind,WKT/1,gate,POINT () => 2 NotWkt
main KEY,code,size,WKT/1,A,0,LINESTRING EMPTY => 2 NotWkt
main KEY,code,size,WKT/1,A,0,LINESTRING () => 2 NotWkt
valve KEY,kind,WKT/1,gate,POINT (1) => 2 NotWkt
valve KEY,kind,WKT/1,gate,POINT 1 2) => 2 NotWkt
valve KEY,kind,WKT/1,gate,POINT (1 2 => 2 NotWkt
valve KEY,kind,WKT/1,gate,POINT (1 2) x => 2 NotWkt
valve KEY,kind,WKT/1,gate,SRID=4326;POINT (1 2) => 2 NotWkt
valve KEY,kind,WKT/1,gate,"POLYGON ((0 0, 1 0, 1 1, 0 0))" => 2 NotWkt
valve KEY,kind,WKT/1,gate,POINT (1 2 3) => 2 NotFlat
valve KEY,kind,WKT/1,gate,POINT Z (1 2 3) => 2 NotFlat
valve KEY,kind,WKT/1,gate,PointZ (1 2 3) => 2 NotFlat
valve KEY,kind,WKT/1,gate,POINT ZM (1 2 3 4) => 2 NotFlat
valve KEY,kind,WKT/1,gate,PointM (1 2 3) => 2 NotFlat
valve KEY,kind,WKT/1,gate,POINTZM (1 2 3 4) => 2 NotFlat
valve KEY,kind,WKT/1,gate,MULTIPOINTM ((1 2 3)) => 2 NotFlat
main KEY,code,size,WKT/1,A,0,"LINESTRING M (0 0 0, 1 1 1)" => 2 NotFlat
main KEY,code,size,WKT/1,A,0,"LineStringZM (0 0 0 0, 1 1 1 1)" => 2 NotFlat
main KEY,code,size,WKT/1,A,0,"MULTILINESTRING Z ((0 0 0, 1 1 1))" => 2 NotFlat
main KEY,code,size,WKT/1,A,0,"LINESTRING (0 0 0, 1 1 1)" => 2 NotFlat
main KEY,code,size,WKT/1,A,0,"CIRCULARSTRING (0 0, 1 1, 2 0)" => 2 Curve
main KEY,code,size,WKT/1,A,0,"CompoundCurve ((0 0, 1 1))" => 2 Curve
main KEY,code,size,WKT/1,A,0,"MULTICURVE ((0 0, 1 1))" => 2 Curve
valve KEY,kind,WKT/1,gate,"CURVEPOLYGON (CIRCULARSTRING (0 0,1 1,2 0,1 -1,0 0))" => 2 Curve
valve KEY,kind,WKT/1,gate,"MULTIPOINT ((1 2), (3 4))" => 2 SeveralParts
valve KEY,kind,WKT/1,gate,"MULTIPOINT (1 2, 3 4)" => 2 SeveralParts
main KEY,code,size,WKT/1,A,0,"MULTILINESTRING ((0 0, 1 1), (2 2, 3 3))" => 2 SeveralParts
valve KEY,kind,WKT/1,gate,POINT (1e5 2) => 2 NotDecimal
valve KEY,kind,WKT/1,gate,POINT (+1 2) => 2 NotDecimal
valve KEY,kind,WKT/1,gate,POINT (.5 2) => 2 NotDecimal
valve KEY,kind,WKT/1,gate,POINT (007 2) => 2 NotDecimal
valve KEY,kind,WKT/1,gate,POINT (--1 2) => 2 NotDecimal
valve KEY,kind,WKT/1,gate,POINT (1.2.3 2) => 2 NotDecimal
valve KEY,kind,WKT/1,gate,POINT (nan 2) => 2 NotDecimal
valve KEY,kind,WKT/1,gate,POINT (1.0001 2) => 2 Finer
valve KEY,kind,WKT/1,gate,POINT (1000000000.0001 2) => 2 Finer
valve KEY,kind,WKT/1,gate,POINT (1000000001 2) => 2 Unfit(OutOfRange)
valve KEY,kind,WKT/1,gate,POINT (1000000.001 2) => 2 Unfit(OutOfRange)
valve KEY,kind,WKT/0,gate,POINT (1 2) => 2 Unfit(OutOfRange)
main KEY,code,size,WKT/1,A,0,"LINESTRING (0 0, 1 1, 2 2)" => 2 Unfit(WrongShape)
main KEY,code,size,WKT/1,A,0,POINT (0 0) => 2 Unfit(WrongShape)
valve KEY,kind,WKT/1,gate,"LINESTRING (0 0, 1 1)" => 2 Unfit(WrongShape)
main KEY,code,size,WKT/1,A,0,"LINESTRING (1 1, 1.000 1)" => 2 Unfit(ZeroSegment)
road KEY,WKT/1,LINESTRING (0 0) => 2 Unfit(BadPath)"#;

/// Coordinates that are rounded, a half away from 0.
pub(crate) const ROUNDED: &str =
    r#"valve KEY,kind,WKT/1,gate,POINT (1.0004 1.0005) => 1,gate,POINT (1.000 1.001)
valve KEY,kind,WKT/1,gate,POINT (-1.0004 -1.0005) => 1,gate,POINT (-1.000 -1.001)
valve KEY,kind,WKT/1,gate,POINT (1.00049999 0.9999) => 1,gate,POINT (1.000 1.000)
valve KEY,kind,WKT/1,gate,POINT (-0.0004 1.5) => 1,gate,POINT (0.000 1.500)
valve KEY,kind,WKT/1,gate,POINT (1.0005x 2) => 2 NotDecimal
valve KEY,kind,WKT/1,gate,POINT (1000000.0005 2) => 2 Unfit(OutOfRange)"#;
