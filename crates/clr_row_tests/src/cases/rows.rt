//! Limits, names, tables, cells and rows.

/// Limits of lists, texts, paths and numbers.
pub(crate) const LIMITS: &str = "limits lists => 32 16 30
limits texts => 200 2 32
limits numbers => 999999999999999 1000000000 1000000";

/// Names of at most 30 letters, digits and low lines, a letter first.
pub(crate) const NAMES: &str = "good a => true
good Z9_ => true
good LIVE => true
good KEY => true
good a23456789012345678901234567890 => true
good  => false
good 1a => false
good _a => false
good a b => false
good a-b => false
good é => false
good aé => false
good a234567890123456789012345678901 => false";

/// Tables that make a schema, and tables that don't: too many before a bad name, a bad name before a name that is taken. Case
/// counts, and each table has its own columns.
pub(crate) const SCHEMAS: &str = "schema 32*t/none/ => fits
schema 33*t/none/ => TooMany
schema 2*t/none/;wide/none/16*c:number => fits
schema a b/none/;wide/none/17*c:number => TooMany
schema /none/c:number => BadName
schema 1a/none/c:number => BadName
schema t/none/c-d:number => BadName
schema t/none/KEY:number => BadName
schema 2*t/none/;t1/none/key:number;_/none/ => BadName
schema 3*t/none/;t1/none/ => NameTaken
schema t/none/a:number,b:number,a:text => NameTaken
schema t/none/a:number,A:number,t:number;T/none/a:number,A:number,t:number => fits";

/// Tables and columns by their names and numbers.
pub(crate) const TABLES: &str = "number main => Some(1)
number Main => None
number 2 main => Some(0)
number 1 main => None
number 4 main => None
table 2 => hydrant Some(Point) of 4
table 1 => main Some(Segment) of 4
table 4 => none None of 4";

/// Cells by table and key.
pub(crate) const CELLS: &str = "cell 0.1 => fits
cell 1.1 => fits
cell 2.999999999999999 => fits
cell 0.-1 => OutOfRange
cell 1.0 => OutOfRange
cell 2.1000000000000000 => OutOfRange
cell 4.1 => NoTable
cell 4.0 => NoTable";

/// Rows of one text.
pub(crate) const ROWS: &str = "row 0.1 'x at 1000000000,-1000000000 => fits
row 1.999999999999999 'x line 0,0 0,1 => fits
row 4.1 'x at 0,0 => NoTable
row 9.0 'x none => NoTable
row 2.1 'x at 0,0 => WrongKind
row 0.1 'x line 0,0 1,1 => WrongShape
row 1.1 'x none => WrongShape
row 1.0 'x at 1000000001,0 => WrongShape
row 0.0 'x at 0,0 => OutOfRange
row 0.1000000000000000 'x at 0,0 => OutOfRange
row 0.1 'x at 1000000001,0 => OutOfRange
row 0.1 'x at 0,-1000000001 => OutOfRange
row 1.1 'x line 0,0 0,1000000001 => OutOfRange
row 1.0 'x line 3,3 3,3 => OutOfRange
row 1.1 'x line 3,3 3,3 => ZeroSegment";

/// Paths of 2 to 32 vertices, of which no two in a row are equal.
pub(crate) const PATHS: &str = "row 3.1 'x path 0,0 1,0 => fits
row 3.1 'x path 0,0 1,0 0,0 => fits
row 3.1 'x path - => BadPath
row 3.1 'x path 0,0 => BadPath
row 3.1 'x path 0,0 1,1 1,1 => ZeroSegment
row 3.1 'x path 1,1 1,1 1000000001,0 => OutOfRange
row 3.1 'x walk 32 1 => fits
row 3.1 'x walk 33 1 => BadPath
row 3.1 'x walk 33 0 => ZeroSegment
row 3.1 'x line 0,0 1,1 => WrongShape
row 1.1 'x walk 2 1 => WrongShape
row 1.1 'x walk 33 1 => WrongShape";

/// Texts of up to 200 bytes; a text too long before a wrong shape, a wrong count before a wrong kind.
pub(crate) const VALUES: &str = "row 0.1 'a*200 at 0,0 => fits
row 0.1 'é*100 at 0,0 => fits
row 0.1 'a*201 at 0,0 => WordsTooLong
row 0.1 'é*101 at 0,0 => WordsTooLong
row 0.1 'a*201 none => WordsTooLong
row 0.1 5 at 0,0 => WrongKind
row 0.1 5+'a*201 at 0,0 => WrongCount";
