//! Edits over mains 1 to 3, of the codes A to C.

/// What edits change, what is taken over, and the least conflict. What is set back is no change.
pub(crate) const EDITS: &str =
    "between insert 1.4 'E line 3,0 10,10;update 1.2 'D line 1,0 10,10;delete 1.3;update 1.1 'A line 0,0 10,10 => 3 2:B>D 3:C>none 4:none>E
stage insert 1.4 'E line 3,0 10,10;update 1.2 'D line 1,0 10,10;delete 1.3;update 1.1 'A line 0,0 10,10 => 3 2:B>D 3:C>none 4:none>E
over insert 1.4 'E line 3,0 10,10;update 1.2 'D line 1,0 10,10;delete 1.3;update 1.1 'A line 0,0 10,10 => 3 0
conflict insert 1.4 'E line 3,0 10,10;update 1.2 'D line 1,0 10,10;delete 1.3;update 1.1 'A line 0,0 10,10 => None Some((CellId { table: 1, key: 2 }, 3))
edits insert 1.3 'C line 2,0 10,10;insert 1.1 'A line 0,0 10,10;insert 1.2 'B line 1,0 10,10 => 3 3
stage insert 1.4 'E line 3,0 10,10;update 1.1 'Q line 0,0 10,10;delete 1.2;delete 1.4;update 1.1 'A line 0,0 10,10;insert 1.2 'R line 1,0 10,10 => 1 2:B>R";

/// The first edit that can't be made, after an insertion of main 9, and why.
pub(crate) const FAULTS: &str =
    "stage insert 1.9 'N line 9,0 10,10;insert 1.50 'Z line 3,3 3,3 => 2 Row(ZeroSegment)
stage insert 1.9 'N line 9,0 10,10;insert 1.50 'x*201 line 3,0 10,10 => 2 Row(WordsTooLong)
stage insert 1.9 'N line 9,0 10,10;update 1.1 'A line 1000000001,0 10,10 => 2 Row(OutOfRange)
stage insert 1.9 'N line 9,0 10,10;delete 1.1000000000000000 => 2 Row(OutOfRange)
stage insert 1.9 'N line 9,0 10,10;insert 1.1 'Q line 60,0 10,10 => 2 KeyTaken
stage insert 1.9 'N line 9,0 10,10;insert 1.9 'N line 9,0 10,10 => 2 KeyTaken
stage insert 1.9 'N line 9,0 10,10;update 1.77 'M line 7,0 10,10 => 2 NoRow
stage insert 1.9 'N line 9,0 10,10;delete 1.77 => 2 NoRow
stage insert 1.9 'N line 9,0 10,10;delete 1.9 => 0";

/// Changes that are set by cell, one after another. A change to the same row is none.
pub(crate) const CHANGES: &str =
    "set 1.2 none>A;1.1 A>B;1.3 A>A;1.4 B>none;1.2 none>B;1.4 none>none => 2 1:A>B 2:none>B";
