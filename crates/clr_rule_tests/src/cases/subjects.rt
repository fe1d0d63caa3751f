//! Which rows call a rule alone, and which parts of two rows, out of all numbers.

/// Rows that call, and rows that don't.
pub(crate) const ROWS: &str =
    "calls unique 1 0 | 1.1 'A line 0,0 10,10 | 1.2 'A line 0,0 10,10 => 1,1
calls unique 1 0 | 1.1 'A line 0,0 10,10 | 1.2 'B line 0,0 10,10 => none
calls unique 1 0 | 1.1 'A line 0,0 10,10 | 1.2 'a line 0,0 10,10 => none
calls unique 1 0 | 1.1 'A line 0,0 10,10 | 1.2 ' line 0,0 10,10 => none
calls unique 0:0='valve 0 | 0.9 'valve at 5,5 | 0.10 'valve at 5,5 => 1,1
calls unique 0:0='valve 0 | 0.9 'valve at 5,5 | 0.10 'tee at 5,5 => none
calls unique 0:0='valve 0 | 0.9 'tee at 5,5 | 0.10 'tee at 5,5 => none
calls partner 2:0=5 0 1 K | 2.6 5 at 50,5 => true
calls partner 2:0=5 0 1 K | 2.6 6 at 50,5 => false
calls first 1:0='A 0 | 1.1 'A line 0,0 10,10 => true
calls first 1:0='A 0 | 1.1 'B line 0,0 10,10 => false
calls unique 1 0 | 1.1 'A line 0,0 10,10 => false
calls partner 2:0=5 0 1 K | 2.6 5 at 50,5 | 2.7 5 at 50,5 => none
calls crossing 1 1 0 | 1.1 'A line 0,0 10,10 | 1.2 'C line 0,10 10,0 => 1,1
calls crossing 1 1 0 | 1.1 'A line 0,0 1,1 | 1.2 'C line 0,1 1,0 => 1,1
calls crossing 1 1 0 | 1.1 'A line 0,0 4,0 | 1.2 'C line 4,0 4,5 => 1,1
calls crossing 1 1 0 | 1.1 'A line 0,0 4,0 | 1.2 'C line 2,0 2,5 => 1,1
calls crossing 1 1 0 | 1.1 'A line 0,0 6,0 | 1.2 'C line 4,0 9,0 => 1,1
calls crossing 1 1 0 | 1.1 'A line -1000000000,-1000000000 1000000000,1000000000 | 1.2 'C line -1000000000,1000000000 1000000000,-1000000000 => 1,1
calls crossing 1 1 0 | 1.1 'A line 100,0 100,10 | 1.2 'C line 200,0 200,10 => none
calls crossing 1 1 0 | 1.1 'A line 0,0 4,0 | 1.2 'C line 5,0 9,0 => none
calls crossing 1 1 0 | 1.1 'A line 0,0 4,0 | 1.2 'C line 5,-1 5,1 => none
calls crossing 1:0='A 1:0='C 0 | 1.1 'A line 0,0 10,10 | 1.2 'C line 0,10 10,0 => 1,1
calls crossing 1:0='A 1:0='C 0 | 1.1 'A line 0,0 10,10 | 1.2 'A line 0,10 10,0 => none
calls crossing 1:0='A 1:0='C 0 | 1.1 'C line 0,0 10,10 | 1.2 'C line 0,10 10,0 => none
calls crossing 1:0='A 1:0='C 0 | 1.1 'A line 0,0 10,10 | 1.2 'B line 0,10 10,0 => none
calls crossing 1:0='A 1:0='C 0 | 1.1 'C line 0,0 10,10 | 1.2 'B line 0,10 10,0 => none
calls near 0 2 4 | 0.9 'valve at 0,0 | 2.6 5 at 3,4 => none
calls near 0 2 5 | 0.9 'valve at 0,0 | 2.6 5 at 3,4 => none
calls near 0 2 6 | 0.9 'valve at 0,0 | 2.6 5 at 3,4 => 1,1
calls near 0 2 1000000 | 0.9 'valve at 0,0 | 2.6 5 at 3,4 => 1,1
calls near 0 2 6 | 0.9 'valve at 5,5 | 0.10 'valve at 5,5 => none";

/// Parts of paths that call: the second crosses two parts of the first; touches one; meets a vertex of two;
/// overlaps one and crosses another; goes the same way; stays away, also from the open side; crosses twice with
/// two parts. Then whole rows, and how many parts are asked of.
pub(crate) const PARTS: &str =
    "calls crossing 4 4 0 | 4.1 'A path 0,0 10,0 10,10 0,10 | 4.2 'B path 5,-5 5,15 => 1,1 3,1
calls crossing 4 4 0 | 4.1 'A path 0,0 10,0 10,10 0,10 | 4.2 'B path 10,5 20,5 => 2,1
calls crossing 4 4 0 | 4.1 'A path 0,0 10,0 10,10 0,10 | 4.2 'B path 20,-10 10,0 20,10 => 1,1 1,2 2,1 2,2
calls crossing 4 4 0 | 4.1 'A path 0,0 10,0 10,10 0,10 | 4.2 'B path 2,0 8,0 8,5 15,5 => 1,1 1,2 2,3
calls crossing 4 4 0 | 4.1 'A path 0,0 10,0 10,10 0,10 | 4.2 'B path 0,0 10,0 10,10 0,10 => 1,1 1,2 2,1 2,2 2,3 3,2 3,3
calls crossing 4 4 0 | 4.1 'A path 0,0 10,0 10,10 0,10 | 4.2 'B path 20,0 20,10 => none
calls crossing 4 4 0 | 4.1 'A path 0,0 10,0 10,10 0,10 | 4.2 'B path 0,2 0,8 => none
calls crossing 4 4 0 | 4.1 'A path 0,0 10,0 10,10 0,10 | 4.2 'B path -5,5 15,5 5,15 5,-5 => 1,3 2,1 2,2 3,2 3,3
calls crossing 1 4 0 | 4.20 'D path 100,0 110,0 110,10 100,10 | 1.21 'E line 105,5 105,15 => 3,1
calls unique 4 0 | 4.1 'A path 0,0 10,0 10,10 | 4.2 'A path 50,0 60,0 60,10 => 1,1
calls near 0 0 5 | 0.9 'tee at 0,0 | 0.10 'tee at 0,0 => 1,1
parts crossing 4 4 0 | 4.1 'A path 0,0 10,0 10,10 0,10 => 3
parts crossing 4 4 0 | 1.1 'A line 0,0 10,0 => 1
parts crossing 4 4 0 | 0.9 'tee at 0,0 => 0
parts first 4 0 | 4.1 'A path 0,0 10,0 10,10 0,10 => 1";
