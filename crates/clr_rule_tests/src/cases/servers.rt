//! Which rows serve one row or two, and by which parts, out of all numbers.

/// Rows that serve, and rows that don't. Rules that none serves are called all the same.
pub(crate) const ROWS: &str =
    "serves partner 2 0 1 K | 2.6 5 at 50,5 | 1.5 'E line 50,0 50,10 => 1,1
serves partner 2 0 1 K | 2.6 5 at 50,5 | 1.6 'E line 50,0 50,10 => none
serves partner 2 0 1 K | 2.6 5 at 50,5 | 1.50 'E line 50,0 50,10 => none
serves partner 2 0 1 K | 2.6 5 at 50,5 | 0.5 'E at 50,5 => none
serves partner 2 0 2 K | 2.6 6 at 50,5 | 2.6 6 at 50,5 => 1,1
serves partner 2 0 2 K | 2.6 7 at 50,5 | 2.6 7 at 50,5 => none
serves first 1 0:0='valve | 1.1 'A line 0,1 10,20 | 0.9 'valve at 0,1 => 1,1
serves first 1 0:0='valve | 1.1 'A line 0,1 10,20 | 0.9 'valve at 10,20 => none
serves first 1 0:0='valve | 1.1 'A line 0,1 10,20 | 0.9 'tee at 0,1 => none
serves second 1 0:0='valve | 1.1 'A line 0,1 10,20 | 0.9 'valve at 10,20 => 1,1
serves second 1 0:0='valve | 1.1 'A line 0,1 10,20 | 0.9 'valve at 0,1 => none
serves second 1 0:0='valve | 1.1 'A line 0,1 10,20 | 0.9 'valve at 20,10 => none
serves crossing 1 1 0:0='valve | 1.1 'A line 0,0 10,10 | 1.2 'C line 0,10 10,0 | 0.9 'valve at 5,5 => 1,1
serves crossing 1 1 0:0='valve | 1.1 'A line 0,0 10,10 | 1.2 'C line 0,10 10,0 | 0.9 'valve at 4,4 => none
serves crossing 1 1 0:0='valve | 1.1 'A line 0,0 10,10 | 1.2 'C line 0,10 10,0 | 0.9 'valve at 4,6 => none
serves crossing 1 1 0:0='valve | 1.1 'A line 0,0 10,10 | 1.2 'C line 0,10 10,0 | 0.9 'valve at 5,6 => none
serves crossing 1 1 0:0='valve | 1.1 'A line 0,0 4,0 | 1.2 'C line 4,0 4,5 | 0.9 'valve at 4,0 => 1,1
serves crossing 1 1 0:0='valve | 1.1 'A line 0,0 1,1 | 1.2 'C line 0,1 1,0 | 0.9 'valve at 0,0 => none
serves crossing 1 1 0:0='valve | 1.1 'A line 0,0 1,1 | 1.2 'C line 0,1 1,0 | 0.9 'valve at 1,0 => none
serves crossing 1 1 0:0='valve | 1.1 'A line 0,0 6,0 | 1.2 'C line 4,0 9,0 | 0.9 'valve at 5,0 => none
serves crossing 1 1 0:0='valve | 1.1 'A line 0,0 6,0 | 1.2 'C line 4,0 9,0 | 0.9 'valve at 4,0 => none
serves crossing 1 1 0:0='valve | 1.1 'A line 100,0 100,10 | 1.2 'C line 200,0 200,10 | 0.9 'valve at 100,5 => none
serves crossing 1 1 0:0='valve | 1.1 'A line 0,0 10,10 | 1.2 'C line 0,10 10,0 | 0.9 'tee at 5,5 => none
serves crossing 1 1 0:0='valve | 1.1 'A line 0,0 10,10 | 0.9 'valve at 5,5 => none
calls unique 0 0 | 0.9 'valve at 5,5 | 0.10 'valve at 5,5 => 1,1
serves unique 0 0 | 0.9 'valve at 5,5 | 0.10 'valve at 5,5 | 0.9 'valve at 5,5 => none
calls near 0 0 1 | 0.9 'valve at 5,5 | 0.10 'valve at 5,5 => 1,1
serves near 0 0 1 | 0.9 'valve at 5,5 | 0.10 'valve at 5,5 | 0.9 'valve at 5,5 => none";

/// Parts of paths that a point serves. First parts that overlap have no server; at (8, 0) a part ends and the next
/// begins. Then the ends of paths.
pub(crate) const PARTS: &str =
    "serves crossing 4 4 0 | 4.1 'A path 0,0 10,0 10,10 0,10 | 4.2 'B path 5,-5 5,15 | 0.9 'tee at 5,10 => 3,1
serves crossing 4 4 0 | 4.1 'A path 0,0 10,0 10,10 0,10 | 4.2 'B path 5,-5 5,15 | 0.9 'tee at 5,5 => none
serves crossing 4 4 0 | 4.1 'A path 0,0 10,0 10,10 0,10 | 4.2 'B path 20,-10 10,0 20,10 | 0.9 'tee at 10,0 => 1,1 1,2 2,1 2,2
serves crossing 4 4 0 | 4.1 'A path 0,0 10,0 10,10 0,10 | 4.2 'B path 2,0 8,0 8,5 15,5 | 0.9 'tee at 8,0 => 1,2
serves crossing 4 4 0 | 4.1 'A path 0,0 10,0 10,10 0,10 | 4.2 'B path 2,0 8,0 8,5 15,5 | 0.9 'tee at 10,5 => 2,3
serves crossing 4 4 0 | 4.1 'A path 0,0 10,0 10,10 0,10 | 4.2 'B path 2,0 8,0 8,5 15,5 | 0.9 'tee at 4,0 => none
serves first 4 0 | 4.1 'A path 0,0 10,0 10,10 | 0.9 'tee at 0,0 => 1,1
calls first 4 0 | 4.1 'A path 0,1 10,2 20,3 => true
calls second 4 0 | 4.1 'A path 0,1 10,2 20,3 => true
serves first 4 0 | 4.1 'A path 0,1 10,2 20,3 | 0.9 'tee at 0,1 => 1,1
serves first 4 0 | 4.1 'A path 0,1 10,2 20,3 | 0.9 'tee at 10,2 => none
serves first 4 0 | 4.1 'A path 0,1 10,2 20,3 | 0.9 'tee at 20,3 => none
serves second 4 0 | 4.1 'A path 0,1 10,2 20,3 | 0.9 'tee at 20,3 => 1,1
serves second 4 0 | 4.1 'A path 0,1 10,2 20,3 | 0.9 'tee at 10,2 => none
serves second 4 0 | 4.1 'A path 0,1 10,2 20,3 | 0.9 'tee at 0,1 => none";
