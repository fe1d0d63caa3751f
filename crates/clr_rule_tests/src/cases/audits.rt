//! Contents, as cases that empty lines part. The first line of a case has its rules. Each other line puts a row in, or
//! says what is broken: the rule, the cells of the subjects, or one and `alone`, and their parts.

/// A crossing without a node and with one. New mains apart, and a hydrant without its main and with it. Mains that meet
/// between whole places, and mains that overlap. Needs by rule, first cell and second cell. Ends, and points on two sides
/// of a border of squares.
pub(crate) const CONTENTS: &str = "unique 1 0; crossing 1 1 0; partner 2 0 1 K
1.1 'A line 0,0 10,10
1.2 'C line 0,10 10,0
broken 1 1.1 1.2 1,1
0.9 'valve at 5,5
broken none

unique 1 0; crossing 1 1 0; partner 2 0 1 K
1.1 'A line 0,0 10,10
1.2 'C line 0,10 10,0
0.9 'valve at 5,5
1.20 'D line 100,0 100,10
1.21 'E line 200,0 200,10
2.6 5 at 50,5
broken 2 2.6 alone 1,1
1.5 'F line 50,0 50,10
broken none
1.30 'A line 300,0 300,10
broken 0 1.1 1.30 1,1

unique 1 0; crossing 1 1 0; partner 2 0 1 K
1.20 'D line 100,0 101,1
1.21 'E line 100,1 101,0
0.20 'tee at 5,-50
1.30 'F line 0,-50 6,-50
1.31 'G line 4,-50 9,-50
broken 1 1.20 1.21 1,1; 1 1.30 1.31 1,1

unique 1 0; crossing 1 1 0; partner 2 0 1 K
1.4 'A line 900000,0 900000,7
1.2 'A line 0,10 10,0
1.3 'B line 0,2 10,2
1.1 'A line 0,0 10,10
0.9 'valve at 5,5
2.6 5 at 50,5
2.7 4 at 50,5
2.8 77 at 50,5
broken 0 1.1 1.2 1,1; 0 1.1 1.4 1,1; 0 1.2 1.4 1,1; 1 1.1 1.3 1,1; 1 1.2 1.3 1,1; 2 2.6 alone 1,1; 2 2.8 alone 1,1

second 1 0; near 0 0 10
1.1 'A line 0,0 99999,0
1.2 'B line 99999,0 0,0
0.3 'valve at 99999,0
0.4 'valve at 100001,0
0.5 'valve at 100011,0
broken 0 1.2 alone 1,1; 1 0.3 0.4 1,1";

/// A wide main meets short ones, of lesser and greater keys. Two wide mains. A star whose node has the greatest key. Mains
/// on one side alone, on the other alone, and on neither. Sides of two tables.
pub(crate) const CROSSINGS: &str = "crossing 1 1 0
1.1 'A line 6000000,-10 6000000,10
1.2 'B line 0,0 6400000,0
1.3 'C line 300000,-10 300000,10
1.4 'D line 200000,-10 200000,10
0.9 'valve at 300000,0
broken 0 1.1 1.2 1,1; 0 1.2 1.4 1,1

crossing 1 1 0
1.1 'A line -1000000000,-1000000000 1000000000,1000000000
1.2 'B line -1000000000,1000000000 1000000000,-1000000000
broken 0 1.1 1.2 1,1
0.9 'valve at 0,0
broken none

crossing 1 1 0
1.1 'A line 0,0 10,10
1.2 'A line 0,0 10,20
1.3 'A line 0,0 10,30
broken 0 1.1 1.2 1,1; 0 1.1 1.3 1,1; 0 1.2 1.3 1,1
0.999999999999999 'valve at 0,0
broken none

crossing 1:0='old 1:0='new 0:0='tee
1.1 'old line 0,0 10,10
1.2 'new line 0,0 10,20
1.3 'old line 0,0 10,30
1.4 'new line 0,0 10,40
1.5 'none line 0,0 10,50
broken 0 1.1 1.2 1,1; 0 1.1 1.4 1,1; 0 1.2 1.3 1,1; 0 1.3 1.4 1,1
0.1 'valve at 0,0
broken 0 1.1 1.2 1,1; 0 1.1 1.4 1,1; 0 1.2 1.3 1,1; 0 1.3 1.4 1,1
0.2 'tee at 0,0
broken none

crossing 4 1 0
1.1 'A line 0,0 10,10
1.2 'B line 0,10 10,0
4.1 'C path 0,8 20,8 20,20
broken 0 1.1 4.1 1,1; 0 1.2 4.1 1,1
0.1 'tee at 2,8
broken 0 1.1 4.1 1,1";

/// Rows that serve themselves, another or none. A filter on the server's side.
pub(crate) const PARTNERS: &str = "partner 2 0 2 K
2.1 1 at 0,0
2.2 1 at 0,0
2.3 4 at 0,0
broken 0 2.3 alone 1,1

partner 1 0 1:0='new 0
1.1 'new line 0,0 10,1
1.2 'old line 0,0 10,2
1.3 'new line 0,0 10,3
1.4 'old line 0,0 10,4
broken 0 1.2 alone 1,1; 0 1.4 alone 1,1";

/// A pipe through two parts of another. A vertex which two parts of each share. An overlap and a crossing; a pipe never
/// calls with itself. Pipes of too many squares as a whole, and in one part. A node at the last vertex, not the second. A
/// pipe of eight parts, and one of nine, which a quick audit leaves to a whole one.
pub(crate) const PATHS: &str = "crossing 4 4 0
0.30 'tee at 105,0
4.20 'D path 100,0 110,0 110,10 100,10
4.21 'E path 105,-5 105,15
broken 0 4.20 4.21 3,1
0.31 'tee at 105,10
broken none

crossing 4 4 0
4.1 'A path 0,0 10,0 20,10
4.2 'B path 10,-10 10,0 0,10
broken 0 4.1 4.2 1,1; 0 4.1 4.2 1,2; 0 4.1 4.2 2,1; 0 4.1 4.2 2,2
0.1 'tee at 10,0
broken none

crossing 4 4 0
4.1 'A path 0,0 10,0 10,10 -5,10 5,-5
broken none
4.2 'B path 8,5 12,5 12,20 20,20
4.3 'C path 14,20 30,20
0.1 'tee at 10,5
0.2 'tee at 15,20
broken 0 4.2 4.3 3,1

crossing 4 4 0
4.1 'A path 0,0 2000000,0 2000000,2000000
4.2 'B path -5000000,50 5000000,50 5000000,60
4.3 'C path 1000000,-5 1000000,5
broken 0 4.1 4.2 2,1; 0 4.1 4.3 1,1
0.1 'tee at 2000000,50
broken 0 4.1 4.3 1,1

second 4 0
4.1 'A path 0,0 10,0 20,10
0.1 'tee at 10,0
broken 0 4.1 alone 1,1
0.2 'tee at 20,10
broken none

crossing 4 4 0
4.1 'A path 0,0 10,0 20,0 30,0 40,0 50,0 60,0 70,0 80,0
4.2 'B path 75,-5 75,5
broken 0 4.1 4.2 8,1
0.1 'tee at 75,0
broken none

crossing 4 4 0
4.1 'A path 0,0 10,0 20,0 30,0 40,0 50,0 60,0 70,0 80,0 90,0
4.2 'B path 85,-5 85,5
broken 0 4.1 4.2 9,1
0.1 'tee at 85,0
unseen";
