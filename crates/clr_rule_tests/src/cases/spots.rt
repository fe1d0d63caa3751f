//! The spots of rows, over texts and numbers.

/// The values of rows under uniques.
pub(crate) const UNIQUES: &str = "spots unique 0 0+1 | 0.3 'c+3 at 0,0 => ('c 3)
spots unique 0 0 | 0.7 'c+2 at -110000,-170000 => ('c)
spots unique 1 0+1 | 1.4 'a+3 line -3,149997 -3,-3 => ('a 3)
spots unique 2 0 | 2.3 3 at 3,0 => (3)
spots unique 2 0 | 0.3 'b+4 at -199996,-200000 => none
spots unique 1:0='d 0+1 | 1.9 'a+3 line -2,-2 -3,1 => none
spots unique 0:1=3 1 | 0.9 'a+4 at 300005,100005 => none
spots unique 0:1=2 0+1 | 3.7 'a+1 path 30005,5 120005,60005 120005,90005 => none
spots unique 0:0='a 1 | 0.1 'a+-7 at 0,0 => (-7)
spots unique 0:0='A 1 | 0.1 'a+-7 at 0,0 => none
spots unique 0:1=-7 1 | 0.1 'a+-7 at 0,0 => (-7)
spots unique 0:1=-7:0='a 1 | 0.1 'a+-7 at 0,0 => (-7)
spots unique 0:1=-7:0='b 1 | 0.1 'a+-7 at 0,0 => none";

/// The values of rows under partners.
pub(crate) const PARTNERS: &str =
    "spots partner 1:1=2 K 0:0='c 1 | 1.7 'd+2 line 0,300000 100000,300000 => (7)
spots partner 1 K 0 1 | 0.5 'a+2 at 399997,399997 => (2)
spots partner 0 1 0 K | 0.5 'b+1 at 400000,200000 => (1) (5)
spots partner 1 1 1 K | 1.1 'b+2 line 199998,399996 99999,0 => (2) (1)
spots partner 1 1+1 0 1+K | 0.2 'c+3 at -100000,100000 => (3 2)
spots partner 2:0=4 0 1:0='c 1 | 2.4 4 at 7,9 => (4)
spots partner 1:0='d K 0 1 | 1.5 'a+2 line 120000,30000 0,0 => none
spots partner 2 0 0 1 | 1.8 'c+2 line 4000000,2000000 0,4000000 => none
spots partner 2 0 1 K | 1.2 'a+4 line 4,3 2,3 => (2)
spots partner 1:0='b 1+1 0 1+K | 1.2 'b+1 line 200000,100000 400000,100000 => (1 1)
spots partner 1 0 1 0 | 1.4 'd+4 line 4000000,2000000 4000000,3000000 => ('d)
spots partner 2 0 3 K | 3.5 'c+2 path 400000,100000 300000,400000 400000,400000 => (5)
spots partner 3 0 0:0='c 0 | 3.4 'a+2 path -80000,-80000 -140000,-80000 => ('a)
spots partner 3 1+1 0:0='a 1+K | 3.1 'd+4 path 89997,-3 29997,-3 -3,119997 => (4 4)";

/// The squares of rows under nodes at ends.
pub(crate) const END_NODES: &str =
    "spots second 1 0:1=2 | 1.1 'c+2 line 99999,399996 299997,399996 => 2,3
spots first 1 0 | 1.5 'd+4 line 120000,0 0,90000 => 1,0
spots second 1:0='a 0 | 1.7 'a+4 line 300002,100004 5,5 => 0,0
spots second 1 0 | 0.6 'c+2 at 199996,-2 => 1,-1
spots first 1 0 | 0.6 'd+3 at -199999,-199999 => -2,-2
spots second 1:0='c 0:1=4 | 1.8 'a+4 line 99999,99999 399996,399996 => none
spots second 1 0:0='c | 2.7 2 at 299997,-3 => none
spots first 3 0 | 3.3 'b+1 path 399996,0 299997,0 => 3,0
spots first 3 0:1=4 | 3.4 'c+4 path -3,149997 299997,599997 449997,449997 599997,449997 => -1,1
spots second 3:0='d 0 | 3.3 'b+3 path -199997,-199998 -200000,-199997 -199997,-199999 -199998,-199997 => none";

/// The squares of rows under crossings.
pub(crate) const CROSSINGS: &str =
    "spots crossing 1:1=1 1 0 | 1.6 'd+1 line -1,-1 -1,99999 => -1,-1 -1,0
spots crossing 1 1 0 | 1.5 'a+4 line -1,0 0,100000 => -1,0 -1,1 0,0 0,1
spots crossing 1:1=2 1 0 | 1.6 'd+2 line 0,0 1,700000 => 0,0 0,1 0,2 0,3 0,4 0,5 0,6 0,7
spots crossing 1 1:1=1 0:1=1 | 1.2 'a+1 line 149997,299997 -3,449997 => -1,2 -1,3 -1,4 0,2 0,3 0,4 1,2 1,3 1,4
spots crossing 1 1 0 | 1.8 'b+4 line 99999,-1 6399999,99999 => wide
spots crossing 1 1 0 | 1.1 'c+1 line -1,50 6299999,800050 => wide
spots crossing 1 1 0 | 0.5 'c+4 at -1,-1 => -1,-1
spots crossing 1 1 0 | 0.8 'b+3 at 199996,-100001 => 1,-2
spots crossing 1:1=2 1:1=1 0:1=4 | 0.5 'a+1 at 399997,199997 => none
spots crossing 1 1 0:0='d | 1.9 'd+2 line 150005,5 600005,5 => 1,0 2,0 3,0 4,0 5,0 6,0
spots crossing 3:0='a 3 0 | 3.5 'b+4 path 5,5 100004,100004 => 0,0 0,1 1,0 1,1
spots crossing 3 3:0='c 0 | 3.3 'c+2 path 2999997,1999997 1999997,-3 => wide
spots crossing 3 3 0:1=4 | 3.7 'a+2 path -140000,-140000 -200000,-170000 => -2,-2
spots crossing 3 3:1=3 0 | 3.5 'c+2 path 0,0 1000000,0 3000000,0 3000000,4000000 => wide
spots crossing 1 1 0 | 1.1 'a+1 line 0,0 500000,0 => 0,0 1,0 2,0 3,0 4,0 5,0
spots crossing 1 1 0 | 1.1 'a+1 line 250000,-1000 250000,1000 => 2,-1 2,0";

/// The squares of rows under nearness.
pub(crate) const NEARS: &str =
    "spots near 0:0='d 0 100000 | 0.7 'b+4 at 200005,5 => 1,-1 1,0 1,1 2,-1 2,0 2,1 3,-1 3,0 3,1
spots near 0 0:1=2 1000000 | 0.2 'c+3 at 3999997,999997 => wide
spots near 0 0 1 | 0.7 'd+2 at 0,30000 => -1,0 0,0
spots near 0 0:1=3 1 | 0.4 'b+3 at 0,0 => -1,-1 -1,0 0,-1 0,0
spots near 0:1=1 2 1 | 2.1 1 at 400000,400000 => 3,3 3,4 4,3 4,4
spots near 0 0 60000 | 0.1 'd+3 at -200000,-170000 => -3,-3 -3,-2 -2,-3 -2,-2
spots near 0 2 1 | 2.9 1 at 150000,150000 => 1,1
spots near 0 2 1 | 1.5 'b+2 line 99999,299997 0,0 => none
spots near 0:1=3 0:1=4 199998 | 0.9 'b+1 at -3,199995 => none";

/// How many squares rows have under crossings: up to 64, each once, by the boxes of their parts.
pub(crate) const COUNTS: &str = "count crossing 1 1 0 | 1.1 'a+1 line 0,0 700000,700000 => 64
count crossing 1 1 0 | 1.1 'a+1 line 0,0 6399999,0 => 64
count crossing 1 1 0 | 1.1 'a+1 line 0,0 6400000,0 => 0 wide
count crossing 1 1 0 | 1.1 'a+1 line 0,0 800000,700000 => 0 wide
count crossing 1 1 0 | 1.1 'a+1 line -1000000000,-1000000000 1000000000,1000000000 => 0 wide
count crossing 1 1 0 | 1.1 'a+1 line -1000000000,1000000000 1000000000,-1000000000 => 0 wide
count crossing 3 3 0 | 3.1 'a+1 path 0,0 700000,700000 => 64
count crossing 3 3 0 | 3.1 'a+1 path 0,0 1000000,0 1000000,1000000 => 21
count crossing 3 3 0 | 3.1 'a+1 path 0,0 500000,0 0,0 500000,0 => 6
count crossing 3 3 0 | 3.1 'a+1 path 0,0 3199999,0 6399999,0 => 64
count crossing 3 3 0 | 3.1 'a+1 path 0,0 3199999,0 6400000,0 => 0 wide
count crossing 3 3 0 | 3.1 'a+1 path 0,0 10,10 6400010,10 => 0 wide
count crossing 3 3 0 | 3.1 'a+1 path -1000000000,-1000000000 1000000000,1000000000 -1000000000,1000000000 => 0 wide
count crossing 3 3 0 | 3.1 'a+1 path 5,5 100004,100004 => 4";
