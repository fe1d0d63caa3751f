//! Calls on trees, with what each answers or leaves.
/// Beside three levels D, which has a child, and is in conflict with LIVE at key 7.
pub(crate) const CONFLICT: &str = "D create LIVE
D mark s
D put 7 3
E create D
LIVE put 7 4
";

/// What these are.
pub(crate) const CONFLICT_TEXT: &str = "LIVE now 1=1 2=1 3=9 7=4
A under LIVE base 1=1 2=1 3=1 now 1=2 3=1 6=8 saved s 1=1 2=1 3=1 child B saved t 1=2 3=1
B under A base 1=2 3=1 now 1=5 2=7 3=1 4=3 saved s 1=2 3=1 saved t 1=2 3=1 4=3 child C saved u 1=5 3=1 4=3
C under B base 1=5 3=1 4=3 now 1=5 4=3 5=6 saved s 1=5 3=1 4=3
D under LIVE base 1=1 2=1 3=9 7=1 now 1=1 2=1 3=9 7=3 saved s 1=1 2=1 3=9 7=1 child E
E under D base 1=1 2=1 3=9 7=3 now 1=1 2=1 3=9 7=3
";

/// What is asked of them, and what isn't as before then, or what is answered.
pub(crate) const CALLS: &str = "F create B
--
B under A base 1=2 3=1 now 1=5 2=7 3=1 4=3 saved s 1=2 3=1 saved t 1=2 3=1 4=3 child C saved u 1=5 3=1 4=3 child F
F under B base 1=5 2=7 3=1 4=3 now 1=5 2=7 3=1 4=3
==
LIVE put 1 7
--
LIVE now 1=7 2=1 3=9 7=4
==
LIVE delete 2
--
LIVE now 1=1 3=9 7=4
==
B put 2 4
--
B under A base 1=2 3=1 now 1=5 2=4 3=1 4=3 saved s 1=2 3=1 saved t 1=2 3=1 4=3 child C saved u 1=5 3=1 4=3
==
A delete 3
--
A under LIVE base 1=1 2=1 3=1 now 1=2 6=8 saved s 1=1 2=1 3=1 child B saved t 1=2 3=1
==
B mark v
--
B under A base 1=2 3=1 now 1=5 2=7 3=1 4=3 saved s 1=2 3=1 saved t 1=2 3=1 4=3 child C saved u 1=5 3=1 4=3 saved v 1=5 2=7 3=1 4=3
==
A rollto t
--
A under LIVE base 1=1 2=1 3=1 now 1=2 3=1 saved s 1=1 2=1 3=1 child B saved t 1=2 3=1
==
B rollto u
--
B under A base 1=2 3=1 now 1=5 3=1 4=3 saved s 1=2 3=1 saved t 1=2 3=1 4=3 child C saved u 1=5 3=1 4=3
==
A refresh
--
A under LIVE base 1=1 2=1 3=9 7=4 now 1=2 3=9 6=8 7=4 child B
==
A refresh_changes
--
A under LIVE base 1=1 2=1 3=9 7=4 now 1=2 3=9 6=8 7=4 child B
==
B refresh
--
A under LIVE base 1=1 2=1 3=1 now 1=2 3=1 6=8 saved s 1=1 2=1 3=1 saved t 1=2 3=1 child B
B under A base 1=2 3=1 6=8 now 1=5 2=7 3=1 4=3 6=8 child C
==
B refresh_changes
--
A under LIVE base 1=1 2=1 3=1 now 1=2 3=1 6=8 saved s 1=1 2=1 3=1 saved t 1=2 3=1 child B
B under A base 1=2 3=1 6=8 now 1=5 2=7 3=1 4=3 6=8 child C
==
A merge
--
LIVE now 1=2 3=9 6=8 7=4
A under LIVE base 1=2 3=1 6=8 now 1=2 3=1 6=8 child B
==
A merge_changes
--
LIVE now 1=2 3=9 6=8 7=4
A under LIVE base 1=2 3=1 6=8 now 1=2 3=1 6=8 child B
==
B merge
--
A under LIVE base 1=1 2=1 3=1 now 1=5 2=7 3=1 4=3 6=8 saved s 1=1 2=1 3=1 child B saved t 1=2 3=1
B under A base 1=5 2=7 3=1 4=3 now 1=5 2=7 3=1 4=3 child C
==
B merge_changes
--
A under LIVE base 1=1 2=1 3=1 now 1=5 2=7 3=1 4=3 6=8 saved s 1=1 2=1 3=1 child B saved t 1=2 3=1
B under A base 1=5 2=7 3=1 4=3 now 1=5 2=7 3=1 4=3 child C
==
D resolve 7 parent
--
D under LIVE base 1=1 2=1 3=9 7=4 now 1=1 2=1 3=9 7=4 saved s 1=1 2=1 3=9 7=1 child E
==
D resolve 7 child
--
D under LIVE base 1=1 2=1 3=9 7=4 now 1=1 2=1 3=9 7=3 saved s 1=1 2=1 3=9 7=1 child E
==
D resolve 7 base
--
D under LIVE base 1=1 2=1 3=9 7=4 now 1=1 2=1 3=9 7=1 saved s 1=1 2=1 3=9 7=1 child E
==
B changes
--
 1:2>5 2:0>7 4:0>3
==
A to_base
--
 1:2>1 2:0>1 6:8>0
==
B to_saved t
--
 1:5>2 2:7>0
==
A to_refreshed
--
 3:1>9 7:0>4
==
C rows
--
 1=5 4=3 5=6
==
B base
--
 1=2 3=1
==
B saved t
--
 1=2 3=1 4=3
==
B part
--
B under A base 1=2 3=1 now 1=5 2=7 3=1 4=3 saved s 1=2 3=1 saved t 1=2 3=1 4=3 child C saved u 1=5 3=1 4=3
==
LIVE new
--
LIVE now 1=1 2=1 3=9 7=4
==
LIVE build
--
LIVE now 1=1 2=1 3=9 7=4
A under LIVE base 1=1 2=1 3=1 now 1=2 3=1 6=8 saved s 1=1 2=1 3=1 child B saved t 1=2 3=1
B under A base 1=2 3=1 now 1=5 2=7 3=1 4=3 saved s 1=2 3=1 saved t 1=2 3=1 4=3 child C saved u 1=5 3=1 4=3
C under B base 1=5 3=1 4=3 now 1=5 4=3 5=6 saved s 1=5 3=1 4=3
D under LIVE base 1=1 2=1 3=9 7=1 now 1=1 2=1 3=9 7=3 saved s 1=1 2=1 3=9 7=1 child E
E under D base 1=1 2=1 3=9 7=3 now 1=1 2=1 3=9 7=3
==
LIVE deltas
--
LIVE now 1=1 2=1 3=9 7=4
A under LIVE base 1=1 2=5 3=9 7=4 now 1=1 2=5 3=2 7=4 saved s 1=1 2=5 3=7 7=4 child B kept
B under A base 1=1 2=5 3=2 7=4 now 1=3 3=2 7=4 kept
==
";
