//! Segments, places, boxes and shapes.

/// Segments that have no common point.
pub(crate) const APART: &str = "meet 0,0 3,0 4,0 9,0 => Apart
meet 0,0 3,3 4,4 9,9 => Apart
meet 0,0 0,6 0,7 0,9 => Apart
meet 0,0 4,0 5,0 5,5 => Apart
meet 0,0 4,0 2,1 2,5 => Apart
meet 0,0 4,4 1,0 5,4 => Apart
meet 1,3 3,3 -3,-1 -3,0 => Apart
meet 2,-2 1,1 -2,3 -3,3 => Apart
meet -3,1 4,-1 -3,-5 3,-5 => Apart
meet -2,-2 -3,-3 3,3 0,0 => Apart
meet 1,-1 0,0 3,-3 3,-2 => Apart
meet 1,-1 0,1 -2,-2 3,-2 => Apart
meet -3,-1 1,-4 5,-1 -4,1 => Apart
meet -2,4 0,0 5,0 1,-1 => Apart
meet 2,-5 -2,-1 5,-5 3,-4 => Apart
meet -2,1 -3,-3 -1,-2 1,3 => Apart
meet -2,-2 -2,2 -1,2 2,0 => Apart
meet 2,1 1,1 0,0 0,1 => Apart
meet 99999,999999999 100000,999999999 500000000,-1 -100000,99999 => Apart
meet 999999999,-1000000000 1000000000,500000000 -100001,500000000 999999999,-1 => Apart
meet -100001,-1 1,1 100000,500000000 1,-999999999 => Apart
meet 100000,-999999999 99999,-999999999 -1,1 -100000,-1 => Apart";

/// Segments that have one: touching ends, T-junctions, crossings.
pub(crate) const ONCE: &str = "meet 0,0 4,0 4,0 4,5 => Once
meet 0,0 1,1 0,1 1,0 => Once
meet 0,0 500000,0 250000,-1000 250000,1000 => Once
meet -1000000000,-1000000000 1000000000,1000000000 -1000000000,1000000000 1000000000,-1000000000 => Once
meet 0,0 4,0 4,0 9,0 => Once
meet 0,0 4,4 4,4 9,9 => Once
meet 0,0 4,0 2,0 2,5 => Once
meet 0,0 0,6 0,6 0,9 => Once
meet 2,-1 1,1 2,-1 0,-1 => Once
meet 2,3 0,0 2,-2 -1,1 => Once
meet 2,0 -1,1 1,2 2,-1 => Once
meet 2,-1 2,3 3,-2 2,0 => Once
meet -2,0 1,-3 1,-2 0,-2 => Once
meet -1,-1 0,-1 -1,-2 2,2 => Once
meet 0,3 0,-3 2,-3 -1,3 => Once
meet 0,0 -2,3 0,2 -2,-3 => Once
meet -3,3 4,3 -1,4 -2,-1 => Once
meet -3,-3 5,1 1,2 0,-5 => Once
meet -1,1 3,-3 2,3 3,-3 => Once
meet 0,0 -6,3 0,0 6,-3 => Once
meet -3,-6 -2,-4 -2,-4 -1,-2 => Once
meet 1,-1 -3,3 3,3 1,-1 => Once
meet 1000000000,1 1,-1000000000 1,-999999999 1000000000,-1 => Once
meet 0,-250000000 0,0 0,125000000 0,0 => Once
meet -100001,-100001 -100000,999999999 100000,0 -1000000000,999999999 => Once
meet 100000,-1 -100001,-100000 -1000000000,-999999999 99999,100000 => Once";

/// Segments that have more: end over end, nested, equal.
pub(crate) const OVERLAP: &str = "meet 0,0 6,0 4,0 9,0 => Overlap
meet 0,0 6,0 2,0 4,0 => Overlap
meet 0,0 6,0 0,0 4,0 => Overlap
meet 0,0 6,0 0,0 6,0 => Overlap
meet 0,0 6,6 2,2 9,9 => Overlap
meet 0,0 0,6 0,4 0,9 => Overlap
meet -1000000000,-1000000000 1000000000,1000000000 -1000000000,-1000000000 1000000000,1000000000 => Overlap
meet 0,0 -2,-4 -1,-2 -2,-4 => Overlap
meet -3,0 0,0 -1,0 1,0 => Overlap
meet 0,0 2,-2 0,0 2,-2 => Overlap
meet 2,2 -6,-6 -4,-4 -2,-2 => Overlap
meet 0,0 -2,2 -2,2 2,-2 => Overlap
meet 0,1 0,-3 0,2 0,-2 => Overlap
meet -2,0 -1,0 2,0 -2,0 => Overlap
meet -3,6 0,0 1,-2 -3,6 => Overlap
meet 0,0 0,4 0,-6 0,6 => Overlap
meet 0,0 3,3 2,2 -1,-1 => Overlap
meet -2,-3 -2,-2 -2,-3 -2,2 => Overlap
meet -3,-6 3,6 3,6 -1,-2 => Overlap
meet 125000000,-250000000 -375000000,750000000 -375000000,750000000 250000000,-500000000 => Overlap
meet -375000000,-375000000 125000000,125000000 -250000000,-250000000 -125000000,-125000000 => Overlap
meet 0,-500000000 0,750000000 0,750000000 0,-250000000 => Overlap
meet -375000000,750000000 -125000000,250000000 -125000000,250000000 -375000000,750000000 => Overlap";

/// A place and a segment that it is on, or not.
pub(crate) const LYING: &str = "lies 2,-1 2,-1 1,1 => true
lies -1,-2 0,0 -2,-4 => true
lies -1,0 -3,0 0,0 => true
lies 0,0 0,0 2,-2 => true
lies -2,2 0,0 -2,2 => true
lies -2,-1 -2,-1 0,1 => true
lies 2,2 0,0 3,3 => true
lies -2,-3 -2,-3 -2,-2 => true
lies 3,6 -3,-6 3,6 => true
lies 0,0 0,0 -6,3 => true
lies -375000000,750000000 125000000,-250000000 -375000000,750000000 => true
lies -250000000,-250000000 -375000000,-375000000 125000000,125000000 => true
lies 0,750000000 0,-500000000 0,750000000 => true
lies -125000000,250000000 -375000000,750000000 -125000000,250000000 => true
lies -3,-1 1,3 3,3 => false
lies -2,3 2,-2 1,1 => false
lies 3,3 -2,-2 -3,-3 => false
lies 1,2 2,-2 0,0 => false
lies 1,-3 1,4 -1,-2 => false
lies 5,-1 -3,-1 1,-4 => false
lies -1,-2 -2,1 -3,-3 => false
lies -1,2 -2,-2 -2,2 => false
lies 1,-2 -2,0 1,-3 => false
lies 2,0 -2,0 -1,0 => false
lies 0,-6 0,0 0,4 => false
lies 0,2 0,0 -2,3 => false
lies 1,2 -3,-3 5,1 => false
lies 0,1 -2,1 0,2 => false
lies 500000000,-1 99999,999999999 100000,999999999 => false
lies -100000,-1 -100001,100000 500000000,999999999 => false
lies 0,125000000 0,-250000000 0,0 => false
lies 100000,0 -100001,-100001 -100000,999999999 => false";

/// Whether the last place is to the left of the way from the first to the second, to the right, or on its line.
pub(crate) const SIDES: &str =
    "turn -1000000000,-1000000000 1000000000,1000000000 -1000000000,1000000000 => 1
turn 1,2 -1,2 2,-1 => 1
turn 5,4 2,-4 5,1 => 1
turn -3,0 -1,-2 1,-1 => 1
turn -1,3 2,-3 2,0 => 1
turn -5,1 2,-2 -4,5 => 1
turn -1,3 5,-1 4,5 => 1
turn 1,-1 1000000000,-1000000000 1000000000,100000 => 1
turn -100000,99999 1,100000 999999999,500000000 => 1
turn -1000000000,-999999999 -1,100000 -100001,999999999 => 1
turn 0,100000 100000,999999999 -1000000000,-100001 => 1
turn -4,2 5,3 -4,-3 => -1
turn -3,-3 3,1 2,-1 => -1
turn -4,-5 -5,-5 -4,-2 => -1
turn -1,4 -2,-4 -5,-5 => -1
turn -3,3 0,-2 -2,-3 => -1
turn 4,-2 -3,3 1,4 => -1
turn -100000,-999999999 1,1000000000 500000000,-1000000000 => -1
turn -999999999,1000000000 1000000000,999999999 -999999999,999999999 => -1
turn -1000000000,99999 500000000,100000 -1000000000,0 => -1
turn -100000,999999999 500000000,-100001 1,100000 => -1
turn -1,-2 2,4 -3,-6 => 0
turn 0,-3 -2,-3 3,-3 => 0
turn 1,1 2,2 -3,-3 => 0
turn 0,2 0,-3 0,2 => 0
turn 4,2 -4,-2 4,2 => 0
turn 2,-1 3,3 2,-1 => 0
turn 0,0 500000000,-500000000 -500000000,500000000 => 0
turn 250000000,0 500000000,0 -500000000,0 => 0
turn 125000000,-250000000 250000000,-500000000 375000000,-750000000 => 0
turn 250000000,0 0,0 -250000000,0 => 0";

/// Boxes, by their least and most places, that touch or not; and the box of two places.
pub(crate) const BOXES: &str = "touch -2,1 -1,2 -1,-1 2,2 => true
touch -3,-3 3,1 -2,-1 2,1 => true
touch -2,1 -1,2 -1,-2 1,1 => true
touch -4,-2 5,5 -5,-1 0,3 => true
touch -6,0 0,3 -4,1 -2,2 => true
touch 1,-5 1,2 -1,-1 2,5 => true
touch 0,0 0,4 0,-2 0,6 => true
touch 0,0 1,2 1,2 2,4 => true
touch -100000,-999999999 1,1000000000 -999999999,-1000000000 500000000,-999999999 => true
touch -100000,-100001 -1,999999999 -999999999,500000000 500000000,999999999 => true
touch 250000000,125000000 500000000,250000000 250000000,125000000 500000000,250000000 => true
touch 0,0 250000000,0 -250000000,0 250000000,0 => true
touch -4,2 5,3 -4,-3 3,1 => false
touch -1,2 1,2 1,-2 2,-1 => false
touch -3,3 1,3 -5,-1 -4,3 => false
touch 2,-4 3,-2 -2,-5 -1,1 => false
touch 2,-1 2,2 0,0 1,1 => false
touch 1,1 2,2 -3,-3 0,0 => false
touch -100000,-100001 99999,1 1,99999 99999,500000000 => false
touch -100001,-100001 -100001,1000000000 1,-100001 500000000,-100000 => false
touch -999999999,-1 999999999,1 1,-100001 1000000000,-100001 => false
touch -100000,99999 1,100000 999999999,-1000000000 1000000000,500000000 => false
box 4,-1 -2,7 => -2,-1 4,7";

/// A distance and two places.
pub(crate) const NEARNESS: &str = "near 6 0,0 3,4 => true
near 1 7,7 7,7 => true
near 6 7,7 7,7 => true
near 5 0,0 3,4 => false
near 1 0,0 3,4 => false
near 1 0,0 600000,800000 => false
near 6 -1000000000,1 -1,-999999999 => false
near 1 1,-100001 500000000,-999999999 => false
near 6 99999,1 99999,999999999 => false";

/// How many parts a shape has, and the ends of each part.
pub(crate) const PARTS: &str = "parts none => 0
parts at 1,2 => 0
parts line 1,2 3,4 => 1
parts walk 0 1 => 0
parts walk 1 1 => 0
parts walk 2 1 => 1
parts walk 3 1 => 2
parts walk 32 1 => 31
parts walk 33 1 => 32
parts walk 65535 1 => 65534
part 1 none => none
part 1 at 1,2 => none
part 0 line 1,2 3,4 => none
part 1 line 1,2 3,4 => 1,2 3,4
part 2 line 1,2 3,4 => none
part 0 path 100,0 110,0 110,10 100,10 => none
part 1 path 100,0 110,0 110,10 100,10 => 100,0 110,0
part 2 path 100,0 110,0 110,10 100,10 => 110,0 110,10
part 3 path 100,0 110,0 110,10 100,10 => 110,10 100,10
part 4 path 100,0 110,0 110,10 100,10 => none
part 65535 path 100,0 110,0 110,10 100,10 => none
part 31 walk 32 1 => 30,0 31,0
part 32 walk 32 1 => none";

/// The boxes of shapes.
pub(crate) const BOUNDS: &str = "bounds none => none
bounds at -4,7 => -4,7 -4,7
bounds line 5,-1 2,3 => 2,-1 5,3
bounds path 0,0 9,-3 4,8 -2,1 => -2,-3 9,8
bounds path - => none";
