//! Places for labels, so that none lies over another.

ghost use Rattle.std.specs.Prelude.{◌≡◌, ◌++◌, ◌∷◌, [], IfOk, IfSome, IsTrue, OnOk};
ghost use Rattle.clr_viewports.specs.Areas.{CoversNone};
ghost use Rattle.clr_drawing.specs.Labels.{TakesPlace};

use clr_svg::{PagePoint, Pixels};
use clr_viewports::Area;
use std::alloc::{AllocError, Global};

/// The most anchors that are tried for a label.
const MOST_ANCHORS: usize = 24;

/// How far from its anchor a label is tried, in tenths of the gap.
const DISTANCES: [i64; 3] = [10, 19, 32];

/// In which directions from its anchor a label is tried, in tenths.
const DIRECTIONS: [(i64, i64); 8] = [
    (7, -7),
    (7, 7),
    (-7, 7),
    (-7, -7),
    (10, 0),
    (-10, 0),
    (0, -10),
    (0, 10),
];

/// What a spot beneath a label costs, in tenths of a pixel of distance from its anchor.
const COST_OF_A_SPOT: i64 = 120;

/// A place for a label: its area, the spot that it stands for, and how far it is from there.
#[derive(Clone, Copy)]
pub struct Placed {
    pub area: Area,
    pub anchor: PagePoint,
    pub distance: i64,
}

/// What is taken of a picture, and which spots labels should leave free.
#[derive(Drop)]
pub struct Labels {
    alloc: Global,
    frame: Area,
    taken: Vec<Area>,
    busy: Vec<PagePoint>,
}

impl Labels {
    /// Returns the labels of a frame of which nothing is taken.
    pub fn new(alloc: Global, frame: Area) -> Labels
        ensures taken { result.taken.items ≡ [] }
        ensures busy { result.busy.items ≡ [] }
        ensures frame { result.frame ≡ frame }
    {
        Labels {
            alloc,
            frame,
            taken: Vec::new(alloc),
            busy: Vec::new(alloc),
        }
    }

    /// Takes an area, so that no label is placed over it.
    pub fn take(&mut self, area: Area) -> Result<(), AllocError>
        ensures { OnOk result (self.new.taken.items ≡ self.old.taken.items ++ area ∷ []) }
    {
        self.taken.push(area)?;
        Ok(())
    }

    /// Notes a spot that labels should leave free where they can.
    pub fn avoid(&mut self, spot: PagePoint) -> Result<(), AllocError>
        ensures { self.new.taken.items ≡ self.old.taken.items }
    {
        self.busy.push(spot)?;
        Ok(())
    }

    /// Returns the place for a label of this size near one of these spots that costs least, or none where each
    /// is taken.
    fn place(
        &self,
        anchors: &[PagePoint],
        width: Pixels,
        height: Pixels,
        gap: Pixels,
    ) -> Result<Option<Placed>, AllocError>
        ensures { IfOk result (λ found. IfSome found (λ placed. CoversNone self.now.taken.items placed.area)) }
    {
        let places = places_for(self.alloc, anchors, width, height, gap)?;
        Ok(cheapest_place(
            places.as_slice(),
            self.frame,
            self.taken.as_slice(),
            self.busy.as_slice(),
        ))
    }

    /// Takes a place for a label of this size near one of these spots, and returns it; or takes none where each is taken. The place covers
    /// nothing that was taken before. It is the one beneath which the fewest spots lie that should be left free, and of those the nearest.
    pub fn put(
        &mut self,
        anchors: &[PagePoint],
        width: Pixels,
        height: Pixels,
        gap: Pixels,
    ) -> Result<Option<Placed>, AllocError>
        ensures free { IfOk result (TakesPlace self.old.taken.items self.new.taken.items) }
    {
        match self.place(anchors, width, height, gap)? {
            Some(placed) => {
                self.take(placed.area)?;
                Ok(Some(placed))
            }
            None => Ok(None),
        }
    }
}

/// Returns whether an area overlaps none of these.
fn covers_none(taken: &[Area], area: Area) -> bool
    ensures { IsTrue result → CoversNone taken.now area }
{
    for other in taken {
        if area.overlaps(*other) {
            return false;
        }
    }
    true
}

/// Returns what it costs to cover these spots.
fn cost_of(area: Area, busy: &[PagePoint]) -> i64 {
    let mut cost = 0i64;
    for spot in busy {
        if area.has(*spot) {
            cost = cost.saturating_add(COST_OF_A_SPOT);
        }
    }
    cost
}

/// Returns the place in the frame that costs least, of those that overlap nothing that is taken, or
/// none.
fn cheapest_place(
    places: &[Placed],
    frame: Area,
    taken: &[Area],
    busy: &[PagePoint],
) -> Option<Placed>
    ensures { IfSome result (λ placed. CoversNone taken.now placed.area) }
{
    let mut best = None;
    let mut least = i64::MAX;
    for place in places {
        if frame.holds(place.area) && covers_none(taken, place.area) {
            let cost = cost_of(place.area, busy).saturating_add(place.distance);
            if cost < least {
                least = cost;
                best = Some(*place);
            }
        }
    }
    best
}

/// Returns the place of a label at a distance from its anchor in a direction.
fn place_at(
    anchor: PagePoint,
    width: Pixels,
    height: Pixels,
    distance: i64,
    direction: (i64, i64),
) -> Placed {
    let across = distance.saturating_add(width.tenths / 2);
    let along = distance.saturating_add(height.tenths / 2);
    let middle = PagePoint {
        x: anchor.x + Pixels::of_tenths(across.saturating_mul(direction.0) / 10),
        y: anchor.y + Pixels::of_tenths(along.saturating_mul(direction.1) / 10),
    };
    Placed {
        area: Area::around(middle, width, height),
        anchor,
        distance,
    }
}

fn add_ring(
    places: &mut Vec<Placed>,
    anchor: PagePoint,
    width: Pixels,
    height: Pixels,
    distance: i64,
) -> Result<(), AllocError> {
    for direction in &DIRECTIONS {
        places.push(place_at(anchor, width, height, distance, *direction))?;
    }
    Ok(())
}

fn add_rings(
    places: &mut Vec<Placed>,
    anchor: PagePoint,
    width: Pixels,
    height: Pixels,
    gap: Pixels,
) -> Result<(), AllocError> {
    for distance in &DISTANCES {
        add_ring(
            places,
            anchor,
            width,
            height,
            gap.tenths.saturating_mul(*distance) / 10,
        )?;
    }
    Ok(())
}

/// Returns the places that are tried for a label near these spots.
fn places_for(
    alloc: Global,
    anchors: &[PagePoint],
    width: Pixels,
    height: Pixels,
    gap: Pixels,
) -> Result<Vec<Placed>, AllocError> {
    let mut places = Vec::new(alloc);
    for anchor in anchors.iter().take(MOST_ANCHORS) {
        add_rings(&mut places, *anchor, width, height, gap)?;
    }
    Ok(places)
}
