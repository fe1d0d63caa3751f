//! Parts of rows by the spots of the rows.

ghost use Rattle.std.specs.Prelude.{◌≡◌, ◌++◌, ◌∷◌, [], IfOk, OnErr, OnOk};
ghost use Rattle.std.specs.HashMap.{get};
ghost use Rattle.clr_spots.specs.SpotOrder.{same_spot};
ghost use Rattle.clr_spots.specs.declared.spots.Spot.{Spot as OneSpot};
ghost use Rattle.clr_rows.specs.Beginnings.{IsBegun};
ghost use Rattle.clr_spots.specs.Filing.{nothing_filed, parts_at, filed_at, with_filed, near, HasMore, IsPartlyFiled};

use crate::spots::{Spot, Spots};
use std::alloc::{AllocError, Global};
use std::collections::HashMap;
use std::collections::hash_map::Entry;
use std::marker::Model;

/// A row by its position in a list, from 0, and one of its parts by its number, from 1.
#[derive(Clone, Copy, Debug, PartialEq, Eq, PartialOrd, Ord)]
pub struct FiledPart {
    pub position: usize,
    pub part: u16,
}

/// The parts of one spot, in the order in which they are filed.
#[derive(Drop)]
struct PartList {
    list: Vec<FiledPart>,
}

impl Model for PartList {
    ghost use Rattle.std.specs.Prelude.{List};
    ghost use Rattle.clr_spots.specs.declared.spot_maps.FiledPart.{FiledPart as OnePart};

    ghost Value = { List OnePart };

    ghost view = { λ a. a.list.items };
}

impl PartList {
    fn of_one(alloc: Global, filed_part: FiledPart) -> Result<PartList, AllocError>
        ensures { IfOk result (λ parts. parts ≡ filed_part ∷ []) }
    {
        let mut list = Vec::with_capacity(alloc, 1)?;
        list.push(filed_part)?;
        Ok(PartList { list })
    }

    fn push(&mut self, filed_part: FiledPart) -> Result<(), AllocError>
        ensures ok { OnOk result (self.new ≡ self.old ++ filed_part ∷ []) }
        ensures err { OnErr result (self.new ≡ self.old) }
    {
        self.list.push(filed_part)?;
        Ok(())
    }

    fn as_slice(&self) -> &[FiledPart]
        ensures { result.now ≡ self.now }
    {
        self.list.as_slice()
    }
}

/// Files a part at a spot, behind those that the spot has.
fn put_at(
    by_spot: &mut HashMap<Spot, PartList>,
    alloc: Global,
    spot: Spot,
    filed_part: FiledPart,
) -> Result<(), AllocError>
    ensures ok { OnOk result (HasMore spot filed_part (get same_spot by_spot.old) (get same_spot by_spot.new)) }
    ensures err { OnErr result ((x : OneSpot) → get same_spot by_spot.new x ≡ get same_spot by_spot.old x) }
{
    match by_spot.entry(spot)? {
        Entry::Occupied(place) => place.into_mut().push(filed_part),
        Entry::Vacant(place) => match PartList::of_one(alloc, filed_part) {
            Ok(parts) => {
                place.insert(parts);
                Ok(())
            }
            Err(error) => {
                let _spot = place.into_key();
                Err(error)
            }
        },
    }
}

/// Parts by the spots of their rows, those of wide rows, and all, each in the order in which they were filed.
#[derive(Drop)]
pub struct SpotMap {
    by_spot: HashMap<Spot, PartList>,
    wide: Vec<FiledPart>,
    all: Vec<FiledPart>,
}

impl Model for SpotMap {
    ghost use Rattle.std.specs.FinMap as finite;
    ghost use Rattle.clr_spots.specs.Filing.{Filed, coded_filed};

    ghost Value = { Filed };

    ghost coded = { coded_filed };

    ghost view = { λ a. record { by_spot = finite.from_entries a.by_spot.entries; wide = a.wide.items; all = a.all.items } };
}

impl SpotMap {
    /// Returns a map in which nothing is filed. It takes no memory.
    pub fn new(alloc: Global) -> SpotMap
        ensures { result ≡ nothing_filed }
    {
        SpotMap {
            by_spot: HashMap::new(alloc),
            wide: Vec::new(alloc),
            all: Vec::new(alloc),
        }
    }

    fn file_at(
        &mut self,
        alloc: Global,
        spot: Spot,
        filed_part: FiledPart,
    ) -> Result<(), AllocError>
        ensures ok { OnOk result (self.new ≡ record self.old { by_spot = filed_at self.old.by_spot spot filed_part }) }
        ensures err { OnErr result (self.new ≡ self.old) }
    {
        put_at(&mut self.by_spot, alloc, spot, filed_part)?;
        Ok(())
    }

    /// Files a part at the spots of its row, or as that of a wide one. If memory runs out, all that
    /// was filed stays, and the part may be filed at some of them.
    pub fn file(
        &mut self,
        alloc: Global,
        filed_part: FiledPart,
        spots: Spots,
    ) -> Result<(), AllocError>
        ensures ok { OnOk result (self.new ≡ with_filed self.old filed_part spots.list spots.wide) }
        ensures err { OnErr result (IsPartlyFiled self.old filed_part spots.list spots.wide self.new) }
    {
        self.all.push(filed_part)?;
        if spots.wide {
            self.wide.push(filed_part)?;
        }
        for spot in spots.list.into_vec() {
            self.file_at(alloc, spot, filed_part)?;
        }
        Ok(())
    }

    /// Returns the parts that are filed at a spot.
    pub fn parts_at(&self, spot: &Spot) -> &[FiledPart]
        ensures { result.now ≡ parts_at self.now.by_spot spot.now }
    {
        if self.by_spot.is_empty() {
            return &[];
        }
        match self.by_spot.get(spot) {
            Some(parts) => parts.as_slice(),
            None => &[],
        }
    }

    /// Returns the parts of wide rows.
    pub fn wide(&self) -> &[FiledPart]
        ensures { result.now ≡ self.now.wide }
    {
        self.wide.as_slice()
    }

    /// Returns all parts that are filed.
    pub fn all(&self) -> &[FiledPart]
        ensures { result.now ≡ self.now.all }
    {
        self.all.as_slice()
    }

    /// Adds the parts that may stand in a need with a row of these spots: all where it is wide,
    /// and else those of its spots and the wide ones. If memory runs out, what stood in the list
    /// stands there, with the first of these behind it.
    pub fn add_near(&self, spots: &Spots, list: &mut Vec<FiledPart>) -> Result<(), AllocError>
        ensures ok { OnOk result (list.new.items ≡ list.old.items ++ near self.now spots.now.list spots.now.wide) }
        ensures err { OnErr result (IsBegun list.old.items (near self.now spots.now.list spots.now.wide) list.new.items) }
    {
        if spots.wide {
            list.extend_from_slice(self.all.as_slice())?;
            return Ok(());
        }
        list.extend_from_slice(self.wide.as_slice())?;
        for spot in spots.list.as_slice() {
            list.extend_from_slice(self.parts_at(spot))?;
        }
        Ok(())
    }
}
