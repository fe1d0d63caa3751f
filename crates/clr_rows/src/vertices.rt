//! The vertices of a path.

ghost use Rattle.std.specs.Prelude.{◌≡◌, ◌↔◌, IfOk, IsTrue};

use crate::places::Place;
use std::alloc::{AllocError, Global};
use std::marker::Model;

/// The vertices of a path, in order.
#[derive(Debug, Drop)]
pub struct Vertices {
    list: Vec<Place>,
}

impl Model for Vertices {
    ghost use Rattle.std.specs.Prelude.{List};
    ghost use Rattle.clr_rows.specs.declared.places.Place.{Place as OnePlace};

    ghost Value = { List OnePlace };

    ghost view = { λ a. a.list.items };
}

impl Vertices {
    /// Returns the vertices of this list.
    pub fn new(list: Vec<Place>) -> Vertices
        ensures { result ≡ list.items }
    {
        Vertices { list }
    }

    /// Returns the vertices as a slice.
    pub fn as_slice(&self) -> &[Place]
        ensures { result.now ≡ self.now }
    {
        self.list.as_slice()
    }

    /// Returns the underlying list.
    pub fn into_vec(self) -> Vec<Place>
        ensures { result.items ≡ self }
    {
        self.list
    }

    /// Returns a copy of the list.
    pub fn copy(&self) -> Result<Vertices, AllocError>
        ensures { IfOk result (λ vertices. vertices ≡ self.now) }
    {
        let alloc: Global = *self.list.allocator();
        Ok(Vertices::new(Vec::from_slice(alloc, self.as_slice())?))
    }

    /// Returns whether both lists have the same vertices in the same order.
    pub fn same(&self, other: &Vertices) -> bool
        ensures { IsTrue result ↔ (self.now ≡ other.now) }
    {
        if self.list.len() != other.list.len() {
            return false;
        }
        for i in 0..self.list.len() {
            if !self.list[i].same(&other.list[i]) {
                return false;
            }
        }
        true
    }
}
