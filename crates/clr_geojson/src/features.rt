//! Features: properties, and a shape.

ghost use Rattle.std.specs.Prelude.{◌≡◌, IfOk};
ghost use Rattle.clr_geojson.specs.Properties.{flag_property, number_property, text_property};

use clr_rows::{List, Shape, Words};
use std::alloc::{AllocError, Global};

/// What a property says.
#[derive(Drop)]
pub enum PropertyValue {
    Text(Words),
    Number(i64),
    Flag(bool),
}

/// A property of a feature: its name, and what it says.
#[derive(Drop)]
pub struct Property {
    pub name: Words,
    pub value: PropertyValue,
}

impl Property {
    /// Returns a property that says a text.
    pub fn text(alloc: Global, name: &str, text: &str) -> Result<Property, AllocError>
        ensures { IfOk result (λ property. property ≡ text_property name.now text.now) }
    {
        Ok(Property {
            name: Words::from_str(alloc, name)?,
            value: PropertyValue::Text(Words::from_str(alloc, text)?),
        })
    }

    /// Returns a property that says a whole number.
    pub fn number(alloc: Global, name: &str, number: i64) -> Result<Property, AllocError>
        ensures { IfOk result (λ property. property ≡ number_property name.now number) }
    {
        Ok(Property {
            name: Words::from_str(alloc, name)?,
            value: PropertyValue::Number(number),
        })
    }

    /// Returns a property that says yes or no.
    pub fn flag(alloc: Global, name: &str, flag: bool) -> Result<Property, AllocError>
        ensures { IfOk result (λ property. property ≡ flag_property name.now flag) }
    {
        Ok(Property {
            name: Words::from_str(alloc, name)?,
            value: PropertyValue::Flag(flag),
        })
    }
}

/// The properties of a feature, in the order in which they are written.
pub type Properties = List<Property>;

/// A feature: its properties, and its shape, in whole millimetres.
#[derive(Drop)]
pub struct Feature {
    pub properties: Properties,
    pub shape: Shape,
}
