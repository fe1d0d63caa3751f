//! How properties are written.

ghost use Rattle.std.specs.Prelude.{◌≡◌, ◌++◌, OnOk};
ghost use Rattle.std.specs.List.{flat_map};
ghost use Rattle.clr_geojson.specs.Features.{after_comma, flag_text, properties_text, property_text, value_text};

use crate::features::{Property, PropertyValue};
use crate::strings::add_string;
use itoa::Buffer;
use std::alloc::AllocError;

#[tactic(auto, unfolding(crate::specs::Features::flag_text))]
fn add_flag(text: &mut Vec<u8>, flag: bool) -> Result<(), AllocError>
    ensures { OnOk result (text.new.items ≡ text.old.items ++ flag_text flag) }
{
    if flag {
        text.extend_from_slice(b"true")
    } else {
        text.extend_from_slice(b"false")
    }
}

fn add_value(text: &mut Vec<u8>, value: &PropertyValue) -> Result<(), AllocError>
    ensures { OnOk result (text.new.items ≡ text.old.items ++ value_text value.now) }
{
    match value {
        PropertyValue::Text(words) => add_string(text, words.as_str()),
        PropertyValue::Number(number) => {
            text.extend_from_slice(Buffer::new().format(*number).as_bytes())
        }
        PropertyValue::Flag(flag) => add_flag(text, *flag),
    }
}

#[tactic(auto, unfolding(crate::specs::Features::property_text))]
fn add_property(text: &mut Vec<u8>, property: &Property) -> Result<(), AllocError>
    ensures { OnOk result (text.new.items ≡ text.old.items ++ property_text property.now) }
{
    add_string(text, property.name.as_str())?;
    text.extend_from_slice(b":")?;
    add_value(text, &property.value)
}

fn add_after_comma(text: &mut Vec<u8>, property: &Property) -> Result<(), AllocError>
    ensures { OnOk result (text.new.items ≡ text.old.items ++ after_comma property_text property.now) }
{
    text.extend_from_slice(b",")?;
    add_property(text, property)
}

/// Adds properties, each after a comma.
fn add_further(text: &mut Vec<u8>, properties: &[Property]) -> Result<(), AllocError>
    ensures { OnOk result (text.new.items ≡ text.old.items ++ flat_map (after_comma property_text) properties.now) }
{
    for property in properties {
        add_after_comma(text, property)?;
    }
    Ok(())
}

/// Adds properties, with commas between them.
#[tactic(auto, unfolding(crate::specs::Features::properties_text))]
pub(crate) fn add_properties(text: &mut Vec<u8>, properties: &[Property]) -> Result<(), AllocError>
    ensures { OnOk result (text.new.items ≡ text.old.items ++ properties_text properties.now) }
{
    match properties {
        [] => Ok(()),
        [first, further @ ..] => {
            add_property(text, first)?;
            add_further(text, further)
        }
    }
}
