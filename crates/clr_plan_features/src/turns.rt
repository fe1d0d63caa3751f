//! Which designs go before a design, as a property.

ghost use Rattle.std.specs.Prelude.{◌≡◌, ◌++◌, map, option_map, string_bytes, IfOk, OnOk};
ghost use Rattle.std.specs.List.{flat_map};
ghost use Rattle.clr_geojson.specs.Features.{after_comma, with_commas};
ghost use Rattle.clr_plan_features.specs.Turns.{names_before, names_before_text, told_after};

use clr_cert::{Precedence, Precedences};
use clr_geojson::{Feature, Property};
use clr_rows::Words;
use std::alloc::{AllocError, Global};

/// Returns the names that go before a name, in the order of the precedences.
#[tactic(auto, unfolding(clr_steps::specs::Names::same_name))]
fn names_before<'a>(
    alloc: Global,
    name: &str,
    before: &'a [Precedence],
) -> Result<Vec<&'a str>, AllocError>
    ensures { IfOk result (λ names. map (λ earlier. earlier.now) names.items ≡ names_before name.now before.entry.now) }
{
    let mut names = Vec::new(alloc);
    for precedence in before {
        if precedence.later.as_str() == name {
            names.push(precedence.earlier.as_str())?;
        }
    }
    Ok(names)
}

/// Adds names, with a comma before each.
fn add_others(text: &mut String, names: &[&str]) -> Result<(), AllocError>
    ensures { OnOk result (string_bytes text.new ≡ string_bytes text.old
        ++ flat_map (after_comma (λ name. name)) (map (λ name. name.now) names.now)) }
{
    for name in names {
        text.push_str(",")?;
        text.push_str(name)?;
    }
    Ok(())
}

/// Returns names with commas between them.
fn listed(alloc: Global, names: &[&str]) -> Result<String, AllocError>
    ensures { IfOk result (λ text. string_bytes text ≡ with_commas (λ name. name) (map (λ name. name.now) names.now)) }
{
    let Some((first, others)) = names.split_first() else {
        return Ok(String::new(alloc));
    };
    let mut text = String::from_str(alloc, first)?;
    add_others(&mut text, others)?;
    Ok(text)
}

/// Returns the names that go before a name, with commas between them.
fn names_before_text(alloc: Global, name: &str, before: &Precedences) -> Result<Words, AllocError>
    ensures { IfOk result (λ text. text ≡ names_before_text name.now before.now) }
{
    let names = names_before(alloc, name, before.as_slice())?;
    let text = listed(alloc, names.as_slice())?;
    Ok(Words::new(text))
}

/// Returns the names of those that go before a design, if that is told.
pub(crate) fn told_of_design(
    alloc: Global,
    name: &str,
    before: &Option<Precedences>,
) -> Result<Option<Words>, AllocError>
    ensures { IfOk result (λ told. told ≡ option_map (names_before_text name.now) before.now) }
{
    match before {
        Some(before) => {
            let text = names_before_text(alloc, name, before)?;
            Ok(Some(text))
        }
        None => Ok(None),
    }
}

/// Returns a feature with the names of those that go before its design, if that is told.
pub(crate) fn told_after(
    alloc: Global,
    feature: Feature,
    after: &Option<Words>,
) -> Result<Feature, AllocError>
    ensures { IfOk result (λ told. told ≡ told_after after.now feature) }
{
    let Some(names) = after else {
        return Ok(feature);
    };
    let Feature {
        mut properties,
        shape,
    } = feature;
    properties.push(Property::text(alloc, "after", names.as_str())?)?;
    Ok(Feature { properties, shape })
}
