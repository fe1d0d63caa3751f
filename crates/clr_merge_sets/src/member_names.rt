//! The names of members: their texts, and those at positions of a list.

ghost use Rattle.std.specs.Prelude.{◌≡◌, ◌++◌, map, option_to_list, slice_get, IfOk, OnOk};
ghost use Rattle.std.specs.List.{filter_map};

use clr_rows::{Names, Words};
use std::alloc::{AllocError, Global};

/// Returns the texts of names.
pub fn texts_of_names<'a>(alloc: Global, names: &'a [Words]) -> Result<Vec<&'a str>, AllocError>
    ensures { IfOk result (λ texts. map (λ text. text.now) texts.items ≡ names.entry.now) }
{
    let mut texts = Vec::with_capacity(alloc, names.len())?;
    for name in names {
        texts.push(name.as_str())?;
    }
    Ok(texts)
}

/// Returns texts as names of their own, in their order. It fails only for want of memory.
pub fn owned_names(alloc: Global, texts: &[&str]) -> Result<Names, AllocError>
    ensures { IfOk result (λ names. names ≡ map (λ text. text.now) texts.now) }
{
    let mut list = Vec::with_capacity(alloc, texts.len())?;
    for name in texts {
        list.push(Words::from_str(alloc, name)?)?;
    }
    Ok(Names::new(list))
}

/// Adds the name at a position, if there is one.
fn add_name<'a>(
    names: &[&'a str],
    position: usize,
    list: &mut Vec<&'a str>,
) -> Result<(), AllocError>
    ensures { OnOk result (map (λ name. name.now) list.new.items
        ≡ map (λ name. name.now) list.old.items ++ option_to_list (slice_get (map (λ name. name.now) names.now) position)) }
{
    let Some(name) = names.get(position) else {
        return Ok(());
    };
    list.push(*name)?;
    Ok(())
}

/// Adds the names at some positions to a list; one past the end has none. If it fails, some of them may have been added.
pub fn add_names_at<'a>(
    names: &[&'a str],
    positions: &[usize],
    list: &mut Vec<&'a str>,
) -> Result<(), AllocError>
    ensures { OnOk result (map (λ name. name.now) list.new.items
        ≡ map (λ name. name.now) list.old.items ++ filter_map (slice_get (map (λ name. name.now) names.now)) positions.now) }
{
    for position in positions {
        add_name(names, *position, list)?;
    }
    Ok(())
}

/// Returns the names at some positions; one past the end has none.
pub fn names_at<'a>(
    alloc: Global,
    names: &[&'a str],
    positions: &[usize],
) -> Result<Vec<&'a str>, AllocError>
    ensures { IfOk result (λ list. map (λ name. name.now) list.items ≡ filter_map (slice_get (map (λ name. name.now) names.now)) positions.now) }
{
    let mut list = Vec::new(alloc);
    add_names_at(names, positions, &mut list)?;
    Ok(list)
}
