//! What `clap` found in words: values, names and files.
ghost use Rattle.std.specs.Prelude.{◌≡◌, IfOk, map};
ghost use Rattle.clap.specs.Words.{found_of, rows_of};
ghost use Rattle.clr_command_line.specs.Asks.{database_and, database_of, given_names, given_orders, given_value, is_set};

use crate::asks::Orders;
use clap::ArgMatches;
use clr_rows::{Names, Words};
use std::alloc::{AllocError, Global};

/// Returns the value of a name, or no bytes where there is none.
pub(crate) fn value(alloc: Global, matches: &ArgMatches, id: &str) -> Result<Words, AllocError>
    ensures { IfOk result (λ text. text ≡ given_value id.now (rows_of (found_of matches.now))) }
{
    match matches.get_str(id) {
        Some(text) => Words::from_str(alloc, text),
        None => Ok(Words::new(String::new(alloc))),
    }
}

/// Returns whether an option without a value is given.
pub fn is_set(matches: &ArgMatches, name: &str) -> bool
    ensures { result ≡ is_set name.now (rows_of (found_of matches.now)) }
{
    match matches.get_str(name) {
        Some(value) => value == "true",
        None => false,
    }
}

/// Returns the orders that are asked for: that of the names where the option `in-order` is given, and
/// else every order.
pub(crate) fn orders(matches: &ArgMatches) -> Orders
    ensures { result ≡ given_orders (rows_of (found_of matches.now)) }
{
    if is_set(matches, "in-order") {
        Orders::AsNamed
    } else {
        Orders::Every
    }
}

/// Returns texts as names of their own.
fn owned_names(alloc: Global, texts: &[&str]) -> Result<Names, AllocError>
    ensures { IfOk result (λ names. names ≡ map (λ text. text.now) texts.now) }
{
    let mut list = Vec::new(alloc);
    for text in texts {
        list.push(Words::from_str(alloc, text)?)?;
    }
    Ok(Names::new(list))
}

/// Returns the names that are given, none or more.
pub fn names(alloc: Global, matches: &ArgMatches) -> Result<Names, AllocError>
    ensures { IfOk result (λ names. names ≡ given_names (rows_of (found_of matches.now))) }
{
    match matches.get_strs("NAME") {
        Some(texts) => owned_names(alloc, texts),
        None => Ok(Names::new(Vec::new(alloc))),
    }
}

/// Returns the file of the office text.
pub fn database(alloc: Global, matches: &ArgMatches) -> Result<Vec<Words>, AllocError>
    ensures { IfOk result (λ files. files.items ≡ database_of (rows_of (found_of matches.now))) }
{
    let mut files = Vec::new(alloc);
    files.push(value(alloc, matches, "DB")?)?;
    Ok(files)
}

/// Returns the file of the office text, and a second file.
pub fn database_with(
    alloc: Global,
    matches: &ArgMatches,
    id: &str,
) -> Result<Vec<Words>, AllocError>
    ensures { IfOk result (λ files. files.items ≡ database_and id.now (rows_of (found_of matches.now))) }
{
    let mut files = database(alloc, matches)?;
    files.push(value(alloc, matches, id)?)?;
    Ok(files)
}
