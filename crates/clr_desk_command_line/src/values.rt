//! What `clap` found of options.

ghost use Rattle.std.specs.Prelude.{◌≡◌, IfOk, is_some};
ghost use Rattle.clap.specs.Words.{first_of, found_of, rows_of};
ghost use Rattle.clr_desk_command_line.specs.Asks.{given_or, given_root};

use clap::ArgMatches;
use clr_rows::{LIVE, Words};
use std::alloc::{AllocError, Global};

/// Returns the value that is given.
pub(crate) fn given_value(
    alloc: Global,
    matches: &ArgMatches,
    id: &str,
) -> Result<Option<Words>, AllocError>
    ensures { IfOk result (λ text. text ≡ first_of id.now (rows_of (found_of matches.now))) }
{
    match matches.get_str(id) {
        Some(text) => Ok(Some(Words::from_str(alloc, text)?)),
        None => Ok(None),
    }
}

/// Returns the value that is given, or another.
pub(crate) fn given_or(
    alloc: Global,
    matches: &ArgMatches,
    id: &str,
    otherwise: &str,
) -> Result<Words, AllocError>
    ensures { IfOk result (λ text. text ≡ given_or otherwise.now id.now (rows_of (found_of matches.now))) }
{
    let text = matches.get_str(id).unwrap_or(otherwise);
    Words::from_str(alloc, text)
}

/// Returns the root that is given, or LIVE.
pub(crate) fn root(alloc: Global, matches: &ArgMatches) -> Result<Words, AllocError>
    ensures { IfOk result (λ root. root ≡ given_root (rows_of (found_of matches.now))) }
{
    given_or(alloc, matches, "under", LIVE)
}

/// Returns whether an option has a value.
pub(crate) fn has_value(matches: &ArgMatches, option: &str) -> bool
    ensures { result ≡ is_some (first_of option.now (rows_of (found_of matches.now))) }
{
    matches.get_str(option).is_some()
}
