//! Names that are nearly right.
ghost use Rattle.std.specs.Prelude.{◌≡◌, codes, length, map, string_bytes, IfOk, IfSome};
ghost use Rattle.std.specs.List.{Contains, join_by};
ghost use Rattle.std.specs.Option.{option_map};
ghost use Rattle.strsim.specs.Edits.{InUnit};
ghost use Rattle.clr_hints.specs.Names.{IsHintAtName, IsNearest, hint_listing, likeness};

use crate::schema_names::join_names;
use std::alloc::{AllocError, Global};
use strsim::jaro_winkler;

/// How alike two names are where the one may be meant by the other, of 1 where they are the same.
const LEAST_LIKENESS: f64 = 0.8;

/// What a good name has, as a sentence says it behind one that isn't good.
pub const GOOD_NAME: &str =
    "a name has 1 to 30 letters of a to z and A to Z, digits and _, a letter first";

/// The most names that a hint lists.
const MOST_LISTED: usize = 12;

/// Returns how alike two names are, from 0 to 1.
fn likeness(alloc: Global, name: &str, other: &str) -> Result<f64, AllocError>
    ensures value { IfOk result (λ alike. alike ≡ likeness name.now other.now) }
    ensures range { IfOk result InUnit }
{
    jaro_winkler(alloc, name, other)
}

/// Returns the name that is most like another, the first where more of them are, or none where no name is alike enough.
pub fn nearest<'a>(
    alloc: Global,
    name: &str,
    names: &[&'a str],
) -> Result<Option<&'a str>, AllocError>
    ensures nearest { IfOk result (λ near. IsNearest name.now (map (λ other. other.now) names.now) (option_map (λ other. other.now) near)) }
    ensures stands { IfOk result (λ near. IfSome near (λ other. Contains names.now other)) }
{
    let mut best = None;
    let mut most = LEAST_LIKENESS;
    for other in names {
        let alike = likeness(alloc, name, other)?;
        if alike > most {
            most = alike;
            best = Some(*other);
        }
    }
    Ok(best)
}

/// Returns a hint at all names, or none where there are none or many.
fn hint_at_all(alloc: Global, names: &[&str]) -> Result<Option<String>, AllocError>
    ensures { IfOk result (λ hint. option_map string_bytes hint ≡ hint_listing (length names.now) (join_by (λ other. other.now) (codes ", ") names.now)) }
{
    if names.is_empty() || names.len() > MOST_LISTED {
        return Ok(None);
    }
    let listed = join_names(alloc, names)?;
    Ok(Some(format!(in alloc; "known: {listed}")?))
}

/// Returns a hint at the name that was meant, or at all names where none is alike enough and they are few, or none.
#[tactic(auto, using(crate::proofs::SentenceLemmas::lent_hint))]
pub fn name_hint(alloc: Global, name: &str, names: &[&str]) -> Result<Option<String>, AllocError>
    ensures { IfOk result (λ hint. IsHintAtName name.now (map (λ other. other.now) names.now) (option_map string_bytes hint)) }
{
    match nearest(alloc, name, names)? {
        Some(other) => Ok(Some(format!(in alloc; "did you mean '{other}'?")?)),
        None => hint_at_all(alloc, names),
    }
}
