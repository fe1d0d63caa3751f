//! Pairs of which the first goes before the second, in a sentence.

ghost use Rattle.std.specs.Prelude.{◌≡◌, ◌++◌, IfOk, OnOk, string_bytes};
ghost use Rattle.clr_merge_sets.specs.MemberChanges.{set_of};
ghost use Rattle.clr_order_sentences.specs.OrderSentences.{pair_phrase, pair_phrases};
ghost use Rattle.clr_phrases.specs.Lists.{names_text};

use clr_member_changes::MemberChanges;
use clr_merge_sets::texts_of_names;
use clr_order_answers::Pair;
use clr_phrases::add_names;
use clr_rows::Words;
use std::alloc::{AllocError, Global};

/// Returns a pair with this verb between its names.
fn pair_phrase(
    alloc: Global,
    members: &MemberChanges<'_>,
    verb: &str,
    pair: Pair,
) -> Result<Words, AllocError>
    ensures { IfOk result (λ words. words ≡ pair_phrase (set_of members.now).members verb.now pair) }
{
    let mut text = String::from_str(alloc, members.name(pair.earlier as usize))?;
    text.push_str(verb)?;
    text.push_str(members.name(pair.later as usize))?;
    Ok(Words::new(text))
}

/// Returns pairs, of which only the first has the whole verb.
fn pair_phrases(
    alloc: Global,
    members: &MemberChanges<'_>,
    pairs: &[Pair],
) -> Result<Vec<Words>, AllocError>
    ensures { IfOk result (λ phrases. phrases.items ≡ pair_phrases (set_of members.now).members pairs.now) }
{
    let mut phrases = Vec::new(alloc);
    let [first, others @ ..] = pairs else {
        return Ok(phrases);
    };
    phrases.push(pair_phrase(alloc, members, " goes before ", *first)?)?;
    for pair in others {
        phrases.push(pair_phrase(alloc, members, " before ", *pair)?)?;
    }
    Ok(phrases)
}

/// Adds pairs, as `Extension goes before Hydrants and Recode before Spur`.
pub(crate) fn add_pairs(
    alloc: Global,
    text: &mut String,
    members: &MemberChanges<'_>,
    pairs: &[Pair],
) -> Result<(), AllocError>
    ensures { OnOk result (string_bytes text.new ≡ string_bytes text.old ++ names_text (pair_phrases (set_of members.now).members pairs.now)) }
{
    let phrases = pair_phrases(alloc, members, pairs)?;
    let texts = texts_of_names(alloc, phrases.as_slice())?;
    add_names(text, texts.as_slice())
}
