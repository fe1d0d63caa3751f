//! Needs that are known to be broken, written as JSON.

ghost use Rattle.std.specs.Prelude.{◌≡◌, ◌++◌, ◌==◌, filter, IfOk, OnOk};
ghost use Rattle.std.specs.Option.{option_map};
ghost use Rattle.clr_office_writing.specs.KnownData.{known_tokens, need_data};
ghost use Rattle.clr_office_writing.specs.OfficeData.{format_number as format_meant};
ghost use Rattle.clr_office_writing.specs.Tokens.{tokens_of};
ghost use Rattle.clr_office_writing.specs.Values.{list_data, number_data};

use crate::json_texts::JsonText;
use crate::lists::write_each;
use clr_rules::Broken;
use std::alloc::{AllocError, Global};

/// Returns the number of the format of a text with these known needs: 4, or 3 where there are none.
pub fn format_number(known: &[Broken]) -> i64
    ensures { result ≡ format_meant known.now }
{
    if known.is_empty() { 3 } else { 4 }
}

fn write_numbers(text: &mut JsonText, numbers: &[i64]) -> Result<(), AllocError>
    ensures { OnOk result (text.new ≡ text.old ++ tokens_of (list_data number_data numbers.now)) }
{
    write_each::<i64, _, _>(text, numbers, |text, number| text.number(*number))
}

fn write_need(text: &mut JsonText, need: &Broken) -> Result<(), AllocError>
    ensures { OnOk result (text.new ≡ text.old ++ tokens_of (need_data need.now)) }
{
    let first = need.first.key;
    match need.second {
        None => write_numbers(text, &[first]),
        Some(second) => {
            if need.first_part == 1 && need.second_part == 1 {
                return write_numbers(text, &[first, second.key]);
            }
            let first_part = i64::from(need.first_part);
            let second_part = i64::from(need.second_part);
            write_numbers(text, &[first, second.key, first_part, second_part])
        }
    }
}

fn write_needs(text: &mut JsonText, needs: &[Broken]) -> Result<(), AllocError>
    ensures { OnOk result (text.new ≡ text.old ++ tokens_of (list_data need_data needs.now)) }
{
    write_each::<Broken, _, _>(text, needs, write_need)
}

/// Writes the known needs of a rule with their key, where it has a list of these.
pub fn write_known(text: &mut JsonText, known: Option<&[Broken]>) -> Result<(), AllocError>
    ensures { OnOk result (text.new ≡ text.old ++ known_tokens (option_map (λ v. v.now) known.entry)) }
{
    match known {
        None => Ok(()),
        Some(needs) => {
            text.key("known")?;
            write_needs(text, needs)
        }
    }
}

/// Returns those of some needs that are of the rule of a number.
pub fn needs_of_rule(
    alloc: Global,
    known: &[Broken],
    number: u16,
) -> Result<Vec<Broken>, AllocError>
    ensures { IfOk result (λ needs. needs.items ≡ filter (λ b. b.rule == number) known.now) }
{
    known
        .iter()
        .filter(|need| need.rule == number)
        .copied()
        .collect(alloc)
}
