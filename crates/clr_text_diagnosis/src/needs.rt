//! Needs that no row serves, in words.
ghost use Rattle.std.specs.Prelude.{◌≡◌, IfOk, option_map, slice_get};
ghost use Rattle.clr_text_diagnosis.specs.Needs.{name_under_live, old_error_lines, rule_line, unheld_lines};

use clr_engine::{Broken, Draft};
use clr_lines::{count_line, unheld_line};
use clr_old_errors::add_rule_counts;
use clr_phrases::rule_sentence;
use clr_rows::Schema;
use clr_rules::Rule;
use std::alloc::{AllocError, Global};

/// What can be done about a need that is broken and isn't known.
const UNKNOWN_WORDS: &[u8] =
    b"This error isn't known: mend it, or accept all that is broken now, by `clr_desk accept`.\n";

/// Returns the line that says what the rule of a number asks for, and none where there is no such
/// rule.
fn rule_line(
    alloc: Global,
    schema: &Schema,
    rules: &[Rule],
    number: usize,
) -> Result<Vec<u8>, AllocError>
    ensures { IfOk result (λ line. line.items ≡ rule_line schema.now (slice_get rules.now number)) }
{
    match rules.get(number) {
        Some(rule) => {
            let sentence = rule_sentence(alloc, schema, rule)?;
            let mut line = Vec::from_slice(alloc, sentence.as_bytes())?;
            line.extend_from_slice(b"\n")?;
            Ok(line)
        }
        None => Ok(Vec::new(alloc)),
    }
}

/// Returns the name of the workspace at a position, and none of LIVE.
fn name_under_live(draft: &Draft, position: usize) -> Option<&str>
    ensures { option_map (λ name. name.now) result ≡ name_under_live draft.now position }
{
    match position {
        0 => None,
        _ => draft.name_at(position),
    }
}

/// Returns the lines of a need that no row serves: as `clr_office` prints it, what its rule asks for,
/// and what can be done about it.
pub(crate) fn unheld_lines(
    alloc: Global,
    draft: &Draft,
    position: usize,
    need: &Broken,
) -> Result<Vec<u8>, AllocError>
    ensures { IfOk result (λ lines. lines.items ≡ unheld_lines draft.now position need.now) }
{
    let mut lines = unheld_line(
        alloc,
        draft.schema(),
        name_under_live(draft, position),
        need,
    )?;
    let rule = rule_line(
        alloc,
        draft.schema(),
        draft.book().rules(),
        need.rule as usize,
    )?;
    lines.extend_from_slice(rule.as_slice())?;
    lines.extend_from_slice(UNKNOWN_WORDS)?;
    Ok(lines)
}

/// Returns the lines of needs that are broken and known: how many they are, in all and of each rule
/// that has some, and what lists them.
pub(crate) fn old_error_lines(
    alloc: Global,
    draft: &Draft,
    needs: &[Broken],
) -> Result<Vec<u8>, AllocError>
    ensures { IfOk result (λ lines. lines.items ≡ old_error_lines draft.now needs.now) }
{
    let mut lines = count_line(alloc, "old errors", needs.len())?;
    add_rule_counts(alloc, &mut lines, draft.schema(), draft.book(), needs)?;
    lines.extend_from_slice(b"`clr_desk errors` lists those of LIVE.\n")?;
    Ok(lines)
}
