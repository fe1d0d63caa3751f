//! Records of a script that are steps of their own.
ghost use Rattle.std.specs.Prelude.{◌≡◌, ◌≤◌, count_by, decimal, length, map, option_map, string_bytes, IfOk};
ghost use Rattle.std.specs.List.{find};
ghost use Rattle.std.specs.Option.{option_copied};
ghost use Rattle.std.specs.Str.{bytes_eq};
ghost use Rattle.csv.specs.Records.{fields_of};
ghost use Rattle.clr_record_explanations.specs.RecordSlips.{said};
ghost use Rattle.clr_record_explanations.specs.StepSlips.{comma_cut_of, count_of, is_comma, number_place, pattern_of, short_apply_slip, step_slip, word_of};
ghost use Rattle.clr_record_explanations.specs.StepSlips.{step_count_sentence, unknown_word, wrong_step_count, wrong_step_word};

use crate::numbers::no_number;
use crate::record_slips::RecordSlip;
use crate::tables::no_table;
use clr_hints::name_hint;
use clr_records::field;
use clr_rows::Schema;
use clr_scripts::RecordFault;
use csv::StringRecord;
use std::alloc::{AllocError, Global};

/// Where the table of a `resolve` stands, the one step that names a table.
const TABLE_OF_RESOLVE: usize = 2;

/// The step that begins with each word.
const PATTERNS: &[&str] = &[
    "create,NAME,PARENT",
    "remove,WS",
    "apply,WS,n",
    "mark,WS,NAME",
    "unmark,WS,NAME",
    "rollto,WS,NAME",
    "rollall,WS",
    "refresh,WS",
    "merge,WS,keep",
    "resolve,WS,TABLE,KEY,PARENT",
    "hold,WS",
    "release,WS",
    "show,WS",
    "changes,WS",
    "conflicts,WS",
    "audit,WS",
    "workspaces",
    "dump",
    "plan,NAME",
    "planunder,ROOT,NAME",
    "planinorder,NAME",
    "planinorderunder,ROOT,NAME",
    "independence,NAME",
    "independenceunder,ROOT,NAME",
];

/// Returns what stands before and behind the first comma of a text.
#[tactic(auto, unfolding(crate::specs::StepSlips::comma_cut_of))]
fn cut(text: &str) -> Option<(&str, &str)>
    ensures { option_map (λ parts. (parts.0.now, parts.1.now)) result ≡ comma_cut_of text.now }
{
    text.split_once(',')
}

/// Returns the word that a pattern begins with.
fn word_of(pattern: &'static str) -> &'static str
    ensures { result.now ≡ word_of pattern.now }
{
    match cut(pattern) {
        Some((word, _)) => word,
        None => pattern,
    }
}

/// Returns the first of some patterns that begins with a word, as it stands among them, if any.
fn find_lent(patterns: &[&'static str], word: &str) -> Option<&'static str>
    ensures { option_copied result ≡ option_copied (find (λ pattern. bytes_eq (word_of pattern.now) word.now) patterns.now) }
{
    patterns
        .iter()
        .find(|pattern| word_of(**pattern) == word)
        .copied()
}

/// Returns the first of some patterns that begins with a word, if any.
fn find_pattern(patterns: &[&'static str], word: &str) -> Option<&'static str>
    ensures { option_copied result ≡ find (λ pattern. bytes_eq (word_of pattern) word.now) (map (λ pattern. pattern.now) patterns.now) }
{
    find_lent(patterns, word)
}

/// Returns the pattern of the steps that begin with a word, or no text.
fn pattern_of(word: &str) -> &'static str
    ensures { result.now ≡ pattern_of word.now }
{
    match find_pattern(PATTERNS, word) {
        Some(pattern) => pattern,
        None => "",
    }
}

/// Returns the words that a step can begin with.
fn all_words(alloc: Global) -> Result<Vec<&'static str>, AllocError> {
    let mut words = Vec::new(alloc);
    for pattern in PATTERNS {
        words.push(word_of(*pattern))?;
    }
    Ok(words)
}

/// Returns the slip that a word isn't known where it stands.
fn bad_word(alloc: Global, fields: &StringRecord) -> Result<RecordSlip, AllocError>
    ensures { IfOk result (λ slip. said slip ≡ wrong_step_word (fields_of fields.now)) }
{
    match field(fields, 0) {
        "merge" => RecordSlip::of_words(alloc, 2, "the third field of a merge is keep or remove"),
        "resolve" => RecordSlip::of_words(
            alloc,
            4,
            "the last field of a resolve is PARENT, CHILD or BASE",
        ),
        "insert" | "update" | "delete" => RecordSlip::of_words(
            alloc,
            0,
            "an edit stands behind an apply, which says how many there are",
        ),
        word => unknown_word(alloc, word),
    }
}

/// Returns the slip that no step begins with a word.
fn unknown_word(alloc: Global, word: &str) -> Result<RecordSlip, AllocError>
    ensures { IfOk result (λ slip. said slip ≡ unknown_word word.now) }
{
    let words = all_words(alloc)?;
    let sentence = format!(in alloc; "no step begins with '{word}'")?;
    let hint = name_hint(alloc, word, words.as_slice())?;
    Ok(RecordSlip::new(0, sentence).with_hint(hint))
}

fn is_comma(byte: u8) -> bool
    ensures { result ≡ is_comma byte }
{
    byte == b','
}

/// Returns how many commas stand in a text.
fn count_commas(text: &str) -> usize
    ensures value { result ≡ count_by is_comma text.now }
    ensures bound { result ≤ length text.now }
{
    text.as_bytes()
        .iter()
        .filter(|byte| is_comma(**byte))
        .count()
}

/// Returns how many fields a step of a pattern has.
fn count_of(pattern: &str) -> usize
    ensures { result ≡ count_of pattern.now }
{
    count_commas(pattern) + 1
}

/// Returns the digits of a number.
fn digits(alloc: Global, number: usize) -> Result<String, AllocError>
    ensures { IfOk result (λ digits. string_bytes digits ≡ decimal number) }
{
    let digits = format!(in alloc; "{number}")?;
    Ok(digits)
}

/// Returns what is said of a step of a pattern, which must have so many fields and has another count.
fn count_sentence(
    alloc: Global,
    word: &str,
    wanted: usize,
    count: usize,
    pattern: &str,
) -> Result<String, AllocError>
    ensures { IfOk result (λ sentence. string_bytes sentence ≡ step_count_sentence word.now wanted count pattern.now) }
{
    let wanted = digits(alloc, wanted)?;
    let count = digits(alloc, count)?;
    let mut sentence = String::from_str(alloc, word)?;
    sentence.push_str(" has ")?;
    sentence.push_str(wanted.as_str())?;
    sentence.push_str(" fields, and here are ")?;
    sentence.push_str(count.as_str())?;
    sentence.push_str(": ")?;
    sentence.push_str(pattern)?;
    Ok(sentence)
}

/// Returns the slip that a step has another count of fields than its word asks for.
fn bad_count(alloc: Global, fields: &StringRecord) -> Result<RecordSlip, AllocError>
    ensures { IfOk result (λ slip. said slip ≡ wrong_step_count (fields_of fields.now)) }
{
    let word = field(fields, 0);
    let pattern = pattern_of(word);
    let sentence = count_sentence(alloc, word, count_of(pattern), fields.len(), pattern)?;
    Ok(RecordSlip::new(0, sentence))
}

/// Returns which field of a step must be a number: the key of a `resolve`, and the count of an
/// `apply`.
fn number_place(fields: &StringRecord) -> usize
    ensures { result ≡ number_place (fields_of fields.now) }
{
    if field(fields, 0) == "resolve" { 3 } else { 2 }
}

/// Returns what is wrong with a record that is read as a step of its own, for the fault that it has.
pub fn explain_step(
    alloc: Global,
    schema: &Schema,
    fields: &StringRecord,
    fault: RecordFault,
) -> Result<RecordSlip, AllocError>
    ensures { IfOk result (λ slip. said slip ≡ step_slip fault (fields_of fields.now)) }
{
    match fault {
        RecordFault::FieldCount => bad_count(alloc, fields),
        RecordFault::NoTable => no_table(alloc, schema, fields, TABLE_OF_RESOLVE),
        RecordFault::BadNumber => no_number(alloc, fields, number_place(fields)),
        _ => bad_word(alloc, fields),
    }
}

/// Returns the slip that an `apply` asks for more edits than records stand behind it.
pub fn explain_short_apply(alloc: Global, fields: &StringRecord) -> Result<RecordSlip, AllocError>
    ensures { IfOk result (λ slip. said slip ≡ short_apply_slip (fields_of fields.now)) }
{
    let wanted = field(fields, 2);
    let sentence = format!(in alloc; "apply asks for {wanted} edits, and fewer records follow")?;
    Ok(RecordSlip::new(2, sentence))
}
