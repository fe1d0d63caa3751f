//! Reading office texts.

ghost use Rattle.std.specs.Prelude.{◌≡◌, IfOk};
ghost use Rattle.clr_readings.specs.Readings.{Gives};
ghost use Rattle.clr_rule_text.specs.Fields.{text_lacks_memory};
ghost use Rattle.clr_office_reading.specs.Fits.{FitsOffice};
ghost use Rattle.clr_office_reading.specs.Offices.{office_in, office_of, office_read, schema_of};

use crate::formats::{Format, read_format};
use crate::live::live;
use crate::tables::tables;
use crate::workspaces::stored_parts;
use clr_deltas::StoredPart;
use clr_rows::{Schema, Sheet};
use clr_rule_text::TextFault;
use clr_rule_text::borrowed::read_value;
use clr_rule_text::json_values::JsonValue;
use clr_rule_text::known_needs::KnownNeeds;
use clr_rule_text::rules::{BookText, read_rules};
use clr_rules::RuleBook;
use json::Scratch;
use simdutf8::compat::from_utf8;
use std::alloc::Global;

/// The parts of an office: its schema, its rules, the needs of them that the text names as known to be broken, the content
/// of LIVE, and the workspaces under LIVE by their differences, in order of creation.
#[derive(Drop)]
pub struct OfficeParts {
    pub schema: Schema,
    pub book: RuleBook,
    pub known: KnownNeeds,
    pub live: Sheet,
    pub workspaces: Vec<StoredPart>,
}

/// Returns the schema of an office text. Fails with `BadField` where a key is missing in the tables, or a value is
/// none of those that may stand there, and then with `BadSchema` where the tables make no schema.
#[tactic(auto, unfolding(crate::specs::Offices::schema_of))]
pub fn schema<J: JsonValue>(alloc: Global, json: &J, format: Format) -> Result<Schema, TextFault>
    ensures { Gives text_lacks_memory (λ s. s) result (schema_of format (J.stands_for json.now)) }
{
    match Schema::new(tables(alloc, json, format)?) {
        Ok(schema) => Ok(schema),
        Err(_) => Err(TextFault::BadSchema),
    }
}

#[tactic(auto, unfolding(crate::specs::Offices::office_of))]
fn office<J: JsonValue>(alloc: Global, json: &J) -> Result<OfficeParts, TextFault>
    ensures value { Gives text_lacks_memory office_read result (office_of (J.stands_for json.now)) }
    ensures fits { IfOk result (λ o. FitsOffice (office_read o)) }
{
    let format = read_format(json)?;
    let schema = schema(alloc, json, format)?;
    let BookText { book, known } = read_rules(alloc, json, format, &schema)?;
    let live = live(alloc, json, &schema)?;
    let workspaces = stored_parts(alloc, json, format, &schema)?;
    Ok(OfficeParts {
        schema,
        book,
        known,
        live,
        workspaces,
    })
}

/// Reads an office text of format 1 to 4. A workspace is read by its differences; whether the
/// workspaces as a whole make a tree is not tested here. The first fault answers, over the parts in
/// the order format, tables, rules, live, and then each workspace in turn; in a workspace the order
/// is the name, the parent and the flag, then its base, its rows and its marks. In each of these
/// parts `BadField` comes before the other faults, and at one cell `BadRow` before `RepeatedCell`.
///
/// Fails with `NotJson` where the bytes aren't JSON, with `BadField` where a key is missing, or a
/// value is none of those that may stand there (a list of rules, known needs, workspaces, cells of a base, of
/// rows, marks or literals that is missing is empty), with `BadSchema` where the tables make no
/// schema, with `BadRule` where a rule names a table or a column that the schema hasn't, the rules make no book
/// over it, or a known need is one that its rule can't have, with `BadRow` where a cell's table isn't known, the row doesn't fit
/// it, or no row could stand where one is gone, with `RepeatedCell` where a cell stands twice in one
/// list, and with `BadPart` where the parent of a workspace is neither LIVE nor an earlier one. Want
/// of memory is `OutOfMemory`, which may come in place of any other answer.
#[tactic(auto, unfolding(crate::specs::Offices::office_in))]
pub fn read_office(alloc: Global, bytes: &[u8]) -> Result<OfficeParts, TextFault>
    ensures value { Gives text_lacks_memory office_read result (office_in bytes.now) }
    ensures fits { IfOk result (λ o. FitsOffice (office_read o)) }
{
    let Ok(text) = from_utf8(bytes) else {
        return Err(TextFault::NotJson);
    };
    let mut scratch = Scratch::new(alloc);
    let json = read_value(alloc, text, &mut scratch)?;
    office(alloc, &json)
}
