//! The tables of an office text.

ghost use Rattle.std.specs.Prelude.{◌≡◌};
ghost use Rattle.clr_readings.specs.Readings.{Gives};
ghost use Rattle.clr_rule_text.specs.Fields.{text_lacks_memory};
ghost use Rattle.clr_rule_text.specs.Seen.{items_seen};
ghost use Rattle.clr_office_reading.specs.Tables.{column_of, columns_of, form_of, kind_of, kind_word, pair_of, path_in, table_of, tables_of};

use crate::formats::Format;
use clr_rows::{Columns, Form, Kind, TableDef, Words};
use clr_rule_text::TextFault;
use clr_rule_text::fields::{field, list, list_in, words, words_from, words_in};
use clr_rule_text::json_values::JsonValue;
use clr_rule_text::lists::read_items;
use std::alloc::Global;

/// Returns the word for what a column holds.
pub fn kind_word(kind: Kind) -> &'static str
    ensures { result.now ≡ kind_word kind }
{
    match kind {
        Kind::Int => "INT",
        Kind::Words => "TEXT",
    }
}

fn kind<J: JsonValue>(json: &J) -> Result<Kind, TextFault>
    ensures { Gives text_lacks_memory (λ k. k) result (kind_of (J.stands_for json.now)) }
{
    match words(json)? {
        "INT" => Ok(Kind::Int),
        "TEXT" => Ok(Kind::Words),
        _ => Err(TextFault::BadField),
    }
}

/// Returns the form of paths, which format 1 hasn't.
fn path(format: Format) -> Result<Form, TextFault>
    ensures { result ≡ path_in format }
{
    match format {
        Format::First => Err(TextFault::BadField),
        Format::Second | Format::Third | Format::Fourth => Ok(Form::Path),
    }
}

fn form<J: JsonValue>(json: &J, format: Format) -> Result<Form, TextFault>
    ensures { Gives text_lacks_memory (λ f. f) result (form_of format (J.stands_for json.now)) }
{
    match words(json)? {
        "NONE" => Ok(Form::Bare),
        "POINT" => Ok(Form::Point),
        "SEGMENT" => Ok(Form::Segment),
        "PATH" => path(format),
        _ => Err(TextFault::BadField),
    }
}

#[tactic(auto, unfolding(crate::specs::Tables::pair_of))]
fn pair<J: JsonValue>(alloc: Global, items: &[J]) -> Result<(Words, Kind), TextFault>
    ensures { Gives text_lacks_memory (λ c. c) result (pair_of (items_seen J.stands_for items.now)) }
{
    match items {
        [name, word] => {
            let kind = kind(word)?;
            Ok((words_from(alloc, words(name)?)?, kind))
        }
        _ => Err(TextFault::BadField),
    }
}

#[tactic(auto, unfolding(crate::specs::Tables::column_of))]
fn column<J: JsonValue>(alloc: Global, json: &J) -> Result<(Words, Kind), TextFault>
    ensures { Gives text_lacks_memory (λ c. c) result (column_of (J.stands_for json.now)) }
{
    pair(alloc, list(json)?)
}

#[tactic(auto, unfolding(crate::specs::Tables::columns_of))]
fn columns<J: JsonValue>(alloc: Global, json: &J) -> Result<Columns, TextFault>
    ensures { Gives text_lacks_memory (λ c. c) result (columns_of (J.stands_for json.now)) }
{
    let list = read_items(alloc, list_in(json, "columns")?, |item| column(alloc, item))?;
    Ok(Columns::new(list))
}

/// Returns a table of an office text. Fails with `BadField` where a key is missing, or a value is none of those
/// that may stand there.
#[tactic(auto, unfolding(crate::specs::Tables::table_of))]
pub fn table<J: JsonValue>(alloc: Global, json: &J, format: Format) -> Result<TableDef, TextFault>
    ensures { Gives text_lacks_memory (λ t. t) result (table_of format (J.stands_for json.now)) }
{
    let name = words_in(alloc, json, "name")?;
    let columns = columns(alloc, json)?;
    let shape = form(field(json, "shape")?, format)?;
    Ok(TableDef {
        name,
        columns,
        shape,
    })
}

/// Returns the tables of an office text. Fails with `BadField` where a key is missing, or a value
/// is none of those that may stand there.
#[tactic(auto, unfolding(crate::specs::Tables::tables_of))]
pub fn tables<J: JsonValue>(
    alloc: Global,
    json: &J,
    format: Format,
) -> Result<Vec<TableDef>, TextFault>
    ensures { Gives text_lacks_memory (λ v. v.items) result (tables_of format (J.stands_for json.now)) }
{
    read_items(alloc, list_in(json, "tables")?, |item| {
        table(alloc, item, format)
    })
}
