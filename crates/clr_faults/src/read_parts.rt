//! Which parts of an office text can be read.

ghost use Rattle.std.specs.Prelude.{◌≡◌, IfOk, is_ok};
ghost use Rattle.serde_json.specs.View.{view};
ghost use Rattle.clr_office_reading.specs.Cells.{live_of};
ghost use Rattle.clr_office_reading.specs.Offices.{format_of, schema_of};
ghost use Rattle.clr_office_reading.specs.Patches.{differences_at};
ghost use Rattle.clr_rule_text.specs.Rules.{rules_of};
ghost use Rattle.clr_office_reading.specs.Workspaces.{head_of};
ghost use Rattle.clr_faults.specs.Stages.{known, savepoint_of};

use crate::memory::unless_lost;
use clr_office_reading::fields::words_in;
use clr_office_reading::formats::{Format, read_format};
use clr_office_reading::live::live;
use clr_office_reading::patches::differences_in;
use clr_office_reading::reading::schema;
use clr_office_reading::rules::read_rules;
use clr_office_reading::workspaces::read_head;
use clr_rows::Schema;
use serde_json::Value as Json;
use std::alloc::{AllocError, Global};

/// Returns the format of an office text, or none where it has none.
pub fn known_format(json: &Json) -> Result<Option<Format>, AllocError>
    ensures { IfOk result (λ found. found ≡ known (format_of (view json.now))) }
{
    match read_format(json) {
        Ok(format) => Ok(Some(format)),
        Err(fault) => unless_lost(fault, None),
    }
}

/// Returns the schema of an office text, or none where it can't be read.
pub fn known_schema(
    alloc: Global,
    json: &Json,
    format: Format,
) -> Result<Option<Schema>, AllocError>
    ensures { IfOk result (λ found. found ≡ known (schema_of format (view json.now))) }
{
    match schema(alloc, json, format) {
        Ok(schema) => Ok(Some(schema)),
        Err(fault) => {
            unless_lost(fault, ())?;
            Ok(None)
        }
    }
}

/// Tests whether the rules of an office text can be read.
pub fn has_rules(
    alloc: Global,
    json: &Json,
    format: Format,
    schema: &Schema,
) -> Result<bool, AllocError>
    ensures { IfOk result (λ has. has ≡ is_ok (rules_of format schema.now (view json.now))) }
{
    match read_rules(alloc, json, format, schema) {
        Ok(_) => Ok(true),
        Err(fault) => unless_lost(fault, false),
    }
}

/// Tests whether the content of LIVE can be read.
pub fn has_live(alloc: Global, json: &Json, schema: &Schema) -> Result<bool, AllocError>
    ensures { IfOk result (λ has. has ≡ is_ok (live_of schema.now (view json.now))) }
{
    match live(alloc, json, schema) {
        Ok(_) => Ok(true),
        Err(fault) => unless_lost(fault, false),
    }
}

/// Tests whether the name, the parent and the flag of a workspace can be read.
pub fn has_head(alloc: Global, json: &Json, format: Format) -> Result<bool, AllocError>
    ensures { IfOk result (λ has. has ≡ is_ok (head_of format (view json.now))) }
{
    match read_head(alloc, json, format) {
        Ok(_) => Ok(true),
        Err(fault) => unless_lost(fault, false),
    }
}

/// Tests whether the cells at a key can be read.
pub fn has_cells(alloc: Global, json: &Json, key: &str, schema: &Schema) -> Result<bool, AllocError>
    ensures { IfOk result (λ has. has ≡ is_ok (differences_at key.now schema.now (view json.now))) }
{
    match differences_in(alloc, json, key, schema) {
        Ok(_) => Ok(true),
        Err(fault) => unless_lost(fault, false),
    }
}

/// Tests whether a mark is a savepoint with a name.
#[tactic(auto, unfolding(crate::specs::Stages::savepoint_of))]
pub fn is_savepoint(alloc: Global, json: &Json) -> Result<bool, AllocError>
    ensures { IfOk result (λ has. has ≡ is_ok (savepoint_of (view json.now))) }
{
    if json.get("child").is_some() {
        return Ok(false);
    }
    match words_in(alloc, json, "savepoint") {
        Ok(_) => Ok(true),
        Err(fault) => unless_lost(fault, false),
    }
}
