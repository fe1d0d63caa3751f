//! Needs of versions, as they are written in lines.

ghost use Rattle.std.specs.Prelude.{◌≡◌, ◌++◌, OnOk};
ghost use Rattle.clr_rows.specs.Beginnings.{IsBegun};
ghost use Rattle.clr_lines.specs.Verdicts.{first_version_text, need_of_versions_text, second_version_text};

use crate::pieces::add_rule;
use clr_cert::add_subject;
use clr_needs::{Need, VersionId};
use clr_rows::Schema;
use std::alloc::AllocError;

/// Adds the second subject of a need, if it has one.
fn add_second_version(
    line: &mut Vec<u8>,
    schema: &Schema,
    version: Option<VersionId>,
    part: u16,
) -> Result<(), AllocError>
    ensures ok { OnOk result (line.new.items ≡ line.old.items ++ second_version_text schema.now version part) }
    ensures begun { IsBegun line.old.items (second_version_text schema.now version part) line.new.items }
{
    match version {
        Some(version) => {
            line.extend_from_slice(b" ")?;
            add_subject(line, schema, version, part)
        }
        None => Ok(()),
    }
}

/// Adds the rule of a need and its first subject.
fn add_first_version(line: &mut Vec<u8>, schema: &Schema, need: &Need) -> Result<(), AllocError>
    ensures ok { OnOk result (line.new.items ≡ line.old.items ++ first_version_text schema.now need.now) }
    ensures begun { IsBegun line.old.items (first_version_text schema.now need.now) line.new.items }
{
    add_rule(line, need.rule)?;
    add_subject(line, schema, need.first, need.first_part)
}

/// Adds a need, as `rule 1 main/20/old/3 main/21/new`: the number of the rule and its subjects,
/// each with its part where that isn't 1. If memory runs out, the line keeps what stood in it, with
/// a beginning of the need behind it.
#[tactic(auto, using(clr_rows::proofs::BeginningLaws::begun_before))]
pub(crate) fn add_need_of_versions(
    line: &mut Vec<u8>,
    schema: &Schema,
    need: &Need,
) -> Result<(), AllocError>
    ensures ok { OnOk result (line.new.items ≡ line.old.items ++ need_of_versions_text schema.now need.now) }
    ensures begun { IsBegun line.old.items (need_of_versions_text schema.now need.now) line.new.items }
{
    add_first_version(line, schema, need)?;
    add_second_version(line, schema, need.second, need.second_part)
}
