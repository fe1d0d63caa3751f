//! Items of lists, each with the reading that it has on its own.

ghost use Rattle.std.specs.Prelude.{Result};
ghost use Rattle.serde_json.specs.Data.{Data};
ghost use Rattle.serde_json.specs.View.{view};
ghost use Rattle.clr_rule_text.specs.declared.faults.TextFault.{TextFault as Fault};
ghost use Rattle.clr_office_reading.specs.Cells.{named_row_of};
ghost use Rattle.clr_readings.specs.Readings.{Gives};
ghost use Rattle.clr_rule_text.specs.Fields.{text_lacks_memory};
ghost use Rattle.clr_office_reading.specs.Patches.{named_cell_of};
ghost use Rattle.clr_rule_text.specs.Rules.{stated_rule_of};
ghost use Rattle.clr_office_reading.specs.Tables.{table_of};
ghost use Rattle.clr_office_reading.specs.Workspaces.{named_mark_of};
ghost use Rattle.clr_faults.specs.Readings.{mark_reading, readable, rule_reading};

use clr_office_reading::TextFault;
use clr_office_reading::cells::named_row;
use clr_office_reading::formats::Format;
use clr_office_reading::named_cells::named_cell;
use clr_office_reading::named_marks::{mark, named_mark};
use clr_office_reading::named_rules::named_rule;
use clr_office_reading::rules::rule;
use clr_office_reading::stated_rules::stated_rule;
use clr_office_reading::tables::table;
use clr_rows::Schema;
use serde_json::Value as Json;
use std::alloc::Global;

/// A kind of item, which can be read on its own.
pub trait Item {
    /// Whether an item of this kind can be read, or its fault.
    ghost reads: { Self → Data → Result Unit Fault };

    /// Tests whether an item can be read. Fails with its fault, or with `OutOfMemory` for want of memory.
    fn read(&self, alloc: Global, json: &Json) -> Result<(), TextFault>
        ensures { Gives text_lacks_memory (λ u. u) result (reads self.now (view json.now)) };
}

/// A table.
#[derive(Clone, Copy)]
pub struct TableItem {
    pub format: Format,
}

impl Item for TableItem {
    ghost reads = { λ s d. readable (table_of s.format d) };

    fn read(&self, alloc: Global, json: &Json) -> Result<(), TextFault> {
        let _table = table(alloc, json, self.format)?;
        Ok(())
    }
}

/// A rule with its known needs, by its names alone.
#[derive(Clone, Copy)]
pub struct StatedRuleItem {
    pub format: Format,
}

impl Item for StatedRuleItem {
    ghost reads = { λ s d. readable (stated_rule_of s.format d) };

    fn read(&self, alloc: Global, json: &Json) -> Result<(), TextFault> {
        let _rule = stated_rule(alloc, json, self.format)?;
        Ok(())
    }
}

/// A rule over a schema.
#[derive(Drop)]
pub struct RuleItem<'a> {
    pub schema: &'a Schema,
}

impl Item for RuleItem<'_> {
    ghost reads = { λ s d. rule_reading s.schema.now d };

    #[tactic(auto, unfolding(crate::specs::Readings::rule_reading))]
    fn read(&self, alloc: Global, json: &Json) -> Result<(), TextFault> {
        let named = named_rule(alloc, json)?;
        let _rule = rule(alloc, self.schema, named)?;
        Ok(())
    }
}

/// A row of LIVE, by its names alone.
#[derive(Drop)]
pub struct NamedRowItem<'a> {
    pub schema: &'a Schema,
}

impl Item for NamedRowItem<'_> {
    ghost reads = { λ s d. readable (named_row_of s.schema.now d) };

    fn read(&self, alloc: Global, json: &Json) -> Result<(), TextFault> {
        let _row = named_row(alloc, json, self.schema)?;
        Ok(())
    }
}

/// A cell of a workspace, by its names alone.
#[derive(Drop)]
pub struct NamedCellItem<'a> {
    pub schema: &'a Schema,
}

impl Item for NamedCellItem<'_> {
    ghost reads = { λ s d. readable (named_cell_of s.schema.now d) };

    fn read(&self, alloc: Global, json: &Json) -> Result<(), TextFault> {
        let _cell = named_cell(alloc, json, self.schema)?;
        Ok(())
    }
}

/// A mark of a workspace, by its names alone.
#[derive(Drop)]
pub struct NamedMarkItem<'a> {
    pub schema: &'a Schema,
}

impl Item for NamedMarkItem<'_> {
    ghost reads = { λ s d. readable (named_mark_of s.schema.now d) };

    fn read(&self, alloc: Global, json: &Json) -> Result<(), TextFault> {
        let _mark = named_mark(alloc, json, self.schema)?;
        Ok(())
    }
}

/// A mark of a workspace with its cells.
#[derive(Drop)]
pub struct MarkItem<'a> {
    pub schema: &'a Schema,
}

impl Item for MarkItem<'_> {
    ghost reads = { λ s d. mark_reading s.schema.now d };

    #[tactic(auto, unfolding(crate::specs::Readings::mark_reading))]
    fn read(&self, alloc: Global, json: &Json) -> Result<(), TextFault> {
        let named = named_mark(alloc, json, self.schema)?;
        let _mark = mark(alloc, self.schema, named)?;
        Ok(())
    }
}
