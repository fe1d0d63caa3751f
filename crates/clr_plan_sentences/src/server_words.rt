//! What becomes of the rows that serve a need that nothing serves in every order, in words.

ghost use Rattle.std.specs.Prelude.{◌≡◌, ◌++◌, IfOk, OnOk, flat_map, map, string_bytes};
ghost use Rattle.std.specs.Option.{option_copied};
ghost use Rattle.clr_plan_sentences.specs.NeedCauses.{change_front, change_label, changed_text, common_text, is_hopeless, label_if, listed_text};
ghost use Rattle.clr_plan_sentences.specs.NeedCauses.{no_server_text, rows_word, servers_text, serving_text, told_changes};
ghost use Rattle.clr_merge_sets.specs.MemberChanges.{set_of};

use crate::labels::add_label;
use crate::settings::Setting;
use clr_member_changes::MemberChanges;
use clr_needs::{Need, VersionId};
use clr_phrases::{Meeting, add_names, field_words, side_words};
use clr_rows::{Held, Row, Schema, Words};
use clr_rules::{ColumnList, Rule, Side};
use clr_serving_rows::{ServerChange, server_side};
use std::alloc::{AllocError, Global};

/// Returns whether no row can stand where a need asks for one.
fn is_hopeless(place: Meeting) -> bool
    ensures { result ≡ is_hopeless place }
{
    match place {
        Meeting::Between | Meeting::Overlap => true,
        Meeting::Whole(_) | Meeting::Apart | Meeting::NoParts => false,
    }
}

/// Returns the word for the rows of a need.
fn rows_word(second: Option<VersionId>) -> &'static str
    ensures { result.now ≡ rows_word second }
{
    match second {
        Some(_) => "them",
        None => "it",
    }
}

/// Returns the row of a change, and the member that makes it, as `valve 9 (Renewal)`.
fn change_label(
    alloc: Global,
    schema: &Schema,
    members: &MemberChanges<'_>,
    change: &ServerChange,
) -> Result<Words, AllocError>
    ensures { IfOk result (λ words. words ≡ change_label schema.now (set_of members.now).members change.now) }
{
    let mut text = String::new(alloc);
    add_label(&mut text, schema, change.cell)?;
    text.push_str(" (")?;
    text.push_str(members.name(change.member))?;
    text.push_str(")")?;
    Ok(Words::new(text))
}

/// Adds the row of a change, where it takes a row that serves away, or where it brings one.
fn add_label_if(
    alloc: Global,
    labels: &mut Vec<Words>,
    schema: &Schema,
    members: &MemberChanges<'_>,
    change: &ServerChange,
    leaves: bool,
) -> Result<(), AllocError>
    ensures { OnOk result (labels.new.items ≡ labels.old.items ++ label_if schema.now (set_of members.now).members leaves change.now) }
{
    if change.leaves == leaves {
        labels.push(change_label(alloc, schema, members, change)?)?;
    }
    Ok(())
}

/// Returns the rows that changes take away, or those that they bring.
fn change_labels(
    alloc: Global,
    schema: &Schema,
    members: &MemberChanges<'_>,
    changes: &[ServerChange],
    leaves: bool,
) -> Result<Vec<Words>, AllocError>
    ensures { IfOk result (λ labels. labels.items ≡ flat_map (label_if schema.now (set_of members.now).members leaves) changes.now) }
{
    let mut labels = Vec::new(alloc);
    for change in changes {
        add_label_if(alloc, &mut labels, schema, members, change, leaves)?;
    }
    Ok(labels)
}

/// Adds the words before the rows that go, or before those that come.
fn add_front(text: &mut String, second: Option<VersionId>, leaves: bool) -> Result<(), AllocError>
    ensures { OnOk result (string_bytes text.new ≡ string_bytes text.old ++ change_front second leaves) }
{
    if leaves {
        text.push_str("  What serves ")?;
        text.push_str(rows_word(second))?;
        text.push_str(" now goes: ")?;
        Ok(())
    } else {
        text.push_str("  What would serve ")?;
        text.push_str(rows_word(second))?;
        text.push_str(" comes, perhaps later: ")?;
        Ok(())
    }
}

/// Returns texts as they are handed to a list in a sentence.
pub(crate) fn texts_of<'a>(alloc: Global, words: &'a [Words]) -> Result<Vec<&'a str>, AllocError>
    ensures { IfOk result (λ texts. map (λ text. text.now) texts.items ≡ words.now) }
{
    let mut texts = Vec::new(alloc);
    for word in words {
        texts.push(word.as_str())?;
    }
    Ok(texts)
}

/// Adds names behind some words, and nothing where there are none.
fn add_listed(
    text: &mut String,
    alloc: Global,
    second: Option<VersionId>,
    leaves: bool,
    labels: &[Words],
) -> Result<(), AllocError>
    ensures { OnOk result (string_bytes text.new ≡ string_bytes text.old ++ listed_text (change_front second leaves) labels.now) }
{
    if labels.is_empty() {
        return Ok(());
    }
    let names = texts_of(alloc, labels)?;
    add_front(text, second, leaves)?;
    add_names(text, names.as_slice())?;
    text.push_str(".\n")
}

/// Adds the sentence that no row of a side stands at a place that is known, or that none stands anywhere.
fn add_no_server(
    text: &mut String,
    alloc: Global,
    schema: &Schema,
    root: &str,
    server: &Side,
    place: Meeting,
) -> Result<(), AllocError>
    ensures { OnOk result (string_bytes text.new ≡ string_bytes text.old ++ no_server_text schema.now root.now server.now place) }
{
    let side = side_words(alloc, schema, server)?;
    match place {
        Meeting::Whole(_) => {
            text.push_str("  No ")?;
            text.push_str(side.as_str())?;
            text.push_str(" stands there, in ")?;
            text.push_str(root)?;
            text.push_str(" or in one of these designs.\n")?;
            Ok(())
        }
        Meeting::Between | Meeting::Overlap | Meeting::Apart | Meeting::NoParts => {
            text.push_str("  No such ")?;
            text.push_str(side.as_str())?;
            text.push_str(" stands in ")?;
            text.push_str(root)?;
            text.push_str(" or in one of these designs.\n")?;
            Ok(())
        }
    }
}

impl Setting<'_> {
    /// Adds the rows that go, or those that come, each with its member; nothing where there are none.
    fn add_changed(
        &self,
        text: &mut String,
        second: Option<VersionId>,
        changes: &[ServerChange],
        leaves: bool,
    ) -> Result<(), AllocError>
        ensures { OnOk result (string_bytes text.new ≡ string_bytes text.old
            ++ changed_text self.now.office.now.schema (set_of self.now.members.now).members second changes.now leaves) }
    {
        let schema = self.office.schema();
        let labels = change_labels(self.alloc, schema, self.members, changes, leaves)?;
        add_listed(text, self.alloc, second, leaves, labels.as_slice())
    }

    /// Adds which rows that serve a need go and which come, or that no such row stands.
    fn add_told_changes(
        &self,
        text: &mut String,
        need: &Need,
        place: Meeting,
        server: &Side,
        changes: &[ServerChange],
    ) -> Result<(), AllocError>
        ensures { OnOk result (string_bytes text.new ≡ string_bytes text.old
            ++ told_changes self.now.office.now (set_of self.now.members.now) need.now place server.now changes.now) }
    {
        if changes.is_empty() {
            let schema = self.office.schema();
            return add_no_server(text, self.alloc, schema, self.members.root, server, place);
        }
        self.add_changed(text, need.second, changes, true)?;
        self.add_changed(text, need.second, changes, false)
    }

    /// Adds which rows that serve a need go and which come; nothing where no row can serve it.
    fn add_servers(
        &self,
        text: &mut String,
        need: &Need,
        place: Meeting,
        changes: &[ServerChange],
        server: Option<&Side>,
    ) -> Result<(), AllocError>
        ensures { OnOk result (string_bytes text.new ≡ string_bytes text.old
            ++ servers_text self.now.office.now (set_of self.now.members.now) need.now place changes.now (option_copied server.entry)) }
    {
        let Some(server) = server else {
            return Ok(());
        };
        if is_hopeless(place) {
            return Ok(());
        }
        self.add_told_changes(text, need, place, server, changes)
    }

    /// Adds what the rows of a need have in common in columns, if the first of them stands.
    fn add_common(
        &self,
        text: &mut String,
        need: &Need,
        subject: &Side,
        columns: &ColumnList,
        row: Option<&Row>,
    ) -> Result<(), AllocError>
        ensures { OnOk result (string_bytes text.new ≡ string_bytes text.old
            ++ common_text self.now.office.now.schema need.now subject.now columns.now (option_copied row.entry)) }
    {
        let Some(row) = row else {
            return Ok(());
        };
        let held = Held {
            cell: need.first.cell,
            row,
        };
        let fields = field_words(self.alloc, self.office.schema(), subject, columns, held)?;
        text.push_str("  Both have ")?;
        text.push_str(fields.as_str())?;
        text.push_str(".\n")?;
        Ok(())
    }

    /// Adds what two rows that are alike have in common; of any other need which rows that serve it go and which come.
    pub(crate) fn add_serving(
        &self,
        text: &mut String,
        need: &Need,
        place: Meeting,
        first: Option<&Row>,
        changes: &[ServerChange],
        rule: &Rule,
    ) -> Result<(), AllocError>
        ensures { OnOk result (string_bytes text.new ≡ string_bytes text.old
            ++ serving_text self.now.office.now (set_of self.now.members.now) need.now place (option_copied first.entry) changes.now rule.now) }
    {
        match rule {
            Rule::Unique { subject, columns } => {
                self.add_common(text, need, subject, columns, first)
            }
            Rule::Partner { .. }
            | Rule::EndNode { .. }
            | Rule::Crossing { .. }
            | Rule::Near { .. } => {
                self.add_servers(text, need, place, changes, server_side(rule))
            }
        }
    }
}
