//! What may be tried, and how it is told.

ghost use Rattle.std.specs.Prelude.{◌≡◌, ◌++◌, IfOk, OnOk, map, string_bytes};
ghost use Rattle.std.specs.List.{flat_map};
ghost use Rattle.clr_plan_answers.specs.Answers.{then_text};
ghost use Rattle.clr_work_orders.specs.Actions.{action_text, brought_text, edit_text, other_text, piece_text, split_text};

use clr_change::Edit;
use clr_member_changes::member_name;
use clr_phrases::At;
use clr_plan_sentences::add_label;
use clr_rows::{Schema, Shape, Words};
use clr_tips::{Piece, Split, copy_edit};
use std::alloc::{AllocError, Global};

/// Something that may clear the members of an order. Members are numbered by position.
#[derive(Debug, Drop)]
pub enum Action {
    /// This member is merged first, and then those of the order, one after another.
    GoFirst(usize),
    /// All members of the order but this one are merged.
    LeaveOut(usize),
    /// A member makes an edit; the member is given by its position.
    Make(usize, Edit),
    /// Two lines are split at one place, by one member or by two.
    Split(Split),
}

/// Returns a copy of an action.
pub(crate) fn copy_action(alloc: Global, action: &Action) -> Result<Action, AllocError>
    ensures { IfOk result (λ copy. copy ≡ action.now) }
{
    match action {
        Action::GoFirst(member) => Ok(Action::GoFirst(*member)),
        Action::LeaveOut(member) => Ok(Action::LeaveOut(*member)),
        Action::Make(member, edit) => Ok(Action::Make(*member, copy_edit(edit)?)),
        Action::Split(split) => Ok(Action::Split(split.copy(alloc)?)),
    }
}

/// Adds where a row is brought, as ` at (30.000, 4.000)`, or nothing of a row that isn't at a place.
fn add_brought(text: &mut String, shape: &Shape) -> Result<(), AllocError>
    ensures { OnOk result (string_bytes text.new ≡ string_bytes text.old ++ brought_text shape.now) }
{
    match shape {
        Shape::At(place) => {
            let place = At(*place);
            text.push_str(" at ")?;
            write!(text, "{place}")
        }
        _ => Ok(()),
    }
}

/// Adds an edit of a member in words, as `with valve 11 at (30.000, 4.000) in Extension`.
fn add_edit(text: &mut String, schema: &Schema, name: &str, edit: &Edit) -> Result<(), AllocError>
    ensures { OnOk result (string_bytes text.new ≡ string_bytes text.old ++ edit_text schema.now name.now edit.now) }
{
    match edit {
        Edit::Insert(cell, row) => {
            text.push_str("with ")?;
            add_label(text, schema, *cell)?;
            add_brought(text, &row.shape)?;
            text.push_str(" in ")?;
            text.push_str(name)
        }
        Edit::Update(cell, _) => {
            text.push_str("with ")?;
            add_label(text, schema, *cell)?;
            text.push_str(" in ")?;
            text.push_str(name)?;
            text.push_str(" as it was taken over")
        }
        Edit::Delete(cell) => {
            text.push_str("without ")?;
            add_label(text, schema, *cell)?;
            text.push_str(" in ")?;
            text.push_str(name)
        }
    }
}

/// Adds the node that a member brings where lines are split, as `, with node 12 in East`, or nothing where it brings none.
fn add_piece(
    text: &mut String,
    schema: &Schema,
    names: &[&str],
    piece: &Piece,
) -> Result<(), AllocError>
    ensures { OnOk result (string_bytes text.new ≡ string_bytes text.old ++ piece_text schema.now (map (λ name. name.now) names.now) piece.now) }
{
    match piece.node {
        Some(cell) => {
            text.push_str(", with ")?;
            add_label(text, schema, cell)?;
            text.push_str(" in ")?;
            text.push_str(member_name(names, piece.member))
        }
        None => Ok(()),
    }
}

/// Adds the node that another member brings where lines are split, if there is another and it brings one.
fn add_other(
    text: &mut String,
    schema: &Schema,
    names: &[&str],
    other: &Option<Piece>,
) -> Result<(), AllocError>
    ensures { OnOk result (string_bytes text.new ≡ string_bytes text.old ++ other_text schema.now (map (λ name. name.now) names.now) other.now) }
{
    match other {
        Some(piece) => add_piece(text, schema, names, piece),
        None => Ok(()),
    }
}

/// Adds where two lines are split, and who brings a node there, as `with both split at (5.000, 2.000), with node 12 in East`.
fn add_split(
    text: &mut String,
    schema: &Schema,
    names: &[&str],
    split: &Split,
) -> Result<(), AllocError>
    ensures { OnOk result (string_bytes text.new ≡ string_bytes text.old ++ split_text schema.now (map (λ name. name.now) names.now) split.now) }
{
    let place = At(split.place);
    text.push_str("with both split at ")?;
    write!(text, "{place}")?;
    add_piece(text, schema, names, &split.first)?;
    add_other(text, schema, names, &split.other)
}

/// Adds members that are merged behind another, one after another, as `, then Extension, then Bypass`.
fn add_followers(text: &mut String, names: &[&str], order: &[usize]) -> Result<(), AllocError>
    ensures { OnOk result (string_bytes text.new ≡ string_bytes text.old ++ flat_map (then_text (map (λ name. name.now) names.now)) order.now) }
{
    for member in order {
        text.push_str(", then ")?;
        text.push_str(member_name(&*names, *member))?;
    }
    Ok(())
}

/// Returns what is said of an action, as a text.
fn action_string(
    alloc: Global,
    schema: &Schema,
    names: &[&str],
    order: &[usize],
    action: &Action,
) -> Result<String, AllocError>
    ensures { IfOk result (λ text. string_bytes text ≡ action_text schema.now (map (λ name. name.now) names.now) order.now action.now) }
{
    let mut text = String::new(alloc);
    match action {
        Action::GoFirst(member) => {
            text.push_str("first ")?;
            text.push_str(member_name(names, *member))?;
            add_followers(&mut text, names, order)?;
        }
        Action::LeaveOut(member) => {
            text.push_str("without ")?;
            text.push_str(member_name(names, *member))?;
        }
        Action::Make(member, edit) => {
            add_edit(&mut text, schema, member_name(names, *member), edit)?;
        }
        Action::Split(split) => add_split(&mut text, schema, names, split)?,
    }
    Ok(text)
}

/// Returns what is said of an action of members that is tried among those in an order.
pub(crate) fn action_words(
    alloc: Global,
    schema: &Schema,
    names: &[&str],
    order: &[usize],
    action: &Action,
) -> Result<Words, AllocError>
    ensures { IfOk result (λ words. words ≡ action_text schema.now (map (λ name. name.now) names.now) order.now action.now) }
{
    Ok(Words::new(action_string(alloc, schema, names, order, action)?))
}
