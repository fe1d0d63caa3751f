//! Lists of columns, filters and books, and what they have.
ghost use Rattle.std.specs.Prelude.{◌<◌, length};

use crate::rule_texts::{columns, rules, side};
use clr_row_test_kit::{add_word, schema};
use clr_rules::{Rule, RuleBook};
use std::alloc::Global;

/// Returns columns as a slice and as a list.
pub(crate) fn columns_text(alloc: Global, text: &str) -> Option<String> {
    let columns = columns(alloc, text)?;
    let slice = format!(in alloc; "{:?}", columns.as_slice()).ok()?;
    let list = columns.into_vec();
    format!(in alloc; "{} {list:?}", slice.as_str()).ok()
}

/// Returns a filter as a slice and as a list.
pub(crate) fn filter_text(alloc: Global, text: &str) -> Option<String> {
    let filter = side(alloc, text)?.filter;
    let slice = format!(in alloc; "{:?}", filter.as_slice()).ok()?;
    let list = filter.into_vec();
    format!(in alloc; "{} {list:?}", slice.as_str()).ok()
}

/// Returns the distance of a rule about distances, or 0.
fn distance(rule: &Rule) -> i64 {
    match rule {
        Rule::Near { d, .. } => *d,
        _ => 0,
    }
}

/// Returns the distance of a book's rule, by its number and in the list.
fn distance_text(alloc: Global, book: &RuleBook, number: u16) -> Option<String>
    requires { number < length book.now }
{
    let by_number = distance(book.rule(number));
    let in_list = distance(&book.rules()[number as usize]);
    format!(in alloc; "{by_number},{in_list}").ok()
}

/// Returns the distances of a book's rules.
pub(crate) fn distances_text(alloc: Global, network: &str, text: &str) -> Option<String> {
    let schema = schema(alloc, network)?;
    let book = RuleBook::new(&schema, rules(alloc, text)?).ok()?;
    let mut text = String::new(alloc);
    for number in 0..64 {
        if usize::from(number) < book.len() {
            add_word(&mut text, distance_text(alloc, &book, number)?.as_str())?;
        }
    }
    Some(text)
}
