//! A root's rows and what members change there.

use crate::member_changes::Members;
use clr_rules::RuleBook;

/// Rules, a root's rows, and what members change there. It copies no row.
#[derive(Drop)]
pub struct RootVersions<'s, 'a, V> {
    pub book: &'s RuleBook,
    pub root: &'s V,
    pub members: &'s Members<'a>,
}
