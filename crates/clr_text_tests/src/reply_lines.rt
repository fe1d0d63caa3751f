//! Lines of replies that no text can lead to, since its reader refuses what they speak of.

use crate::networks::schema;
use clr_change::EditFault;
use clr_lines::reply_line;
use clr_rows::RowFault;
use clr_steps::Reply;
use std::alloc::Global;

/// Returns whether this is the line of a reply.
fn is_line(alloc: Global, reply: &Reply, text: &str) -> bool {
    match schema(alloc) {
        Some(schema) => match reply_line(alloc, &schema, reply) {
            Ok(line) => line.as_slice() == text.as_bytes(),
            Err(_) => false,
        },
        None => false,
    }
}

#[test]
fn lines_of_rows_that_no_text_has(rt: HostRuntime) {
    let path = Reply::BadEdit(4, EditFault::Row(RowFault::BadPath));
    assert!(rt; is_line(rt.alloc(), &path, "refused 9 BadEdit 4 BadPath\n"));
    let table = Reply::BadEdit(5, EditFault::Row(RowFault::NoTable));
    assert!(rt; is_line(rt.alloc(), &table, "refused 9 BadEdit 5 NoTable\n"));
}
