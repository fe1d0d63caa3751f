//! What is asked in an office, by words. About no office is asked in src/trees.rt.
//!
//! | words | what is asked |
//! |---|---|
//! | `run` | what the steps of a script are answered, one after another, and its commands all at once |
//! | `give` | what commands are answered all at once |
//! | `check` | the verdict on a certificate |
//! | `read` | with which fault the text of a certificate is read |
//! | `plan ROOT NAME..` | a plan; where it is cleared, its certificate is the text |
//! | `planinorder ROOT NAME..` | the same in the order of the names |
//! | `cleared` | what commands are answered under a certificate, and the rows of the root after them |
//! | `where clear` | what commands are answered all at once, where a certificate is clear, and the rows of LIVE |
//! | `office after` | what commands are answered under a certificate, where they leave the office of a text |

use crate::cases::Case;
use crate::checks::{check_line, fault_line};
use crate::plans::{lines_in_order, plan_lines};
use crate::runs::{cleared_lines, lines_where_clear, lines_with_office};
use crate::steps::script_lines;
use clr_engine::Office;
use clr_office_test_kit::replies_to;
use std::alloc::Global;

/// Returns the lines that a case is answered in its office, whose text is given too; none where nothing can be asked by its words, or it
/// is not so.
pub fn answer(alloc: Global, office: &mut Office, text: &str, case: &Case<'_>) -> Option<Vec<u8>> {
    let asked = case.ask.text;
    match case.ask.words {
        "run" => script_lines(alloc, office, (text, case.script), asked),
        "give" => replies_to(alloc, office, asked),
        "check" => check_line(alloc, office, asked),
        "read" => fault_line(alloc, office, asked),
        "cleared" => cleared_lines(alloc, office, asked),
        "where clear" => lines_where_clear(alloc, office, asked),
        "office after" => lines_with_office(alloc, office, (text, case.script), asked),
        words => match words.strip_prefix("planinorder ") {
            Some(names) => lines_in_order(alloc, office, names, asked),
            None => plan_lines(alloc, office, words.strip_prefix("plan ")?, asked),
        },
    }
}
