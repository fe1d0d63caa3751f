//! What is printed for a database.

ghost use Rattle.clr_desk.specs.Databases.{IsDatabaseAnswer};
ghost use Rattle.clr_desk_prints.specs.Printing.{IsMadePrintout};

use clr_desk_command_line::DatabaseAsk;
use clr_desk_edits::{answer_edits, answer_proposal, answer_sql_edits};
use clr_desk_prints::Print;
use clr_office::RunFault;
use std::alloc::Global;

/// Returns what is printed for what is asked of an office text for a database. The second text is that of the office that merges left, where edits are asked
/// for.
pub(crate) fn answer_database(
    alloc: Global,
    ask: &DatabaseAsk,
    office: &[u8],
    second: &[u8],
) -> Result<Print, RunFault>
    ensures { IsMadePrintout (IsDatabaseAnswer ask.now office.now second.now) result }
{
    match ask {
        DatabaseAsk::Edits => answer_edits(alloc, office, second),
        DatabaseAsk::SqlEdits(sql) => {
            let system = sql.system.as_ref();
            answer_sql_edits(alloc, sql.dialect, sql.origin, system, office, second)
        }
        DatabaseAsk::Proposal(sql) => {
            answer_proposal(alloc, sql.dialect, sql.origin, sql.system.as_ref(), office)
        }
    }
}
