//! What tests of whole offices share: networks by name, offices of texts, all that an office has as lines, certificates and runs as
//! lines, and runs of which something was lost. Where a text can't be read, or memory is wanting, they answer none.
#![tactic(auto)]

mod certificates;
mod losses;
mod members;
mod networks;
mod offices;
mod pictures;
mod runs;

pub use certificates::{certificate_of, line_of};
pub use losses::{are_same, is_right_but_for_lost};
pub use members::members_of;
pub use networks::network;
pub use offices::{
    commands_of, office_after, office_of, perform_script, replies_to, reply_lines, rows_of,
    steps_of,
};
pub use pictures::{add_picture, picture};
pub use runs::{run_or_verdict_lines, run_under};
