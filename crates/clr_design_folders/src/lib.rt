//! Folders of designs, read from the system: each folder in one is a design, and each file `TABLE.csv` in that is a layer.
//!
//! - `LayeredDesign`: a design with its layers.
//! - `read_designs` reads all designs of a folder with their layers, or says why there are none. What a folder or a file holds no contract says.
//! - `unfit_remark` [`line`]: exactly the line that names something in a folder and says what is wrong with it.
#![tactic(auto)]

mod faults;
mod folders;
mod layered_designs;

pub use faults::{FolderFault, unfit_remark};
pub use folders::{FolderDesigns, read_designs};
pub use layered_designs::LayeredDesign;
