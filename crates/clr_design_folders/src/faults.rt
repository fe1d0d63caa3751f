//! Why a folder gives no designs.

ghost use Rattle.std.specs.Prelude.{◌≡◌, IfOk};
ghost use Rattle.clr_design_folders.specs.Remarks.{unfit_remark};

use clr_process_io::RunFault;
use clr_rows::Words;
use clr_streams::show_on_one_line;
use std::alloc::{AllocError, AllocFailed, Global};

/// Why a folder gives no designs.
#[derive(Drop)]
pub enum FolderFault {
    /// What has this name can't be read, or is too long.
    Unread(Words, RunFault),
    /// What has this name isn't as it has to be, in words.
    Unfit(Words, &'static str),
    /// No memory was found.
    OutOfMemory,
}

impl From<AllocError> for FolderFault {
    fn from(_e: AllocError) -> FolderFault {
        FolderFault::OutOfMemory
    }
}

impl<T: Drop> From<AllocFailed<T>> for FolderFault {
    fn from(_e: AllocFailed<T>) -> FolderFault {
        FolderFault::OutOfMemory
    }
}

/// Returns the line that names something in a folder, so that it is one line whatever its name is, and says in words what is wrong with it.
pub fn unfit_remark(alloc: Global, name: &str, sentence: &str) -> Result<Vec<u8>, AllocError>
    ensures line { IfOk result (λ line. line.items ≡ unfit_remark name.now sentence.now) }
{
    let mut line = show_on_one_line(alloc, name.as_bytes())?;
    line.extend_from_slice(b": ")?;
    line.extend_from_slice(sentence.as_bytes())?;
    line.push(b'\n')?;
    Ok(line)
}
