//! How far names are gone through.
ghost use Rattle.std.specs.Prelude.{◌∷◌, ◌++◌, [], List, IfSome, OnOk};
ghost use Rattle.clr_workspaces.specs.Marks.{Name};
ghost use Rattle.clr_choices.specs.Looked.{IsLookedAt};
ghost use Rattle.clr_choices.specs.Progress.{IsAdded, IsFollowed, IsProgress};

use crate::looked::Looked;
use crate::trials::{TriedName, try_name};
use clr_cert::Certificate;
use clr_engine::Office;
use clr_rows::Words;
use std::alloc::{AllocError, Global};

/// Names that are cleared together, by this certificate; how many of them are taken so far, which are the first; the lines of the
/// names that are left so far, and whether there are any.
#[derive(Drop)]
pub(crate) struct Progress {
    pub(crate) cleared: Vec<Words>,
    pub(crate) count: usize,
    pub(crate) certificate: Certificate,
    pub(crate) left: Vec<u8>,
    pub(crate) is_any_left: bool,
}

impl Progress {
    /// Takes a name where it is the next of those that are cleared together, and returns whether it is.
    fn follow(&mut self, name: &Words) -> bool
        ensures { IsFollowed self.old name.now result self.new }
    {
        if self.count >= self.cleared.len() {
            return false;
        }
        if !self.cleared[self.count].same(name) {
            return false;
        }
        self.count += 1;
        true
    }

    /// Takes a name that was tried, or leaves it. Once one is taken here, those taken are all that are cleared together.
    fn add(&mut self, name: &Words, trial: TriedName) -> Result<(), AllocError>
        ensures { OnOk result (IsAdded self.old name.now trial self.new) }
    {
        match trial {
            TriedName::Taken(certificate) => {
                self.cleared.truncate(self.count);
                self.cleared.push(name.copy()?)?;
                self.count = self.cleared.len();
                self.certificate = certificate;
            }
            TriedName::Left(lines) => {
                self.left.extend_from_slice(lines.as_slice())?;
                self.is_any_left = true;
            }
        }
        Ok(())
    }
}

/// Goes on by one more name: it is taken where it is the next of those that are cleared together, and tried otherwise, by
/// what is known of names that were looked at.
pub(crate) fn go_on(
    alloc: Global,
    office: &Office,
    root: &str,
    looked: &Option<Looked>,
    progress: &mut Progress,
    name: &Words,
) -> Result<(), AllocError>
    requires { IfSome looked.now (IsLookedAt office.now root.now) }
    ensures { OnOk result ((names : List Name) → IsProgress office.now root.now names progress.old
        → IsProgress office.now root.now (names ++ name.now ∷ []) progress.new) }
{
    if progress.follow(name) {
        return Ok(());
    }
    let trial = try_name(
        alloc,
        office,
        root,
        looked,
        progress.cleared.as_slice(),
        progress.count,
        name,
    )?;
    progress.add(name, trial)
}
