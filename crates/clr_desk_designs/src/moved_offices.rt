//! Offices of texts with another content of LIVE.

ghost use Rattle.std.specs.Prelude.{◌≡◌, Ok, IfOk};
ghost use Rattle.clr_rows.specs.Schemas.{FitsSchema};
ghost use Rattle.clr_steps.specs.Offices.{Office as WholeOffice};
ghost use Rattle.clr_designs.specs.Designs.{with_live};
ghost use Rattle.clr_office_texts.specs.Drafts.{draft_in};
ghost use Rattle.clr_desk_designs.specs.Made.{IsTextFitting};

use clr_desk_errors::admitted;
use clr_desk_layers::draft_with_live;
use clr_engine::Office;
use clr_office_reports::draft_of;
use clr_rows::Sheet;
use std::alloc::{AllocError, Global};

/// Returns the office of a text with another content in place of LIVE's, whatever it breaks.
pub(crate) fn office_with_live(
    alloc: Global,
    text: &[u8],
    content: &Sheet,
) -> Result<Office, AllocError>
    requires { IsTextFitting text.now content.now }
    ensures { IfOk result (λ office. (o : WholeOffice) → draft_in text.now ≡ Ok o → office ≡ with_live o content.now) }
{
    // (a text that was read fails only for want of memory)
    let Ok(read) = draft_of(alloc, text) else {
        return Err(AllocError);
    };
    let relaid = draft_with_live(alloc, text, &read.draft, content)?;
    admitted(relaid)
}
