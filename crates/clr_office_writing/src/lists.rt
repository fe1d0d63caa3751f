//! Lists, written as JSON element by element.

ghost use Rattle.std.specs.Prelude.{◌≡◌, ◌++◌, map, OnOk};
ghost use Rattle.clr_office_writing.specs.Lists.{Writes};
ghost use Rattle.clr_office_writing.specs.Tokens.{tokens_of};
ghost use Rattle.clr_office_writing.specs.Values.{list_data};

use crate::json_texts::JsonText;
use std::alloc::AllocError;

/// Writes an array of what `write` writes of each element in turn. `N` is the type by which the
/// contract speaks of what is written: that of the elements, or of what they are with names. No
/// value of it is made.
pub fn write_each<N, X, F: Fn(&mut JsonText, &X) -> Result<(), AllocError>>(
    text: &mut JsonText,
    elements: &[X],
    write: F,
) -> Result<(), AllocError>
    requires { F.IsAlwaysCallable write }
    ensures plain { (f : _) → Writes (F.post write) f → OnOk result (text.new ≡ text.old ++ tokens_of (list_data f elements.now)) }
    ensures named { (named : X → N) (f : _) → Writes (F.post write) (λ x. f (named x))
        → OnOk result (text.new ≡ text.old ++ tokens_of (list_data f (map named elements.now))) }
{
    text.begin_array()?;
    for element in elements {
        write(text, element)?;
    }
    text.end_array()
}
