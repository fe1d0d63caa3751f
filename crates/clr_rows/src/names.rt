//! Good names, and lists of names.

ghost use Rattle.std.specs.Prelude.{◌≡◌};
ghost use Rattle.std.specs.List.{list_all};
ghost use Rattle.clr_rows.specs.Names.{is_good_name, is_name_byte};

use crate::limits::MOST_NAME_BYTES;
use crate::lists::List;
use crate::texts::Words;

fn is_name_byte(byte: u8) -> bool
    ensures { result ≡ is_name_byte byte }
{
    byte.is_ascii_alphanumeric() || byte == b'_'
}

fn are_name_bytes(bytes: &[u8]) -> bool
    ensures { result ≡ list_all is_name_byte bytes.now }
{
    bytes.iter().all(|byte| is_name_byte(*byte))
}

/// Returns whether a text may name a table, a column, a workspace or a savepoint. Such a name has 1
/// to 30 bytes: an ASCII letter first, then ASCII letters, digits or `_`. For example, `Valve_2` is a good name. `2nd` isn't, since it begins with a digit.
#[tactic(auto, unfolding(crate::specs::Names::is_good_name))]
pub fn good_name(name: &str) -> bool
    ensures { result ≡ is_good_name name.now }
{
    let bytes = name.as_bytes();
    match bytes.first() {
        Some(first) => {
            first.is_ascii_alphabetic() && bytes.len() <= MOST_NAME_BYTES && are_name_bytes(bytes)
        }
        None => false,
    }
}

/// Names in an order.
pub type Names = List<Words>;
