//! Lists that are read element by element.

ghost use Rattle.std.specs.Fn.{FnReturnsAt};
ghost use Rattle.clr_readings.specs.Readings.{Gives};
ghost use Rattle.clr_rule_text.specs.Fields.{each, each_in, text_lacks_memory};
ghost use Rattle.clr_rule_text.specs.Lists.{ReadsElements};
ghost use Rattle.clr_rule_text.specs.Seen.{items_seen};

use crate::faults::TextFault;
use crate::json_values::JsonValue;
use std::alloc::Global;

/// The greatest number of places that are reserved for a list before it is read. Longer lists grow, so that one with a fault
/// at its beginning takes little memory.
const MOST_RESERVED: usize = 64;

/// Returns what `read` gives of each element in turn. Fails as `read` does at the first that fails.
pub fn read_each<X, T: Drop, F: Fn(&X) -> Result<T, TextFault>>(
    alloc: Global,
    elements: &[X],
    read: F,
) -> Result<Vec<T>, TextFault>
    requires { F.IsAlwaysCallable read }
    ensures { (f : _) → ReadsElements (FnReturnsAt F.Fn read) f → Gives text_lacks_memory (λ v. v.items) result (each_in f elements.now) }
{
    let mut list = Vec::with_capacity(alloc, elements.len().min(MOST_RESERVED))?;
    for element in elements {
        let one = read(element)?;
        list.push(one)?;
    }
    Ok(list)
}

/// Returns what `read` gives of each JSON value in turn. Fails as `read` does at the first that fails.
pub fn read_items<J: JsonValue, T: Drop, F: Fn(&J) -> Result<T, TextFault>>(
    alloc: Global,
    items: &[J],
    read: F,
) -> Result<Vec<T>, TextFault>
    requires { F.IsAlwaysCallable read }
    ensures { (f : _) → ReadsElements (FnReturnsAt F.Fn read) (λ v. f (J.stands_for v))
        → Gives text_lacks_memory (λ v. v.items) result (each f (items_seen J.stands_for items.now)) }
{
    read_each(alloc, items, read)
}

/// Returns what `make` makes of each element in turn. Fails as `make` does at the first that fails.
pub fn make_each<X: Drop, T: Drop, F: Fn(X) -> Result<T, TextFault>>(
    alloc: Global,
    elements: Vec<X>,
    make: F,
) -> Result<Vec<T>, TextFault>
    requires { F.IsAlwaysCallable make }
    ensures { (f : _) → ReadsElements (λ x r. F.post make x r) f → Gives text_lacks_memory (λ v. v.items) result (each_in f elements.items) }
{
    let mut list = Vec::with_capacity(alloc, elements.len())?;
    for element in elements {
        let one = make(element)?;
        list.push(one)?;
    }
    Ok(list)
}
