//! Lists in order.

ghost use Rattle.std.specs.Prelude.{◌↔◌, Contains};
ghost use Rattle.std.specs.FinMap.{IsAntisymmetric};
ghost use Rattle.std.specs.List.Sorted.{IsStrictlySortedBy};

/// Puts a list in order, with each element once. It takes no memory.
pub fn put_in_order<T: Ord + Copy>(list: &mut Vec<T>)
    requires { IsAntisymmetric T.cmp }
    ensures ascending { IsStrictlySortedBy T.cmp list.new.items }
    ensures same { (x : T) → Contains list.new.items x ↔ Contains list.old.items x }
{
    list.sort_unstable();
    list.dedup();
}
