//! The order of spots.

ghost use Rattle.std.specs.Prelude.{◌≡◌, Some, refl};
ghost use Rattle.std.specs.Cmp.{partial_equiv_from_equiv, po};
ghost use Rattle.std.specs.Cmp.Lexicographic.{slice_cmp};
ghost use Rattle.clr_spots.specs.SpotOrder.{value_cmp, spot_cmp, same_spot};
ghost use Rattle.clr_spots.specs.SpotOrderLaws.{spot_cmp_total, same_spot_equiv, spots_tie};

use crate::spots::Spot;
use clr_rows::{Value, Values};
use std::cmp::Ordering;

/// Orders two values: numbers before texts, and texts by their bytes.
fn order_of_values(a: &Value, b: &Value) -> Ordering
    ensures { result ≡ value_cmp a.now b.now }
{
    match (a, b) {
        (Value::Int(a), Value::Int(b)) => a.cmp(b),
        (Value::Int(_), Value::Words(_)) => Ordering::Less,
        (Value::Words(_), Value::Int(_)) => Ordering::Greater,
        (Value::Words(a), Value::Words(b)) => a.as_str().cmp(b.as_str()),
    }
}

/// Orders two lists of values from left to right, by the first values that differ.
fn order_of_lists(a: &[Value], b: &[Value]) -> Ordering
    ensures { result ≡ slice_cmp value_cmp a.now b.now }
{
    for i in 0..a.len().min(b.len()) {
        let order = order_of_values(&a[i], &b[i]);
        if order != Ordering::Equal {
            return order;
        }
    }
    a.len().cmp(&b.len())
}

impl PartialEq for Spot {
    ghost eq = { same_spot };

    ghost laws = { partial_equiv_from_equiv same_spot_equiv };

    #[tactic(auto, unfolding(crate::specs::SpotOrder::same_spot))]
    fn eq(&self, other: &Spot) -> bool {
        match (self, other) {
            (Spot::Square(i, j), Spot::Square(k, l)) => i == k && j == l,
            (Spot::Square(_, _), Spot::Values(_)) | (Spot::Values(_), Spot::Square(_, _)) => false,
            (Spot::Values(a), Spot::Values(b)) => a.same(b),
        }
    }
}

impl Eq for Spot {
    ghost laws = { same_spot_equiv };
}

/// Squares come before lists of values. Squares are ordered by their first number, then by their
/// second; lists from left to right, numbers before texts.
impl Ord for Spot {
    ghost cmp = { spot_cmp };

    ghost total = { spot_cmp_total };

    ghost matches_partial_cmp = { λ a b. refl };

    ghost matches_eq = { spots_tie };

    #[tactic(auto, unfolding(crate::specs::SpotOrder::spot_cmp))]
    fn cmp(&self, other: &Spot) -> Ordering {
        match (self, other) {
            (Spot::Square(i, j), Spot::Square(k, l)) => i.cmp(k).then(j.cmp(l)),
            (Spot::Square(_, _), Spot::Values(_)) => Ordering::Less,
            (Spot::Values(_), Spot::Square(_, _)) => Ordering::Greater,
            (Spot::Values(a), Spot::Values(b)) => order_of_lists(a.as_slice(), b.as_slice()),
        }
    }
}

impl PartialOrd for Spot {
    ghost partial_cmp = { λ a b. Some (spot_cmp a b) };

    ghost laws = { po spot_cmp_total spots_tie };

    fn partial_cmp(&self, other: &Spot) -> Option<Ordering> {
        Some(self.cmp(other))
    }
}
