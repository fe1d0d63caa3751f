//! The hash of spots.

ghost use Rattle.std.specs.Prelude.{◌≡◌, fold};
ghost use Rattle.std.specs.List.{flat_map};
ghost use Rattle.clr_spots.specs.SpotHash.{same_writes, spot_writes, value_writes};

use crate::spots::Spot;
use clr_rows::Value;
use std::hash::{Hash, Hasher};

/// Feeds a value to a hasher: a number as its eight bytes, a text as all its bytes at once.
fn hash_value<H: Hasher>(value: &Value, state: &mut H)
    ensures { state.new ≡ fold H.write state.old (value_writes value.now) }
{
    match value {
        Value::Int(number) => state.write_i64(*number),
        Value::Words(text) => state.write(text.as_str().as_bytes()),
    }
}

/// Feeds some values to a hasher, from left to right.
fn hash_values<H: Hasher>(values: &[Value], state: &mut H)
    ensures { state.new ≡ fold H.write state.old (flat_map value_writes values.now) }
{
    for i in 0..values.len() {
        hash_value(&values[i], state);
    }
}

/// A square is hashed by its two numbers, a list of values by each of them. Spots under one rule
/// are of one kind, so nothing tells the kinds apart.
impl Hash for Spot {
    ghost hash_input = { spot_writes };

    ghost respects_eq = { same_writes };

    #[tactic(auto, unfolding(crate::specs::SpotHash::spot_writes))]
    fn hash<H: Hasher>(&self, state: &mut H) {
        match self {
            Spot::Square(i, j) => {
                state.write_i64(*i);
                state.write_i64(*j);
            }
            Spot::Values(values) => hash_values(values.as_slice(), state),
        }
    }
}
