//! Tests of lives.

ghost use Rattle.std.specs.Prelude.{◌≡◌};
ghost use Rattle.clr_needs.specs.Blocking.{same_life};
ghost use Rattle.clr_needs.specs.Broken.{is_living};
ghost use Rattle.clr_needs.specs.Members.{lifetime};
ghost use Rattle.clr_row_versions.specs.Candidates.{are_opposed};
ghost use Rattle.clr_row_versions.specs.Naming.{names};

use clr_needs::Life;

/// Tests whether two lives are one.
pub fn are_same(one: Life, other: Life) -> bool
    ensures { result ≡ same_life (lifetime one) (lifetime other) }
{
    match (one, other) {
        (Life::Always, Life::Always) => true,
        (Life::With(member), Life::With(other)) => member == other,
        (Life::Without(member), Life::Without(other)) => member == other,
        _ => false,
    }
}

/// Tests whether of two versions one lives with a member and the other without it.
pub fn are_opposed(first: Life, second: Life) -> bool
    ensures { result ≡ are_opposed (lifetime first) (lifetime second) }
{
    match (first, second) {
        (Life::With(with), Life::Without(without)) => with == without,
        (Life::Without(without), Life::With(with)) => with == without,
        _ => false,
    }
}

/// Tests whether the one member doesn't take a version of this life away.
pub fn is_living(life: Life) -> bool
    ensures { result ≡ is_living (lifetime life) }
{
    match life {
        Life::Always | Life::With(_) => true,
        Life::Without(_) => false,
    }
}

/// Tests whether a life names a member.
pub fn is_named(life: Life, position: u16) -> bool
    ensures { result ≡ names (lifetime life) position }
{
    match life {
        Life::Always => false,
        Life::With(member) | Life::Without(member) => member == position,
    }
}
