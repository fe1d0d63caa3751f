//! How a member stands.

ghost use Rattle.std.specs.Prelude.{◌≡◌, find};
ghost use Rattle.std.specs.Option.{option_copied};
ghost use Rattle.clr_board.specs.States.{goes, has_member, is_waiting, state_alone, state_of, state_within};

use clr_clash_helpers::HelpedClash;
use clr_clearance::Verdict;

/// How a member stands to the others of a merge set and to the root.
#[derive(Clone, Copy, Debug, PartialEq, Eq)]
pub enum DesignState {
    /// It is in no clash: whatever members can be merged in every order, they can be so with it.
    Free,
    /// Alone it breaks a need, and one or more of the members help this need.
    Waiting,
    /// Alone it breaks a need, and none of the members helps it.
    Unaided,
    /// The root changed a row since it took that over, and it changes this row too.
    Conflicted,
    /// It can be merged alone, and is in one clash or more.
    Clashing,
}

impl DesignState {
    /// Returns whether a member can be merged now, or after others that help it.
    pub fn goes(self) -> bool
        ensures { result ≡ goes self }
    {
        match self {
            DesignState::Free | DesignState::Waiting => true,
            DesignState::Unaided | DesignState::Conflicted | DesignState::Clashing => false,
        }
    }

    /// Returns whether a member waits for one that helps it.
    pub fn is_waiting(self) -> bool
        ensures { result ≡ is_waiting self }
    {
        match self {
            DesignState::Waiting => true,
            _ => false,
        }
    }
}

/// Returns whether a clash has the member at a position.
fn has_member(clash: &HelpedClash<'_>, at: usize) -> bool
    ensures { result ≡ has_member at clash.now }
{
    clash.clash.members.as_slice().contains(&at)
}

/// Returns how a member stands that can't be merged even alone, where so many members help it.
fn state_alone(cause: &Verdict, helpers: usize) -> DesignState
    ensures { result ≡ state_alone cause.now helpers }
{
    match cause {
        Verdict::Conflict { .. } => DesignState::Conflicted,
        _ => {
            if helpers == 0 {
                DesignState::Unaided
            } else {
                DesignState::Waiting
            }
        }
    }
}

/// Returns how a member of a clash stands.
fn state_within(clash: &HelpedClash<'_>) -> DesignState
    ensures { result ≡ state_within clash.now }
{
    if clash.clash.members.as_slice().len() == 1 {
        state_alone(&clash.clash.cause, clash.helpers.as_slice().len())
    } else {
        DesignState::Clashing
    }
}

/// Returns the first clash that has the member at a position, if one has.
pub fn clash_of<'a, 'b>(helped: &'a [HelpedClash<'b>], at: usize) -> Option<&'a HelpedClash<'b>>
    ensures { option_copied result ≡ find (has_member at) helped.entry.now }
{
    for clash in helped {
        if has_member(clash, at) {
            return Some(clash);
        }
    }
    None
}

/// Returns how the member at a position stands, by the first clash that has it. A member that is a clash by itself is in no
/// other. For example, where a hydrant waits for a main that another design brings, its design is `Waiting`.
pub fn state_of(helped: &[HelpedClash<'_>], at: usize) -> DesignState
    ensures { result ≡ state_of helped.now at }
{
    match clash_of(helped, at) {
        Some(clash) => state_within(clash),
        None => DesignState::Free,
    }
}
