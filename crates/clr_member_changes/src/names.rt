//! The names of members, by their positions.

ghost use Rattle.std.specs.Prelude.{◌≡◌, map};
ghost use Rattle.clr_member_changes.specs.Names.{member_name as name_of_member};

/// Returns the name of the member at a position, or no bytes past the end.
pub fn member_name<'a>(members: &'a [&'a str], at: usize) -> &'a str
    ensures { result.now ≡ name_of_member (map (λ name. name.now) members.entry.now) at }
{
    match members.get(at) {
        Some(name) => name,
        None => "",
    }
}
