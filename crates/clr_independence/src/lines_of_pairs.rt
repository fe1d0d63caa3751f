//! The lines of the independence of members.

ghost use Rattle.std.specs.Prelude.{◌≡◌, ◌++◌, map, IfOk, OnOk};
ghost use Rattle.std.specs.List.{flat_map};
ghost use Rattle.clr_merge_sets.specs.MergeSetNames.{merge_set};
ghost use Rattle.clr_independence.specs.IndependenceLines.{AreIndependenceLines, independence_line, independence_text};

use crate::independent_members::{Independence, independence_of};
use crate::member_pairs::MemberPair;
use clr_engine::Office;
use clr_lines::unfit_line;
use clr_member_changes::member_name;
use clr_rows::Schema;
use std::alloc::{AllocError, Global};

/// Adds the line of a pair.
fn add_pair(lines: &mut Vec<u8>, members: &[&str], pair: MemberPair) -> Result<(), AllocError>
    ensures { OnOk result (lines.new.items ≡ lines.old.items ++ independence_line (map (λ name. name.now) members.now) pair) }
{
    let word = if pair.independent {
        "independent "
    } else {
        "dependent "
    };
    lines.extend_from_slice(word.as_bytes())?;
    lines.extend_from_slice(member_name(members, pair.first).as_bytes())?;
    lines.extend_from_slice(b" ")?;
    lines.extend_from_slice(member_name(members, pair.second).as_bytes())?;
    lines.extend_from_slice(b"\n")
}

/// Returns the lines of pairs.
fn pair_lines(alloc: Global, members: &[&str], pairs: &[MemberPair]) -> Result<Vec<u8>, AllocError>
    ensures { IfOk result (λ lines. lines.items ≡ flat_map (independence_line (map (λ name. name.now) members.now)) pairs.now) }
{
    let mut lines = Vec::new(alloc);
    for pair in pairs {
        add_pair(&mut lines, members, *pair)?;
    }
    Ok(lines)
}

/// Returns the lines of the independence of members, each ended by `\n`: for each pair
/// `independent` or `dependent` and both names, or `unfit` and the verdict.
#[tactic(auto, unfolding(crate::specs::IndependenceLines::independence_text))]
pub(crate) fn lines_of_independence(
    alloc: Global,
    schema: &Schema,
    members: &[&str],
    root: &str,
    said: &Independence,
) -> Result<Vec<u8>, AllocError>
    ensures { IfOk result (λ lines. lines.items ≡ independence_text schema.now (map (λ name. name.now) members.now) root.now said.now) }
{
    match said {
        Independence::Unfit(verdict) => unfit_line(alloc, schema, members, root, verdict),
        Independence::Pairs(pairs) => pair_lines(alloc, members, pairs.as_slice()),
    }
}

/// Returns the lines of the independence of members of a root in an office. Without members there
/// are none.
///
/// For example, where mains may cross only at nodes, and of the mains that `W1`, `W2` and `W3` insert only those of
/// `W2` and `W3` cross, the lines are
///
/// ```text
/// independent W1 W2
/// independent W1 W3
/// dependent W2 W3
/// ```
pub fn independence_lines(
    alloc: Global,
    office: &Office,
    root: &str,
    members: &[&str],
) -> Result<Vec<u8>, AllocError>
    ensures { IfOk result (λ lines. AreIndependenceLines office.now (merge_set root.now (map (λ name. name.now) members.now)) lines.items) }
{
    let said = independence_of(alloc, office, root, members)?;
    let lines = lines_of_independence(alloc, office.schema(), members, root, &said)?;
    Ok(lines)
}
