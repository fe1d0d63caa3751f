//! The roles of rows in a rule, and what their rows are found by.

ghost use Rattle.std.specs.Prelude.{◌≡◌, ◌++◌, ◌∷◌, [], IfOk, OnOk, map};
ghost use Rattle.clr_cut_proposals.specs.Roles.{ByColumns, Whole, AtEnd, Within};
ghost use Rattle.clr_cut_proposals.specs.RoleModels.{role_of};
ghost use Rattle.clr_cut_proposals.specs.Roles.{all_roles, lone_roles, marked_as, paired_roles, serving_marks, serving_roles};
ghost use Rattle.std.specs.List.{filter_map, flat_map};

use clr_rules::{Col, Rule, Side, Tip};
use std::alloc::{AllocError, Global};

/// What rows of a role are found by.
#[derive(Clone, Copy, Debug)]
pub(crate) enum RoleMark<'a> {
    /// By the values of columns.
    ByColumns(&'a [Col]),
    /// By their whole geometry.
    Whole,
    /// By an end of it.
    AtEnd(Tip),
    /// By all that is nearer than so many millimetres.
    Within(i64),
}

/// A role of rows in a rule.
#[derive(Clone, Copy, Debug)]
pub(crate) struct RuleRole<'a> {
    pub(crate) side: &'a Side,
    pub(crate) mark: RoleMark<'a>,
}

impl<'a> RuleRole<'a> {
    /// Returns the role of a side whose rows are found by columns.
    fn by_columns(side: &'a Side, columns: &'a [Col]) -> RuleRole<'a>
        ensures { role_of result ≡ (side.now, ByColumns columns.now) }
    {
        let mark = RoleMark::ByColumns(columns);
        RuleRole { side, mark }
    }

    /// Returns the role of a side whose rows are found by their whole geometry.
    fn whole(side: &'a Side) -> RuleRole<'a>
        ensures { role_of result ≡ (side.now, Whole) }
    {
        let mark = RoleMark::Whole;
        RuleRole { side, mark }
    }

    /// Returns the role of a side whose rows are found by an end.
    fn at_end(side: &'a Side, tip: Tip) -> RuleRole<'a>
        ensures { role_of result ≡ (side.now, AtEnd tip) }
    {
        let mark = RoleMark::AtEnd(tip);
        RuleRole { side, mark }
    }

    /// Returns the role of a side whose rows are found within a distance.
    fn within(side: &'a Side, d: i64) -> RuleRole<'a>
        ensures { role_of result ≡ (side.now, Within d) }
    {
        let mark = RoleMark::Within(d);
        RuleRole { side, mark }
    }
}

/// Adds the roles of two subjects.
fn add_paired<'a>(roles: &mut Vec<RuleRole<'a>>, rule: &'a Rule) -> Result<(), AllocError>
    ensures { OnOk result (map role_of roles.new.items ≡ map role_of roles.old.items ++ paired_roles rule.now) }
{
    match rule {
        Rule::Unique { subject, columns } => {
            roles.push(RuleRole::by_columns(subject, columns.as_slice()))?;
        }
        Rule::Crossing { a, b, .. } => {
            roles.push(RuleRole::whole(a))?;
            roles.push(RuleRole::whole(b))?;
        }
        Rule::Near { a, b, d } => {
            roles.push(RuleRole::within(a, *d))?;
            roles.push(RuleRole::within(b, *d))?;
        }
        _ => {}
    }
    Ok(())
}

/// Adds the role of a subject alone.
fn add_lone<'a>(roles: &mut Vec<RuleRole<'a>>, rule: &'a Rule) -> Result<(), AllocError>
    ensures { OnOk result (map role_of roles.new.items ≡ map role_of roles.old.items ++ lone_roles rule.now) }
{
    match rule {
        Rule::Partner {
            subject,
            columns,
            ..
        } => roles.push(RuleRole::by_columns(subject, columns.as_slice()))?,
        Rule::EndNode { subject, tip, .. } => roles.push(RuleRole::at_end(subject, *tip))?,
        _ => {}
    }
    Ok(())
}

/// Adds the role of rows that serve.
fn add_serving<'a>(roles: &mut Vec<RuleRole<'a>>, rule: &'a Rule) -> Result<(), AllocError>
    ensures { OnOk result (map role_of roles.new.items ≡ map role_of roles.old.items ++ serving_roles rule.now) }
{
    match rule {
        Rule::Partner {
            server,
            server_columns,
            ..
        } => roles.push(RuleRole::by_columns(server, server_columns.as_slice()))?,
        Rule::EndNode { server, .. } | Rule::Crossing { server, .. } => {
            roles.push(RuleRole::whole(server))?;
        }
        _ => {}
    }
    Ok(())
}

/// Returns the roles of two subjects of a rule.
pub(crate) fn paired_roles(alloc: Global, rule: &Rule) -> Result<Vec<RuleRole<'_>>, AllocError>
    ensures { IfOk result (λ roles. map role_of roles.items ≡ paired_roles rule.now) }
{
    let mut roles = Vec::new(alloc);
    add_paired(&mut roles, rule)?;
    Ok(roles)
}

/// Returns the role of rows that serve, if the rule has one.
pub(crate) fn serving_roles(alloc: Global, rule: &Rule) -> Result<Vec<RuleRole<'_>>, AllocError>
    ensures { IfOk result (λ roles. map role_of roles.items ≡ serving_roles rule.now) }
{
    let mut roles = Vec::new(alloc);
    add_serving(&mut roles, rule)?;
    Ok(roles)
}

/// Returns all roles of a rule.
pub(crate) fn all_roles(alloc: Global, rule: &Rule) -> Result<Vec<RuleRole<'_>>, AllocError>
    ensures { IfOk result (λ roles. map role_of roles.items ≡ all_roles rule.now) }
{
    let mut roles = Vec::new(alloc);
    add_lone(&mut roles, rule)?;
    add_paired(&mut roles, rule)?;
    add_serving(&mut roles, rule)?;
    Ok(roles)
}

/// Adds a role with the mark of another, if both are of one table.
fn add_marked<'a>(
    roles: &mut Vec<RuleRole<'a>>,
    role: RuleRole<'a>,
    other: RuleRole<'a>,
) -> Result<(), AllocError>
    ensures { OnOk result (map role_of roles.new.items
        ≡ map role_of roles.old.items ++ filter_map (marked_as (role_of role.entry)) (role_of other.entry ∷ [])) }
{
    if role.side.table != other.side.table {
        return Ok(());
    }
    let (side, mark) = (role.side, other.mark);
    roles.push(RuleRole { side, mark })?;
    Ok(())
}

/// Adds a role with each mark that rows of its table have.
fn add_marks_of<'a>(
    roles: &mut Vec<RuleRole<'a>>,
    role: RuleRole<'a>,
    all: &[RuleRole<'a>],
) -> Result<(), AllocError>
    ensures { OnOk result (map role_of roles.new.items
        ≡ map role_of roles.old.items ++ filter_map (marked_as (role_of role.entry)) (map role_of all.now)) }
{
    for other in all {
        add_marked(roles, role, *other)?;
    }
    Ok(())
}

/// Returns the role of rows that serve, by each mark that they may have.
pub(crate) fn serving_marks(alloc: Global, rule: &Rule) -> Result<Vec<RuleRole<'_>>, AllocError>
    ensures { IfOk result (λ roles. map role_of roles.items ≡ serving_marks rule.now) }
{
    let all = all_roles(alloc, rule)?;
    let serving = serving_roles(alloc, rule)?;
    let mut roles = Vec::new(alloc);
    for role in serving.as_slice() {
        add_marks_of(&mut roles, *role, all.as_slice())?;
    }
    Ok(roles)
}
