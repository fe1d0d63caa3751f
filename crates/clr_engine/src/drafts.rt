//! Drafts of offices, and how they are admitted.

ghost use Rattle.std.specs.Prelude.{◌≡◌, None, option_map, IfOk, IfErr, OnOk};
ghost use Rattle.clr_steps.specs.Offices.{office_of};
ghost use Rattle.clr_steps.specs.Readings.{name_at};
ghost use Rattle.clr_workspace_parts.specs.Parts.{first_fault, IsFirstPartFault};
ghost use Rattle.clr_engine.specs.BrokenNow.{AreBrokenNow};
ghost use Rattle.clr_engine.specs.Fitting.{IsFitting};
ghost use Rattle.clr_engine.specs.Drafts.{IsUnheld, office_of_parts, unheld_in};

use crate::offices::Office;
use clr_judges::Judge;
use clr_rows::{Schema, Sheet};
use clr_rules::{Broken, RuleBook};
use clr_tree::{Part, PartFault, Tree};
use std::alloc::{AllocError, Global};
use std::marker::Model;

/// A database whose rules aren't yet known to hold: its schema, its rules, LIVE's content and the
/// workspaces under LIVE. The rules and each row of each content fit the schema.
pub struct Draft {
    schema: Schema,
    judge: Judge,
    tree: Tree,
}

// (so that who lets a draft go calls this, and needn't prove anew how each of its parts is dropped)
impl Drop for Draft {
    fn drop(self) {
        let Draft {
            schema: _schema,
            judge: _judge,
            tree: _tree,
        } = self;
    }
}

impl Model for Draft {
    ghost use Rattle.clr_steps.specs.Offices.{Office as Whole, office_code, office_of};
    ghost use Rattle.clr_engine.specs.Fitting.{IsFitting};

    ghost Value = { Whole };

    ghost coded = { office_code };

    ghost view = { λ d. office_of d.schema d.judge d.tree.list };

    ghost invariant = { λ d. IsFitting (office_of d.schema d.judge d.tree.list) };
}

/// Why a draft is no office.
#[derive(Clone, Copy, Debug, PartialEq, Eq)]
pub enum AdmitFault {
    /// No memory was found.
    OutOfMemory,
    /// A need is broken that isn't known: the position of the first workspace that breaks such a need,
    /// and its least such need. LIVE has position 0, and then come those that are kept, in order of
    /// creation.
    Broken { position: usize, need: Broken },
}

impl Draft {
    /// Returns a draft of a tree. The rules and each row fit the schema.
    pub fn of_tree(alloc: Global, schema: Schema, book: RuleBook, tree: Tree) -> Draft
        requires { IsFitting (office_of schema book tree.list) }
        ensures { result ≡ office_of schema book tree.list }
    {
        Draft {
            schema,
            judge: Judge::new(alloc, book),
            tree,
        }
    }

    /// Returns a draft of LIVE and of parts, each a workspace, in order of creation. The rules and
    /// each row fit the schema. Fails with the position of the first part that can't stand, counted
    /// from 0, and why: part by part for its name, its parent, and for too many workspaces or
    /// levels, and only then part by part for its marks. Fails with 0 and `OutOfMemory` if memory
    /// runs out.
    /// For example, a part `A` under LIVE without marks and a part `B` under `A` fail with 0 and `BadMarks`, since `A`
    /// lacks the mark of its child.
    pub fn build(
        alloc: Global,
        schema: Schema,
        book: RuleBook,
        live: Sheet,
        parts: Vec<Part>,
    ) -> Result<Draft, (usize, PartFault)>
        requires { IsFitting (office_of_parts schema book live parts.items) }
        ensures made { IfOk result (λ draft. draft ≡ office_of_parts schema book live parts.items) }
        ensures passed { OnOk result (first_fault live parts.items ≡ None) }
        ensures refused { IfErr result (IsFirstPartFault (first_fault live parts.items)) }
    {
        let tree = Tree::build(alloc, live, parts)?;
        Ok(Draft::of_tree(alloc, schema, book, tree))
    }

    /// Returns the schema of every row and rule.
    pub fn schema(&self) -> &Schema
        ensures value { result.now ≡ self.now.schema }
        ensures fit { IsFitting self.now }
    {
        &self.schema
    }

    /// Returns the rules, which aren't yet known to hold.
    pub fn book(&self) -> &RuleBook
        ensures value { result.now ≡ self.now.book }
        ensures fit { IsFitting self.now }
    {
        self.judge.book()
    }

    /// Returns LIVE's content.
    pub fn live(&self) -> &Sheet
        ensures value { result.now ≡ self.now.live }
        ensures fit { IsFitting self.now }
    {
        self.tree.live()
    }

    /// Returns the name of the workspace at a position in order of creation, LIVE having position
    /// 0, or none past the end.
    pub fn name_at(&self, position: usize) -> Option<&str>
        ensures { option_map (λ name. name.now) result ≡ name_at self.now position }
    {
        if position < self.tree.len() {
            Some(self.tree.name_at(position))
        } else {
            None
        }
    }

    /// Returns the needs that are broken in LIVE or in a workspace that is kept, ascending, each once.
    /// For example, where LIVE breaks the need of mains 1 and 2 under rule 0, and so does a workspace that is kept, the
    /// list has this need alone.
    pub fn broken_needs(&self) -> Result<Vec<Broken>, AllocError>
        ensures { IfOk result (λ list. AreBrokenNow self.now list.items) }
    {
        self.judge.broken_needs(&self.tree)
    }

    /// Returns the position of the first workspace that breaks a need which isn't among the known
    /// ones, and its least such need, or none: what `admit` would fail with. LIVE has position 0, and
    /// then come those that are kept, in order of creation. The known needs may be in any order, be
    /// there twice, or not be broken. It takes far less memory than `admit`, and less time.
    /// For example, where mains 1 and 2 break rule 0 in LIVE, it returns 0 and this need if no need is known, and none if
    /// this one is.
    pub fn unheld(&self, known: &[Broken]) -> Result<Option<(usize, Broken)>, AllocError>
        ensures { IfOk result (λ found. found ≡ unheld_in self.now known.now) }
    {
        self.judge.unheld(&self.tree, known)
    }

    /// Returns the office that has all that the draft has, where each need that is broken in LIVE or
    /// in a workspace that is kept is among the known ones. Otherwise it fails and gives the draft
    /// back: with `Broken` and the first of these that breaks another need, or with `OutOfMemory`.
    /// The known needs may be in any order, be there twice, or not be broken. They count here alone:
    /// later a need is old by the rows that break it.
    /// For example, where rule 1 lets mains cross only at nodes, and mains 1 and 2 cross without one in LIVE, it fails
    /// with the draft and the need of mains 1 and 2 under rule 1, unless that need is known.
    pub fn admit(self, known: &[Broken]) -> Result<Office, (Draft, AdmitFault)>
        ensures office { IfOk result (λ office. office ≡ self) }
        ensures held { OnOk result (unheld_in self known.now ≡ None) }
        ensures draft { IfErr result (λ refused. refused.0 ≡ self) }
        ensures fault { IfErr result (λ refused. IsUnheld (unheld_in self known.now) refused.1) }
    {
        match self.judge.finders(&self.tree, known) {
            Ok(Ok(finders)) => {
                let Draft {
                    schema,
                    judge,
                    mut tree,
                } = self;
                tree.sweep();
                Ok(Office::of_parts(schema, judge, tree, finders, known.is_empty()))
            }
            Ok(Err((position, need))) => Err((self, AdmitFault::Broken { position, need })),
            Err(_) => Err((self, AdmitFault::OutOfMemory)),
        }
    }
}
