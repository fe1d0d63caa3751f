//! Laws of steps, each proved by a function that does nothing.

ghost use Rattle.clr_steps.specs.Examples.{LevelExample, NameExample, RollExample, SavepointExample};
ghost use Rattle.clr_steps.specs.Laws.{AnswerLaw, ComparedLaw, EffectLaw, FitLaw, KeptLaw, LiveLaw, MemoryLaw, MoreLaw, NameLaw, NothingNewLaw};
ghost use Rattle.clr_steps.specs.Laws.{QuietLaw, RefusalLaw, RulesLaw, RunLaw, SchemaLaw, StepLaw, UnheldLaw};
ghost use Rattle.clr_steps.specs.WorkspaceLaws.{ConflictLaw, ChangesAfterMergeLaw, ChangesAfterRefreshLaw, ResolveLaw, RollAllLaw};

/// A command by name does to an office what it does by position to the list of workspaces of the
/// office's tree. A name is found at a position that says the same of it, the command is refused
/// for the same reason and leaves the same workspaces, and what is answered by position is the
/// step's answer.
pub fn steps_by_position()
    ensures name { NameLaw }
    ensures refusal { RefusalLaw }
    ensures effect { EffectLaw }
    ensures step { StepLaw }
    ensures answer { AnswerLaw }
{}

/// No step is answered `OutOfMemory`. Replies to commands one after another are those of a run in
/// which exactly the commands answered `OutOfMemory` found no memory. One more reply makes a run of
/// one command more.
pub fn answers_make_a_run()
    ensures found { MemoryLaw }
    ensures run { RunLaw }
    ensures more { MoreLaw }
{}

/// No command changes the schema or the rules. Where every rule holds in LIVE and in each workspace
/// that is kept, this is so after each command. No command breaks a need in LIVE but those that are
/// broken there already, with the same rows: so no new error comes in, and what is mended stays
/// mended. A kept workspace breaks no more than it broke itself, or after its refresh and `hold` than
/// its parent, if that is kept. So what LIVE or a kept workspace breaks, one of them broke before. This is
/// so of lists of commands too, also of those that find no memory. Where each row fits the schema,
/// also in the base and the savepoints of each workspace, this is so after each command.
pub fn steps_keep_offices_sound()
    ensures schema { SchemaLaw }
    ensures rules { RulesLaw }
    ensures live { LiveLaw }
    ensures kept { KeptLaw }
    ensures compared { ComparedLaw }
    ensures nothing_new { NothingNewLaw }
    ensures fit { FitLaw }
{}

/// A workspace is in conflict with its parent where one of its cells is. After a merge, and after a
/// rollback to the base, it has no changes. After a refresh without a conflict it has the changes
/// that it had. A cell that was resolved is in conflict no longer.
pub fn changes_after_commands()
    ensures conflict { ConflictLaw }
    ensures merge { ChangesAfterMergeLaw }
    ensures roll_all { RollAllLaw }
    ensures refresh { ChangesAfterRefreshLaw }
    ensures resolve { ResolveLaw }
{}

/// Every rule holds in LIVE and in each workspace that is kept exactly where a search of the tree,
/// LIVE first, finds none that breaks one.
pub fn none_is_unheld_where_rules_hold()
    ensures { UnheldLaw }
{}

/// A command that is quiet for a merge set, and that is no merge or refresh of a member, leaves the
/// root's rows as they are, leaves the root kept, leaves each member's base, rows and parent as
/// they are, and brings no removed member back.
pub fn quiet_commands_leave_the_merge_set()
    ensures { QuietLaw }
{}

/// Runs in an office without rows are answered as their definitions compute: which names are
/// refused, and why; when a savepoint is held, and which savepoints go; and how deep a tree may be.
pub fn replies_of_examples()
    ensures names { NameExample }
    ensures savepoints { SavepointExample }
    ensures rolls { RollExample }
    ensures levels { LevelExample }
{}
