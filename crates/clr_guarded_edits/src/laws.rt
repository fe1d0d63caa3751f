//! The laws of guarded edits, proved by a function that does nothing.

ghost use Rattle.clr_guarded_edits.specs.Laws.{NothingElseLaw, OverOldRowsLaw, RowsThatCameLaw, StaleRowLaw, TakenKeyLaw, WrittenLaw};

/// The statements that take one content to another, made over tables in which each row of the first stands as it was, leave at each cell that differs what
/// the second has, and all else as it was: so over tables that have the first content they leave the second. They write nothing unless each row of the first
/// content stands as it was, no row is where one is put, and a pass over each table prints none.
pub fn guarded_edits_are_all_or_nothing()
    ensures written { WrittenLaw }
    ensures over_old_rows { OverOldRowsLaw }
    ensures nothing_else { NothingElseLaw }
    ensures stale { StaleRowLaw }
    ensures taken { TakenKeyLaw }
    ensures came { RowsThatCameLaw }
{}
