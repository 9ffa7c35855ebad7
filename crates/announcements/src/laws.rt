// What holds of tables by their definitions alone.
ghost use Rattle.announcements.specs.Laws.{HearingMakesTheTable, OneTable};
ghost use Rattle.announcements.specs.Laws.{RaisedSurpasses, TablesGrow};

/// For every list of announcements, each with its moment, that a table hears in turn, it keeps of
/// each key the greatest of those that are accepted and were not early.
pub fn hearing_makes_the_table()
    ensures { HearingMakesTheTable }
{}

/// Announcements have one table, in whatever order and however often they were heard.
pub fn one_table()
    ensures { OneTable }
{}

/// An announcement is raised exactly where it is greater than each of its key that was heard
/// before.
pub fn raised_surpasses()
    ensures { RaisedSurpasses }
{}

/// A table that keeps one more, which is greater than each of its key from before, is the table of
/// those and of this one.
pub fn tables_grow()
    ensures { TablesGrow }
{}
