// Laws of tables.
ghost use Rattle.lucy_tables.specs.Laws.{AreOneTable, HaveOneCut};

/// A text is one table at most, or is refused for one reason.
pub fn texts_are_one_table()
    ensures { AreOneTable }
{}

/// Words have one cut behind the tables that they ask for: at most one, and none are without one.
pub fn words_have_one_cut()
    ensures { HaveOneCut }
{}
