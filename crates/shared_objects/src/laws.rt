//! What the rule and the one list say, apart from any call.
ghost use Rattle.shared_objects.specs.Laws.{CountsStayFew, WordsShowSeats, LegalHistoriesRun, TablesHaveHistories, OneListsAreLegal, SortedEntriesRun};
ghost use Rattle.shared_objects.specs.Laws.{StampsCover, LearntStandsBefore};

/// At most 56 seats, those of actors, count at an object, so that no count reaches into the stamp.
pub fn counts_stay_few()
    ensures { CountsStayFew }
{}

/// What an object's word says is what all seats have of it.
pub fn words_show_seats()
    ensures { WordsShowSeats }
{}

/// A legal history is one run of all its entries by stamp, then actor.
pub fn legal_histories_run()
    ensures { LegalHistoriesRun }
{}

/// Between any two steps all entries of all seats are one history, which is legal where far stores give back what was put.
pub fn tables_have_histories()
    ensures { TablesHaveHistories }
{}

/// The one list of a closed table is a legal history, where far stores give back what was put.
pub fn one_lists_are_legal()
    ensures { OneListsAreLegal }
{}

/// All entries, sorted by stamp, then actor, run from the opening bytes to those that the table closes with.
pub fn sorted_entries_run()
    ensures { SortedEntriesRun }
{}

/// A stamp that is at least a seat's last one is at least that of each of its entries.
pub fn stamps_cover()
    ensures { StampsCover }
{}

/// What a seat learnt of stands before each entry that it adds afterwards, and such an entry was given what its deed gives
/// after that.
pub fn learnt_stands_before()
    ensures { LearntStandsBefore }
{}
