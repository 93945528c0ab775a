ghost use Rattle.c11_scorder.specs.Laws.{FencesDecide, AnswersDecide, LastStoreDecides, LastStoreStandsForAll};

/// The fence rules hold exactly the stores before a next event that are before the last seq_cst fence of its thread or, where it is
/// seq_cst, before the last one of the store's thread; beside these only stores that are earlier in the event's own thread.
pub fn fences_decide()
    ensures { FencesDecide }
{}

/// So the last stores before these fences, one of each cell and thread for each fence, stand for all stores that the fence rules hold:
/// each of those is one of them or an earlier store of its cell and thread.
pub fn answers_decide()
    ensures { AnswersDecide }
{}

/// The last seq_cst store of a cell is the last one before a next event, where that is seq_cst.
pub fn last_store_decides()
    ensures { LastStoreDecides }
{}

/// Each seq_cst store of a cell before a next event is the last one or before it in the order of the seq_cst events, and the last one is
/// before a seq_cst event.
pub fn last_store_stands_for_all()
    ensures { LastStoreStandsForAll }
{}
