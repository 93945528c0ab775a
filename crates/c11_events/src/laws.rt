ghost use Rattle.c11_events.specs.Laws.{HappensBeforeRises, HappensBeforeStays, HappensBeforeNew, ConsistentIsChainLawful, ChainLawfulIsConsistent, PrefixIsConsistent, OffersAgree, LastIsOffered, SomeIsOffered, LayoutIsLawful, LayoutExists, LayoutIsOne, LayoutRises, ReadFits, OthersFit, ReadFitsPriors, DeadIsNotOffered, NotPassedIsOffered, RacesAreKept, RacingIsKept, ValueByRead, OneThreadReadsLast, StepStaysConsistent, InitsAreConsistent, EventAdds, ReachOrders, ReachStays};

/// Happens-before leads from smaller to larger numbers.
pub fn happens_before_rises()
    ensures { HappensBeforeRises }
{}

/// A new event adds no happens-before between earlier ones.
pub fn happens_before_stays()
    ensures { HappensBeforeStays }
{}

/// What happens before a new event, by the events with a step to it.
pub fn happens_before_new()
    ensures { HappensBeforeNew }
{}

/// A consistent list is chain-lawful.
pub fn consistent_is_chain_lawful()
    ensures { ConsistentIsChainLawful }
{}

/// A chain-lawful list is consistent.
pub fn chain_lawful_is_consistent()
    ensures { ChainLawfulIsConsistent }
{}

/// A prefix of a consistent list is consistent.
pub fn prefix_is_consistent()
    ensures { PrefixIsConsistent }
{}

/// Both ways to say what is offered agree.
pub fn offers_agree()
    ensures { OffersAgree }
{}

/// The last store of the cell in a lawful order is offered, so where the cell has a store, some store is.
pub fn last_is_offered()
    ensures last { LastIsOffered }
    ensures some { SomeIsOffered }
{}

/// A chain-lawful list has a layout of each cell, and one only, and a layout is lawful; where no chain is linked to
/// another their heads rise in it.
pub fn layouts()
    ensures exists { LayoutExists }
    ensures lawful { LayoutIsLawful }
    ensures one { LayoutIsOne }
    ensures rises { LayoutRises }
{}

/// A read keeps a list chain-lawful exactly where it fits the chains of the list.
pub fn read_fits()
    ensures { ReadFits }
{}

/// The same by what the thread knows before it reads: what an acquire brings adds nothing.
pub fn read_fits_priors()
    ensures { ReadFitsPriors }
{}

/// An event that reads nothing keeps a list chain-lawful.
pub fn others_fit()
    ensures { OthersFit }
{}

/// A dead store is in no later offer.
pub fn dead_is_not_offered()
    ensures { DeadIsNotOffered }
{}

/// What a thread has not passed is offered to a relaxed load of it, where no fence stands.
pub fn not_passed_is_offered()
    ensures { NotPassedIsOffered }
{}

/// Where no earlier access raced, the latest race is with the last write or with the latest read of a thread.
pub fn races_are_kept()
    ensures races { RacesAreKept }
    ensures racing { RacingIsKept }
{}

/// The value of a store, by that of the store it reads.
pub fn value_by_read()
    ensures { ValueByRead }
{}

/// The next read of a lone thread is offered the last store of its cell and no other.
pub fn one_thread_reads_last()
    ensures { OneThreadReadsLast }
{}

/// Histories stay consistent: from the Inits on, through each step whose read is offered.
pub fn histories_are_consistent()
    ensures inits { InitsAreConsistent }
    ensures steps { StepStaysConsistent }
{}

/// What a further event adds to what must precede what: pairs into the store that it reads and into itself, all from prior stores, or
/// from stores that came before what is read already.
pub fn event_adds()
    ensures { EventAdds }
{}

/// To reach is a strict order of the stores of a cell, which holds what must precede, and stays so in a longer list.
pub fn reach_orders()
    ensures orders { ReachOrders }
    ensures stays { ReachStays }
{}
