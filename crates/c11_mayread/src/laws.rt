ghost use Rattle.c11_mayread.specs.Laws.{LinksReachTheSame};

/// A graph that agrees with the events, as the one inside `Reads` does, reaches from a store exactly what that store reaches in them.
pub fn links_reach_the_same()
    ensures { LinksReachTheSame }
{}
