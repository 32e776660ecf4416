//! Laws of the tables, for all tables.
ghost use Rattle.render_queues.specs.Laws.{LawChains, LawItems, LawNext};

/// What each step does to the chain of each metatile.
pub fn law_chains()
    ensures { LawChains }
{}

/// What is taken next is what the list of all that waits has next.
pub fn law_next()
    ensures { LawNext }
{}

/// Each step as it is seen in the items: what waits in each queue and what is taken, each with its chain.
pub fn law_items()
    ensures { LawItems }
{}
