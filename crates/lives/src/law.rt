// The law over whole lives.
ghost use Rattle.lives.specs.Laws.{LawHolds};

// The law holds at every point of every life, for every kind of operation, every medium and every store.
pub fn law_holds()
    ensures { LawHolds }
{}
