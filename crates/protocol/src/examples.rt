// The definitions at small examples, and a run that meets every premise of the theorem on runs.
ghost use Rattle.protocol.specs.Reckoned.{Reckoned};
ghost use Rattle.protocol.specs.Laws.{WellSealed};
ghost use Rattle.protocol.specs.Witness.{RunsHappen, FewUnsound, four, unopened, whole};

// Leaders, sizes of messages, a replica that is called to a later round, what a leader puts forward, lots.
pub fn reckoned()
    ensures { Reckoned }
{}

// There is a lawful run: four members, one of them not sound, enter two pages, the first after a lock that reached one
// member alone, its release, and a second round.
pub fn runs_happen()
    ensures { RunsHappen }
{}

// In that run each seal has the length of its sealer's, and there is one for each statement that is sealed.
pub fn runs_are_well_sealed()
    ensures { (few : FewUnsound) → WellSealed (four few) unopened whole }
{}
