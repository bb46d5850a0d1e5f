// Agreement of a pool of replicas, as a theorem on the moves that a sound replica may make.
// The contracts below carry it; the calls themselves do nothing.
#![tactic(auto)]

ghost use Rattle.agree.specs.Agreement.{Agreement};
ghost use Rattle.agree.specs.Witness.{Happens};

// For every type of pages and of marks, every pool of 3t + 1 members of whom at most t are not sound, and every run
// of its sound members: pages entered at one height are one page, t + 1 sound members admit it, it stands on the page
// below it, and once t + 1 sound members have committed to a page, each lock of a later round is on that page.
pub fn agreement_stands<P, M>()
    ensures { Agreement P M }
{}

// There is such a run: four members, one of them not sound, enter two pages, the first after a dispute, a release and a second round.
pub fn witness_stands()
    ensures { Happens }
{}
