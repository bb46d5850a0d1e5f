// The theorems on the definitions of the calls. Each function carries one.
ghost use Rattle.protocol.specs.Laws.{HeldIsHighest, ReleaseNeedsHigher, WritesReadBack};
ghost use Rattle.protocol.specs.Runs.{AgreementOfReplicas};
ghost use Rattle.protocol.specs.Subject.{StatesOnce, CommitsOnce, NeverBack, RefusedUnchanged};

// Over every run of every pool with at most t liars among 3t + 1, sound replicas never enter different pages.
pub fn agreement_of_replicas()
    ensures { AgreementOfReplicas }
{}

// A replica states one page, or none, in one height and round, for ever.
pub fn states_once()
    ensures { StatesOnce }
{}

// Sound replicas commit to one page in one height and round.
pub fn commits_once()
    ensures { CommitsOnce }
{}

// A refused call, whatever it would answer, changes nothing but the seals that it spent.
pub fn refused_unchanged<X>()
    ensures { RefusedUnchanged X }
{}

// Height and round of a replica never go back.
pub fn never_back()
    ensures { NeverBack }
{}

// The lock message that a replica holds is that of its highest lock; it holds none where it has no lock.
pub fn held_is_highest()
    ensures { HeldIsHighest }
{}

// A release has an effect only if its lock is above every lock held, and then its lock is the only one.
pub fn release_needs_higher()
    ensures { ReleaseNeedsHigher }
{}

// What a call writes reads back as the fields that the rules name: sender, height and round, page and seals.
pub fn writes_read_back()
    ensures { WritesReadBack }
{}
