// Locks set and taken away, candidate by candidate.
ghost use Rattle.std.specs.Prelude.{◌≡◌, map, Some};
ghost use Rattle.std.specs.Option.{option_map};
ghost use Rattle.protocol.specs.Rounds.{raised, locked_at, keep_only};
ghost use Rattle.shelf.specs.Views.{round_view, candidate_view};
ghost use Rattle.shelf.specs.Locks.{lock_view, kept_in};

use crate::candidates::Candidate;
use crate::scans::Lock;
use base::bounded::Change;
use base::counters::Round;
use base::slips::Slip;

// The higher of a lock's round, if there is one, and another round.
fn raise(lock: Option<Round>, round: Round) -> Round
    ensures { Some result.0 ≡ raised (option_map round_view lock) round.0 }
{
    lock.map_or(round, |old| old.max(round))
}

// Locks the slip in the round, unless it is already locked in a higher one.
// Kept: the write stands in the loop, since after `iter_mut` and `find` only the length of the slice is known.
pub(crate) fn lock_at(candidates: &mut [Candidate], slip: &Slip, round: Round)
    ensures { map candidate_view candidates.new ≡ locked_at slip.now round.0 (map candidate_view candidates.old) }
{
    for c in candidates.iter_mut() {
        if c.slip == *slip {
            c.lock = Some(raise(c.lock, round));
            return;
        }
    }
}

// The round in which a slip stays locked where only that lock stays.
fn kept_in(slip: &Slip, only: &Option<Lock>) -> Option<Round>
    ensures { option_map round_view result ≡ kept_in slip.now (option_map lock_view only.now) }
{
    only.as_ref()
        .filter(|lock| *slip == lock.slip)
        .map(|lock| lock.round)
}

// Takes every lock away but that one.
pub(crate) fn keep_only(candidates: &mut [Candidate], only: &Option<Lock>)
    ensures { map candidate_view candidates.new ≡ keep_only (option_map lock_view only.now) (map candidate_view candidates.old) }
{
    for c in candidates.iter_mut() {
        c.lock = kept_in(&c.slip, only);
    }
}

// Locks the slip in the round, as `lock_at` does.
#[derive(Clone, Copy)]
pub(crate) struct Locking<'a> {
    pub(crate) slip: &'a Slip,
    pub(crate) round: Round,
}

impl Change<Candidate> for Locking<'_> {
    ghost leaves = { λ it old new. map candidate_view new ≡ locked_at it.slip.now it.round.0 (map candidate_view old) };

    fn change(self, values: &mut [Candidate]) {
        lock_at(values, self.slip, self.round);
    }
}

// Takes every lock away but that one, as `keep_only` does.
#[derive(Clone, Copy)]
pub(crate) struct Keeping<'a> {
    pub(crate) only: &'a Option<Lock>,
}

impl Change<Candidate> for Keeping<'_> {
    ghost leaves = { λ it old new. map candidate_view new ≡ keep_only (option_map lock_view it.only.now) (map candidate_view old) };

    fn change(self, values: &mut [Candidate]) {
        keep_only(values, self.only);
    }
}
