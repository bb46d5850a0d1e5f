// What is found among candidates.
ghost use Rattle.std.specs.Prelude.{◌≡◌, map};
ghost use Rattle.std.specs.Option.{option_map};
ghost use Rattle.protocol.specs.Judging.{above_all};
ghost use Rattle.protocol.specs.Rounds.{known, lock_in, locks_of, is_held, beats, highest_lock, better_of, top_of};
ghost use Rattle.shelf.specs.Views.{round_view, candidate_view, held_view};
ghost use Rattle.shelf.specs.Locks.{lock_view, in_locks, higher_of, more_locks};

use crate::candidates::Candidate;
use crate::held::Held;
use base::counters::Round;
use base::slips::Slip;
use rules::rulebooks::Rulebook;

// A slip and the round in which it is locked.
#[derive(Clone, Copy)]
pub(crate) struct Lock {
    pub(crate) slip: Slip,
    pub(crate) round: Round,
}

// Which slips are locked: none, one, or more.
// Kept: none, one and more are three cases, which no Option holds, and `candidate` names all three.
#[derive(Clone, Copy)]
pub(crate) enum Locks {
    Free,
    One(Slip),
    Several,
}

// Whether the slip is among the candidates.
pub(crate) fn knows(candidates: &[Candidate], slip: &Slip) -> bool
    ensures { result ≡ known slip.now (map candidate_view candidates.now) }
{
    candidates.iter().any(|c| c.slip == *slip)
}

// Whether a lock, if there is one, is below the round.
fn below(candidate: &Candidate, round: Round) -> bool
    ensures { result ≡ above_all round.0 (lock_in candidate.now.slip (option_map round_view candidate.now.lock)) }
{
    candidate.lock.is_none_or(|lock| lock < round)
}

// Whether every lock is below the round.
pub(crate) fn all_below(candidates: &[Candidate], round: Round) -> bool
    ensures { result ≡ above_all round.0 (locks_of (map candidate_view candidates.now)) }
{
    candidates.iter().all(|c| below(c, round))
}

// Whether the message that is held is of that slip.
fn is_held(held: &Option<Held>, slip: &Slip) -> bool
    ensures { result ≡ is_held (option_map held_view held.now) slip.now }
{
    held.as_ref().is_some_and(|h| h.slip == *slip)
}

// Whether the first lock is higher; of equals, whether its message is held.
fn beats_lock(held: &Option<Held>, lock: &Lock, other: &Lock) -> bool
    ensures { result ≡ beats (option_map held_view held.now) (lock_view lock.now) (lock_view other.now) }
{
    lock.round > other.round || lock.round == other.round && is_held(held, &lock.slip)
}

// The higher of a candidate's lock and another, as far as there are such.
fn higher_of(held: &Option<Held>, candidate: &Candidate, best: Option<Lock>) -> Option<Lock>
    ensures { option_map lock_view result ≡ higher_of (option_map held_view held.now) candidate.now.slip (option_map round_view candidate.now.lock) (option_map lock_view best) }
{
    candidate.lock.map_or(best, |round| {
        let lock = Lock {
            slip: candidate.slip,
            round,
        };
        best.filter(|other| !beats_lock(held, &lock, other))
            .or(Some(lock))
    })
}

// The highest lock; of equals the one whose message is held.
pub(crate) fn highest(candidates: &[Candidate], held: &Option<Held>) -> Option<Lock>
    ensures { option_map lock_view result ≡ highest_lock (option_map held_view held.now) (locks_of (map candidate_view candidates.now)) }
{
    candidates
        .iter()
        .rev()
        .fold(None, |best, c| higher_of(held, c, best))
}

// Which slips are locked, with one candidate more.
fn more_locks(candidate: &Candidate, locks: Locks) -> Locks
    ensures { result ≡ more_locks candidate.now.slip (option_map round_view candidate.now.lock) locks }
{
    match (candidate.lock, locks) {
        (None, _) => locks,
        (Some(_), Locks::Free) => Locks::One(candidate.slip),
        (Some(_), _) => Locks::Several,
    }
}

// Which slips are locked.
pub(crate) fn locks_of(candidates: &[Candidate]) -> Locks
    ensures { result ≡ in_locks (locks_of (map candidate_view candidates.now)) }
{
    candidates
        .iter()
        .rev()
        .fold(Locks::Free, |locks, c| more_locks(c, locks))
}

// The higher-ranked of a slip and another, if there is one.
fn better_of<R: Rulebook>(rules: &R, slip: Slip, best: Option<Slip>) -> Slip
    ensures { result ≡ better_of (R.Rulebook.ranked rules.now) slip best }
{
    best.filter(|other| rules.above(other, &slip))
        .unwrap_or(slip)
}

// The slip that ranks highest.
pub(crate) fn top_of<R: Rulebook>(candidates: &[Candidate], rules: &R) -> Option<Slip>
    ensures { result ≡ top_of (R.Rulebook.ranked rules.now) (map candidate_view candidates.now) }
{
    candidates
        .iter()
        .rev()
        .fold(None, |best, c| Some(better_of(rules, c.slip, best)))
}
