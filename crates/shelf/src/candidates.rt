// The candidates of a replica.
ghost use Rattle.std.specs.Prelude.{◌≡◌, [], map, if◌then◌else◌};
ghost use Rattle.std.specs.Option.{option_map};
ghost use Rattle.protocol.specs.Judging.{above_all};
ghost use Rattle.protocol.specs.Rounds.{has_place, shelved, locked_at, unlocked, locks_of, highest_lock, keep_only, top_of, by_locks};
ghost use Rattle.shelf.specs.Views.{candidate_view, shelf_view, held_view};

use crate::held::Held;
use crate::marks::{Keeping, Locking};
use crate::scans::{Locks, all_below, highest, knows, locks_of, top_of};
use base::bounded::Bounded;
use base::counters::Round;
use base::slips::{Mark, Slip};
use rules::rulebooks::Rulebook;

// A slip that the replica knows of, and the round in which it is locked, or none.
#[derive(Clone, Copy)]
pub struct Candidate {
    pub slip: Slip,
    pub lock: Option<Round>,
}

// At most 16 candidates, in order of arrival.
#[derive(Clone, Copy)]
pub struct Candidates {
    known: Bounded<Candidate, 16>,
}

impl Candidates {
    pub fn empty() -> Candidates
        ensures { shelf_view result ≡ [] }
    {
        let slip = Slip {
            parent: Mark([0; 32]),
            own: Mark([0; 32]),
            lots: 0,
            maker: 0,
        };
        Candidates {
            known: Bounded::empty(Candidate { slip, lock: None }),
        }
    }

    pub fn as_slice(&self) -> &[Candidate]
        ensures { map candidate_view result.now ≡ shelf_view self.now }
    {
        self.known.as_slice()
    }

    // Whether the slip is among them or there is room for it.
    #[tactic(auto, using(crate::proofs::Shelving::place_by_room))]
    pub fn has_place(&self, slip: &Slip) -> bool
        ensures { result ≡ has_place slip.now (shelf_view self.now) }
    {
        knows(self.as_slice(), slip) || !self.known.is_full()
    }

    // Puts the slip last, without a lock, unless it is among them or there is no room for it.
    #[tactic(auto, using(crate::proofs::Shelving::shelved_last))]
    pub fn shelve(&mut self, slip: &Slip)
        ensures { shelf_view self.new ≡ (if has_place slip.now (shelf_view self.old) then shelved slip.now (shelf_view self.old) else shelf_view self.old) }
    {
        if !knows(self.as_slice(), slip) {
            self.known.push(Candidate {
                slip: *slip,
                lock: None,
            });
        }
    }

    // Locks the slip in the round, unless it is already locked in a higher one.
    pub fn lock(&mut self, slip: &Slip, round: Round)
        ensures { shelf_view self.new ≡ locked_at slip.now round.0 (shelf_view self.old) }
    {
        self.known.change(Locking { slip, round });
    }

    // Takes every lock away.
    pub fn unlock(&mut self)
        ensures { shelf_view self.new ≡ unlocked (shelf_view self.old) }
    {
        self.known.change(Keeping { only: &None });
    }

    // Whether the round is above that of every lock.
    pub fn above_all(&self, round: Round) -> bool
        ensures { result ≡ above_all round.0 (locks_of (shelf_view self.now)) }
    {
        all_below(self.as_slice(), round)
    }

    // Takes every lock away but the highest; of equals the one whose message is held stays.
    pub fn keep_highest(&mut self, held: &Option<Held>)
        ensures { shelf_view self.new ≡ keep_only (highest_lock (option_map held_view held.now) (locks_of (shelf_view self.old))) (shelf_view self.old) }
    {
        let only = highest(self.as_slice(), held);
        self.known.change(Keeping { only: &only });
    }

    // The slip that ranks highest.
    pub fn top<R: Rulebook>(&self, rules: &R) -> Option<Slip>
        ensures { result ≡ top_of (R.Rulebook.ranked rules.now) (shelf_view self.now) }
    {
        top_of(self.as_slice(), rules)
    }

    // The slip to state: none if two or more are locked, the locked one if one is, else the top.
    pub fn candidate<R: Rulebook>(&self, rules: &R) -> Option<Slip>
        ensures { result ≡ by_locks (locks_of (shelf_view self.now)) (top_of (R.Rulebook.ranked rules.now) (shelf_view self.now)) }
    {
        match locks_of(self.as_slice()) {
            Locks::Free => self.top(rules),
            Locks::One(slip) => Some(slip),
            Locks::Several => None,
        }
    }
}
