// What a replica holds after a message.
ghost use Rattle.std.specs.Prelude.{◌≡◌, ◌<◌, ◌≤◌, true, length, if◌then◌else◌, Some};
ghost use Rattle.ballots.specs.Views.{latest_view, round_number};
ghost use Rattle.base.specs.Pools.{members};
ghost use Rattle.base.specs.declared.pools.Pool.{Pool};
ghost use Rattle.protocol.specs.Judging.{latest_of, of_slip, repeats};
ghost use Rattle.protocol.specs.Messages.{shelved_page, holding, in_round_of};
ghost use Rattle.holding.specs.Locking.{locked_with};
ghost use Rattle.protocol.specs.Rounds.{called_for, has_place, highest_round, is_changing, onward, shelved, unlocked, with_candidates, with_latest};
ghost use Rattle.protocol.specs.State.{Settings};
ghost use Rattle.shelf.specs.Views.{shelf_view};
ghost use Rattle.std.specs.Option.{option_map};
ghost use Rattle.holding.specs.Placing.{place_for, place_for_page};
ghost use Rattle.holding.specs.Views.{view_of};

use crate::states::State;
use ballots::latest::{Called, Latest};
use base::counters::{Member, Round};
use base::pools::Pool;
use base::slips::Slip;
use base::stages::Stage;
use shelf::held::Held;

impl State {
    // Shelves the page of a statement, where there is a place for it, and records the statement.
    pub fn note_statement(&mut self, member: Member, latest: Latest)
        ensures { (pool : Pool) → place_for_page self.old latest.page ≡ true → view_of pool self.new ≡ with_latest (with_candidates (view_of pool self.old) (shelved_page latest.page (shelf_view self.old.candidates))) member.0 (latest_view latest) }
    {
        if let Some(slip) = &latest.page {
            self.candidates.shelve(slip);
        }
        self.statements.set(member, latest);
    }

    // The highest round that tolerance + 2 members call for.
    // Kept: the pool is of the settings and not of the state, so the clause is said of all settings of that pool.
    pub fn called(&self, pool: Pool) -> Option<Round>
        ensures { (s : Settings) → s.pool ≡ pool → option_map round_number result ≡ highest_round (called_for s (view_of pool self.now)) (view_of pool self.now).latest }
    {
        let called = Called {
            own: self.round,
            resting: self.stage == Stage::Resting,
            tolerance: pool.tolerance(),
        };
        called.highest(self.statements.of(pool))
    }

    // If changing, goes on to locking where a quorum is in the round.
    pub fn go_on_changing(&mut self, pool: Pool)
        ensures { (s : Settings) → s.pool ≡ pool → view_of pool self.new ≡ (if is_changing self.old.stage then onward s (view_of pool self.old) else view_of pool self.old) }
    {
        if self.stage == Stage::Changing {
            self.go_on(pool);
        }
    }

    // Shelves the slip, where there is a place for it, and locks it in the round. The message is held, its first 760
    // bytes, if the round is above that of every lock.
    pub fn lock(&mut self, slip: &Slip, round: Round, message: &[u8])
        ensures { (pool : Pool) → place_for self.old slip.now ≡ true → length message.now ≤ 760 → view_of pool self.new ≡ locked_with (view_of pool self.old) slip.now round.0 (shelf_view self.old.candidates) (holding (view_of pool self.old) slip.now round.0 message.now) }
    {
        if self.candidates.above_all(round) {
            self.held = Some(Held::new(*slip, round, message));
        }
        self.candidates.shelve(slip);
        self.candidates.lock(slip, round);
    }

    // Takes every lock away, shelves the slip, where there is a place for it, and locks it in the round. The message is held,
    // its first 760 bytes.
    pub fn relock(&mut self, slip: &Slip, round: Round, message: &[u8])
        ensures { (pool : Pool) → place_for self.old slip.entry.now ≡ true → length message.now ≤ 760 → view_of pool self.new ≡ locked_with (view_of pool self.old) slip.entry.now round.0 (unlocked (shelf_view self.old.candidates)) (Some (record { slip = slip.entry.now; round = round.0; bytes = message.now })) }
    {
        self.candidates.unlock();
        self.lock(slip, round, message);
    }

    // Shelves the slip, where there is a place for it, and comes to the round in the same stage.
    pub fn select(&mut self, slip: &Slip, round: Round)
        ensures { (pool : Pool) → place_for self.old slip.now ≡ true → view_of pool self.new ≡ in_round_of (with_candidates (view_of pool self.old) (shelved slip.now (shelf_view self.old.candidates))) round.0 }
    {
        self.candidates.shelve(slip);
        self.come_to(round, self.stage);
    }
}
