// What a replica holds.
ghost use Rattle.std.specs.Prelude.{◌≡◌};
ghost use Rattle.base.specs.declared.pools.Pool.{Pool};
ghost use Rattle.protocol.specs.Rounds.{moved, onward, stated};
ghost use Rattle.protocol.specs.State.{Settings, fresh};
ghost use Rattle.sending.specs.Sending.{two_of};
ghost use Rattle.holding.specs.Views.{view_of, released_view};

use ballots::latest::{Latest, Statements, in_round};
use base::counters::{Height, Member, Round};
use base::pools::Pool;
use base::slips::{Mark, Slip};
use base::stages::Stage;
use sending::sends::ChangeSeals;
use shelf::candidates::Candidates;
use shelf::held::Held;

#[derive(Clone, Copy)]
pub struct State {
    pub height: Height,
    pub last: Mark,
    pub round: Round,
    pub stage: Stage,
    pub ticks: u64,
    pub candidates: Candidates,
    pub held: Option<Held>,
    pub statements: Statements,
    pub turned: bool,
}

impl State {
    // Resting in round 0 with nothing held.
    pub fn resting(height: Height, last: Mark) -> State
        ensures { (pool : Pool) → view_of pool result ≡ fresh pool height.0 last }
    {
        State {
            height,
            last,
            round: Round(0),
            stage: Stage::Resting,
            ticks: 0,
            candidates: Candidates::empty(),
            held: None,
            statements: Statements::empty(),
            turned: false,
        }
    }

    // Comes to that round and stage, with no ticks; in another round the turn is free again.
    pub fn come_to(&mut self, round: Round, stage: Stage)
        ensures { (pool : Pool) → view_of pool self.new ≡ moved (view_of pool self.old) round.0 stage }
    {
        if self.round != round {
            self.turned = false;
        }
        self.round = round;
        self.stage = stage;
        self.ticks = 0;
    }

    // Goes on to locking where a quorum is in the round.
    pub fn go_on(&mut self, pool: Pool)
        ensures { (s : Settings) → s.pool ≡ pool → view_of pool self.new ≡ onward s (view_of pool self.old) }
    {
        let round = self.round;
        if pool.quorum() <= in_round(self.statements.of(pool), round) {
            self.come_to(round, Stage::Locking);
        }
    }

    // Records the replica's own statement, takes the round, and goes to changing, or on to locking.
    pub fn note_own(
        &mut self,
        pool: Pool,
        own: Member,
        round: Round,
        page: Option<Slip>,
        seals: ChangeSeals,
    )
        ensures { (s : Settings) → s.pool ≡ pool → view_of pool self.new ≡ stated s own.0 (view_of pool self.old) round.0 page (two_of seals) }
    {
        self.statements.set(
            own,
            Latest {
                round,
                page,
                rchg: seals.rchg,
                cand: seals.cand,
            },
        );
        self.come_to(round, Stage::Changing);
        self.go_on(pool);
    }

    // Keeps only the highest lock, and comes to releasing.
    pub fn released(&self) -> State
        ensures { (pool : Pool) → view_of pool result ≡ released_view (view_of pool self.now) }
    {
        let mut next = *self;
        next.candidates.keep_highest(&self.held);
        next.come_to(self.round, Stage::Releasing);
        next
    }
}
