// A member's replica of the receipt book. It takes slips, ticks and messages, answers or refuses, and appends at most one
// message to the lent outbox. A refused call changes nothing but the seals that it spent.
ghost use Rattle.std.specs.Prelude.{◌≡◌, []};
ghost use Rattle.holding.specs.Outcome.{Does, DoesAlone};
ghost use Rattle.holding.specs.Views.{box_of, rules_by, settings_view};
ghost use Rattle.moves.specs.Comparing.{compared, handed};
ghost use Rattle.protocol.specs.Answering.{answered};
ghost use Rattle.protocol.specs.Calls.{judge_offer, judge_begin, judge_tick};
ghost use Rattle.protocol.specs.Messages.{judge_message};
ghost use Rattle.protocol.specs.Runs.{AgreementOfReplicas};
ghost use Rattle.protocol.specs.State.{first_view};
ghost use Rattle.protocol.specs.Turns.{leads, judge_opening, judge_forward, judge_commit, judge_closing};
ghost use Rattle.ballots.specs.Views.{records_view};
ghost use Rattle.replica.specs.Steps.{CallsAreSteps};
ghost use Rattle.turns.specs.Views.{gathering_view, counting_view, opened_view, forwarded_view, taken_view, closed_view, HandedBack, KeptUnlessOk};

use ballots::commits::CommitRecord;
use base::counters::{Height, Member, Round};
use base::refusals::Refusal;
use base::slips::{Mark, Slip};
use base::stages::Stage;
use holding::cores::{Boxed, Core};
use holding::settings::Settings;
use holding::states::State;
use moves::{calls, comparing, messages};
use outbox::drafts::Fill;
use protocol::answers::Answer;
use rules::rulebooks::Rulebook;
use seal::sealers::Sealer;
use turns::phases::{Counting, Gathering};
use turns::{closing, committing, forwarding, opening};

// One member's replica, with the settings, the sealer and the rulebook that it was opened with.
#[derive(Drop)]
pub struct Replica<S, R>(Core<S, R>);

impl<S: Sealer, R: Rulebook> Boxed for Replica<S, R> {
    ghost boxed = { λ replica. box_of S.Sealer.meaning R.Rulebook.admitted R.Rulebook.ranked replica.0 };
}

impl<S: Sealer, R: Rulebook> Replica<S, R> {
    // Opens a replica, resting at the start height. It takes its sealer for good: a second replica gets its own. Whoever
    // opens one is promised that sound replicas never enter different pages, and that every call is a step of such a run.
    pub fn open(settings: Settings, sealer: S, rules: R) -> Replica<S, R>
        ensures rests { ⟦<Self as Boxed>⟧.boxed result ≡ record { settings = settings_view settings; sealer = S.Sealer.meaning sealer; rules = rules_by (R.Rulebook.admitted rules) (R.Rulebook.ranked rules); view = first_view (settings_view settings) } }
        ensures agreement { AgreementOfReplicas }
        ensures steps { CallsAreSteps }
    {
        let state = State::resting(settings.start_height, settings.start_mark);
        Replica(Core {
            settings,
            sealer,
            rules,
            state,
        })
    }

    // Puts an admitted slip on the chain among the candidates.
    pub fn offer(&mut self, slip: &Slip) -> Result<Answer, Refusal>
        ensures { DoesAlone ⟦<Self as Boxed>⟧.boxed self.old self.new (λ b. judge_offer b slip.now) (answered result) }
    {
        calls::offer(&mut self.0, slip)
    }

    // In resting, states round 0.
    pub fn begin(&mut self, out: &mut [u8], fill: &mut Fill) -> Result<Answer, Refusal>
        ensures { Does ⟦<Self as Boxed>⟧.boxed self.old self.new fill.old.len fill.new.len out.old out.new judge_begin (answered result) }
    {
        calls::begin(&mut self.0, out, fill)
    }

    // Lets 1 to 60,000 ticks pass.
    pub fn tick(&mut self, ticks: u32, out: &mut [u8], fill: &mut Fill) -> Result<Answer, Refusal>
        ensures { Does ⟦<Self as Boxed>⟧.boxed self.old self.new fill.old.len fill.new.len out.old out.new (λ b. judge_tick b ticks) (answered result) }
    {
        calls::tick(&mut self.0, ticks, out, fill)
    }

    // Takes a message.
    pub fn take(
        &mut self,
        message: &[u8],
        out: &mut [u8],
        fill: &mut Fill,
    ) -> Result<Answer, Refusal>
        ensures { Does ⟦<Self as Boxed>⟧.boxed self.old self.new fill.old.len fill.new.len out.old out.new (λ b. judge_message b message.now) (answered result) }
    {
        messages::take(&mut self.0, message, out, fill)
    }

    // A leader in locking opens its turn, once a round.
    pub fn open_turn(&mut self) -> Result<Gathering, Refusal>
        ensures { DoesAlone ⟦<Self as Boxed>⟧.boxed self.old self.new judge_opening (opened_view result) }
    {
        opening::open_turn(&mut self.0)
    }

    // Puts the turn forward: a lock, for which the first n records are blanked and a counting turn begins, or a select, with
    // which the turn ends. A refusal hands the turn back and leaves the records.
    pub fn put_forward(
        &mut self,
        turn: Gathering,
        records: &mut [CommitRecord],
        out: &mut [u8],
        fill: &mut Fill,
    ) -> Result<Option<Counting>, (Refusal, Gathering)>
        ensures ends { Does ⟦<Self as Boxed>⟧.boxed self.old self.new fill.old.len fill.new.len out.old out.new (λ b. judge_forward b (gathering_view turn) (records_view records.old)) (forwarded_view (records_view records.new) result) }
        ensures back { HandedBack turn result }
        ensures kept { KeptUnlessOk records.old records.new result }
    {
        forwarding::put_forward(&mut self.0, turn, records, out, fill)
    }

    // Takes a commit to the turn's page into the record of its member. A refusal leaves the records.
    pub fn take_commit(
        &self,
        turn: &Counting,
        records: &mut [CommitRecord],
        message: &[u8],
    ) -> Result<(), Refusal>
        ensures ends { DoesAlone ⟦<Self as Boxed>⟧.boxed self.now self.now (λ b. judge_commit b (counting_view turn.now) (records_view records.old) message.now) (taken_view (records_view records.new) result) }
        ensures kept { KeptUnlessOk records.old records.new result }
    {
        committing::take_commit(&self.0, turn, records, message)
    }

    // Closes the turn with a decide once a quorum's records hold commits to its page. A refusal hands the turn back.
    pub fn close(
        &mut self,
        turn: Counting,
        records: &[CommitRecord],
        out: &mut [u8],
        fill: &mut Fill,
    ) -> Result<(), (Refusal, Counting)>
        ensures ends { Does ⟦<Self as Boxed>⟧.boxed self.old self.new fill.old.len fill.new.len out.old out.new (λ b. judge_closing b (counting_view turn) (records_view records.now)) (closed_view result) }
        ensures back { HandedBack turn result }
    {
        closing::close(&mut self.0, turn, records, out, fill)
    }

    // Compares locks and moves nothing: of the lock message that is held and the received one the higher, as a part of its own
    // buffer; the held one on equal rounds, the received one where none is held.
    pub fn higher_lock<'a>(&'a self, received: &'a [u8]) -> Result<&'a [u8], Refusal>
        ensures { handed result ≡ compared (⟦<Self as Boxed>⟧.boxed self.now) received.now }
    {
        comparing::higher_of(&self.0, received)
    }

    // The height of the page that it works on.
    pub fn height(&self) -> Height
        ensures { result.0 ≡ (⟦<Self as Boxed>⟧.boxed self.now).view.height }
    {
        self.0.state.height
    }

    // The mark of the page that it entered last, or its start mark.
    pub fn last_mark(&self) -> Mark
        ensures { result ≡ (⟦<Self as Boxed>⟧.boxed self.now).view.last }
    {
        self.0.state.last
    }

    pub fn round(&self) -> Round
        ensures { result.0 ≡ (⟦<Self as Boxed>⟧.boxed self.now).view.round }
    {
        self.0.state.round
    }

    pub fn stage(&self) -> Stage
        ensures { result ≡ (⟦<Self as Boxed>⟧.boxed self.now).view.stage }
    {
        self.0.state.stage
    }

    // How many ticks have passed in the stage.
    pub fn ticks(&self) -> u64
        ensures { result ≡ (⟦<Self as Boxed>⟧.boxed self.now).view.ticks }
    {
        self.0.state.ticks
    }

    // In whose name it seals.
    pub fn member(&self) -> Member
        ensures { result.0 ≡ (⟦<Self as Boxed>⟧.boxed self.now).sealer.number }
    {
        self.0.sealer.member()
    }

    // How many seals are left.
    pub fn seals_left(&self) -> u32
        ensures { result ≡ (⟦<Self as Boxed>⟧.boxed self.now).sealer.left }
    {
        self.0.sealer.left()
    }

    // Whether it leads its height and round.
    pub fn is_leader(&self) -> bool
        ensures { result ≡ leads (⟦<Self as Boxed>⟧.boxed self.now) }
    {
        self.0.leads()
    }
}
