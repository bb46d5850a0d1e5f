// Putting a turn forward.
ghost use Rattle.std.specs.Prelude.{◌≡◌};
ghost use Rattle.ballots.specs.Views.{records_view};
ghost use Rattle.holding.specs.Outcome.{Does};
ghost use Rattle.protocol.specs.Turns.{judge_forward};
ghost use Rattle.turns.specs.Plans.{judged_as, forward_plan};
ghost use Rattle.turns.specs.Views.{gathering_view, forward_view, forwarded_view, HandedBack, KeptUnlessOk};

use crate::conditions::judge_turn;
use crate::phases::{Counting, Gathering, Moment};
use crate::proposing::{Proposal, propose, send_proposal};
use ballots::commits::{CommitRecord, blank};
use base::refusals::Refusal;
use base::stages::Stage;
use holding::cores::{Boxed, Core};
use outbox::drafts::Fill;
use rules::rulebooks::Rulebook;
use seal::sealers::Sealer;

// What the turn is put forward with: the replica still leads its round, in locking, and something is due in it.
fn judge_forward<S: Sealer, R: Rulebook>(
    core: &Core<S, R>,
    turn: &Gathering,
    records: &[CommitRecord],
) -> Result<Proposal, Refusal>
    ensures { judged_as (forward_plan (⟦<Core<S, R> as Boxed>⟧.boxed core.now) (records_view records.now)) result ≡ judge_forward (⟦<Core<S, R> as Boxed>⟧.boxed core.now) (gathering_view turn.now) (records_view records.now) }
{
    judge_turn(core, turn.at, records)?;
    if core.state.stage != Stage::Locking {
        return Err(Refusal::TurnPast);
    }
    if !core.leads() {
        return Err(Refusal::NotYourTurn);
    }
    propose(core)
}

// Judges, then sends the lock or select. A lock blanks the records, once it is sent, and the turn counts commits then.
fn forward<S: Sealer, R: Rulebook>(
    core: &mut Core<S, R>,
    turn: &Gathering,
    records: &mut [CommitRecord],
    out: &mut [u8],
    fill: &mut Fill,
) -> Result<Option<Counting>, Refusal>
    ensures ends { Does ⟦<Core<S, R> as Boxed>⟧.boxed core.old core.new fill.old.len fill.new.len out.old out.new (λ b. judge_forward b (gathering_view turn.now) (records_view records.old)) (forward_view (records_view records.new) result) }
    ensures kept { KeptUnlessOk records.old records.new result }
{
    let pool = core.settings.pool;
    let proposal = judge_forward(core, turn, records)?;
    send_proposal(&mut core.sealer, pool, &core.state, proposal, out, fill)?;
    match proposal {
        Proposal::Lock(page) => {
            blank(records, pool.size());
            let at = Moment::of(&core.state);
            Ok(Some(Counting { at, page }))
        }
        Proposal::Select(_) => Ok(None),
    }
}

// Puts the turn forward: a lock on the page that a quorum names, after which the turn counts commits to it in `records`,
// or a select of the top, which ends the turn. Refused, the turn is handed back and the records are as they were.
pub fn put_forward<S: Sealer, R: Rulebook>(
    core: &mut Core<S, R>,
    turn: Gathering,
    records: &mut [CommitRecord],
    out: &mut [u8],
    fill: &mut Fill,
) -> Result<Option<Counting>, (Refusal, Gathering)>
    ensures ends { Does ⟦<Core<S, R> as Boxed>⟧.boxed core.old core.new fill.old.len fill.new.len out.old out.new (λ b. judge_forward b (gathering_view turn) (records_view records.old)) (forwarded_view (records_view records.new) result) }
    ensures back { HandedBack turn result }
    ensures kept { KeptUnlessOk records.old records.new result }
{
    // Kept: the turn is moved on both ways, let go or handed back.
    match forward(core, &turn, records, out, fill) {
        Ok(next) => {
            turn.abandon();
            Ok(next)
        }
        Err(why) => Err((why, turn)),
    }
}
