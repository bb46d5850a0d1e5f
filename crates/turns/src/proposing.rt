// What a leader proposes.
ghost use Rattle.std.specs.Prelude.{◌≡◌, ◌&&◌, ◌||◌, ◌==◌, nat_le};
ghost use Rattle.ballots.specs.Views.{statements_view};
ghost use Rattle.base.specs.Pools.{members, quorum};
ghost use Rattle.holding.specs.Views.{view_of};
ghost use Rattle.protocol.specs.Rounds.{of_round};
ghost use Rattle.protocol.specs.State.{tally};
ghost use Rattle.protocol.specs.Turns.{Records, agreed_of, forward_by};
ghost use Rattle.sending.specs.Sending.{Sending, one_seal};
ghost use Rattle.turns.specs.Plans.{judged_as, forward_plan, proposed_draft};

use crate::certifying::{Notice, certify};
use ballots::latest::{Asked, agreed, in_round};
use base::certified::Certified;
use base::pools::Pool;
use base::refusals::Refusal;
use base::seals::Seal;
use base::slips::Slip;
use holding::cores::{Boxed, Core};
use holding::settings::Settings;
use holding::states::State;
use message::shapes::Head;
use outbox::drafts::Fill;
use rules::rulebooks::Rulebook;
use seal::sealers::Sealer;

// A lock on the page that a quorum names, or a select of the top.
#[derive(Clone, Copy)]
pub(crate) enum Proposal {
    Lock(Slip),
    Select(Slip),
}

// Whether a select is due: a quorum is in the round, and either the whole pool is or g ticks passed.
fn select_due(settings: &Settings, state: &State) -> bool
    ensures { result ≡ (nat_le (quorum settings.now.pool) (tally (of_round state.now.round.0) (statements_view (members settings.now.pool) state.now.statements)) && (tally (of_round state.now.round.0) (statements_view (members settings.now.pool) state.now.statements) == members settings.now.pool || nat_le settings.now.times.g state.now.ticks)) }
{
    let pool = settings.pool;
    let here = in_round(state.statements.of(pool), state.round);
    pool.quorum() <= here && (here == pool.size() || settings.times.g as u64 <= state.ticks)
}

// What is due in the round: a lock if a quorum of latest statements names one page, else a select if it is due.
pub(crate) fn propose<S: Sealer, R: Rulebook>(core: &Core<S, R>) -> Result<Proposal, Refusal>
    ensures { (records : Records) → judged_as (forward_plan (⟦<Core<S, R> as Boxed>⟧.boxed core.now) records) result ≡ forward_by (⟦<Core<S, R> as Boxed>⟧.boxed core.now) records (agreed_of (quorum core.now.settings.pool) core.now.state.round.0 (statements_view (members core.now.settings.pool) core.now.state.statements) (statements_view (members core.now.settings.pool) core.now.state.statements)) }
{
    let pool = core.settings.pool;
    let state = &core.state;
    if let Some(page) = agreed(state.statements.of(pool), pool.quorum(), state.round) {
        return Ok(Proposal::Lock(page));
    }
    state
        .candidates
        .top(&core.rules)
        .filter(|_| select_due(&core.settings, state))
        .map(Proposal::Select)
        .ok_or(Refusal::NotYet)
}

// Sends the lock with the candidate seals of the q lowest members that name the page, or the select with the round-change
// seals of the q lowest members of the round.
pub(crate) fn send_proposal<S: Sealer>(
    sealer: &mut S,
    pool: Pool,
    state: &State,
    proposal: Proposal,
    out: &mut [u8],
    fill: &mut Fill,
) -> Result<Seal, Refusal>
    ensures { Sending (S.Sealer.meaning sealer.old) (S.Sealer.meaning sealer.new) (proposed_draft (S.Sealer.meaning sealer.old).number pool (view_of pool state.now) proposal) fill.old.len fill.new.len out.old out.new (one_seal result) }
{
    let round = state.round;
    let head = Head {
        sender: sealer.member(),
        height: state.height,
        round,
    };
    let (certified, slip, asked) = match proposal {
        Proposal::Lock(slip) => (Certified::Lock, slip, Asked::Naming(round, slip)),
        Proposal::Select(slip) => (Certified::Select, slip, Asked::OfRound(round)),
    };
    let notice = Notice {
        certified,
        head,
        slip,
        pool,
    };
    certify(
        sealer,
        &notice,
        state.statements.of(pool),
        &asked,
        out,
        fill,
    )
}
