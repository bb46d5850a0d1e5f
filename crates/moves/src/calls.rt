// Offer, begin and tick.
ghost use Rattle.std.specs.Prelude.{◌≡◌, ◌+◌, [], nat_lt};
ghost use Rattle.base.specs.Refusals.{passing};
ghost use Rattle.holding.specs.Outcome.{Does, DoesAlone};
ghost use Rattle.moves.specs.Refusing.{offer_refused, begin_refused, tick_refused};
ghost use Rattle.protocol.specs.Answering.{answered};
ghost use Rattle.protocol.specs.Calls.{judge_offer, judge_begin, judge_tick, timed_out};

use crate::acts::{enter_releasing, resend, state_round};
use base::counters::{LAST_ROUND, Round};
use base::refusals::Refusal;
use base::slips::Slip;
use base::stages::Stage;
use holding::cores::{Boxed, Core};
use holding::times::is_timely;
use outbox::drafts::Fill;
use protocol::answers::Answer;
use rules::rulebooks::Rulebook;
use seal::sealers::Sealer;

// Whether an offer is taken, by its tests in their order.
fn judge_offer<S: Sealer, R: Rulebook>(core: &Core<S, R>, slip: &Slip) -> Result<(), Refusal>
    ensures { result ≡ passing (offer_refused (⟦<Core<S, R> as Boxed>⟧.boxed core.now) slip.now) }
{
    if !core.is_member() {
        return Err(Refusal::Stranger);
    }
    core.judge_slip(slip)?;
    if !core.state.candidates.has_place(slip) {
        return Err(Refusal::CandidatesFull);
    }
    Ok(())
}

// Puts an admitted slip on the chain among the candidates.
pub fn offer<S: Sealer, R: Rulebook>(core: &mut Core<S, R>, slip: &Slip) -> Result<Answer, Refusal>
    ensures { DoesAlone ⟦<Core<S, R> as Boxed>⟧.boxed core.old core.new (λ b. judge_offer b slip.now) (answered result) }
{
    judge_offer(core, slip)?;
    core.state.candidates.shelve(slip);
    Ok(Answer::Taken)
}

// Whether a beginning is taken.
fn judge_begin<S: Sealer, R: Rulebook>(core: &Core<S, R>) -> Result<(), Refusal>
    ensures { result ≡ passing (begin_refused (⟦<Core<S, R> as Boxed>⟧.boxed core.now)) }
{
    if !core.is_member() {
        return Err(Refusal::Stranger);
    }
    if core.state.stage != Stage::Resting {
        return Err(Refusal::OutOfStage);
    }
    Ok(())
}

// In resting, states round 0.
pub fn begin<S: Sealer, R: Rulebook>(
    core: &mut Core<S, R>,
    out: &mut [u8],
    fill: &mut Fill,
) -> Result<Answer, Refusal>
    ensures { Does ⟦<Core<S, R> as Boxed>⟧.boxed core.old core.new fill.old.len fill.new.len out.old out.new judge_begin (answered result) }
{
    judge_begin(core)?;
    let next = core.state;
    state_round(core, next, Round(0), out, fill)
}

// Whether a tick is taken.
fn judge_tick<S: Sealer, R: Rulebook>(core: &Core<S, R>, ticks: u32) -> Result<(), Refusal>
    ensures { result ≡ passing (tick_refused (⟦<Core<S, R> as Boxed>⟧.boxed core.now) ticks) }
{
    if !core.is_member() {
        return Err(Refusal::Stranger);
    }
    if !is_timely(ticks) {
        return Err(Refusal::Unlawful);
    }
    Ok(())
}

// What the stage does when its time has come.
// Kept: a rule of the project, steps are picked by a match on the stage.
fn time_out<S: Sealer, R: Rulebook>(
    core: &mut Core<S, R>,
    out: &mut [u8],
    fill: &mut Fill,
) -> Result<Answer, Refusal>
    ensures { Does ⟦<Core<S, R> as Boxed>⟧.boxed core.old core.new fill.old.len fill.new.len out.old out.new (λ b. timed_out b core.old.state.stage) (answered result) }
{
    let next = core.state;
    match next.stage {
        Stage::Resting => Ok(Answer::Taken),
        Stage::Changing => resend(core, out, fill),
        Stage::Locking => {
            core.state.come_to(next.round, Stage::Committing);
            Ok(Answer::Taken)
        }
        Stage::Committing => enter_releasing(core, &next, out, fill),
        Stage::Releasing => {
            if next.round.0 >= LAST_ROUND {
                return Err(Refusal::BooksEnd);
            }
            state_round(core, next, Round(next.round.0 + 1), out, fill)
        }
    }
}

// Whether the time has not come yet after so many ticks more.
fn is_early(passed: u64, ticks: u32, time: u64) -> bool
    ensures { result ≡ nat_lt (passed + ticks) time }
{
    passed < time && (ticks as u64) < time - passed
}

// Adds 1 to 60,000 ticks and moves at most once, any surplus lost. Resting counts no ticks.
pub fn tick<S: Sealer, R: Rulebook>(
    core: &mut Core<S, R>,
    ticks: u32,
    out: &mut [u8],
    fill: &mut Fill,
) -> Result<Answer, Refusal>
    ensures { Does ⟦<Core<S, R> as Boxed>⟧.boxed core.old core.new fill.old.len fill.new.len out.old out.new (λ b. judge_tick b ticks) (answered result) }
{
    judge_tick(core, ticks)?;
    if core.state.stage == Stage::Resting {
        return Ok(Answer::Taken);
    }
    let time = core.settings.time_of(core.state.stage, core.state.round);
    if is_early(core.state.ticks, ticks, time) {
        core.state.ticks += ticks as u64;
        return Ok(Answer::Taken);
    }
    time_out(core, out, fill)
}
