// Judging a message: its refusals in their one order.
ghost use Rattle.std.specs.Prelude.{◌≡◌};
ghost use Rattle.base.specs.Refusals.{passing};
ghost use Rattle.message.specs.Wholes.{Whole};
ghost use Rattle.holding.specs.Views.{view_of};
ghost use Rattle.judging.specs.Views.{sent_of};
ghost use Rattle.moves.specs.Verdict.{arrival, slip_verdict, standing, verdict, judged_as, Leads, stage_led_to};

use base::counters::Member;
use base::pools::Pool;
use base::refusals::Refusal;
use base::slips::Slip;
use base::stages::Stage;
use holding::cores::{Boxed, Core};
use holding::states::State;
use judging::contents::{kind_of, slip_of};
use judging::speakers::familiar;
use judging::staging::advance;
use message::shapes::Message;
use rules::rulebooks::Rulebook;
use seal::sealers::Sealer;

// Where a message comes: its height, who speaks, its round, and the stage that it leads to if the replica's takes it.
fn arrive(state: &State, pool: Pool, m: &Message<'_>) -> Result<Stage, Refusal>
    ensures refuses { Whole m.now → judged_as result ≡ arrival pool (view_of pool state.now) (sent_of m.now) }
    ensures leads { Leads result (stage_led_to state.now (sent_of m.now)) }
{
    if m.head.height < state.height {
        return Err(Refusal::PastHeight);
    }
    if m.head.height > state.height {
        return Err(Refusal::LaterHeight);
    }
    if !familiar(pool, m) {
        return Err(Refusal::Stranger);
    }
    if !state.round_taken(pool, m) {
        return Err(Refusal::WrongRound);
    }
    // Kept: a rule of the project, advance changes the stage in place and says whether it did.
    let mut stage = state.stage;
    if !advance(&mut stage, kind_of(m), state.round, m.head.round) {
        return Err(Refusal::OutOfStage);
    }
    Ok(stage)
}

// The slip of a page, if any, stands on the last page, and the rulebook admits it.
fn judge_page<S: Sealer, R: Rulebook>(core: &Core<S, R>, page: &Option<Slip>) -> Result<(), Refusal>
    ensures { let b = ⟦<Core<S, R> as Boxed>⟧.boxed core.now in result ≡ passing (slip_verdict (b.rules.admits b.view.height) b.view.last page.now) }
{
    page.as_ref().map_or(Ok(()), |slip| core.judge_slip(slip))
}

// What a message meets in the state: no contradiction, a place for its slip, a book that goes on.
fn judge_standing(state: &State, pool: Pool, own: Member, m: &Message<'_>) -> Result<(), Refusal>
    ensures { result ≡ passing (standing own.0 (view_of pool state.now) (sent_of m.now)) }
{
    if state.contradicts(pool, own, m) {
        return Err(Refusal::Contradiction);
    }
    if !state.placed(pool, m) {
        return Err(Refusal::CandidatesFull);
    }
    if !state.goes_on(m) {
        return Err(Refusal::BooksEnd);
    }
    Ok(())
}

// Whether a message is taken: the stage that it leads to, or its first refusal. It says so of every message that was
// read.
pub(crate) fn judge<S: Sealer, R: Rulebook>(
    core: &Core<S, R>,
    m: &Message<'_>,
) -> Result<Stage, Refusal>
    ensures refuses { Whole m.now → judged_as result ≡ verdict (⟦<Core<S, R> as Boxed>⟧.boxed core.now) (sent_of m.now) }
    ensures leads { Leads result (stage_led_to core.now.state (sent_of m.now)) }
{
    let state = &core.state;
    let pool = core.settings.pool;
    let stage = arrive(state, pool, m)?;
    core.judge_seals(m)?;
    judge_page(core, &slip_of(m))?;
    judge_standing(state, pool, core.sealer.member(), m)?;
    Ok(stage)
}
