// What a replica does: states a round, enters releasing, takes a lock, a decide, a release.
ghost use Rattle.holding.specs.Outcome.{Does};
ghost use Rattle.holding.specs.Views.{view_of};
ghost use Rattle.protocol.specs.Answering.{answered};
ghost use Rattle.protocol.specs.Calls.{resending};
ghost use Rattle.protocol.specs.Messages.{taken};
ghost use Rattle.protocol.specs.Rounds.{stating, releasing};
ghost use Rattle.std.specs.Prelude.{Ok};

use base::counters::Round;
use base::refusals::Refusal;
use holding::cores::{Boxed, Core};
use holding::states::State;
use message::shapes::Head;
use outbox::drafts::Fill;
use protocol::answers::Answer;
use rules::rulebooks::Rulebook;
use seal::sealers::Sealer;
use sending::sends::{send_change, send_release};

// States a round from a state that the call has come to. The state is stored once the change is sent.
// Kept: out and fill stay two parameters beside the core, here and in what stands on it, since a draft guards the fill alone.
pub(crate) fn state_round<S: Sealer, R: Rulebook>(
    core: &mut Core<S, R>,
    mut next: State,
    round: Round,
    out: &mut [u8],
    fill: &mut Fill,
) -> Result<Answer, Refusal>
    ensures { Does ⟦<Core<S, R> as Boxed>⟧.boxed core.old core.new fill.old.len fill.new.len out.old out.new (λ b. Ok (stating b taken (view_of core.old.settings.pool next) round.0)) (answered result) }
{
    let own = core.sealer.member();
    let page = next.candidates.candidate(&core.rules);
    // Kept: the height is that of the state that is stored after it, so no method of the core alone says this head.
    let head = Head {
        sender: own,
        height: next.height,
        round,
    };
    let seals = send_change(&mut core.sealer, out, fill, head, &page)?;
    next.note_own(core.settings.pool, own, round, page, seals);
    core.state = next;
    Ok(Answer::Taken)
}

// Enters releasing from a state that the call has come to: writes a release of the lock message that is held, if any.
pub(crate) fn enter_releasing<S: Sealer, R: Rulebook>(
    core: &mut Core<S, R>,
    next: &State,
    out: &mut [u8],
    fill: &mut Fill,
) -> Result<Answer, Refusal>
    ensures { Does ⟦<Core<S, R> as Boxed>⟧.boxed core.old core.new fill.old.len fill.new.len out.old out.new (λ b. Ok (releasing b taken (view_of core.old.settings.pool next.now))) (answered result) }
{
    if let Some(held) = &next.held {
        // Kept: as in state_round, the height is that of the state that is stored after it.
        let head = Head {
            sender: core.sealer.member(),
            height: next.height,
            round: next.round,
        };
        let _ = send_release(
            &mut core.sealer,
            out,
            fill,
            head,
            &held.slip,
            held.as_slice(),
        )?;
    }
    core.state = next.released();
    Ok(Answer::Taken)
}

// Writes the recorded change and seals it again. The record keeps the seals that it has; only the ticks change.
pub(crate) fn resend<S: Sealer, R: Rulebook>(
    core: &mut Core<S, R>,
    out: &mut [u8],
    fill: &mut Fill,
) -> Result<Answer, Refusal>
    ensures { Does ⟦<Core<S, R> as Boxed>⟧.boxed core.old core.new fill.old.len fill.new.len out.old out.new (λ b. Ok (resending b)) (answered result) }
{
    let own = core.sealer.member();
    if let Some(latest) = core.state.latest_of(core.settings.pool, own) {
        // Kept: tried a method Core::head(round) here, and the proof did not close, as a draft is told by the head's own fields.
        let head = Head {
            sender: own,
            height: core.state.height,
            round: latest.round,
        };
        let _ = send_change(&mut core.sealer, out, fill, head, &latest.page)?;
    }
    core.state.ticks = 0;
    Ok(Answer::Taken)
}
