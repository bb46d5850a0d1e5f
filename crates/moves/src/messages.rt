// Taking a message: read, judged in the one order of refusals, then acted on by its kind.
ghost use Rattle.std.specs.Prelude.{◌≡◌, Some, None, Ok};
ghost use Rattle.holding.specs.Outcome.{Does};
ghost use Rattle.judging.specs.Views.{sent_of};
ghost use Rattle.message.specs.RoundTrip.{fields};
ghost use Rattle.moves.specs.Verdict.{stage_led_to, verdict};
ghost use Rattle.protocol.specs.Answering.{answered};
ghost use Rattle.protocol.specs.Messages.{judge_message, plan_of};

use crate::judges::judge;
use crate::taking::{on_change, on_decide, on_lock, on_release, on_select};
use base::refusals::Refusal;
use base::seals::Seal;
use base::stages::Stage;
use holding::cores::{Boxed, Core};
use message::shapes::{Holds, Message};
use outbox::drafts::Fill;
use protocol::answers::Answer;
use rules::rulebooks::Rulebook;
use seal::sealers::Sealer;

// What a replica does with a message that was read and judged good, by its kind; the stage is the one that it leads to.
// Kept: each kind hands other fields on, which closures in a table could not take.
fn act<S: Sealer, R: Rulebook>(
    core: &mut Core<S, R>,
    message: &[u8],
    m: &Message<'_>,
    stage: Stage,
    out: &mut [u8],
    fill: &mut Fill,
) -> Result<Answer, Refusal>
    requires read { fields core.old.settings.pool S.Checker.seal_long message.now ≡ Some (sent_of m.now) }
    requires passed { verdict (⟦<Core<S, R> as Boxed>⟧.boxed core.old) (sent_of m.now) ≡ None }
    requires leads { stage ≡ stage_led_to core.old.state (sent_of m.now) }
    ensures { Does ⟦<Core<S, R> as Boxed>⟧.boxed core.old core.new fill.old.len fill.new.len out.old out.new (λ b. Ok (plan_of b message.now (sent_of m.now).head (sent_of m.now).content)) (answered result) }
{
    match &m.holds {
        Holds::Change { page, rchg, cand } => {
            let rchg = Seal::new(rchg.bytes).ok_or(Refusal::Misshapen)?;
            let cand = Seal::new(cand.bytes).ok_or(Refusal::Misshapen)?;
            on_change(core, m.head, page, &rchg, &cand, out, fill)
        }
        Holds::Lock(c) => on_lock(core, message, m.head, &c.slip, stage, out, fill),
        Holds::Select(c) => on_select(core, m.head, &c.slip, out, fill),
        Holds::Commit { .. } => Ok(Answer::Taken),
        Holds::Decide(c) => on_decide(core, &c.slip),
        Holds::Release { part, inner, .. } => on_release(core, part.bytes, inner),
    }
}

// Takes a message.
pub fn take<S: Sealer, R: Rulebook>(
    core: &mut Core<S, R>,
    message: &[u8],
    out: &mut [u8],
    fill: &mut Fill,
) -> Result<Answer, Refusal>
    ensures { Does ⟦<Core<S, R> as Boxed>⟧.boxed core.old core.new fill.old.len fill.new.len out.old out.new (λ b. judge_message b message.now) (answered result) }
{
    if !core.is_member() {
        return Err(Refusal::Stranger);
    }
    let m = core.format().parse(message)?;
    let stage = judge(core, &m)?;
    act(core, message, &m, stage, out, fill)
}
