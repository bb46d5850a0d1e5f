// What a replica does with a message that was judged good.
ghost use Rattle.std.specs.Prelude.{◌≡◌, ℕ, ◌<◌, ◌≤◌, true, false, List, length, Ok};
ghost use Rattle.base.specs.Pools.{members, last_height};
ghost use Rattle.base.specs.Seals.{seal_bytes};
ghost use Rattle.base.specs.declared.stages.Stage.TheVariants.{Committing};
ghost use Rattle.holding.specs.Outcome.{Does};
ghost use Rattle.holding.specs.Placing.{place_for, place_for_page, repeats_in};
ghost use Rattle.holding.specs.Views.{view_of};
ghost use Rattle.judging.specs.Views.{locked_of};
ghost use Rattle.message.specs.Contents.{Cert};
ghost use Rattle.protocol.specs.Answering.{answered};
ghost use Rattle.protocol.specs.Judging.{latest_of, of_slip, outranks, repeats, round_in, sender_in};
ghost use Rattle.protocol.specs.Messages.{on_change, on_lock, on_select, on_decide, on_release};
ghost use Rattle.protocol.specs.Rounds.{has_place};
ghost use Rattle.shelf.specs.Views.{shelf_view};

use crate::acts::{enter_releasing, state_round};
use ballots::latest::Latest;
use base::counters::Height;
use base::refusals::Refusal;
use base::seals::Seal;
use base::slips::Slip;
use base::stages::Stage;
use holding::cores::{Boxed, Core};
use holding::states::State;
use message::shapes::{Head, LockMessage};
use outbox::drafts::Fill;
use protocol::answers::Answer;
use rules::rulebooks::Rulebook;
use seal::sealers::Sealer;
use sending::sends::send_commit;

// A change: the slip is shelved and the statement recorded; the round that enough members call for is stated. A repeat does
// nothing.
pub(crate) fn on_change<S: Sealer, R: Rulebook>(
    core: &mut Core<S, R>,
    head: Head,
    page: &Option<Slip>,
    rchg: &Seal,
    cand: &Seal,
    out: &mut [u8],
    fill: &mut Fill,
) -> Result<Answer, Refusal>
    requires { repeats_in (view_of core.old.settings.pool core.old.state) head page.now ≡ false → place_for_page core.old.state page.now ≡ true }
    ensures { Does ⟦<Core<S, R> as Boxed>⟧.boxed core.old core.new fill.old.len fill.new.len out.old out.new (λ b. Ok (on_change b head page.now (seal_bytes rchg.now) (seal_bytes cand.now))) (answered result) }
{
    if core.state.repeated(core.settings.pool, &head, page) {
        return Ok(Answer::Taken);
    }
    let mut next = core.state;
    next.note_statement(
        head.sender,
        Latest {
            round: head.round,
            page: *page,
            rchg: *rchg,
            cand: *cand,
        },
    );
    let pool = core.settings.pool;
    match next.called(pool) {
        Some(round) => state_round(core, next, round, out, fill),
        None => {
            next.go_on_changing(pool);
            core.state = next;
            Ok(Answer::Taken)
        }
    }
}

// A lock: the round is taken over, the slip shelved and locked; on to committing, with a commit.
pub(crate) fn on_lock<S: Sealer, R: Rulebook>(
    core: &mut Core<S, R>,
    message: &[u8],
    head: Head,
    slip: &Slip,
    stage: Stage,
    out: &mut [u8],
    fill: &mut Fill,
) -> Result<Answer, Refusal>
    requires short { length message.now ≤ 760 }
    requires place { place_for core.old.state slip.now ≡ true }
    requires committing { stage ≡ Committing }
    ensures { (c : Cert (List ℕ)) → c.slip ≡ slip.now → Does ⟦<Core<S, R> as Boxed>⟧.boxed core.old core.new fill.old.len fill.new.len out.old out.new (λ b. Ok (on_lock b message.now head c)) (answered result) }
{
    // Kept: tried a method Core::head(round) here, and the proof did not close, as a draft is told by the head's own fields.
    let commit = Head {
        sender: core.sealer.member(),
        height: core.state.height,
        round: head.round,
    };
    let _ = send_commit(&mut core.sealer, out, fill, commit, slip)?;
    let mut next = core.state;
    next.lock(slip, head.round, message);
    next.come_to(head.round, stage);
    core.state = next;
    Ok(Answer::Taken)
}

// A select: the round is taken over, the slip shelved; enters releasing.
pub(crate) fn on_select<S: Sealer, R: Rulebook>(
    core: &mut Core<S, R>,
    head: Head,
    slip: &Slip,
    out: &mut [u8],
    fill: &mut Fill,
) -> Result<Answer, Refusal>
    requires { place_for core.old.state slip.now ≡ true }
    ensures { (c : Cert (List ℕ)) → c.slip ≡ slip.now → Does ⟦<Core<S, R> as Boxed>⟧.boxed core.old core.new fill.old.len fill.new.len out.old out.new (λ b. Ok (on_select b head c)) (answered result) }
{
    let mut next = core.state;
    next.select(slip, head.round);
    enter_releasing(core, &next, out, fill)
}

// A decide: the page is entered; the replica rests at the next height with nothing held.
pub(crate) fn on_decide<S: Sealer, R: Rulebook>(
    core: &mut Core<S, R>,
    slip: &Slip,
) -> Result<Answer, Refusal>
    requires { core.old.state.height.0 < last_height }
    ensures { (fill : ℕ) (out : List ℕ) (c : Cert (List ℕ)) → c.slip ≡ slip.now → Does ⟦<Core<S, R> as Boxed>⟧.boxed core.old core.new fill fill out out (λ b. Ok (on_decide b c)) (answered result) }
{
    let height = core.state.height;
    core.state = State::resting(Height(height.0 + 1), slip.own);
    Ok(Answer::Entered {
        height,
        slip: *slip,
    })
}

// A release: if its lock is above every lock held, all locks go, and this one is shelved and held.
pub(crate) fn on_release<S: Sealer, R: Rulebook>(
    core: &mut Core<S, R>,
    lock: &[u8],
    inner: &LockMessage<'_>,
) -> Result<Answer, Refusal>
    requires short { length lock.now ≤ 760 }
    requires place { outranks (view_of core.old.settings.pool core.old.state) (locked_of inner.now) ≡ true → place_for core.old.state inner.now.certificate.slip ≡ true }
    ensures { (fill : ℕ) (out : List ℕ) → Does ⟦<Core<S, R> as Boxed>⟧.boxed core.old core.new fill fill out out (λ b. Ok (on_release b lock.now (locked_of inner.now))) (answered result) }
{
    let round = inner.head.round;
    if core.state.candidates.above_all(round) {
        let slip = inner.certificate.slip;
        let mut next = core.state;
        next.relock(&slip, round, lock);
        core.state = next;
    }
    Ok(Answer::Taken)
}
