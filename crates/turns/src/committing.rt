// Taking commits.
ghost use Rattle.std.specs.Prelude.{◌≡◌, [], ◌==◌, Result as Answered, nat_le};
ghost use Rattle.ballots.specs.Views.{committed, records_view};
ghost use Rattle.base.specs.Slips.{one_page};
ghost use Rattle.base.specs.declared.refusals.Refusal.TheVariants.{PastHeight, LaterHeight, Stranger, TurnPast, WrongRound, OffChain, NotAdmitted, Contradiction};
ghost use Rattle.holding.specs.Outcome.{DoesAlone};
ghost use Rattle.judging.specs.Views.{sent_of};
ghost use Rattle.message.specs.Wholes.{Whole};
ghost use Rattle.protocol.specs.Judging.{height_in, round_in, sender_in, familiar, on_chain};
ghost use Rattle.protocol.specs.Plans.{Plan, unless};
ghost use Rattle.protocol.specs.Turns.{Records, still_in, commit_in, judged_commit, judge_commit};
ghost use Rattle.std.specs.Result.{result_and};
ghost use Rattle.base.specs.declared.refusals.Refusal.{Refusal as Why};
ghost use Rattle.turns.specs.Plans.{judged_as, noting_plan, Keepable};
ghost use Rattle.turns.specs.Views.{counting_view, taken_view, KeptUnlessOk};

use crate::conditions::{is_in, judge_caller};
use crate::phases::Counting;
use ballots::commits::{Commit, CommitRecord, note};
use base::counters::Member;
use base::refusals::Refusal;
use base::seals::Seal;
use base::slips::Slip;
use holding::cores::{Boxed, Core};
use judging::speakers::familiar;
use message::shapes::{Holds, Message};
use rules::rulebooks::Rulebook;
use seal::sealers::Sealer;

// Whether a message is of the turn's height and round, from members, while the replica is still in them.
fn judge_time<S: Sealer, R: Rulebook>(
    core: &Core<S, R>,
    turn: &Counting,
    m: &Message<'_>,
) -> Result<(), Refusal>
    ensures { Whole m.now → (rest : Answered (Plan Records) Why) → result_and result rest ≡ unless (nat_le core.now.state.height.0 (height_in (sent_of m.now).head)) PastHeight (unless (nat_le (height_in (sent_of m.now).head) core.now.state.height.0) LaterHeight (unless (familiar core.now.settings.pool (sent_of m.now)) Stranger (unless (still_in (⟦<Core<S, R> as Boxed>⟧.boxed core.now) turn.now.at.height.0 turn.now.at.round.0) TurnPast (unless (round_in (sent_of m.now).head == turn.now.at.round.0) WrongRound rest)))) }
{
    let state = &core.state;
    if m.head.height < state.height {
        return Err(Refusal::PastHeight);
    }
    if m.head.height > state.height {
        return Err(Refusal::LaterHeight);
    }
    if !familiar(core.settings.pool, m) {
        return Err(Refusal::Stranger);
    }
    if !is_in(state, turn.at) {
        return Err(Refusal::TurnPast);
    }
    if m.head.round != turn.at.round {
        return Err(Refusal::WrongRound);
    }
    Ok(())
}

// Whether a slip is on the chain, admitted, and the page of the turn.
fn judge_page<S: Sealer, R: Rulebook>(
    core: &Core<S, R>,
    turn: &Counting,
    slip: &Slip,
) -> Result<(), Refusal>
    ensures { (rest : Answered (Plan Records) Why) → result_and result rest ≡ unless (on_chain core.now.state.last slip.now) OffChain (unless (R.Rulebook.admitted core.now.rules core.now.state.height slip.now) NotAdmitted (unless (one_page slip.now turn.now.page) Contradiction rest)) }
{
    core.judge_slip(slip)?;
    if *slip != turn.page {
        return Err(Refusal::Contradiction);
    }
    Ok(())
}

// The commit that a message holds, if it is a good one to the page of the turn.
fn judge_content<S: Sealer, R: Rulebook>(
    core: &Core<S, R>,
    turn: &Counting,
    m: &Message<'_>,
) -> Result<Commit, Refusal>
    ensures { Whole m.now → Keepable (commit_in (sent_of m.now).content) → (records : Records) → judged_as (λ c. noting_plan (⟦<Core<S, R> as Boxed>⟧.boxed core.now) turn.now.page records (sender_in m.now.head) (committed c)) result ≡ judged_commit (⟦<Core<S, R> as Boxed>⟧.boxed core.now) (counting_view turn.now) records m.now.head (commit_in (sent_of m.now).content) }
{
    // Kept: one kind of six is taken apart here, which is no Option.
    let Holds::Commit { slip, seal } = &m.holds else {
        return Err(Refusal::OutOfStage);
    };
    core.judge_seals(m)?;
    judge_page(core, turn, slip)?;
    let seal = Seal::new(seal.bytes).ok_or(Refusal::Misshapen)?;
    Ok(Commit { page: *slip, seal })
}

// A member's commit.
#[derive(Clone, Copy)]
struct Received {
    member: Member,
    commit: Commit,
}

// The good commit that some bytes are.
fn judge_commit<S: Sealer, R: Rulebook>(
    core: &Core<S, R>,
    turn: &Counting,
    records: &[CommitRecord],
    message: &[u8],
) -> Result<Received, Refusal>
    ensures { judged_as (λ x. noting_plan (⟦<Core<S, R> as Boxed>⟧.boxed core.now) turn.now.page (records_view records.now) x.member.0 (committed x.commit)) result ≡ judge_commit (⟦<Core<S, R> as Boxed>⟧.boxed core.now) (counting_view turn.now) (records_view records.now) message.now }
{
    judge_caller(core, records)?;
    let m = core.format().parse(message)?;
    judge_time(core, turn, &m)?;
    let commit = judge_content(core, turn, &m)?;
    Ok(Received {
        member: m.head.sender,
        commit,
    })
}

// Takes a commit to the page of the turn into the record of its member; a repeated one does nothing.
pub fn take_commit<S: Sealer, R: Rulebook>(
    core: &Core<S, R>,
    turn: &Counting,
    records: &mut [CommitRecord],
    message: &[u8],
) -> Result<(), Refusal>
    ensures ends { DoesAlone ⟦<Core<S, R> as Boxed>⟧.boxed core.now core.now (λ b. judge_commit b (counting_view turn.now) (records_view records.old) message.now) (taken_view (records_view records.new) result) }
    ensures kept { KeptUnlessOk records.old records.new result }
{
    let received = judge_commit(core, turn, records, message)?;
    note(records, received.member, received.commit, &turn.page);
    Ok(())
}
