// Closing a turn.
ghost use Rattle.std.specs.Prelude.{◌≡◌};
ghost use Rattle.ballots.specs.Views.{records_view};
ghost use Rattle.holding.specs.Outcome.{Does};
ghost use Rattle.protocol.specs.Turns.{judge_closing};
ghost use Rattle.turns.specs.Plans.{judged_as, closing_plan};
ghost use Rattle.turns.specs.Views.{counting_view, done_view, closed_view, HandedBack};

use crate::certifying::{Notice, certify};
use crate::conditions::{commits_to, judge_turn, of_members};
use crate::phases::Counting;
use ballots::commits::CommitRecord;
use base::certified::Certified;
use base::refusals::Refusal;
use holding::cores::{Boxed, Core};
use message::shapes::Head;
use outbox::drafts::Fill;
use rules::rulebooks::Rulebook;
use seal::sealers::Sealer;

// Whether the turn can be closed: the replica still leads its round, and a quorum committed to its page.
fn judge_closing<S: Sealer, R: Rulebook>(
    core: &Core<S, R>,
    turn: &Counting,
    records: &[CommitRecord],
) -> Result<(), Refusal>
    ensures { judged_as (λ _. closing_plan (⟦<Core<S, R> as Boxed>⟧.boxed core.now) (counting_view turn.now) (records_view records.now)) result ≡ judge_closing (⟦<Core<S, R> as Boxed>⟧.boxed core.now) (counting_view turn.now) (records_view records.now) }
{
    judge_turn(core, turn.at, records)?;
    let pool = core.settings.pool;
    if !core.leads() {
        return Err(Refusal::NotYourTurn);
    }
    if commits_to(pool, records, &turn.page) < pool.quorum() {
        return Err(Refusal::NotYet);
    }
    Ok(())
}

// Judges, then sends the decide over the q lowest members that committed to the page.
fn decide<S: Sealer, R: Rulebook>(
    core: &mut Core<S, R>,
    turn: &Counting,
    records: &[CommitRecord],
    out: &mut [u8],
    fill: &mut Fill,
) -> Result<(), Refusal>
    ensures { Does ⟦<Core<S, R> as Boxed>⟧.boxed core.old core.new fill.old.len fill.new.len out.old out.new (λ b. judge_closing b (counting_view turn.now) (records_view records.now)) (done_view result) }
{
    judge_closing(core, turn, records)?;
    let pool = core.settings.pool;
    let notice = Notice {
        certified: Certified::Decide,
        // Kept: tried a method Core::head(round) here, and the proof did not close, as a draft is told by the head's own fields.
        head: Head {
            sender: core.sealer.member(),
            height: core.state.height,
            round: core.state.round,
        },
        slip: turn.page,
        pool,
    };
    let votes = of_members(pool, records);
    certify(&mut core.sealer, &notice, votes, &turn.page, out, fill)?;
    Ok(())
}

// Closes the turn: a decide from the q lowest members whose records read as its page. Refused, the turn is handed back.
pub fn close<S: Sealer, R: Rulebook>(
    core: &mut Core<S, R>,
    turn: Counting,
    records: &[CommitRecord],
    out: &mut [u8],
    fill: &mut Fill,
) -> Result<(), (Refusal, Counting)>
    ensures ends { Does ⟦<Core<S, R> as Boxed>⟧.boxed core.old core.new fill.old.len fill.new.len out.old out.new (λ b. judge_closing b (counting_view turn) (records_view records.now)) (closed_view result) }
    ensures back { HandedBack turn result }
{
    // Kept: the turn is moved on both ways, let go or handed back.
    match decide(core, &turn, records, out, fill) {
        Ok(()) => {
            turn.abandon();
            Ok(())
        }
        Err(why) => Err((why, turn)),
    }
}
