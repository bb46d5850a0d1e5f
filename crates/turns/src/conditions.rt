// What is asked before a turn goes on.
ghost use Rattle.std.specs.Prelude.{◌≡◌, ◌&&◌, length, take, ◌==◌, nat_le};
ghost use Rattle.ballots.specs.Views.{records_view};
ghost use Rattle.base.specs.Pools.{members};
ghost use Rattle.base.specs.declared.refusals.Refusal.TheVariants.{FewRecords, TurnPast};
ghost use Rattle.protocol.specs.Messages.{of_member};
ghost use Rattle.protocol.specs.Plans.{unless};
ghost use Rattle.protocol.specs.State.{tally};
ghost use Rattle.protocol.specs.Turns.{commits_to, enough, still_in};

use crate::phases::Moment;
use ballots::commits::CommitRecord;
use ballots::tallies::count;
use base::pools::Pool;
use base::refusals::Refusal;
use base::slips::Slip;
use holding::cores::{Boxed, Core};
use holding::states::State;
use rules::rulebooks::Rulebook;
use seal::sealers::Sealer;

// Whether the replica is in that height and round.
pub(crate) fn is_in(state: &State, at: Moment) -> bool
    ensures { result ≡ (state.now.height.0 == at.height.0 && state.now.round.0 == at.round.0) }
{
    Moment::of(state) == at
}

// Whether there is a record for each member.
pub(crate) fn is_enough(pool: Pool, records: &[CommitRecord]) -> bool
    ensures { result ≡ nat_le (members pool) (length (records_view records.now)) }
{
    pool.size() <= records.len()
}

// What is asked of any call on a turn: the caller is a member, and there is a record for each.
pub(crate) fn judge_caller<S: Sealer, R: Rulebook>(
    core: &Core<S, R>,
    records: &[CommitRecord],
) -> Result<(), Refusal>
    ensures { let b = ⟦<Core<S, R> as Boxed>⟧.boxed core.now in result ≡ of_member b (unless (enough b (records_view records.now)) FewRecords (Ok tt)) }
{
    if !core.is_member() {
        return Err(Refusal::Stranger);
    }
    if !is_enough(core.settings.pool, records) {
        return Err(Refusal::FewRecords);
    }
    Ok(())
}

// What is asked of a call that moves a turn on: besides, the replica is still in the turn's height and round.
pub(crate) fn judge_turn<S: Sealer, R: Rulebook>(
    core: &Core<S, R>,
    at: Moment,
    records: &[CommitRecord],
) -> Result<(), Refusal>
    ensures { let b = ⟦<Core<S, R> as Boxed>⟧.boxed core.now in result ≡ of_member b (unless (enough b (records_view records.now)) FewRecords (unless (still_in b at.height.0 at.round.0) TurnPast (Ok tt))) }
{
    judge_caller(core, records)?;
    if !is_in(&core.state, at) {
        return Err(Refusal::TurnPast);
    }
    Ok(())
}

// The records of the pool's members.
pub(crate) fn of_members(pool: Pool, records: &[CommitRecord]) -> &[CommitRecord]
    ensures { result.now ≡ take (members pool) records.now }
{
    &records[..pool.size().min(records.len())]
}

// How many members' records read as the page.
pub(crate) fn commits_to(pool: Pool, records: &[CommitRecord], page: &Slip) -> usize
    ensures { result ≡ tally (commits_to page.now) (take (members pool) (records_view records.now)) }
{
    count(of_members(pool, records), page)
}
