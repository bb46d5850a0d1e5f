// Opening a turn.
ghost use Rattle.std.specs.Prelude.{[]};
ghost use Rattle.holding.specs.Outcome.{DoesAlone};
ghost use Rattle.protocol.specs.Turns.{judge_opening};
ghost use Rattle.turns.specs.Views.{opened_view};

use crate::phases::{Gathering, Moment};
use base::refusals::Refusal;
use base::stages::Stage;
use holding::cores::{Boxed, Core};
use rules::rulebooks::Rulebook;
use seal::sealers::Sealer;

// Opens the turn of the leader, in locking, once a round.
pub fn open_turn<S: Sealer, R: Rulebook>(core: &mut Core<S, R>) -> Result<Gathering, Refusal>
    ensures { DoesAlone ⟦<Core<S, R> as Boxed>⟧.boxed core.old core.new judge_opening (opened_view result) }
{
    if !core.is_member() {
        return Err(Refusal::Stranger);
    }
    if !core.leads() || core.state.stage != Stage::Locking || core.state.turned {
        return Err(Refusal::NotYourTurn);
    }
    core.state.turned = true;
    let at = Moment::of(&core.state);
    Ok(Gathering { at })
}
