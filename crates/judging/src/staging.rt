// The stage table: which kinds of messages a stage takes, and where they lead.
ghost use Rattle.std.specs.Prelude.{◌≡◌, nat_lt};
ghost use Rattle.judging.specs.Table.{takes_kind, stage_after, ByKind};

use base::counters::Round;
use base::stages::{Kind, Stage};

// Whether a replica in that stage and round takes a message of that kind and round. If so, the stage is the one that the
// message leads to, else it is as it was.
// Kept: a rule of the project: the stage is changed in place, and the answer says whether it was taken.
pub fn advance(stage: &mut Stage, kind: Kind, own: Round, round: Round) -> bool
    ensures takes { result ≡ takes_kind stage.old kind (nat_lt own.0 round.0) }
    ensures after { stage.new ≡ stage_after stage.old kind (nat_lt own.0 round.0) }
    ensures table { ByKind }
{
    let led = own < round || *stage == Stage::Locking;
    match (*stage, kind) {
        (_, Kind::Change) | (Stage::Releasing, Kind::Release) => true,
        (_, Kind::Lock) if led => {
            *stage = Stage::Committing;
            true
        }
        (_, Kind::Select) if led => {
            *stage = Stage::Releasing;
            true
        }
        (_, Kind::Decide) => {
            *stage = Stage::Resting;
            true
        }
        _ => false,
    }
}
