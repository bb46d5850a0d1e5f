// A turn is moved through its phases and never copied, so none can be put forward or closed twice.
ghost use Rattle.std.specs.Prelude.{◌≡◌};

use base::counters::{Height, Round};
use base::slips::Slip;
use holding::states::State;

// A height, and a round of it.
#[derive(Clone, Copy, PartialEq, Eq)]
pub(crate) struct Moment {
    pub(crate) height: Height,
    pub(crate) round: Round,
}

impl Moment {
    // The height and round that a replica is in.
    pub(crate) fn of(state: &State) -> Moment
        ensures { result ≡ record { height = state.now.height; round = state.now.round } }
    {
        Moment {
            height: state.height,
            round: state.round,
        }
    }
}

// A turn that can only be put forward.
// Kept: two types, since each takes other calls and the one is moved into the other.
pub struct Gathering {
    pub(crate) at: Moment,
}

// A turn that takes commits and is closed.
pub struct Counting {
    pub(crate) at: Moment,
    pub(crate) page: Slip,
}

impl Gathering {
    // Lets the turn go.
    pub fn abandon(self) {
        let Gathering { at: _ } = self;
    }
}

impl Counting {
    pub fn height(&self) -> Height
        ensures { result ≡ self.now.at.height }
    {
        self.at.height
    }

    pub fn round(&self) -> Round
        ensures { result ≡ self.now.at.round }
    {
        self.at.round
    }

    // The page that was put forward.
    pub fn page(&self) -> Slip
        ensures { result ≡ self.now.page }
    {
        self.page
    }

    // Lets the turn go.
    pub fn abandon(self) {
        let Counting { at: _, page: _ } = self;
    }
}
