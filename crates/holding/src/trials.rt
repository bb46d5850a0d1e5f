// Trying settings, and the times that follow from them.
ghost use Rattle.std.specs.Prelude.{◌≡◌};
ghost use Rattle.protocol.specs.Calls.{time_of};
ghost use Rattle.holding.specs.Trying.{tried, shown_settings, asked};
ghost use Rattle.holding.specs.Views.{settings_view};

use crate::settings::Settings;
use crate::times::{Times, grow};
use base::counters::{Height, Round};
use base::pools::Pool;
use base::refusals::Refusal;
use base::slips::Mark;
use base::stages::Stage;

// What is asked for: how many members, where the book begins, and times in ticks. Nothing is promised of these numbers.
#[derive(Clone, Copy)]
pub struct Terms {
    pub members: u32,
    pub start_height: Height,
    pub start_mark: Mark,
    pub times: Times,
}

impl Settings {
    // Tries settings: the pool has 4, 7 or 10 members, the start height is in range, times are 1 to 60,000 ticks, and g is
    // below d1.
    pub fn new(terms: &Terms) -> Result<Settings, Refusal>
        ensures { shown_settings result ≡ tried (asked terms.now) }
    {
        let pool = Pool::try_from(terms.members)?;
        if !terms.start_height.in_range() || !terms.times.are_lawful() {
            return Err(Refusal::Unlawful);
        }
        Ok(Settings {
            pool,
            start_height: terms.start_height,
            start_mark: terms.start_mark,
            times: terms.times,
        })
    }

    // How long a stage lasts in a round; resting has no time.
    pub fn time_of(&self, stage: Stage, round: Round) -> u64
        ensures { result ≡ time_of (settings_view self.now) stage round.0 }
    {
        match stage {
            Stage::Resting => 0,
            Stage::Changing => self.times.d0 as u64,
            Stage::Locking => grow(self.times.d1, round),
            Stage::Committing => grow(self.times.d2, round),
            Stage::Releasing => grow(self.times.d3, round),
        }
    }
}
