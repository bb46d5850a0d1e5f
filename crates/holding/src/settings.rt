// The settings of a replica. Every value of this type keeps their limits.
ghost use Rattle.std.specs.Prelude.{◌≡◌, true};
ghost use Rattle.protocol.specs.State.{settings_lawful};

use crate::times::Times;
use base::counters::Height;
use base::pools::Pool;
use base::slips::Mark;

// The pool's size, where the book begins, and times in ticks.
#[derive(Clone, Copy)]
pub struct Settings {
    pub pool: Pool,
    pub start_height: Height,
    pub start_mark: Mark,
    pub times: Times,
    ghost lawful: { settings_lawful (record { pool = pool; start_height = start_height.0; start_mark = start_mark; d0 = times.d0; d1 = times.d1; d2 = times.d2; d3 = times.d3; g = times.g }) ≡ true },
}
