// What the rest asks of a rulebook. It is only ever asked, so its answers never change.
ghost use Rattle.std.specs.Prelude.{◌≡◌, Bool};
ghost use Rattle.base.specs.declared.counters.Height.{Height};
ghost use Rattle.base.specs.declared.slips.Slip.{Slip};
ghost use Rattle.rules.specs.Order.{Ranks, Transitive};

use base::counters::Height;
use base::slips::Slip;

pub trait Rulebook {
    // whether a slip is admitted at a height
    ghost admitted: { Self → Height → Slip → Bool };

    // whether the first slip is above the second
    ghost ranked: { Self → Slip → Slip → Bool };

    fn admits(&self, height: Height, slip: &Slip) -> bool
        ensures { result ≡ admitted self.now height slip.now };

    fn above(&self, a: &Slip, b: &Slip) -> bool
        ensures { result ≡ ranked self.now a.now b.now };

    ghost ranks: { (s : Self) → Ranks (ranked s) };

    ghost transitive: { (s : Self) → Transitive (ranked s) };
}
