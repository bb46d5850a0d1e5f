// The rulebook of a roster.
ghost use Rattle.std.specs.Prelude.{◌≡◌};
ghost use Rattle.rules.specs.Pages.{rank_key, roster_key, roster_admits, roster_above, RosterExamples};
ghost use Rattle.rules.specs.Laws.{roster_ranks, key_transitive};

use crate::ranking::{Rank, outranks};
use crate::rulebooks::Rulebook;
use base::counters::Height;
use base::slips::Slip;

// Admits one lot of a maker on the roster. Ranks by smaller maker, larger own mark, more lots, larger parent mark.
#[derive(Clone, Copy)]
pub struct Roster {
    makers: [bool; 10],
}

impl Roster {
    // Which of the makers 0 to 9 may propose.
    pub fn new(makers: [bool; 10]) -> Roster
        ensures makers { result.makers ≡ makers }
        ensures examples { RosterExamples }
    {
        Roster { makers }
    }
}

impl Rulebook for Roster {
    ghost admitted = { λ s _ slip. roster_admits s.makers slip };

    ghost ranked = { λ _. roster_above };

    ghost ranks = { λ s. roster_ranks };

    ghost transitive = { λ s. key_transitive roster_key };

    fn admits(&self, _height: Height, slip: &Slip) -> bool {
        slip.lots == 1 && self.makers.get(slip.maker as usize) == Some(&true)
    }

    fn above(&self, a: &Slip, b: &Slip) -> bool {
        outranks(&by_maker(a), &by_maker(b))
    }
}

// Kept: a slip has another rank in each rulebook, so neither is its `From`.
fn by_maker(slip: &Slip) -> Rank
    ensures { rank_key result ≡ roster_key slip.now }
{
    Rank {
        first: u32::MAX - slip.maker,
        own: slip.own,
        second: slip.lots,
        parent: slip.parent,
    }
}
