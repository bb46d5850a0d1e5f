// The rulebook of receipts.
ghost use Rattle.std.specs.Prelude.{◌≡◌};
ghost use Rattle.rules.specs.Pages.{rank_key, receipts_key, receipts_admits, receipts_above, ReceiptsExamples};
ghost use Rattle.rules.specs.Laws.{receipts_ranks, key_transitive};

use crate::ranking::{Rank, outranks};
use crate::rulebooks::Rulebook;
use base::counters::Height;
use base::slips::Slip;

// Admits 1 to 200 lots of a maker below 10. Ranks by more lots, larger own mark, larger maker, larger parent mark.
#[derive(Clone, Copy)]
pub struct Receipts;

impl Receipts {
    pub fn new() -> Receipts
        ensures { ReceiptsExamples }
    {
        Receipts
    }
}

impl Rulebook for Receipts {
    ghost admitted = { λ _ _ slip. receipts_admits slip };

    ghost ranked = { λ _. receipts_above };

    ghost ranks = { λ s. receipts_ranks };

    ghost transitive = { λ s. key_transitive receipts_key };

    fn admits(&self, _height: Height, slip: &Slip) -> bool {
        (1..=200).contains(&slip.lots) && slip.maker < 10
    }

    fn above(&self, a: &Slip, b: &Slip) -> bool {
        outranks(&by_lots(a), &by_lots(b))
    }
}

// Kept: a slip has another rank in each rulebook, so neither is its `From`.
fn by_lots(slip: &Slip) -> Rank
    ensures { rank_key result ≡ receipts_key slip.now }
{
    Rank {
        first: slip.lots,
        own: slip.own,
        second: slip.maker,
        parent: slip.parent,
    }
}
