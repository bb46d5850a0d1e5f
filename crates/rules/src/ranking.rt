// The order that both rulebooks rank by.
ghost use Rattle.std.specs.Prelude.{◌≡◌};
ghost use Rattle.rules.specs.Order.{higher};
ghost use Rattle.rules.specs.Pages.{rank_key};

use base::slips::Mark;

// What is compared of a slip, one after the other: the larger one is above.
#[derive(Clone, Copy, PartialEq, Eq, PartialOrd, Ord, Debug)]
pub struct Rank {
    pub first: u32,
    pub own: Mark,
    pub second: u32,
    pub parent: Mark,
}

// Whether the first rank is above the second.
pub fn outranks(a: &Rank, b: &Rank) -> bool
    ensures { result ≡ higher (rank_key a.now) (rank_key b.now) }
{
    // the two own marks are of one length
    let (_own, _other): (&[u8], &[u8]) = (&a.own.0, &b.own.0);
    a > b
}
