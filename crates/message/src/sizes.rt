// How long messages are.
ghost use Rattle.std.specs.Prelude.{◌≡◌};
ghost use Rattle.message.specs.Sizes.{size_of, SizesHold, SizesReckoned};

use base::pools::Pool;
use base::stages::Kind;

// The length of a message of that kind, in a pool of that size, with seals of that length. A change may be without
// a slip; for the other kinds it does not matter what is said of that.
// Kept: a flag, since who measures has no slip at hand, and no Format, whose seals may be of any length: a byte keeps the sum in range.
pub fn message_size(kind: Kind, with_slip: bool, pool: Pool, seal_len: u8) -> usize
    ensures size { result ≡ size_of kind with_slip pool seal_len }
    ensures hold { SizesHold }
    ensures reckoned { SizesReckoned }
{
    measure(kind, with_slip, pool, seal_len)
}

fn measure(kind: Kind, with_slip: bool, pool: Pool, seal_len: u8) -> usize
    ensures { result ≡ size_of kind with_slip pool seal_len }
{
    let seal = seal_len as usize;
    let q = pool.quorum();
    let certificate = 12 + 4 * (2 + q) + 72 + seal + q * seal;
    match kind {
        Kind::Change if with_slip => 96 + 2 * seal,
        Kind::Change => 20 + 2 * seal,
        Kind::Lock | Kind::Select | Kind::Decide => certificate,
        Kind::Commit => 92 + seal,
        Kind::Release => 20 + certificate + seal,
    }
}
