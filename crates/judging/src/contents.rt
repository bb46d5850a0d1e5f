// What a message is, and about which slip.
ghost use Rattle.std.specs.Prelude.{◌≡◌};
ghost use Rattle.message.specs.Encoding.{kind_in};
ghost use Rattle.protocol.specs.Judging.{slip_in, on_chain};
ghost use Rattle.judging.specs.Views.{sent_of};

use base::slips::{Mark, Slip};
use base::stages::Kind;
use base::writing::all_zero;
use message::shapes::{Holds, Message};

// The kind of a message.
pub fn kind_of(m: &Message<'_>) -> Kind
    ensures { result ≡ kind_in (sent_of m.now).content }
{
    match &m.holds {
        Holds::Change { .. } => Kind::Change,
        Holds::Lock(_) => Kind::Lock,
        Holds::Select(_) => Kind::Select,
        Holds::Commit { .. } => Kind::Commit,
        Holds::Decide(_) => Kind::Decide,
        Holds::Release { .. } => Kind::Release,
    }
}

// The slip that a message is about; a change may name none.
pub fn slip_of(m: &Message<'_>) -> Option<Slip>
    ensures { result ≡ slip_in (sent_of m.now).content }
{
    match &m.holds {
        Holds::Change { page, .. } => *page,
        Holds::Lock(c) | Holds::Select(c) | Holds::Decide(c) => Some(c.slip),
        Holds::Commit { slip, .. } => Some(*slip),
        Holds::Release { inner, .. } => Some(inner.certificate.slip),
    }
}

// Whether a slip stands on the page with the last mark, and its own mark is not all zeros.
pub fn on_chain(last: &Mark, slip: &Slip) -> bool
    ensures { result ≡ on_chain last.now slip.now }
{
    slip.parent == *last && !all_zero(&slip.own.0)
}
