// Comparing locks. Nothing is moved.
ghost use Rattle.std.specs.Prelude.{◌≡◌};
ghost use Rattle.moves.specs.Comparing.{compared, handed};

use base::refusals::Refusal;
use holding::cores::{Boxed, Core};
use rules::rulebooks::Rulebook;
use seal::sealers::Sealer;

// Of the lock message that is held and the received one, the higher, as a part of its own buffer; the held one on equal
// rounds, the received one where none is held.
pub fn higher_of<'a, S: Sealer, R: Rulebook>(
    core: &'a Core<S, R>,
    received: &'a [u8],
) -> Result<&'a [u8], Refusal>
    ensures { handed result ≡ compared (⟦<Core<S, R> as Boxed>⟧.boxed core.now) received.now }
{
    if !core.is_member() {
        return Err(Refusal::Stranger);
    }
    let format = core.format();
    match &core.state.held {
        Some(held) => format.higher_lock(held.as_slice(), received),
        None => {
            format.parse_lock(received).ok_or(Refusal::Misshapen)?;
            Ok(received)
        }
    }
}
