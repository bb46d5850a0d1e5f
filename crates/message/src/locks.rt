// Comparing two lock messages.
ghost use Rattle.std.specs.Prelude.{◌≡◌};
ghost use Rattle.message.specs.Comparing.{higher_of};
ghost use Rattle.message.specs.Shapes.{lock_of};

use crate::parsing::Format;
use base::refusals::Refusal;

impl Format {
    // Of the kept lock message and the received one, the very slice of the one with the higher round; the kept one on
    // equal rounds. Heights, senders and seals are not looked at.
    pub fn higher_lock<'a>(self, kept: &'a [u8], received: &'a [u8]) -> Result<&'a [u8], Refusal>
        ensures { result ≡ higher_of (lock_of self.pool self.seal_len kept.now) (lock_of self.pool self.seal_len received.now) kept.entry received.entry }
    {
        let old = self.parse_lock(kept).ok_or(Refusal::Misshapen)?;
        let new = self.parse_lock(received).ok_or(Refusal::Misshapen)?;
        if old.head.round < new.head.round {
            Ok(received)
        } else {
            Ok(kept)
        }
    }
}
