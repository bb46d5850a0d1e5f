// The lock message that a replica holds.
ghost use Rattle.std.specs.Prelude.{◌≡◌, ◌≤◌, length, take};
ghost use Rattle.shelf.specs.Views.{held_view};

use base::bounded::Bounded;
use base::counters::Round;
use base::slips::Slip;

// The message of the highest lock: its slip, its round, its bytes, at most 760 of them (ten members, seals of 80 bytes).
#[derive(Clone, Copy)]
pub struct Held {
    pub slip: Slip,
    pub round: Round,
    bytes: Bounded<u8, 760>,
}

impl Held {
    // Keeps the first 760 bytes of the message.
    pub fn new(slip: Slip, round: Round, message: &[u8]) -> Held
        ensures { held_view result ≡ record { slip = slip; round = round.0; bytes = take 760 message.now } }
    {
        let mut bytes = Bounded::empty(0);
        bytes.extend(&message[..message.len().min(760)]);
        Held { slip, round, bytes }
    }

    // The bytes of the message.
    pub fn as_slice(&self) -> &[u8]
        ensures bytes { result.now ≡ (held_view self.now).bytes }
        ensures small { length result.now ≤ 760 }
    {
        self.bytes.as_slice()
    }
}
