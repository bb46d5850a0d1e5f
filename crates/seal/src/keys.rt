// What both delivered kinds do with their ring of keys.
ghost use Rattle.std.specs.Prelude.{◌≡◌, ◌<◌, length};
ghost use Rattle.seal.specs.Tags.{tag_of, key_of, Lawful};

use crate::ring::{KeyRing, Keys};
use crate::tagging::tag;
use base::counters::Member;
use base::refusals::Refusal;

const MEMBERS: u8 = 10;

const MOST_SEALS: u32 = 4_000_000_000;

impl KeyRing {
    // These keys, that holder and so many seals; refused for a number or a count outside the limits.
    pub(crate) fn new(keys: Keys, own: Member, left: u32) -> Result<KeyRing, Refusal>
        ensures { Lawful own.0 left (λ s. (s.keys ≡ keys) × (s.own ≡ own) × (s.left ≡ left)) result }
    {
        if own.0 >= MEMBERS || left > MOST_SEALS {
            return Err(Refusal::Unlawful);
        }
        Ok(KeyRing { keys, own, left })
    }

    // The member's tag on the statement under the key that has its number.
    pub(crate) fn tag_by(&self, member: Member, statement: &[u8]) -> [u8; 8]
        requires { member.0 < 10 }
        ensures bytes { result ≡ tag_of (key_of self.now.keys member.0) member.0 statement.now }
        ensures len { length result ≡ 8 }
    {
        tag(&self.keys[member.0 as usize], member, statement)
    }
}
