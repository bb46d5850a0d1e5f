// Tags: what a seal is made of.
ghost use Rattle.std.specs.Prelude.{◌≡◌, ◌<◌, length};
ghost use Rattle.seal.specs.Tags.{tag_of, tag_at};

use crate::siphash::siphash_after;
use base::counters::Member;

// The member's tag on the statement under the key.
#[tactic(auto, using(crate::specs::Made::length_eight_bytes), unfolding(crate::specs::Tags::eight_bytes))]
pub fn tag(key: &[u8; 16], member: Member, statement: &[u8]) -> [u8; 8]
    ensures bytes { result ≡ tag_of key.now member.0 statement.now }
    ensures len { length result ≡ 8 }
{
    siphash_after(key, member.0, statement).to_le_bytes()
}

// The part of a row that is its tag at a place.
pub(crate) fn tag_at(seal: &[u8], i: u8) -> &[u8]
    requires { (length seal.now ≡ 80) × (i < 10) }
    ensures { result.now ≡ tag_at i seal.now }
{
    let at = 8 * i as usize;
    &seal[at..at + 8]
}
