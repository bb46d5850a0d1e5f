// Seals of ten tags, one for each member. Each pair of members shares a key, and so does each with itself.
ghost use Rattle.std.specs.Prelude.{◌≡◌, ◌<◌, ◌≤◌, length};
ghost use Rattle.base.specs.Writing.{wrote};
ghost use Rattle.seal.specs.Tags.{tag_of, tag_at, key_of, same, row_knows, row_seal};
ghost use Rattle.seal.specs.Made.{row_whole, row_sound};
ghost use Rattle.std.proofs.Common.{rules};

use crate::keyed::Keyed;
use crate::kinds::SealKind;
use crate::ring::KeyRing;
use crate::tagging::{tag, tag_at};
use base::counters::Member;
use base::writing::put;

// Key i of the ring is the one that the holder shares with member i.
pub type KeyRow = Keyed<Row>;

pub struct Row;

impl SealKind for Row {
    ghost knows = { row_knows };

    ghost made = { row_seal };

    ghost long = { 80 };

    ghost sizes = { Prim.search rules };

    ghost whole = { row_whole };

    ghost sound = { row_sound };

    fn length() -> usize {
        80
    }

    fn knows(ring: &KeyRing, member: Member, statement: &[u8], seal: &[u8]) -> bool {
        member.0 < 10 && seal.len() == 80 && own_tag_stands(ring, member, statement, seal)
    }

    // Writes the holder's tag under each key.
    fn write(ring: &KeyRing, statement: &[u8], out: &mut [u8]) {
        // Kept: over `chunks_exact_mut` the proof did not close, as nothing is known of the parts after the loop.
        for (i, key) in ring.keys.iter().enumerate() {
            let _ = put(out, 8 * i, &tag(key, ring.own, statement));
        }
    }
}

// Whether the tag at the holder's own place is the member's tag under the key that they share.
fn own_tag_stands(ring: &KeyRing, member: Member, statement: &[u8], seal: &[u8]) -> bool
    requires { (member.0 < 10) × (length seal.now ≡ 80) }
    ensures { result ≡ same (tag_at ring.now.own.0 seal.now) (tag_of (key_of ring.now.keys member.0) member.0 statement.now) }
{
    tag_at(seal, ring.own.0) == &ring.tag_by(member, statement)[..]
}
