// Seals of one tag. Each member has one key, which all members know.
ghost use Rattle.std.specs.Prelude.{◌≡◌, ◌≤◌, length};
ghost use Rattle.base.specs.Writing.{wrote};
ghost use Rattle.seal.specs.Tags.{single_knows, single_seal};
ghost use Rattle.seal.specs.Made.{single_whole, singles_pass};
ghost use Rattle.std.proofs.Common.{rules};

use crate::keyed::Keyed;
use crate::kinds::SealKind;
use crate::ring::KeyRing;
use base::counters::Member;
use base::writing::put;

// Key i of the ring is member i's, and every member has all ten.
pub type SingleKey = Keyed<Single>;

pub struct Single;

impl SealKind for Single {
    ghost knows = { λ keys _. single_knows keys };

    ghost made = { single_seal };

    ghost long = { 8 };

    ghost sizes = { Prim.search rules };

    ghost whole = { single_whole };

    ghost sound = { λ keys own statement h. singles_pass keys own statement h };

    fn length() -> usize {
        8
    }

    fn knows(ring: &KeyRing, member: Member, statement: &[u8], seal: &[u8]) -> bool {
        member.0 < 10 && seal == &ring.tag_by(member, statement)[..]
    }

    // Writes the holder's tag.
    fn write(ring: &KeyRing, statement: &[u8], out: &mut [u8]) {
        let _ = put(out, 0, &ring.tag_by(ring.own, statement));
    }
}
