// Seals as they are kept: at most 80 bytes, in fixed memory.
ghost use Rattle.std.specs.Prelude.{◌≡◌, ◌<◌, ◌≤◌, cond, ◌&&◌, length};
ghost use Rattle.std.specs.Option.{option_map};
ghost use Rattle.base.specs.Seals.{seal_bytes, kept};

use crate::bounded::Bounded;
use crate::counters::Member;

// The bytes of a seal, from 1 to 80 of them.
#[derive(Clone, Copy)]
pub struct Seal {
    bytes: Bounded<u8, 80>,
}

// A seal and the member in whose name it stands.
#[derive(Clone, Copy)]
pub struct Vote {
    pub member: Member,
    pub seal: Seal,
}

impl Seal {
    // Keeps the bytes of a seal; none where they are not 1 to 80.
    pub fn new(bytes: &[u8]) -> Option<Seal>
        ensures { option_map seal_bytes result ≡ kept bytes.now }
    {
        if bytes.is_empty() {
            return None;
        }
        Some(Seal {
            bytes: Bounded::from_slice(bytes, 0)?,
        })
    }

    // The bytes of the seal.
    pub fn as_slice(&self) -> &[u8]
        ensures bytes { result.now ≡ seal_bytes self.now }
        ensures small { length result.now ≤ 80 }
    {
        self.bytes.as_slice()
    }
}
