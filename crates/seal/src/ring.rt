// What both delivered kinds hold. The struct stands alone, since the facts about it are told elsewhere.
ghost use Rattle.std.specs.Prelude.{◌<◌};

use base::counters::Member;

// Ten keys of 16 bytes each.
pub type Keys = [[u8; 16]; 10];

// Ten keys, the holder's number and how many seals are left.
#[derive(Drop)]
pub struct KeyRing {
    pub(crate) keys: Keys,
    pub(crate) own: Member,
    pub(crate) left: u32,
    ghost known: { own.0 < 10 },
}
