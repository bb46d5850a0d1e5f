// A sealer with a ring of keys, for each kind of seals that is made of one.
ghost use Rattle.std.specs.Prelude.{◌≡◌, is_ok, if◌then◌else◌};
ghost use Rattle.base.specs.Writing.{wrote};
ghost use Rattle.seal.specs.Meaning.{Sealing, keyed};
ghost use Rattle.seal.specs.Tags.{Lawful};
ghost use Rattle.std.proofs.Common.{rules};

use crate::kinds::SealKind;
use crate::ring::{KeyRing, Keys};
use crate::sealers::{Checker, Sealer};
use base::counters::Member;
use base::refusals::Refusal;
use std::marker::PhantomData;

// What the keys of the ring are, its kind says.
#[derive(Drop)]
pub struct Keyed<K> {
    ring: KeyRing,
    kind: PhantomData<K>,
}

impl<K: SealKind> Keyed<K> {
    // A sealer for that member, with those keys, that can make so many seals.
    pub fn new(keys: Keys, own: Member, left: u32) -> Result<Keyed<K>, Refusal>
        ensures { Lawful own.0 left (λ s. (s.ring.keys ≡ keys) × (keyed K.knows K.long s.ring.keys s.ring.own.0 s.ring.left ≡ keyed K.knows K.long keys own.0 left)) result }
    {
        let ring = KeyRing::new(keys, own, left)?;
        Ok(Keyed {
            ring,
            kind: PhantomData,
        })
    }
}

impl<K: SealKind> Checker for Keyed<K> {
    ghost recognised = { λ s. K.knows s.ring.keys s.ring.own.0 };

    ghost seal_long = { K.long };

    ghost sizes = { K.sizes };

    fn seal_length() -> usize {
        K::length()
    }

    fn recognises(&self, member: Member, statement: &[u8], seal: &[u8]) -> bool {
        K::knows(&self.ring, member, statement, seal)
    }
}

impl<K: SealKind> Sealer for Keyed<K> {
    ghost meaning = { λ s. keyed K.knows K.long s.ring.keys s.ring.own.0 s.ring.left };

    ghost knows = { Prim.search rules };

    ghost long = { Prim.search rules };

    fn member(&self) -> Member {
        self.ring.own
    }

    fn left(&self) -> u32 {
        self.ring.left
    }

    // Writes what the kind makes.
    fn seal(&mut self, statement: &[u8], out: &mut [u8]) -> Result<(), Refusal>
        ensures outcome { Sealing (keyed K.knows K.long self.old.ring.keys self.old.ring.own.0 self.old.ring.left) statement.now out.old result (keyed K.knows K.long self.new.ring.keys self.new.ring.own.0 self.new.ring.left) out.new }
        ensures bytes { out.new ≡ (if is_ok result then wrote 0 (K.made self.old.ring.keys self.old.ring.own.0 statement.now) out.old else out.old) }
    {
        if self.ring.left == 0 {
            return Err(Refusal::WornSealer);
        }
        if out.len() < K::length() {
            return Err(Refusal::OutboxShort);
        }
        K::write_whole(&self.ring, statement, out);
        self.ring.left -= 1;
        Ok(())
    }
}
