// What a kind of seals makes of a ring of keys.
ghost use Rattle.std.specs.Prelude.{◌≡◌, ℕ, ◌<◌, ◌≤◌, Bool, true, List, length};
ghost use Rattle.base.specs.Writing.{wrote};

use crate::ring::KeyRing;
use base::counters::Member;

pub trait SealKind {
    // whether the holder of these keys and that number recognises a seal: by the member's number, the statement's
    // bytes and the seal's bytes
    ghost knows: { List (List ℕ) → ℕ → ℕ → List ℕ → List ℕ → Bool };

    // the seal of the holder of these keys and that number on a statement
    ghost made: { List (List ℕ) → ℕ → List ℕ → List ℕ };

    // how many bytes a seal has
    ghost long: { ℕ };

    fn length() -> usize
        ensures { result ≡ long };

    fn knows(ring: &KeyRing, member: Member, statement: &[u8], seal: &[u8]) -> bool
        ensures { result ≡ knows ring.now.keys ring.now.own.0 member.0 statement.now seal.now };

    // Writes the holder's seal on the statement to the front of `out`, where there is room for it.
    fn write(ring: &KeyRing, statement: &[u8], out: &mut [u8])
        ensures { long ≤ length out.old → out.new ≡ wrote 0 (made ring.now.keys ring.now.own.0 statement.now) out.old };

    // Writes it, or nothing where there is no room for it.
    final fn write_whole(ring: &KeyRing, statement: &[u8], out: &mut [u8])
        ensures written { long ≤ length out.old → out.new ≡ wrote 0 (made ring.now.keys ring.now.own.0 statement.now) out.old }
        ensures kept { length out.old < long → out.new ≡ out.old }
    {
        if out.len() < Self::length() {
            return;
        }
        Self::write(ring, statement, out);
    }

    // from 1 to 80
    ghost sizes: { (1 ≤ long) × (long ≤ 80) };

    // each seal that is made is so long, and its maker recognises it in its own name
    ghost whole: { (keys : List (List ℕ)) (own : ℕ) (statement : List ℕ) → length (made keys own statement) ≡ long };

    ghost sound: { (keys : List (List ℕ)) (own : ℕ) (statement : List ℕ) → own < 10 → knows keys own own statement (made keys own statement) ≡ true };
}
