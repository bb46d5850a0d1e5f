// A kind of seals of one's own is made with no more than the trait asks: what is written where there is room.
ghost use Rattle.seal.specs.Tags.{row_knows, row_seal};
ghost use Rattle.seal.specs.Made.{row_whole, row_sound};
ghost use Rattle.std.proofs.Common.{rules};

use base::counters::Member;
use base::refusals::Refusal;
use seal::keyed::Keyed;
use seal::kinds::SealKind;
use seal::ring::{KeyRing, Keys};
use seal::row::{KeyRow, Row};
use seal::sealers::{Checker, Sealer};
use std::test::Fail;

// The seals of a row. Where there is no room for one, zeros are written.
struct Zeroing;

impl SealKind for Zeroing {
    ghost knows = { row_knows };

    ghost made = { row_seal };

    ghost long = { 80 };

    ghost sizes = { Prim.search rules };

    ghost whole = { row_whole };

    ghost sound = { row_sound };

    fn length() -> usize {
        Row::length()
    }

    fn knows(ring: &KeyRing, member: Member, statement: &[u8], seal: &[u8]) -> bool {
        Row::knows(ring, member, statement, seal)
    }

    fn write(ring: &KeyRing, statement: &[u8], out: &mut [u8]) {
        if out.len() < 80 {
            out.fill(0);
        }
        Row::write(ring, statement, out);
    }
}

// Its seals are a row's, byte for byte. Without room nothing is written, since its sealer refuses before.
#[test]
fn a_kind_of_ones_own(rt: HostRuntime) -> Result<(), Fail> {
    let mut keys: Keys = [[7; 16]; 10];
    keys[0] = [1; 16];
    keys[9] = [2; 16];
    let mut own: Keyed<Zeroing> = Keyed::new(keys, Member(2), 2)?;
    let mut row: KeyRow = Keyed::new(keys, Member(2), 2)?;
    let mut seal = [0xffu8; 81];
    let mut same = [0xffu8; 81];
    own.seal(b"a page", &mut seal)?;
    row.seal(b"a page", &mut same)?;
    assert!(rt; seal == same);
    assert_eq!(rt; seal[80], 0xff);
    assert!(rt; own.recognises(Member(2), b"a page", &seal[..80]));
    assert!(rt; !own.recognises(Member(2), b"another", &seal[..80]));

    let mut short = [0xffu8; 79];
    let refused = own.seal(b"a page", &mut short).err();
    assert_eq!(rt; refused.map(Refusal::number), Some(13));
    assert!(rt; short == [0xff; 79]);
    assert_eq!(rt; own.left(), 1);
    Ok(())
}
