// Seals: member 2 seals a statement, the others look at it.
use anyhow::Context;
use base::counters::{Height, Member, Round};
use base::refusals::Refusal;
use base::seals::Seal;
use base::slips::{Mark, Slip};
use base::statements::{Statement, Word};
use seal::keyed::Keyed;
use seal::kinds::SealKind;
use seal::ring::Keys;
use seal::row::{KeyRow, Row};
use seal::sealers::{Checker, Sealer};
use seal::single::{Single, SingleKey};
use seal::stating::seal_statement;

const MEMBERS: [u8; 10] = [0, 1, 2, 3, 4, 5, 6, 7, 8, 9];

// The key that members a and b share; a member's own key is the one it shares with itself.
fn key(a: u8, b: u8) -> [u8; 16] {
    let mut bytes = [7u8; 16];
    bytes[0] = a.min(b);
    bytes[1] = a.max(b);
    bytes
}

// Every member's own key, known to all.
fn own_keys() -> Keys {
    MEMBERS.map(|a| key(a, a))
}

// The row of keys that one member shares with each.
fn key_row(a: u8) -> Keys {
    MEMBERS.map(|b| key(a, b))
}

// A member's sealer.
fn keyed<K: SealKind>(keys: Keys, member: u8, left: u32) -> anyhow::Result<Keyed<K>> {
    Keyed::new(keys, Member(member), left).context("no such sealer")
}

fn statement(word: Word) -> Statement {
    let slip = Slip {
        parent: Mark([0x11; 32]),
        own: Mark([0x22; 32]),
        lots: 7,
        maker: 2,
    };
    Statement {
        word,
        height: Height(5),
        round: Round(0),
        page: Some(slip),
    }
}

fn yes_or_no(yes: bool) -> &'static str {
    if yes { "yes" } else { "no" }
}

// Whether a member recognises the bytes as a seal of member `name` on the statement with that word.
fn asks<C: Checker>(checker: &C, name: u8, word: Word, seal: &[u8]) -> &'static str {
    let bytes = statement(word).to_bytes();
    yes_or_no(checker.recognises(Member(name), bytes.as_slice(), seal))
}

// One member looks at a seal of member 2: as it is, in another's name, under another word, with one bit turned.
fn looks<C: Checker>(rt: &HostRuntime, who: u8, checker: &C, seal: &Seal) -> anyhow::Result<()> {
    let bytes = seal.as_slice();
    let good = asks(checker, 2, Word::Cand, bytes);
    let other = asks(checker, 1, Word::Cand, bytes);
    let word = asks(checker, 2, Word::Cmit, bytes);
    let mut turned = bytes.to_vec(rt.alloc())?;
    let tag = if turned.len() > 8 { who as usize } else { 0 };
    if let Some(byte) = turned.get_mut(8 * tag) {
        *byte ^= 1;
    }
    let bit = asks(checker, 2, Word::Cand, turned.as_slice());
    println!(rt;
        "    member {who}: recognised {good}; in another's name {other}; under another word {word}; one bit turned {bit}"
    )?;
    Ok(())
}

// Seals a candidate and says what is left, or the number of the refusal.
fn makes<S: Sealer>(rt: &HostRuntime, sealer: &mut S) -> anyhow::Result<Option<Seal>> {
    let made = seal_statement(sealer, &statement(Word::Cand));
    let left = sealer.left();
    match made {
        Ok(seal) => {
            println!(rt;
                "  member 2 seals a candidate: {} bytes, {left} seals left",
                seal.as_slice().len()
            )?;
            Ok(Some(seal))
        }
        Err(why) => {
            refused(rt, why)?;
            Ok(None)
        }
    }
}

fn refused(rt: &HostRuntime, why: Refusal) -> anyhow::Result<()> {
    println!(rt; "  refused with {}", why.number())?;
    Ok(())
}

// Member 2 makes a seal, at which the others look, and then seals until its sealer is worn.
fn with_kind<K: SealKind, F: Fn(u8) -> Keys>(
    rt: &HostRuntime,
    keys: F,
    left: u32,
) -> anyhow::Result<()>
    requires { F.IsAlwaysCallable keys }
{
    let mut sealer = keyed::<K>(keys(2), 2, left)?;
    if let Some(seal) = makes(rt, &mut sealer)? {
        for who in [0u8, 1, 3, 4, 5, 6, 7, 8, 9] {
            looks(rt, who, &keyed::<K>(keys(who), who, 0)?, &seal)?;
        }
    }
    for _ in 0..left {
        let _ = makes(rt, &mut sealer)?;
    }
    Ok(())
}

// What is refused when a sealer is made.
fn outside(rt: &HostRuntime) -> anyhow::Result<()> {
    println!(rt; "A sealer of member 10, and one of 4,000,000,001 seals:")?;
    if let Err(why) = SingleKey::new(own_keys(), Member(10), 1) {
        refused(rt, why)?;
    }
    if let Err(why) = KeyRow::new(key_row(9), Member(9), 4_000_000_001) {
        refused(rt, why)?;
    }
    Ok(())
}

pub fn seals(rt: &HostRuntime) -> anyhow::Result<()> {
    println!(rt; "Single keys, two seals:")?;
    with_kind::<Single, _>(rt, |_| own_keys(), 2)?;
    println!(rt; "Rows of keys, one seal:")?;
    with_kind::<Row, _>(rt, key_row, 1)?;
    outside(rt)
}
