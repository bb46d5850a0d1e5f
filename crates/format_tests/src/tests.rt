// What the writers write reads back, and what is not of the layout is refused.
use crate::samples::*;
use base::certified::Certified;
use base::counters::Member;
use base::pools::Pool;
use base::refusals::Refusal;
use base::seals::{Seal, Vote};
use base::slips::Slip;
use base::stages::Kind;
use base::writing::put;
use message::parsing::Format;
use message::readers::{Part, Reader};
use message::shapes::{Certificate, Head, Holds};
use outbox::drafts::{Draft, Fill};
use outbox::writers::{write_certificate, write_change, write_commit, write_release};
use std::process::Abort;
use std::test::Fail;

const KINDS: [Kind; 6] = [
    Kind::Change,
    Kind::Lock,
    Kind::Select,
    Kind::Commit,
    Kind::Decide,
    Kind::Release,
];

fn is_head(rt: &impl Abort, head: Head, sender: u8, height: u32, round: u32) {
    assert_eq!(rt; head.sender.0, sender);
    assert_eq!(rt; head.height.0, height);
    assert_eq!(rt; head.round.0, round);
}

fn is_part(
    rt: &impl Abort,
    part: Part<'_>,
    offset: usize,
    member: u8,
    letter: u8,
) -> Result<(), Fail> {
    assert_eq!(rt; part.offset, offset);
    let seal = seal_of(member, letter)?;
    assert!(rt; part.bytes == seal.as_slice());
    Ok(())
}

// Seals of members 0, 1 and 3, one after the other from a place on.
fn is_votes(rt: &impl Abort, votes: Reader<'_>, from: usize) -> Result<(), Fail> {
    let mut votes = votes;
    for (member, offset) in [0u8, 1, 3].into_iter().zip((from..usize::MAX).step_by(8)) {
        let vote = votes.next().ok_or("a seal is missing")?;
        assert_eq!(rt; vote.member.0, member);
        is_part(rt, vote.part, offset, member, b'V')?;
    }
    assert!(rt; votes.finished());
    Ok(())
}

fn is_slip(rt: &impl Abort, slip: Slip) {
    assert!(rt; slip == slip_with(0x22));
}

// A slip, the leader's own seal and three members' seals, in a message of five bodies.
fn is_certificate(rt: &impl Abort, c: Certificate<'_>, sender: u8) -> Result<(), Fail> {
    is_slip(rt, c.slip);
    is_part(rt, c.own, 104, sender, b'A')?;
    is_votes(rt, c.votes, 112)
}

// What a message of that kind holds is what was written.
fn is_content(rt: &impl Abort, kind: Kind, holds: Holds<'_>) -> Result<(), Fail> {
    match (kind, holds) {
        (Kind::Change, Holds::Change { page, rchg, cand }) => {
            is_slip(rt, page.ok_or("no slip")?);
            is_part(rt, rchg, 96, 2, b'A')?;
            is_part(rt, cand, 104, 2, b'B')
        }
        (Kind::Commit, Holds::Commit { slip, seal }) => {
            is_slip(rt, slip);
            is_part(rt, seal, 92, 2, b'A')
        }
        (Kind::Lock, Holds::Lock(c))
        | (Kind::Select, Holds::Select(c))
        | (Kind::Decide, Holds::Decide(c)) => is_certificate(rt, c, 2),
        (Kind::Release, Holds::Release { part, inner, own }) => {
            assert_eq!(rt; part.offset, 20);
            assert_eq!(rt; part.bytes.len(), 136);
            is_head(rt, inner.head, 1, 5, 9);
            is_certificate(rt, inner.certificate, 1)?;
            is_part(rt, own, 156, 2, b'A')
        }
        (_, _) => Err(Fail::new("another kind")),
    }
}

// Each kind, written and read back with the same fields. It is refused where its end is cut off, down to no byte at all,
// and where one byte more is read.
#[test]
fn each_kind_reads_back(rt: HostRuntime) -> Result<(), Fail> {
    for kind in KINDS {
        let mut out = [0u8; ROOM];
        let n = written(&rt, &mut out, kind, head_at(2, 5, 3))?;
        let m = FOUR.parse(taken(&rt, &out, n))?;
        is_head(&rt, m.head, 2, 5, 3);
        is_content(&rt, kind, m.holds)?;
        for short in 0..n {
            misshapen(&rt, taken(&rt, &out, short))?;
        }
        misshapen(&rt, taken(&rt, &out, n.saturating_add(1)))?;
    }
    Ok(())
}

// A byte of a message and what it is turned to.
#[derive(Clone, Copy)]
struct Turn {
    at: usize,
    to: u8,
}

fn byte(at: usize, to: u8) -> Turn {
    Turn { at, to }
}

// A change of member 2 begins 1 2 3 0; the entries of its table, of 4 bytes each, begin at 12, 16 and 20. One or two of its
// bytes are turned.
#[test]
fn turned_changes_are_refused(rt: HostRuntime) -> Result<(), Fail> {
    let mut out = [0u8; ROOM];
    let n = written(&rt, &mut out, Kind::Change, head_at(2, 5, 3))?;
    let turns = [
        // no kind has these numbers
        [byte(0, 0), byte(0, 0)],
        [byte(0, 7), byte(0, 7)],
        // the bodies of a change are not those of a commit
        [byte(0, 4), byte(0, 4)],
        // the sender alone: the seals stand in another member's name
        [byte(1, 3), byte(1, 3)],
        // the count
        [byte(2, 2), byte(2, 2)],
        [byte(2, 4), byte(2, 4)],
        // the byte that is zero
        [byte(3, 1), byte(3, 1)],
        // the order of the sorts
        [byte(16, 3), byte(20, 2)],
        [byte(12, 2), byte(16, 1)],
        // a slip has no member, and 72 bytes
        [byte(13, 2), byte(13, 2)],
        [byte(15, 71), byte(19, 9)],
        // one seal longer, the other shorter
        [byte(19, 9), byte(23, 7)],
    ];
    for [a, b] in turns {
        let mut copy = out;
        assert!(rt; a.at < ROOM && b.at < ROOM);
        copy[a.at] = a.to;
        copy[b.at] = b.to;
        misshapen(&rt, taken(&rt, &copy, n))?;
    }
    Ok(())
}

// Heights and rounds at the ends of their ranges and past them; a sender that no pool has is no matter of layout.
#[test]
fn limits_of_the_head(rt: HostRuntime) -> Result<(), Fail> {
    for good in [
        head_at(2, 1, 0),
        head_at(2, 4_000_000_000, 65_535),
        head_at(200, 5, 3),
    ] {
        let mut out = [0u8; ROOM];
        let n = written(&rt, &mut out, Kind::Change, good)?;
        let m = FOUR.parse(taken(&rt, &out, n))?;
        is_head(&rt, m.head, good.sender.0, good.height.0, good.round.0);
    }
    for bad in [
        head_at(2, 0, 3),
        head_at(2, 4_000_000_001, 3),
        head_at(2, 5, 65_536),
    ] {
        let mut out = [0u8; ROOM];
        let n = written(&rt, &mut out, Kind::Change, bad)?;
        misshapen(&rt, taken(&rt, &out, n))?;
    }
    Ok(())
}

// A slip body of 72 zeros is none.
#[test]
fn a_slip_of_zeros(rt: HostRuntime) -> Result<(), Fail> {
    let mut out = [0u8; ROOM];
    let n = written(&rt, &mut out, Kind::Commit, head_at(2, 5, 3))?;
    assert!(rt; put(&mut out, 20, &[0; 72]));
    misshapen(&rt, taken(&rt, &out, n))
}

// Members that do not rise, and a lock of another height inside a release.
#[test]
fn locks_that_are_refused(rt: HostRuntime) -> Result<(), Fail> {
    let head = head_at(2, 5, 3);
    for order in [[0u8, 3, 1], [1, 0, 3], [0, 0, 1], [3, 3, 3]] {
        let mut out = [0u8; ROOM];
        let n = lock_by(&mut out, head, 0x22, order)?;
        misshapen(&rt, taken(&rt, &out, n))?;
    }
    let mut out = [0u8; ROOM];
    let n = release_of(&rt, &mut out, head, 6)?;
    misshapen(&rt, taken(&rt, &out, n))
}

// One seal fewer than a quorum's, and one more.
#[test]
fn locks_of_other_counts(rt: HostRuntime) -> Result<(), Fail> {
    let votes = [0, 1, 2, 3].try_map(vote_of)?;
    let own = seal_of(2, b'A')?;
    for some in [&votes[..2], &votes[..4]] {
        let mut out = [0u8; ROOM];
        let n = length_of(&mut out, |out, fill| {
            write_certificate(
                out,
                fill,
                Certified::Lock,
                head_at(2, 5, 3),
                &slip_with(0x22),
                &own,
                some,
            )
        })?;
        misshapen(&rt, taken(&rt, &out, n))?;
    }
    Ok(())
}

// The lengths of written messages: four members with seals of 8 bytes.
#[test]
fn lengths_of_four(rt: HostRuntime) -> Result<(), Fail> {
    let mut out = [0u8; ROOM];
    let head = head_at(2, 5, 3);
    assert_eq!(rt; written(&rt, &mut out, Kind::Change, head)?, 112);
    assert_eq!(rt; written(&rt, &mut out, Kind::Commit, head)?, 100);
    assert_eq!(rt; written(&rt, &mut out, Kind::Lock, head)?, 136);
    assert_eq!(rt; written(&rt, &mut out, Kind::Release, head)?, 164);
    let a = seal_of(2, b'A')?;
    let b = seal_of(2, b'B')?;
    let n = length_of(&mut out, |out, fill| {
        write_change(out, fill, head, &None, &a, &b)
    })?;
    assert_eq!(rt; n, 36);
    match FOUR.parse(taken(&rt, &out, 36))?.holds {
        Holds::Change { page, rchg, cand } => {
            assert!(rt; page.is_none());
            is_part(&rt, rchg, 20, 2, b'A')?;
            is_part(&rt, cand, 28, 2, b'B')
        }
        _ => Err(Fail::new("another kind")),
    }
}

// The lengths of written messages: ten members with seals of 80 bytes.
#[test]
fn lengths_of_ten(rt: HostRuntime) -> Result<(), Fail> {
    let seal = Seal::new(&[7; 80]).ok_or("a seal has 1 to 80 bytes")?;
    let votes = [0, 1, 3, 4, 6, 8, 9].map(|member| Vote {
        member: Member(member),
        seal,
    });
    let mut lock = [0u8; 1024];
    let n = length_of(&mut lock, |out, fill| {
        write_certificate(
            out,
            fill,
            Certified::Lock,
            head_at(8, 5, 3),
            &slip_with(0x22),
            &seal,
            &votes,
        )
    })?;
    assert_eq!(rt; n, 760);
    let inner = taken(&rt, &lock, 760);
    let mut out = [0u8; 1024];
    let n = length_of(&mut out, |out, fill| {
        write_release(out, fill, head_at(2, 5, 4), inner, &seal)
    })?;
    assert_eq!(rt; n, 860);
    let ten = Format {
        pool: Pool::Ten,
        seal_len: 80,
    };
    let m = ten.parse(taken(&rt, &out, 860))?;
    is_head(&rt, m.head, 2, 5, 4);
    Ok(())
}

// An outbox of 107 bytes and a commit of 100: it fits after a fill of up to 7, and after no other.
#[test]
fn fills(rt: HostRuntime) -> Result<(), Fail> {
    let head = head_at(2, 5, 3);
    let seal = seal_of(2, b'A')?;
    for start in [0usize, 7, 8, 107, 108, usize::MAX] {
        let mut out = [0xffu8; 107];
        let mut fill = Fill { len: start };
        match write_commit(&mut out, &mut fill, head, &slip_with(0x22), &seal) {
            Ok(()) => {
                assert!(rt; start <= 7);
                assert_eq!(rt; fill.len, start + 100);
                assert!(rt; taken(&rt, &out, start) == taken(&rt, &[0xff; 107], start));
                let _ = FOUR.parse(&out[start..start + 100])?;
            }
            Err(refusal) => {
                assert!(rt; start > 7);
                assert_eq!(rt; refusal.number(), 13);
                assert_eq!(rt; fill.len, start);
                assert!(rt; out == [0xff; 107]);
            }
        }
    }
    Ok(())
}

// A draft that is let go gives the fill back, one that is finished keeps it.
#[test]
fn drafts(rt: HostRuntime) {
    let mut out = [0u8; 16];
    let mut fill = Fill { len: 5 };
    {
        let mut draft = Draft::begin(&mut fill);
        draft.fill().add(&mut out, b"gone");
    }
    assert_eq!(rt; fill.len, 5);
    let mut draft = Draft::begin(&mut fill);
    draft.fill().add(&mut out, b"kept");
    draft.fill().add(&mut out, b"too long for it");
    draft.finish();
    assert_eq!(rt; fill.len, 9);
    assert!(rt; taken(&rt, &out, 10) == b"\0\0\0\0\0kept\0".as_slice());
}

// Of two locks the one of the higher round, the kept one on equal rounds; 1 where either is no lock.
#[test]
fn higher_locks(rt: HostRuntime) -> Result<(), Fail> {
    let mut low = [0u8; ROOM];
    let mut high = [0u8; ROOM];
    let mut same = [0u8; ROOM];
    let n = lock_by(&mut low, head_at(1, 5, 0), 0x22, [0, 1, 3])?;
    let _ = lock_by(&mut high, head_at(2, 6, 1), 0x33, [0, 1, 2])?;
    let _ = lock_by(&mut same, head_at(3, 7, 0), 0x44, [1, 2, 3])?;
    compared(
        &rt,
        taken(&rt, &low, n),
        taken(&rt, &high, n),
        taken(&rt, &same, n),
    )
}

fn compared(rt: &impl Abort, low: &[u8], high: &[u8], same: &[u8]) -> Result<(), Fail> {
    handed_on(rt, low, high, high)?;
    handed_on(rt, high, low, high)?;
    handed_on(rt, low, same, low)?;
    handed_on(rt, same, low, same)?;
    not_compared(rt, low, taken(rt, high, 135))?;
    not_compared(rt, taken(rt, low, 135), high)
}

fn handed_on(rt: &impl Abort, kept: &[u8], received: &[u8], higher: &[u8]) -> Result<(), Fail> {
    let lock = FOUR.higher_lock(kept, received)?;
    assert!(rt; lock == higher);
    Ok(())
}

fn not_compared(rt: &impl Abort, kept: &[u8], received: &[u8]) -> Result<(), Fail> {
    let refused = FOUR.higher_lock(kept, received).err();
    assert_eq!(rt; refused.map(Refusal::number), Some(1));
    Ok(())
}
