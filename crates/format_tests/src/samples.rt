// The messages that the tests write, of a pool of four with seals of 8 bytes.
use base::certified::Certified;
use base::counters::{Height, Member, Round};
use base::pools::Pool;
use base::refusals::Refusal;
use base::seals::{Seal, Vote};
use base::slips::{Mark, Slip};
use base::stages::Kind;
use message::parsing::Format;
use message::shapes::Head;
use outbox::drafts::Fill;
use outbox::writers::{write_certificate, write_change, write_commit, write_release};
use std::process::Abort;
use std::test::Fail;

// How large the tests' outboxes are.
pub const ROOM: usize = 256;

// Four members, and seals of 8 bytes.
pub const FOUR: Format = Format {
    pool: Pool::Four,
    seal_len: 8,
};

// Until there are sealers, a seal is the member's number, a letter and six zero bytes.
pub fn seal_of(member: u8, letter: u8) -> Result<Seal, Fail> {
    Ok(Seal::new(&[member, letter, 0, 0, 0, 0, 0, 0]).ok_or("a seal has 1 to 80 bytes")?)
}

pub fn vote_of(member: u8) -> Result<Vote, Fail> {
    Ok(Vote {
        member: Member(member),
        seal: seal_of(member, b'V')?,
    })
}

pub fn slip_with(own: u8) -> Slip {
    Slip {
        parent: Mark([0x11; 32]),
        own: Mark([own; 32]),
        lots: 7,
        maker: 2,
    }
}

pub fn head_at(sender: u8, height: u32, round: u32) -> Head {
    Head {
        sender: Member(sender),
        height: Height(height),
        round: Round(round),
    }
}

// The bytes that are taken of an outbox.
pub fn taken<'a>(rt: &impl Abort, out: &'a [u8], len: usize) -> &'a [u8] {
    assert!(rt; len <= out.len());
    &out[0..len]
}

// What a writer appends to an empty outbox; gives back its length.
pub(crate) fn length_of<F>(out: &mut [u8], write: F) -> Result<usize, Fail>
where
    F: FnOnce(&mut [u8], &mut Fill) -> Result<(), Refusal>,
    requires { F.IsAlwaysCallable write }
{
    let mut fill = Fill { len: 0 };
    write(out, &mut fill)?;
    Ok(fill.len)
}

// A lock of that height and round with the seals of three members in that order; gives back its length.
pub fn lock_by(out: &mut [u8], head: Head, own: u8, members: [u8; 3]) -> Result<usize, Fail> {
    certificate(out, Certified::Lock, head, own, members)
}

fn certificate(
    out: &mut [u8],
    certified: Certified,
    head: Head,
    own: u8,
    members: [u8; 3],
) -> Result<usize, Fail> {
    let votes = members.try_map(vote_of)?;
    let slip = slip_with(own);
    let seal = seal_of(head.sender.0, b'A')?;
    length_of(out, |out, fill| {
        write_certificate(out, fill, certified, head, &slip, &seal, &votes)
    })
}

// A release of a lock of that height; gives back its length.
pub fn release_of(rt: &impl Abort, out: &mut [u8], head: Head, height: u32) -> Result<usize, Fail> {
    let mut inner = [0u8; ROOM];
    let n = lock_by(&mut inner, head_at(1, height, 9), 0x22, [0, 1, 3])?;
    let lock = taken(rt, &inner, n);
    let seal = seal_of(head.sender.0, b'A')?;
    length_of(out, |out, fill| write_release(out, fill, head, lock, &seal))
}

// A message of that kind, well written; gives back its length.
pub fn written(rt: &impl Abort, out: &mut [u8], kind: Kind, head: Head) -> Result<usize, Fail> {
    let a = seal_of(head.sender.0, b'A')?;
    let b = seal_of(head.sender.0, b'B')?;
    let slip = slip_with(0x22);
    match kind {
        Kind::Change => length_of(out, |out, fill| {
            write_change(out, fill, head, &Some(slip), &a, &b)
        }),
        Kind::Lock => lock_by(out, head, 0x22, [0, 1, 3]),
        Kind::Select => certificate(out, Certified::Select, head, 0x22, [0, 1, 3]),
        Kind::Commit => length_of(out, |out, fill| write_commit(out, fill, head, &slip, &a)),
        Kind::Decide => certificate(out, Certified::Decide, head, 0x22, [0, 1, 3]),
        Kind::Release => release_of(rt, out, head, head.height.0),
    }
}

// Reading refuses with 1.
pub fn misshapen(rt: &impl Abort, message: &[u8]) -> Result<(), Fail> {
    let refused = FOUR.parse(message).err();
    assert_eq!(rt; refused.map(Refusal::number), Some(1));
    Ok(())
}
