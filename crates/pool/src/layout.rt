// The wire format: one member writes, another reads.
use anyhow::Context;
use base::certified::Certified;
use base::counters::{Height, Member, Round};
use base::pools::Pool;
use base::refusals::Refusal;
use base::seals::{Seal, Vote};
use base::slips::{Mark, Slip};
use message::parsing::Format;
use message::shapes::{Certificate, Head, Holds, Message};
use outbox::drafts::Fill;
use outbox::writers::{write_certificate, write_change, write_release};

// Four members, and seals of 8 bytes.
const FORMAT: Format = Format {
    pool: Pool::Four,
    seal_len: 8,
};

// Where only the layout is shown, a seal is the member's number, the first letter of the word and six zero bytes.
fn stand_in(member: u8, letter: u8) -> anyhow::Result<Seal> {
    Seal::new(&[member, letter, 0, 0, 0, 0, 0, 0]).context("a seal has 1 to 80 bytes")
}

fn vote_of(member: u8) -> anyhow::Result<Vote> {
    Ok(Vote {
        member: Member(member),
        seal: stand_in(member, b'C')?,
    })
}

fn coffee(lots: u32, mark: u8) -> Slip {
    Slip {
        parent: Mark([0x11; 32]),
        own: Mark([mark; 32]),
        lots,
        maker: 2,
    }
}

fn show_slip(rt: &HostRuntime, slip: &Slip) -> anyhow::Result<()> {
    println!(rt;
        "    slip of {} lots by maker {}, own mark {:02x}.., on the page with mark {:02x}..",
        slip.lots, slip.maker, slip.own.0[0], slip.parent.0[0]
    )?;
    Ok(())
}

fn show_head(rt: &HostRuntime, head: &Head) -> anyhow::Result<()> {
    println!(rt;
        "    from member {}, height {}, round {}",
        head.sender.0, head.height.0, head.round.0
    )?;
    Ok(())
}

// The slip, and the quorum's seals, read one by one where they stand in the message.
fn show_certificate(rt: &HostRuntime, c: &Certificate<'_>) -> anyhow::Result<()> {
    show_slip(rt, &c.slip)?;
    for vote in c.votes {
        println!(rt;
            "    seal of member {}: {} bytes at {}",
            vote.member.0,
            vote.part.bytes.len(),
            vote.part.offset
        )?;
    }
    Ok(())
}

fn show(rt: &HostRuntime, m: &Message<'_>) -> anyhow::Result<()> {
    show_head(rt, &m.head)?;
    match m.holds {
        Holds::Change { page, rchg, cand } => {
            if let Some(slip) = page {
                show_slip(rt, &slip)?;
            }
            println!(rt;
                "    seal on the round change at {}, seal on the candidate at {}",
                rchg.offset, cand.offset
            )?;
        }
        Holds::Lock(c) | Holds::Select(c) | Holds::Decide(c) => show_certificate(rt, &c)?,
        Holds::Commit { slip, seal } => {
            show_slip(rt, &slip)?;
            println!(rt; "    seal on the commit at {}", seal.offset)?;
        }
        Holds::Release { part, inner, own } => {
            println!(rt;
                "    a lock message of {} bytes at {}, own seal at {}; the lock inside:",
                part.bytes.len(),
                part.offset,
                own.offset
            )?;
            show_head(rt, &inner.head)?;
            show_certificate(rt, &inner.certificate)?;
        }
    }
    Ok(())
}

fn read(rt: &HostRuntime, bytes: &[u8]) -> anyhow::Result<()> {
    match FORMAT.parse(bytes) {
        Ok(m) => show(rt, &m),
        Err(refusal) => {
            println!(rt; "    refused with {}", refusal.number())?;
            Ok(())
        }
    }
}

// What a writer appends to an empty outbox, as a part of it.
fn written<F>(out: &mut [u8], write: F) -> anyhow::Result<&[u8]>
where
    F: FnOnce(&mut [u8], &mut Fill) -> Result<(), Refusal>,
    requires { F.IsAlwaysCallable write }
{
    let mut fill = Fill { len: 0 };
    write(out, &mut fill)?;
    out.get(..fill.len)
        .context("the outbox does not hold the message")
}

// Member 2 writes a change.
fn a_change(out: &mut [u8]) -> anyhow::Result<&[u8]> {
    let head = Head {
        sender: Member(2),
        height: Height(5),
        round: Round(0),
    };
    let page = Some(coffee(7, 0x22));
    let rchg = stand_in(2, b'R')?;
    let cand = stand_in(2, b'C')?;
    written(out, |out, fill| {
        write_change(out, fill, head, &page, &rchg, &cand)
    })
}

// The message with one byte turned.
fn turned(rt: &HostRuntime, message: &[u8], at: usize, value: u8) -> anyhow::Result<()> {
    let mut copy = message.to_vec(rt.alloc())?;
    if let Some(byte) = copy.get_mut(at) {
        *byte = value;
    }
    read(rt, copy.as_slice())
}

// Member 0 reads a change, and then damaged copies of it.
fn read_change(rt: &HostRuntime, message: &[u8]) -> anyhow::Result<()> {
    println!(rt;
        "Member 2 writes a change for height 5, round 0: {} bytes.",
        message.len()
    )?;
    println!(rt; "Member 0 reads it:")?;
    read(rt, message)?;
    println!(rt; "The last byte is missing:")?;
    read(rt, &message[..message.len().saturating_sub(1)])?;
    println!(rt; "The height is turned to 0:")?;
    turned(rt, message, 7, 0)?;
    println!(rt; "The sender is turned to 3, but its seals still name member 2:")?;
    turned(rt, message, 1, 3)?;
    println!(rt; "A byte of a seal is turned, which is no matter of layout:")?;
    turned(rt, message, 100, 0xff)
}

// A lock on the slip by members 0, 1 and 3, sent by the leader of that round.
fn a_lock<'a>(out: &'a mut [u8], round: u32, slip: &Slip) -> anyhow::Result<&'a [u8]> {
    let height = Height(5);
    let round = Round(round);
    let sender = Pool::Four.leader(height, round);
    let head = Head {
        sender,
        height,
        round,
    };
    let votes = [0, 1, 3].try_map(vote_of)?;
    let own = stand_in(sender.0, b'L')?;
    written(out, |out, fill| {
        write_certificate(out, fill, Certified::Lock, head, slip, &own, &votes)
    })
}

// Of two locks the higher is handed on in a release, which is taken apart.
fn hand_on(rt: &HostRuntime, old: &[u8], new: &[u8]) -> anyhow::Result<()> {
    println!(rt;
        "Two locks of height 5, of rounds 0 and 3: {} bytes each.",
        old.len()
    )?;
    release(rt, FORMAT.higher_lock(old, new)?)
}

fn release(rt: &HostRuntime, lock: &[u8]) -> anyhow::Result<()> {
    let mut out = [0u8; 256];
    let head = Head {
        sender: Member(3),
        height: Height(5),
        round: Round(3),
    };
    let own = stand_in(3, b'R')?;
    let message = written(&mut out, |out, fill| {
        write_release(out, fill, head, lock, &own)
    })?;
    let n = message.len();
    println!(rt; "Member 3 hands the higher one on in a release of round 3: {n} bytes.")?;
    println!(rt; "Member 1 takes it apart:")?;
    read(rt, message)?;
    println!(rt; "With one byte more:")?;
    read(
        rt,
        out.get(..=n)
            .context("the outbox does not hold one byte more")?,
    )
}

// The walk through the wire format.
pub fn wire(rt: &HostRuntime) -> anyhow::Result<()> {
    let mut out = [0u8; 256];
    read_change(rt, a_change(&mut out)?)?;
    let mut old = [0u8; 256];
    let mut new = [0u8; 256];
    hand_on(
        rt,
        a_lock(&mut old, 0, &coffee(7, 0x22))?,
        a_lock(&mut new, 3, &coffee(9, 0x33))?,
    )
}
