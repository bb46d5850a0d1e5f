// Reading a whole message.
ghost use Rattle.std.specs.Prelude.{◌≡◌, ◌&&◌, false, length, IfSome, MatchOption, ◌==◌, nat_le};
ghost use Rattle.std.specs.Option.{option_map, ok_or};
ghost use Rattle.base.specs.Pools.{quorum};
ghost use Rattle.base.specs.Sorts.{sort_number};
ghost use Rattle.base.specs.declared.refusals.Refusal.TheVariants.{Misshapen};
ghost use Rattle.message.specs.Layout.{opens, left, whole};
ghost use Rattle.message.specs.RoundTrip.{RoundTrip};
ghost use Rattle.message.specs.Shapes.{take_slip, take_seal, take_page, rising, cert_of, commit_of, change_of, head_of, in_range, lock_of, take_lock, release_of, content_of, parsed};
ghost use Rattle.message.specs.Steps.{Found, Nexted, Took, OpenedAs};
ghost use Rattle.message.specs.Views.{entry_of, piece_of, place_of, cert_view, lock_view, inner_view, holds_view, shown};
ghost use Rattle.message.specs.Wholes.{WholeCert, WholeLock, WholeOption, WholeAnswer};

use crate::readers::{Body, Part, Reader};
use crate::shapes::{Certificate, Head, Holds, LockMessage, Message};
use base::counters::{Height, Member, Round};
use base::pools::Pool;
use base::refusals::Refusal;
use base::slips::Slip;
use base::stages::{Kind, Sort};
use base::writing::four_at;

// What has to be known to read a message: the pool's size and the length of its seals.
#[derive(Clone, Copy, PartialEq, Eq, Debug)]
pub struct Format {
    pub pool: Pool,
    pub seal_len: usize,
}

// The next body, by what is left after it.
// Kept: beside the reader's own `next`, whose clauses say where it stands, and not what is left; tried, the iterator's alone did not close.
#[tactic(auto, using(crate::proofs::Reading::nexted))]
pub fn body<'a>(reader: &mut Reader<'a>) -> Option<Body<'a>>
    ensures { Nexted (place_of reader.old) (place_of reader.new) (option_map entry_of result) }
{
    reader.next()
}

// The next body as a slip.
fn take_slip(reader: &mut Reader<'_>) -> Option<Slip>
    ensures { Took (place_of reader.old) (place_of reader.new) take_slip result }
{
    let found = body(reader)?;
    if found.sort == Sort::Slip.number() && found.member.0 == 0 {
        Slip::from_bytes(found.part.bytes)
    } else {
        None
    }
}

// The slip that a change of three bodies begins with; a shorter one names none.
fn take_page(reader: &mut Reader<'_>) -> Option<Option<Slip>>
    ensures { Took (place_of reader.old) (place_of reader.new) take_page result }
{
    if reader.remaining() != 3 {
        return Some(None);
    }
    take_slip(reader).map(Some)
}

// A lock message inside a release, with its place.
#[derive(Clone, Copy)]
struct Inner<'a> {
    part: Part<'a>,
    lock: LockMessage<'a>,
}

// A message whose header is read and whose bodies are to come.
#[derive(Clone, Copy)]
struct Opened<'a> {
    // Kept: the byte as it stands, which may be of no kind.
    kind: u8,
    head: Head,
    bodies: Reader<'a>,
}

// Reads the header; none where header or table is not there, or height or round is out of range.
fn open<'a>(message: &'a [u8]) -> Option<Opened<'a>>
    ensures { MatchOption result ((opens message.now && in_range (head_of message.now)) ≡ false) (λ x. OpenedAs message.now x.kind x.head (place_of x.bodies)) }
{
    let bodies = Reader::new(message)?;
    let head = Head {
        sender: Member(message[1]),
        height: Height(four_at(message, 4)),
        round: Round(four_at(message, 8)),
    };
    if !head.height.in_range() || !head.round.in_range() {
        return None;
    }
    Some(Opened {
        kind: message[0],
        head,
        bodies,
    })
}

impl Format {
    // Reads a message: what it says, with its parts where they stand in the message, or that it is misshapen. The law:
    // what is written of lawful fields reads back as them, no other bytes read as those fields, and what is read is lawful.
    pub fn parse<'a>(self, message: &'a [u8]) -> Result<Message<'a>, Refusal>
        ensures reads { shown result ≡ ok_or (parsed self.pool self.seal_len message.now) Misshapen }
        ensures wholes { WholeAnswer result }
        ensures law { RoundTrip }
    {
        let Opened { kind, head, bodies } = open(message).ok_or(Refusal::Misshapen)?;
        let kind = Kind::try_from(kind)?;
        let holds = self.holds(kind, bodies, head).ok_or(Refusal::Misshapen)?;
        Ok(Message { head, holds })
    }

    // Reads a lock message, alone or inside a release.
    pub fn parse_lock<'a>(self, message: &'a [u8]) -> Option<LockMessage<'a>>
        ensures reads { option_map lock_view result ≡ lock_of self.pool self.seal_len message.now }
        ensures wholes { WholeLock result }
    {
        let Opened { kind, head, bodies } = open(message)?;
        if kind != Kind::Lock.number() {
            return None;
        }
        let certificate = self.certificate(bodies, Sort::Candidate, head.sender)?;
        Some(LockMessage { head, certificate })
    }

    // The bodies, by the kind of the message.
    fn holds<'a>(self, kind: Kind, bodies: Reader<'a>, head: Head) -> Option<Holds<'a>>
        ensures reads { Found (place_of bodies.entry) (content_of kind self.pool self.seal_len head) (option_map holds_view result) }
        ensures wholes { WholeOption result }
    {
        match kind {
            Kind::Change => self.change(bodies, head.sender),
            Kind::Commit => self.commit(bodies, head.sender),
            Kind::Release => self.release(bodies, head),
            Kind::Lock => self
                .certificate(bodies, Sort::Candidate, head.sender)
                .map(Holds::Lock),
            Kind::Select => self
                .certificate(bodies, Sort::RoundChange, head.sender)
                .map(Holds::Select),
            Kind::Decide => self
                .certificate(bodies, Sort::Commit, head.sender)
                .map(Holds::Decide),
        }
    }

    // Slip unless none, the sender's seals on the round change and on the candidate.
    fn change<'a>(self, mut reader: Reader<'a>, sender: Member) -> Option<Holds<'a>>
        ensures reads { Found (place_of reader.entry) (change_of sender.0 self.seal_len) (option_map holds_view result) }
        ensures wholes { WholeOption result }
    {
        let page = take_page(&mut reader)?;
        let rchg = self.take_seal(&mut reader, Sort::RoundChange, sender)?;
        let cand = self.take_seal(&mut reader, Sort::Candidate, sender)?;
        reader
            .finished()
            .then_some(Holds::Change { page, rchg, cand })
    }

    // Slip, the sender's seal on the commit.
    fn commit<'a>(self, mut reader: Reader<'a>, sender: Member) -> Option<Holds<'a>>
        ensures reads { Found (place_of reader.entry) (commit_of sender.0 self.seal_len) (option_map holds_view result) }
        ensures wholes { WholeOption result }
    {
        let slip = take_slip(&mut reader)?;
        let seal = self.take_seal(&mut reader, Sort::Commit, sender)?;
        reader.finished().then_some(Holds::Commit { slip, seal })
    }

    // A lock message of this height and any round, the sender's own seal.
    fn release<'a>(self, mut reader: Reader<'a>, head: Head) -> Option<Holds<'a>>
        ensures reads { Found (place_of reader.entry) (release_of self.pool self.seal_len head) (option_map holds_view result) }
        ensures wholes { WholeOption result }
    {
        let Inner { part, lock } = self.take_lock(&mut reader, head.height)?;
        let own = self.take_seal(&mut reader, Sort::Own, head.sender)?;
        reader.finished().then_some(Holds::Release {
            part,
            inner: lock,
            own,
        })
    }

    // Slip, the sender's own seal, and a quorum's seals of that sort.
    fn certificate<'a>(
        self,
        mut reader: Reader<'a>,
        sort: Sort,
        sender: Member,
    ) -> Option<Certificate<'a>>
        ensures reads { Found (place_of reader.entry) (cert_of (sort_number sort) (quorum self.pool) sender.0 self.seal_len) (option_map cert_view result) }
        ensures wholes { IfSome result WholeCert }
    {
        let slip = take_slip(&mut reader)?;
        let own = self.take_seal(&mut reader, Sort::Own, sender)?;
        let votes = reader;
        let quorate = votes.remaining() == self.pool.quorum() && self.all_votes(votes, sort);
        quorate.then_some(Certificate { slip, own, votes })
    }

    // The next body as a lock message of that height.
    fn take_lock<'a>(self, reader: &mut Reader<'a>, height: Height) -> Option<Inner<'a>>
        ensures took { Took (place_of reader.old) (place_of reader.new) (take_lock self.pool self.seal_len height.0) (option_map inner_view result) }
        ensures wholes { IfSome result (λ x. WholeCert x.lock.certificate) }
    {
        let found = body(reader)?;
        if found.sort != Sort::Lock.number() || found.member.0 != 0 {
            return None;
        }
        let lock = self.parse_lock(found.part.bytes)?;
        (lock.head.height == height).then_some(Inner {
            part: found.part,
            lock,
        })
    }

    // The next body as a seal of that sort in that member's name.
    fn take_seal<'a>(self, reader: &mut Reader<'a>, sort: Sort, member: Member) -> Option<Part<'a>>
        ensures { Took (place_of reader.old) (place_of reader.new) (take_seal (sort_number sort) member.0 self.seal_len) (option_map piece_of result) }
    {
        let found = body(reader)?;
        (found.member == member && self.is_seal(&found, sort)).then_some(found.part)
    }

    // Whether all bodies that are left are seals of that sort, in rising order of their members, and nothing follows.
    fn all_votes(self, mut reader: Reader<'_>, sort: Sort) -> bool
        ensures { result ≡ (whole (place_of reader.entry) && rising (sort_number sort) self.seal_len 0 (left (place_of reader.entry))) }
    {
        let low = reader.try_fold(0, |low, found| {
            self.is_vote(&found, sort, low)
                .then_some(found.member.0 as usize + 1)
        });
        low.is_some() && reader.finished()
    }

    // Whether a body is a seal of that sort, of a member not below `low`.
    fn is_vote(self, found: &Body<'_>, sort: Sort, low: usize) -> bool
        ensures { result ≡ ((entry_of found.now).sort == sort_number sort && (nat_le low (entry_of found.now).signer && length (entry_of found.now).piece.bytes == self.seal_len)) }
    {
        low <= found.member.0 as usize && self.is_seal(found, sort)
    }

    // Whether a body is of that sort and as long as a seal.
    fn is_seal(self, found: &Body<'_>, sort: Sort) -> bool
        ensures { result ≡ ((entry_of found.now).sort == sort_number sort && length (entry_of found.now).piece.bytes == self.seal_len) }
    {
        found.sort == sort.number() && found.part.bytes.len() == self.seal_len
    }
}
