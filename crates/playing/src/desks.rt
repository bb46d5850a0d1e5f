// A desk: the replicas of a pool, and every message that was written. Nothing is delivered but by a call.
use crate::faults::Fault;
use crate::looks::{Counts, Look, Told};
use crate::seats::{Answered, Seat};
use base::slips::{Mark, Slip};
use holding::settings::Settings;
use outbox::drafts::Fill;
use seal::sealers::Sealer;
use std::alloc::Global;

const ROOM: usize = 1024;

#[derive(Drop)]
pub struct Desk<S> {
    heap: Global,
    seats: Vec<Seat<S>>,
    messages: Vec<Vec<u8>>,
    // how many bytes of a lent outbox are taken beforehand
    taken: usize,
    counts: Counts,
}

// The message of that index.
fn message(messages: &[Vec<u8>], index: usize) -> Result<&[u8], Fault> {
    let message = messages.get(index).ok_or(Fault::NoMessage)?;
    Ok(message.as_slice())
}

impl<S: Sealer + Drop> Desk<S> {
    // An empty desk, which lends outboxes of 1,024 bytes.
    pub fn new(heap: Global) -> Desk<S> {
        Desk {
            heap,
            seats: Vec::new(heap),
            messages: Vec::new(heap),
            taken: 0,
            counts: Counts::default(),
        }
    }

    // Opens a replica at the next seat.
    pub fn add(&mut self, settings: Settings, sealer: S) -> Result<(), Fault> {
        self.seats.push(Seat::new(settings, sealer))?;
        Ok(())
    }

    // Puts a message that was made elsewhere among those that were written; gives its index.
    pub fn post(&mut self, message: &[u8]) -> Result<usize, Fault> {
        let index = self.messages.len();
        self.messages.push(message.to_vec(self.heap)?)?;
        Ok(index)
    }

    fn seat(&self, member: usize) -> Result<&Seat<S>, Fault> {
        self.seats.get(member).ok_or(Fault::NoMember)
    }

    fn seat_mut(&mut self, member: usize) -> Result<&mut Seat<S>, Fault> {
        self.seats.get_mut(member).ok_or(Fault::NoMember)
    }

    // One call at a member's seat, which is lent the messages and an outbox: it is counted, and what it wrote is kept.
    fn call<F>(&mut self, member: usize, ask: F) -> Result<Told, Fault>
    where
        F: FnOnce(&mut Seat<S>, &[Vec<u8>], &mut [u8], &mut Fill) -> Answered,
        requires { F.IsAlwaysCallable ask }
    {
        let seat = self.seats.get_mut(member).ok_or(Fault::NoMember)?;
        let start = self.taken;
        let mut out = [0u8; ROOM];
        let mut fill = Fill { len: start };
        let answer = ask(seat, self.messages.as_slice(), &mut out, &mut fill)?;
        let wrote = match out.get(start..fill.len) {
            Some(bytes) if !bytes.is_empty() => Some(self.post(bytes)?),
            _ => None,
        };
        let told = Told { answer, wrote };
        self.counts.note(&told);
        Ok(told)
    }

    pub fn offer(&mut self, member: usize, slip: &Slip) -> Result<Told, Fault> {
        self.call(member, |seat, _, _, _| Ok(seat.replica.offer(slip)))
    }

    pub fn begin(&mut self, member: usize) -> Result<Told, Fault> {
        self.call(
            member,
            |seat, _, out, fill| Ok(seat.replica.begin(out, fill)),
        )
    }

    pub fn tick(&mut self, member: usize, ticks: u32) -> Result<Told, Fault> {
        self.call(
            member,
            |seat, _, out, fill| Ok(seat.replica.tick(ticks, out, fill)),
        )
    }

    // A member takes the message of that index.
    pub fn take(&mut self, member: usize, index: usize) -> Result<Told, Fault> {
        let _ = self.message(index)?;
        self.call(member, |seat, messages, out, fill| {
            Ok(seat.replica.take(message(messages, index)?, out, fill))
        })
    }

    // A member opens its turn; one that it had is let go.
    pub fn open_turn(&mut self, member: usize) -> Result<Told, Fault> {
        self.call(member, |seat, _, _, _| Ok(seat.open_turn()))
    }

    pub fn put_forward(&mut self, member: usize) -> Result<Told, Fault> {
        self.call(member, |seat, _, out, fill| seat.put_forward(out, fill))
    }

    // A member gives the message of that index to its turn.
    pub fn take_commit(&mut self, member: usize, index: usize) -> Result<Told, Fault> {
        let _ = self.message(index)?;
        self.call(member, |seat, messages, _, _| {
            seat.take_commit(message(messages, index)?)
        })
    }

    pub fn close(&mut self, member: usize) -> Result<Told, Fault> {
        self.call(member, |seat, _, out, fill| seat.close(out, fill))
    }

    // From now on so many bytes are left in a lent outbox, 1,024 at most.
    pub fn lend_room(&mut self, room: usize) {
        self.taken = ROOM.saturating_sub(room);
    }

    // Lends so many of ten records to the member's turn from now on.
    pub fn lend_records(&mut self, member: usize, lent: usize) -> Result<(), Fault> {
        self.seat_mut(member)?.lent = lent;
        Ok(())
    }

    // Hands the turn of one member to another, whose own is let go.
    pub fn hand_turn(&mut self, from: usize, to: usize) -> Result<(), Fault> {
        let turn = self.seat_mut(from)?.turn.take();
        self.seat_mut(to)?.turn = turn;
        Ok(())
    }

    pub fn look(&self, member: usize) -> Result<Look, Fault> {
        Ok(self.seat(member)?.look())
    }

    pub fn last_mark(&self, member: usize) -> Result<Mark, Fault> {
        Ok(self.seat(member)?.replica.last_mark())
    }

    pub fn is_leader(&self, member: usize) -> Result<bool, Fault> {
        Ok(self.seat(member)?.replica.is_leader())
    }

    // The bytes of the message of that index.
    pub fn message(&self, index: usize) -> Result<&[u8], Fault> {
        message(self.messages.as_slice(), index)
    }

    // How many replicas there are.
    pub fn size(&self) -> usize {
        self.seats.len()
    }

    // How many messages were written or posted.
    pub fn written(&self) -> usize {
        self.messages.len()
    }

    pub fn counts(&self) -> Counts {
        self.counts
    }
}
