// The writers: each appends one message of its kind after the fill, or refuses and changes nothing.
ghost use Rattle.std.specs.Prelude.{◌≡◌, ℕ, true, false, cond, length, List};
ghost use Rattle.base.specs.Seals.{seal_bytes};
ghost use Rattle.message.specs.Contents.{Locked, change, commit, release};
ghost use Rattle.message.specs.Encoding.{encoded};
ghost use Rattle.outbox.specs.Appending.{fits, Appended};
ghost use Rattle.base.specs.declared.refusals.Refusal.TheVariants.{OutboxShort};
ghost use Rattle.outbox.specs.Laying.{LaysAt};
ghost use Rattle.outbox.specs.Written.{sent, measurable, countable, cert_with, certifying};

use crate::drafts::{Draft, Fill};
use crate::layouts::{
    LONGEST_LOCK, MOST_VOTES, lay_certificate, lay_change, lay_commit, lay_release, slip_room,
    votes_room,
};
use base::certified::Certified;
use base::refusals::Refusal;
use base::seals::{Seal, Vote};
use base::slips::Slip;
use message::shapes::Head;

// Whether a message of that many bytes fits after the fill. Any fill is safe, one past the end of the outbox too.
pub fn has_room(fill: &Fill, size: usize, need: usize) -> bool
    ensures { result ≡ fits fill.now.len need size }
{
    fill.len <= size && need <= size - fill.len
}

// Appends what is laid out after the fill, a message of that many bytes; refuses where there is no room for it.
fn append<L: FnOnce(&mut Fill, &mut [u8])>(
    out: &mut [u8],
    fill: &mut Fill,
    need: usize,
    lay: L,
) -> Result<(), Refusal>
    requires { L.IsAlwaysCallable lay }
    ensures answer { result ≡ cond (fits fill.old.len need (length out.old)) (Ok tt) (Err OutboxShort) }
    ensures short { fits fill.old.len need (length out.old) ≡ false → (out.new ≡ out.old) × (fill.new.len ≡ fill.old.len) }
    ensures laid { fits fill.old.len need (length out.old) ≡ true → LaysAt L.FnOnce lay fill.old.len fill.new.len out.old out.new }
{
    if !has_room(fill, out.len(), need) {
        return Err(Refusal::OutboxShort);
    }
    let mut draft = Draft::begin(fill);
    lay(draft.fill(), out);
    draft.finish();
    Ok(())
}

// Appends a change: slip unless none, the sender's seals on the round change and on the candidate.
pub fn write_change(
    out: &mut [u8],
    fill: &mut Fill,
    head: Head,
    page: &Option<Slip>,
    rchg: &Seal,
    cand: &Seal,
) -> Result<(), Refusal>
    ensures { Appended true (encoded (sent head (change page.now (seal_bytes rchg.now) (seal_bytes cand.now)))) fill.old.len fill.new.len out.old out.new result }
{
    let need = 20 + slip_room(page) + rchg.as_slice().len() + cand.as_slice().len();
    append(out, fill, need, |fill, out| {
        lay_change(fill, out, head, page, rchg, cand)
    })
}

// Appends a commit: slip, the sender's seal on it.
pub fn write_commit(
    out: &mut [u8],
    fill: &mut Fill,
    head: Head,
    slip: &Slip,
    seal: &Seal,
) -> Result<(), Refusal>
    ensures { Appended true (encoded (sent head (commit slip.now (seal_bytes seal.now)))) fill.old.len fill.new.len out.old out.new result }
{
    let need = 20 + slip.size() + seal.as_slice().len();
    append(out, fill, need, |fill, out| {
        lay_commit(fill, out, head, slip, seal)
    })
}

// Appends a release: a whole lock message, whatever it says, and the sender's own seal.
pub fn write_release(
    out: &mut [u8],
    fill: &mut Fill,
    head: Head,
    lock: &[u8],
    own: &Seal,
) -> Result<(), Refusal>
    ensures { (inner : Locked (List ℕ)) → Appended (measurable lock.now) (encoded (sent head (release lock.now inner (seal_bytes own.now)))) fill.old.len fill.new.len out.old out.new result }
{
    if lock.len() > LONGEST_LOCK {
        return Err(Refusal::Misshapen);
    }
    let need = 20 + lock.len() + own.as_slice().len();
    append(out, fill, need, |fill, out| {
        lay_release(fill, out, head, lock, own)
    })
}

// Appends a lock, select or decide: slip, the sender's own seal, the quorum's seals of its sort.
pub fn write_certificate(
    out: &mut [u8],
    fill: &mut Fill,
    certified: Certified,
    head: Head,
    slip: &Slip,
    own: &Seal,
    votes: &[Vote],
) -> Result<(), Refusal>
    ensures { Appended (countable votes.now) (encoded (sent head (certifying certified (cert_with slip.now own.now votes.now)))) fill.old.len fill.new.len out.old out.new result }
{
    if votes.len() > MOST_VOTES {
        return Err(Refusal::Misshapen);
    }
    let need = 20 + slip.size() + own.as_slice().len() + votes_room(votes);
    let (kind, sort) = (certified.kind(), certified.sort().number());
    append(out, fill, need, |fill, out| {
        lay_certificate(fill, out, kind, sort, head, slip, own, votes)
    })
}
