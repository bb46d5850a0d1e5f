// The drafts that a replica and a leader's turn send. The draft stands over the fill while its statements are sealed; where
// the sealer wears out it is withdrawn.
ghost use Rattle.std.specs.Prelude.{◌≡◌, true, false, map, length, Err};
ghost use Rattle.std.specs.Fn.{FnOnceReturnsAtMut};
ghost use Rattle.base.specs.declared.refusals.Refusal.TheVariants.{OutboxShort};
ghost use Rattle.outbox.specs.Appending.{fits};
ghost use Rattle.sending.specs.Laying.{Lays};
ghost use Rattle.base.specs.Statements.{statement_bytes};
ghost use Rattle.base.specs.Certified.{kind_of, sort_of, word_of};
ghost use Rattle.protocol.specs.Messages.{commit_draft};
ghost use Rattle.protocol.specs.Rounds.{change_draft};
ghost use Rattle.outbox.specs.Written.{signed_by, countable, measurable};
ghost use Rattle.sending.specs.Drafts.{release_for, cert_for};
ghost use Rattle.sending.specs.Sending.{Sending, StatingBoth, Unlaid, one_seal, two_seals};

use base::certified::Certified;
use base::refusals::Refusal;
use base::seals::{Seal, Vote};
use base::slips::Slip;
use base::statements::{Statement, Word};
use message::shapes::Head;
use outbox::drafts::{Draft, Fill};
use outbox::layouts::{
    LONGEST_LOCK, MOST_VOTES, lay_certificate, lay_change, lay_commit, lay_release, slip_room,
    votes_room,
};
use outbox::writers::has_room;
use seal::sealers::Sealer;
use seal::stating::seal_statement;

// The two seals of a change.
#[derive(Clone, Copy)]
pub struct ChangeSeals {
    pub rchg: Seal,
    pub cand: Seal,
}

// Sends a draft of that many bytes: seals what it states, then lays it out after the fill. It is withdrawn where the sealer wears
// out, and refused where there is no room for it.
fn send<S: Sealer, T, M: FnOnce(&mut S) -> Result<T, Refusal>, L: FnOnce(&mut Fill, &mut [u8], &T)>(
    sealer: &mut S,
    out: &mut [u8],
    fill: &mut Fill,
    need: usize,
    make: M,
    lay: L,
) -> Result<T, Refusal>
    requires makes { M.IsAlwaysCallable make }
    requires lays { L.IsAlwaysCallable lay }
    ensures short { fits fill.old.len need (length out.old) ≡ false → (result ≡ Err OutboxShort) × ((sealer.new ≡ sealer.old) × ((out.new ≡ out.old) × (fill.new.len ≡ fill.old.len))) }
    ensures made { fits fill.old.len need (length out.old) ≡ true → FnOnceReturnsAtMut M.FnOnce make sealer.old result sealer.new }
    ensures laid { fits fill.old.len need (length out.old) ≡ true → Lays L.FnOnce lay result fill.old.len fill.new.len out.old out.new }
{
    if !has_room(fill, out.len(), need) {
        return Err(Refusal::OutboxShort);
    }
    let mut draft = Draft::begin(fill);
    let seals = make(sealer)?;
    lay(draft.fill(), out, &seals);
    draft.finish();
    Ok(seals)
}

// A change for a round with a page or none.
pub fn send_change<S: Sealer>(
    sealer: &mut S,
    out: &mut [u8],
    fill: &mut Fill,
    head: Head,
    page: &Option<Slip>,
) -> Result<ChangeSeals, Refusal>
    ensures { Sending (S.Sealer.meaning sealer.old) (S.Sealer.meaning sealer.new) (change_draft head.sender.0 head.height.0 head.round.0 page.now) fill.old.len fill.new.len out.old out.new (two_seals result) }
{
    let need = 20 + slip_room(page) + 2 * S::seal_length();
    let changes = head.says(Word::Rchg, None);
    let stands = head.says(Word::Cand, *page);
    send(
        sealer,
        out,
        fill,
        need,
        |sealer| seal_both(sealer, &changes, &stands),
        |fill, out, seals| lay_change(fill, out, head, page, &seals.rchg, &seals.cand),
    )
}

// The seals on both statements of a change.
fn seal_both<S: Sealer>(
    sealer: &mut S,
    changes: &Statement,
    stands: &Statement,
) -> Result<ChangeSeals, Refusal>
    ensures { StatingBoth (S.Sealer.meaning sealer.old) (statement_bytes changes.now) (statement_bytes stands.now) result (S.Sealer.meaning sealer.new) }
{
    let rchg = seal_statement(sealer, changes)?;
    let cand = seal_statement(sealer, stands)?;
    Ok(ChangeSeals { rchg, cand })
}

// A commit to a slip.
pub fn send_commit<S: Sealer>(
    sealer: &mut S,
    out: &mut [u8],
    fill: &mut Fill,
    head: Head,
    slip: &Slip,
) -> Result<Seal, Refusal>
    ensures { Sending (S.Sealer.meaning sealer.old) (S.Sealer.meaning sealer.new) (commit_draft head.sender.0 head.height.0 head.round.0 slip.now) fill.old.len fill.new.len out.old out.new (one_seal result) }
{
    let need = 20 + slip.size() + S::seal_length();
    let stated = head.says(Word::Cmit, Some(*slip));
    send(
        sealer,
        out,
        fill,
        need,
        |sealer| seal_statement(sealer, &stated),
        |fill, out, seal| lay_commit(fill, out, head, slip, seal),
    )
}

// A release of a lock message on a slip. More than 65,535 bytes are refused; no lock message has as many.
pub fn send_release<S: Sealer>(
    sealer: &mut S,
    out: &mut [u8],
    fill: &mut Fill,
    head: Head,
    slip: &Slip,
    lock: &[u8],
) -> Result<Seal, Refusal>
    ensures sent { measurable lock.now ≡ true → Sending (S.Sealer.meaning sealer.old) (S.Sealer.meaning sealer.new) (release_for head slip.now lock.now) fill.old.len fill.new.len out.old out.new (one_seal result) }
    ensures unlaid { measurable lock.now ≡ false → Unlaid (S.Sealer.meaning sealer.old) (S.Sealer.meaning sealer.new) fill.old.len fill.new.len out.old out.new (one_seal result) }
{
    if lock.len() > LONGEST_LOCK {
        return Err(Refusal::Misshapen);
    }
    let need = 20 + lock.len() + S::seal_length();
    let stated = head.says(Word::Rlse, Some(*slip));
    send(
        sealer,
        out,
        fill,
        need,
        |sealer| seal_statement(sealer, &stated),
        |fill, out, seal| lay_release(fill, out, head, lock, seal),
    )
}

// A lock, select or decide on a slip over the votes. More than 253 are refused.
pub fn send_certificate<S: Sealer>(
    sealer: &mut S,
    out: &mut [u8],
    fill: &mut Fill,
    certified: Certified,
    head: Head,
    slip: &Slip,
    votes: &[Vote],
) -> Result<Seal, Refusal>
    ensures sent { countable votes.now ≡ true → Sending (S.Sealer.meaning sealer.old) (S.Sealer.meaning sealer.new) (cert_for head (kind_of certified) (sort_of certified) (word_of certified) slip.now (map signed_by votes.now)) fill.old.len fill.new.len out.old out.new (one_seal result) }
    ensures unlaid { countable votes.now ≡ false → Unlaid (S.Sealer.meaning sealer.old) (S.Sealer.meaning sealer.new) fill.old.len fill.new.len out.old out.new (one_seal result) }
{
    if votes.len() > MOST_VOTES {
        return Err(Refusal::Misshapen);
    }
    let need = 20 + slip.size() + S::seal_length() + votes_room(votes);
    let stated = head.says(certified.word(), Some(*slip));
    let (kind, sort) = (certified.kind(), certified.sort().number());
    send(
        sealer,
        out,
        fill,
        need,
        |sealer| seal_statement(sealer, &stated),
        |fill, out, own| lay_certificate(fill, out, kind, sort, head, slip, own, votes),
    )
}
