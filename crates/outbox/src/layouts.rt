// Laying a message out after the fill, piece by piece. Where it fits there it stands, whole.
ghost use Rattle.std.specs.Prelude.{◌≡◌, ℕ, ◌+◌, ◌*◌, ◌≤◌, true, List, [], ◌∷◌, length};
ghost use Rattle.base.specs.Kinds.{kind_number};
ghost use Rattle.base.specs.Seals.{seal_bytes};
ghost use Rattle.message.specs.Contents.{Locked, change, commit, release};
ghost use Rattle.message.specs.Encoding.{block, encoded, framed, cert_blocks, page_blocks, table, bodies};
ghost use Rattle.outbox.specs.Appending.{Adds};
ghost use Rattle.outbox.specs.Written.{sent, countable, cert_with, seals_length, slip_length, vote_blocks};

use crate::drafts::{Fill, add_entry, add_header, add_row, add_slip};
use base::counters::Member;
use base::seals::{Seal, Vote};
use base::slips::Slip;
use base::stages::{Kind, Sort};
use message::shapes::Head;

// How many votes a message may hold: its table of contents counts its bodies in one byte, the slip and the own seal among them.
pub const MOST_VOTES: usize = 253;

// How long a lock message in a release may be: its length stands in two bytes.
pub const LONGEST_LOCK: usize = 65_535;

// A change: slip unless none, the sender's seals on the round change and on the candidate.
pub fn lay_change(
    fill: &mut Fill,
    out: &mut [u8],
    head: Head,
    page: &Option<Slip>,
    rchg: &Seal,
    cand: &Seal,
)
    ensures { Adds fill.old.len fill.new.len (encoded (sent head (change page.now (seal_bytes rchg.now) (seal_bytes cand.now)))) out.old out.new }
{
    let (rchg, cand) = (rchg.as_slice(), cand.as_slice());
    add_header(fill, out, Kind::Change, head, 2 + page.is_some() as u8);
    add_page_entry(fill, out, page);
    add_entry(fill, out, Sort::RoundChange, head.sender, rchg.len());
    add_entry(fill, out, Sort::Candidate, head.sender, cand.len());
    add_page(fill, out, page);
    fill.add(out, rchg);
    fill.add(out, cand);
}

// A slip's entry in the table of contents, if there is one.
fn add_page_entry(fill: &mut Fill, out: &mut [u8], page: &Option<Slip>)
    ensures { Adds fill.old.len fill.new.len (table (page_blocks page.now [])) out.old out.new }
{
    if let Some(slip) = page {
        add_entry(fill, out, Sort::Slip, Member(0), slip.size());
    }
}

// A slip's 72 bytes, if there is one.
fn add_page(fill: &mut Fill, out: &mut [u8], page: &Option<Slip>)
    ensures { Adds fill.old.len fill.new.len (bodies (page_blocks page.now [])) out.old out.new }
{
    if let Some(slip) = page {
        add_slip(fill, out, slip);
    }
}

// A commit: slip, the sender's seal on it.
pub fn lay_commit(fill: &mut Fill, out: &mut [u8], head: Head, slip: &Slip, seal: &Seal)
    ensures { Adds fill.old.len fill.new.len (encoded (sent head (commit slip.now (seal_bytes seal.now)))) out.old out.new }
{
    let seal = seal.as_slice();
    add_header(fill, out, Kind::Commit, head, 2);
    add_entry(fill, out, Sort::Slip, Member(0), slip.size());
    add_entry(fill, out, Sort::Commit, head.sender, seal.len());
    add_slip(fill, out, slip);
    fill.add(out, seal);
}

// A release: a whole lock message, whatever it says, and the sender's own seal.
pub fn lay_release(fill: &mut Fill, out: &mut [u8], head: Head, lock: &[u8], own: &Seal)
    ensures laid { Adds fill.old.len fill.new.len (framed 6 head (block 6 0 lock.now ∷ (block 5 head.sender.0 (seal_bytes own.now) ∷ []))) out.old out.new }
    ensures told { (inner : Locked (List ℕ)) → Adds fill.old.len fill.new.len (encoded (sent head (release lock.now inner (seal_bytes own.now)))) out.old out.new }
{
    let own = own.as_slice();
    add_header(fill, out, Kind::Release, head, 2);
    add_entry(fill, out, Sort::Lock, Member(0), lock.len());
    add_entry(fill, out, Sort::Own, head.sender, own.len());
    fill.add(out, lock);
    fill.add(out, own);
}

// A lock, select or decide: slip, the sender's own seal, at most 253 seals of a sort.
// Kept: any kind and the byte of any sort, of which a Certified would take three pairs only.
pub fn lay_certificate(
    fill: &mut Fill,
    out: &mut [u8],
    kind: Kind,
    sort: u8,
    head: Head,
    slip: &Slip,
    own: &Seal,
    votes: &[Vote],
)
    ensures { countable votes.now ≡ true → Adds fill.old.len fill.new.len (framed (kind_number kind) head (cert_blocks sort head (cert_with slip.now own.now votes.now))) out.old out.new }
{
    let own = own.as_slice();
    add_header(fill, out, kind, head, 2 + votes.len().min(MOST_VOTES) as u8);
    add_entry(fill, out, Sort::Slip, Member(0), slip.size());
    add_entry(fill, out, Sort::Own, head.sender, own.len());
    add_vote_entries(fill, out, sort, votes);
    add_slip(fill, out, slip);
    fill.add(out, own);
    add_vote_bodies(fill, out, votes);
}

// Kept: the byte of any sort, as the layout of a certificate takes it.
fn add_vote_entries(fill: &mut Fill, out: &mut [u8], sort: u8, votes: &[Vote])
    ensures { Adds fill.old.len fill.new.len (table (vote_blocks sort votes.now)) out.old out.new }
{
    for vote in votes {
        add_row(fill, out, sort, vote.member, vote.seal.as_slice().len());
    }
}

fn add_vote_bodies(fill: &mut Fill, out: &mut [u8], votes: &[Vote])
    ensures { (sort : ℕ) → Adds fill.old.len fill.new.len (bodies (vote_blocks sort votes.now)) out.old out.new }
{
    for vote in votes {
        fill.add(out, vote.seal.as_slice());
    }
}

// How many bytes the slip of a change takes, with its entry in the table of contents.
pub fn slip_room(page: &Option<Slip>) -> usize
    ensures room { result ≡ slip_length page.now }
    ensures small { result ≤ 76 }
{
    page.map_or(0, |slip| 4 + slip.size())
}

// How many bytes at most 253 votes take, with their entries in the table of contents.
pub fn votes_room(votes: &[Vote]) -> usize
    ensures room { countable votes.now ≡ true → result ≡ 4 * length votes.now + seals_length votes.now }
    ensures small { result ≤ 84 * 253 }
{
    let few = &votes[..votes.len().min(MOST_VOTES)];
    4 * few.len() + seals_len(few)
}

// How many bytes the seals of at most 253 votes have together.
fn seals_len(votes: &[Vote]) -> usize
    requires { length votes.now ≤ 253 }
    ensures sum { result ≡ seals_length votes.now }
    ensures small { result ≤ 80 * 253 }
{
    votes.iter().map(|vote| vote.seal.as_slice().len()).sum()
}
