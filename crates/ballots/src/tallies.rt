// Counting records, and the votes of the lowest members.
ghost use Rattle.std.specs.Prelude.{◌≡◌, ℕ, ◌≤◌, Bool, List, map, length, take, if◌then◌else◌, Some, None};
ghost use Rattle.std.specs.Option.{option_map};
ghost use Rattle.base.specs.Bounded.{items};
ghost use Rattle.base.specs.Seals.{seal_bytes};
ghost use Rattle.outbox.specs.Written.{signed_by};
ghost use Rattle.protocol.specs.State.{tally};
ghost use Rattle.protocol.specs.Turns.{votes_from};

use base::bounded::Bounded;
use base::counters::Member;
use base::seals::{Seal, Vote};

// A record of a member, which may be for what is asked, and holds the member's seal then.
pub trait Ballot<Q> {
    // whether the record is for what is asked
    ghost backed: { Self → Q → Bool };

    // the bytes of its seal, where it is
    ghost given: { Self → Q → List ℕ };

    fn backs(&self, asked: &Q) -> bool
        ensures { result ≡ backed self.now asked.now };

    fn seal(&self, asked: &Q) -> Option<Seal>
        ensures { option_map seal_bytes result ≡ (if backed self.now asked.now then Some (given self.now asked.now) else None) };
}

// How many records are for what is asked.
pub fn count<Q, B: Ballot<Q>>(records: &[B], asked: &Q) -> usize
    ensures { result ≡ tally (λ b. B.backed b asked.now) records.now }
{
    records.iter().filter(|record| record.backs(asked)).count()
}

// The votes of the lowest members whose records are for what is asked, a quorum at most, as far as there is room; record i
// is of member i. `blank` stands in every place that is left.
pub fn lowest<Q, B: Ballot<Q>, const N: usize>(
    records: &[B],
    asked: &Q,
    quorum: usize,
    blank: Vote,
) -> Bounded<Vote, N>
    ensures within { length (items result) ≤ N }
    ensures votes { quorum ≤ N → length records.now ≤ 256 → map signed_by (items result) ≡ take quorum (votes_from (λ b. B.backed b asked.now) (λ b. B.given b asked.now) 0 records.now) }
{
    let mut votes = Bounded::empty(blank);
    for (record, member) in records.iter().zip(0..=255u8) {
        if votes.as_slice().len() >= quorum {
            return votes;
        }
        if let Some(seal) = record.seal(asked) {
            votes.push(Vote {
                member: Member(member),
                seal,
            });
        }
    }
    votes
}
