// The leader's records of commits.
ghost use Rattle.std.specs.Prelude.{◌≡◌, ◌<◌, ◌≤◌, ◌++◌, length, drop, replicate, None};
ghost use Rattle.protocol.specs.Turns.{commits_to, commit_of, noted};
ghost use Rattle.ballots.specs.Views.{committed, commit_view, records_view};

use crate::tallies::Ballot;
use base::counters::Member;
use base::seals::Seal;
use base::slips::Slip;

// A commit: the page, and the member's seal on it.
#[derive(Clone, Copy)]
pub struct Commit {
    pub page: Slip,
    pub seal: Seal,
}

// A member's place in the leader's records: a commit, or blank.
// Kept: a rule of the project: records are structs that the caller lends as a slice, each a commit or blank.
#[derive(Clone, Copy)]
pub struct CommitRecord {
    pub commit: Option<Commit>,
}

impl CommitRecord {
    pub fn blank() -> CommitRecord
        ensures { commit_view result ≡ None }
    {
        CommitRecord { commit: None }
    }
}

// A record is for the slip that its commit is to.
impl Ballot<Slip> for CommitRecord {
    ghost backed = { λ c s. commits_to s (commit_view c) };

    ghost given = { λ c _. commit_of (commit_view c) };

    fn backs(&self, asked: &Slip) -> bool {
        self.commit
            .as_ref()
            .is_some_and(|commit| commit.page == *asked)
    }

    fn seal(&self, asked: &Slip) -> Option<Seal> {
        self.commit
            .as_ref()
            .filter(|commit| commit.page == *asked)
            .map(|commit| commit.seal)
    }
}

// Blanks the first n records; nothing where there are fewer.
pub fn blank(records: &mut [CommitRecord], n: usize)
    ensures blanked { n ≤ length records.old → records_view records.new ≡ replicate n None ++ drop n (records_view records.old) }
    ensures kept { length records.old < n → records_view records.new ≡ records_view records.old }
{
    if n <= records.len() {
        records[..n].fill(CommitRecord::blank());
    }
}

// Keeps the commit in its member's record, unless that reads as the page already; nothing where there is no such record.
// Kept: the write is by index, since after `get_mut` of a slice only the length is known.
#[tactic(auto, using(crate::proofs::Placing::noted_new))]
pub fn note(records: &mut [CommitRecord], member: Member, commit: Commit, page: &Slip)
    ensures { records_view records.new ≡ noted page.now member.0 (committed commit) (records_view records.old) }
{
    let i = member.0 as usize;
    if i < records.len() && !records[i].backs(page) {
        records[i] = CommitRecord {
            commit: Some(commit),
        };
    }
}
