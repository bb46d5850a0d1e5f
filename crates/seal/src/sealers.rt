// What the rest asks of a checker and of a sealer. All that stands above is written for any of them.
ghost use Rattle.std.specs.Prelude.{◌≡◌, ℕ, ◌≤◌, Bool, List};
ghost use Rattle.seal.specs.Meaning.{Meaning, Sealing};

use base::counters::Member;
use base::refusals::Refusal;

// Recognises seals. What it recognises never changes.
pub trait Checker {
    // whether a seal is recognised, by the member's number, the statement's bytes and the seal's bytes
    ghost recognised: { Self → ℕ → List ℕ → List ℕ → Bool };

    // how many bytes a seal of this kind has
    ghost seal_long: { ℕ };

    fn seal_length() -> usize
        ensures { result ≡ seal_long };

    // Whether the seal on the statement is recognised in the member's name.
    fn recognises(&self, member: Member, statement: &[u8], seal: &[u8]) -> bool
        ensures { result ≡ recognised self.now member.0 statement.now seal.now };

    // from 1 to 80
    ghost sizes: { (1 ≤ seal_long) × (seal_long ≤ 80) };
}

// A checker that also makes seals, in the name of one member, as long as any are left.
pub trait Sealer: Checker {
    // its number, how many seals are left, what it recognises, how long its seals are
    ghost meaning: { Self → Meaning };

    // In whose name it seals.
    fn member(&self) -> Member
        ensures { result.0 ≡ (meaning self.now).number };

    // How many seals it can still make.
    fn left(&self) -> u32
        ensures { result ≡ (meaning self.now).left };

    // Writes a seal on the statement to the front of `out`. Refused, with nothing changed, where no seal is left,
    // and else where `out` is shorter than a seal.
    fn seal(&mut self, statement: &[u8], out: &mut [u8]) -> Result<(), Refusal>
        ensures { Sealing (meaning self.old) statement.now out.old result (meaning self.new) out.new };

    // what it means to recognise is what it recognises as a checker
    ghost knows: { (s : Self) → (meaning s).knows ≡ Self.Checker.recognised s };

    ghost long: { (s : Self) → (meaning s).long ≡ Self.Checker.seal_long };
}
